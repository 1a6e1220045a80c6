//! The ports of all links, and who gets a turn.

ghost use Rattle.std.specs.Prelude.{◌≡◌, ◌<◌, ◌-◌, [], ◌∷◌, ◌++◌, true, false, Some, length, take, slice_get, vec_capacity, IfOk, OnOk, OnErr};
ghost use Rattle.ipc_loop.specs.Ports.{new_port, has_work, how_many_open};
ghost use Rattle.ipc_loop.specs.Standing.{EachIsQueued, IsListedSo};

use crate::port::Port;
use ipc_containers::Numbered;
use ipc_terms::NoMemory;
use std::alloc::Global;
use std::marker::Model;
use std::mem;

/// What stands at the number of a link until it is closed.
#[derive(Drop)]
pub struct Place {
    pub port: Port,
    /// Its number stands in a list of who gets a turn.
    pub is_queued: bool,
}

/// The ports by the numbers of their links. Nothing is left of a link that was closed.
#[derive(Drop)]
pub struct Ports {
    alloc: Global,
    pub all: Numbered<Place>,
    pub turns: Vec<u64>,
    pub next: Vec<u64>,
    /// How many links are open.
    pub open: usize,
    /// The numbers of all links that are open, and of some that are closed.
    numbers: Vec<u64>,
}

impl Model for Ports {
    ghost use Rattle.std.specs.Prelude.{vec_capacity};
    ghost use Rattle.ipc_loop.specs.Standing.{Ports, AreKept, seen, flags};

    ghost Value = { Ports };

    ghost view = { λ p. record { all = seen p.all; queued = flags p.all; turns = p.turns.items; next = p.next.items; most_turns = vec_capacity p.turns; most_next = vec_capacity p.next } };

    ghost invariant = { λ p. AreKept (seen p.all) (flags p.all) p.turns.items p.next.items p.open (vec_capacity p.turns) (vec_capacity p.next) };
}

impl Place {
    /// Queues the number for the next round, if a turn would do something for the port and it isn't queued. Takes no memory.
    pub fn queue(&mut self, number: u64, next: &mut Vec<u64>)
        requires { self.old.is_queued ≡ false → length next.old.items < vec_capacity next.old }
        ensures port { self.new.port ≡ self.old.port }
        ensures queued { has_work self.old.port ≡ true → self.new.is_queued ≡ true }
        ensures listed { IsListedSo number self.old.is_queued next.old.items self.new.is_queued next.new.items }
        ensures room { vec_capacity next.new ≡ vec_capacity next.old }
    {
        if self.is_queued || !self.port.has_work() {
            return;
        }
        self.is_queued = true;
        next.push_reserved(number);
    }
}

impl Ports {
    /// No links, with room for the turns of so many.
    pub fn new(alloc: Global, most: usize) -> Result<Ports, NoMemory>
        ensures all { IfOk result (λ ports. ports.all ≡ []) }
        ensures turns { IfOk result (λ ports. ports.turns ≡ []) }
        ensures next { IfOk result (λ ports. ports.next ≡ []) }
    {
        let turns = Vec::with_capacity(alloc, most)?;
        let next = Vec::with_capacity(alloc, most)?;
        Ok(Ports {
            alloc,
            all: Numbered::new(alloc),
            turns,
            next,
            open: 0,
            numbers: Vec::new(alloc),
        })
    }

    /// Each port that has work is queued. Does nothing; a fact of all ports.
    pub fn are_queued(&self)
        ensures { EachIsQueued self.now.all self.now.queued self.now.turns self.now.next }
    {
        let _open = self.open;
    }

    /// How many links are open.
    pub fn open(&self) -> usize
        ensures { result ≡ how_many_open self.now.all }
    {
        self.open
    }

    /// Whether somebody gets a turn in the next round.
    pub fn has_turns(&self) -> bool {
        !self.next.is_empty()
    }

    /// How many links were accepted: each has a port, or had one.
    pub fn len(&self) -> usize
        ensures { result ≡ length self.now.all }
    {
        self.all.next_number()
    }

    /// A new port at the next number, and room for the number in the lists of who gets a turn. An `Err` changes no port.
    pub fn push(&mut self) -> Result<(), NoMemory>
        ensures ok { OnOk result (self.new.all ≡ self.old.all ++ Some new_port ∷ []) }
        ensures err { OnErr result (self.new.all ≡ self.old.all) }
        ensures turns { self.new.turns ≡ self.old.turns }
        ensures next { self.new.next ≡ self.old.next }
    {
        let number = self.all.next_number();
        if number == usize::MAX {
            return Err(NoMemory);
        }
        // For those that are open, this one, and those that are listed already: more may not come into a list.
        let open = self.open + 1;
        self.turns.reserve(open.saturating_add(self.next.len()))?;
        self.next.reserve(open.saturating_add(self.turns.len()))?;
        self.numbers.reserve(1)?;
        self.all.push(Place {
            port: Port::new(self.alloc),
            is_queued: false,
        })?;
        self.numbers.push_reserved(number as u64);
        self.open = open;
        Ok(())
    }

    /// Takes the last port away, which is new: its number is the next again.
    pub fn undo_push(&mut self)
        requires { slice_get self.old.all (length self.old.all - 1) ≡ Some (Some new_port) }
        ensures all { self.new.all ≡ take (length self.old.all - 1) self.old.all }
        ensures turns { self.new.turns ≡ self.old.turns }
        ensures next { self.new.next ≡ self.old.next }
    {
        self.all.undo_push();
        self.numbers.pop();
        self.open -= 1;
    }

    /// The numbers of all links that are open, and of some that are closed: at most twice as many as were open when the last
    /// was opened, and two.
    pub fn numbers(&self) -> &[u64] {
        &self.numbers
    }

    /// Forgets the numbers of links that are closed, where they are most.
    pub fn forget_numbers(&mut self)
        ensures all { self.new.all ≡ self.old.all }
        ensures turns { self.new.turns ≡ self.old.turns }
        ensures next { self.new.next ≡ self.old.next }
    {
        if self.numbers.len() / 2 <= self.open {
            return;
        }
        let all = &self.all;
        self.numbers
            .retain(|number| all.get(*number as usize).is_some());
    }

    /// The numbers of the next round get their turns in this one.
    pub fn start_round(&mut self)
        requires { self.old.turns ≡ [] }
        ensures all { self.new.all ≡ self.old.all }
        ensures turns { self.new.turns ≡ self.old.next }
    {
        mem::swap(&mut self.turns, &mut self.next);
    }
}
