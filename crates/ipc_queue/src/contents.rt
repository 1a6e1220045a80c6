//! The messages of a queue.

ghost use Rattle.std.specs.Prelude.{◌≡◌, ◌<◌, ◌-◌, ◌^◌, min, [], ◌∷◌, ◌++◌, length, slice_get, Some, IfOk, OnOk, OnErr};
ghost use Rattle.std.specs.Option.{option_copied};
ghost use Rattle.ipc_containers.specs.Buckets.{IsNextKey};
ghost use Rattle.ipc_queue.specs.Contents.{of_priority};
ghost use Rattle.ipc_queue.specs.Tickets.{bytes_in, next_ticket, next_place, without_next};

use crate::queue::Ticket;
use ipc_containers::Buckets;
use ipc_terms::NoMemory;
use std::alloc::Global;
use std::marker::Model;
use std::snapshot::Snapshot;

/// What became of the messages. Proofs alone read it; nothing of it is kept at run time.
#[derive(Drop)]
enum Past {
    /// None entered yet.
    Nothing,
    /// After all else this one entered.
    Entered(Snapshot<Ticket>, Snapshot<Snapshot<Past>>),
    /// After all else the oldest one of the greatest priority left.
    Left(Snapshot<Snapshot<Past>>),
}

/// Messages in order of entry, of which the oldest one of the greatest priority comes out first. They stand in
/// buckets by priority, so each call takes as long as to find a bucket. The order of entry over all priorities is
/// kept by nothing at run time; proofs read it from the past.
#[derive(Drop)]
pub struct Contents {
    buckets: Buckets<Ticket>,
    count: usize,
    past: Snapshot<Past>,
}

impl Model for Contents {
    ghost use Rattle.std.specs.Prelude.{◌≡◌, List, length};
    ghost use Rattle.ipc_containers.specs.Buckets.{Holds};
    ghost use Rattle.ipc_queue.specs.declared.queue.Ticket.{Ticket};

    ghost Value = { List Ticket };

    ghost use Rattle.ipc_queue.specs.Contents.{present, of_priority};

    ghost view = { λ c. present c.past.value };

    ghost invariant = { λ c. Holds c.buckets (λ priority. of_priority priority (present c.past.value)) × (c.count ≡ length (present c.past.value)) };
}

impl Contents {
    /// No messages. Takes no memory.
    pub fn new(alloc: Global) -> Self
        ensures { result ≡ [] }
    {
        Contents {
            buckets: Buckets::new(alloc),
            count: 0,
            past: Snapshot::of(&Past::Nothing),
        }
    }

    /// How many there are.
    pub fn len(&self) -> usize
        ensures { result ≡ length self.now }
    {
        self.count
    }

    /// How many bytes they have in all: 2^64 - 1 where there are more. Looks at each.
    pub fn bytes(&self) -> u64
        ensures { result ≡ min (bytes_in self.now) (2 ^ 64 - 1) }
    {
        self.buckets.size()
    }

    /// The one that comes out next.
    pub fn next(&self) -> Option<&Ticket>
        ensures { option_copied result ≡ next_ticket self.now }
    {
        let (_, ticket) = self.buckets.greatest()?;
        Some(ticket)
    }

    /// The least priority from this one on of which there are messages.
    pub fn next_priority(&self, priority: u64) -> Option<u64>
        ensures { IsNextKey (λ p. of_priority p self.now) priority result }
    {
        self.buckets.next_from(priority)
    }

    /// Of the messages of this priority the one at this index, counted from 0 in order of entry.
    pub fn message(&self, priority: u64, index: usize) -> Option<&Ticket>
        ensures { option_copied result ≡ slice_get (of_priority priority self.now) index }
    {
        self.buckets.item(priority, index)
    }

    /// A message enters behind all others. An `Err` leaves all as it was.
    pub fn push(&mut self, ticket: Ticket) -> Result<(), NoMemory>
        requires { length self.old < 2 ^ 32 }
        ensures ok { OnOk result (self.new ≡ self.old ++ ticket ∷ []) }
        ensures err { OnErr result (self.new ≡ self.old) }
    {
        let entered = Snapshot::of(&ticket);
        self.buckets.enter(ticket.priority as u64, ticket)?;
        self.count += 1;
        self.past = Snapshot::of(&Past::Entered(entered, Snapshot::of(&self.past)));
        Ok(())
    }

    /// The next one leaves, and gives its place. Takes no memory.
    pub fn pop(&mut self) -> Option<u64>
        ensures next { result ≡ next_place self.old }
        ensures rest { self.new ≡ without_next self.old }
    {
        let ticket = self.buckets.leave_greatest()?;
        self.count -= 1;
        self.past = Snapshot::of(&Past::Left(Snapshot::of(&self.past)));
        Some(ticket.place)
    }

    /// The next one leaves, and gives its place, and then another enters behind what is left. An `Err` leaves all as
    /// it was.
    pub fn pop_and_push(&mut self, ticket: Ticket) -> Result<u64, NoMemory>
        requires { 0 < length self.old }
        ensures next { IfOk result (λ place. Some place ≡ next_place self.old) }
        ensures ok { OnOk result (self.new ≡ without_next self.old ++ ticket ∷ []) }
        ensures err { OnErr result (self.new ≡ self.old) }
    {
        let Some((priority, next)) = self.buckets.greatest() else {
            unreachable!();
        };
        let place = next.place;
        let entered = Snapshot::of(&ticket);
        // It enters first, since that alone can fail; the next one is still the first of its bucket.
        self.buckets.enter(ticket.priority as u64, ticket)?;
        self.buckets.leave(priority);
        let left = Snapshot::of(&Past::Left(Snapshot::of(&self.past)));
        self.past = Snapshot::of(&Past::Entered(entered, Snapshot::of(&left)));
        Ok(place)
    }
}
