//! The slots of the newest numbers.

ghost use Rattle.std.specs.Prelude.{◌≡◌, ◌<◌, ◌-◌, ◌^◌, [], ◌∷◌, ◌++◌, length, take, drop, slice_get, Some, None, true, false, OnOk, OnErr};
ghost use Rattle.std.specs.Option.{OnSome, option_copied, option_copied_mut};
ghost use Rattle.ipc_terms.specs.Lists.{changed};
ghost use Rattle.ipc_containers.specs.Slots.{at, emptied, is_sparse, IsNextFrom};

use ipc_terms::NoMemory;
use std::alloc::Global;
use std::marker::Model;

/// So many slots stay, however few of them have a value.
const FEW: usize = 64;

/// Slots in a row, some of them empty. Slots leave in front, and their places stay until more than half as many have left as
/// stand: so two slots at most are moved to the front for each that left.
#[derive(Drop)]
pub struct Recent<V: Drop> {
    /// The slots, behind the places of those that left.
    slots: Vec<Option<V>>,
    /// How many left.
    gone: usize,
    /// How many have a value.
    filled: usize,
}

impl<V: Drop> Model for Recent<V> {
    ghost use Rattle.std.specs.Prelude.{◌≡◌, ◌≤◌, List, Option, length, drop};
    ghost use Rattle.ipc_containers.specs.Slots.{how_many_filled};

    ghost Value = { List (Option V) };

    ghost view = { λ a. drop a.gone a.slots.items };

    ghost invariant = { λ a. (a.gone ≤ length a.slots.items) × (a.filled ≡ how_many_filled (drop a.gone a.slots.items)) };
}

impl<V: Drop> Recent<V> {
    ghost use Rattle.std.specs.Borrow.{LendsSo, sem};
    ghost use Rattle.ipc_containers.specs.contracts.recent.Recent.{the_row};

    /// No slots. Takes no memory.
    pub fn new(alloc: Global) -> Self
        ensures { result ≡ [] }
    {
        Recent {
            slots: Vec::new(alloc),
            gone: 0,
            filled: 0,
        }
    }

    /// How many slots there are.
    #[inline(always)]
    pub fn len(&self) -> usize
        ensures count { result ≡ length self.now }
        ensures small { result < 2 ^ 63 }
    {
        self.slots.len() - self.gone
    }

    /// Whether there are many slots, and more than half of them are empty.
    pub fn is_sparse(&self) -> bool
        ensures { result ≡ is_sparse self.now }
    {
        self.len() > FEW && self.filled < self.len() - self.filled
    }

    /// The value in the slot, if there is one.
    #[inline(always)]
    pub fn get(&self, slot: usize) -> Option<&V>
        ensures { option_copied result ≡ at self.now slot }
    {
        let place = self.gone.saturating_add(slot);
        self.slots.get(place)?.as_ref()
    }

    /// The first slot from this one on that has a value. Looks at each slot in between.
    pub fn next_from(&self, slot: usize) -> Option<usize>
        ensures { IsNextFrom self.now slot result }
    {
        for next in slot..self.len() {
            if self.get(next).is_some() {
                return Some(next);
            }
        }
        None
    }

    /// The value in the slot, if there is one, to be changed.
    #[inline(always)]
    pub fn get_mut(&mut self, slot: usize) -> Option<&mut V>
        ensures* writes_back { sem 𝓛 (LendsSo (the_row V.row) V.row self.entry result (λ after v. OnSome result (after ≡ changed (λ x. Some v) self.old slot)) (λ after. after ≡ self.old)) }
        ensures value { option_copied_mut result ≡ at self.old slot }
    {
        let place = self.gone.saturating_add(slot);
        match self.slots.get_mut(place)? {
            Some(value) => Some(value),
            None => None,
        }
    }

    /// One slot more, with this value. An `Err` changes nothing.
    pub fn push(&mut self, value: V) -> Result<(), NoMemory>
        ensures ok { OnOk result (self.new ≡ self.old ++ Some value ∷ []) }
        ensures err { OnErr result (self.new ≡ self.old) }
    {
        self.slots.push(Some(value))?;
        self.filled += 1;
        Ok(())
    }

    /// One slot more, which is empty. An `Err` changes nothing.
    pub fn push_empty(&mut self) -> Result<(), NoMemory>
        ensures ok { OnOk result (self.new ≡ self.old ++ None ∷ []) }
        ensures err { OnErr result (self.new ≡ self.old) }
    {
        self.slots.push(None)?;
        Ok(())
    }

    /// The last slot goes. False if there is none. Takes no memory.
    pub fn pop(&mut self) -> bool
        ensures rest { self.new ≡ take (length self.old - 1) self.old }
        ensures none { result ≡ false → length self.old ≡ 0 }
        ensures some { result ≡ true → 0 < length self.old }
    {
        if self.len() == 0 {
            return false;
        }
        let Some(slot) = self.slots.pop() else {
            return false;
        };
        if slot.is_some() {
            self.filled -= 1;
        }
        true
    }

    /// Takes the value out of the slot, if there is one. Takes no memory.
    pub fn take(&mut self, slot: usize) -> Option<V>
        ensures value { result ≡ at self.old slot }
        ensures rest { self.new ≡ changed emptied self.old slot }
    {
        let place = self.gone.saturating_add(slot);
        let value = self.slots.get_mut(place)?.take()?;
        self.filled -= 1;
        Some(value)
    }

    /// Puts a value into the slot, which is empty. Takes no memory.
    pub fn put(&mut self, slot: usize, value: V)
        requires { slice_get self.old slot ≡ Some None }
        ensures { self.new ≡ changed (λ x. Some value) self.old slot }
    {
        self.slots[self.gone + slot] = Some(value);
        self.filled += 1;
    }

    /// The first slot goes, which is empty. It can't fail.
    pub fn drop_first(&mut self)
        requires { slice_get self.old 0 ≡ Some None }
        ensures { self.new ≡ drop 1 self.old }
    {
        self.gone += 1;
        self.compact();
    }

    /// Where more than half as many slots have left as stand, their places go too, and room for twice those that stand is
    /// kept. If the smaller block is refused, the room stays.
    fn compact(&mut self)
        ensures { self.new ≡ self.old }
    {
        if self.gone <= self.len() / 2 {
            return;
        }
        self.slots.drain(..self.gone);
        self.gone = 0;
        self.slots.shrink_to(2 * self.slots.len().max(FEW));
    }
}
