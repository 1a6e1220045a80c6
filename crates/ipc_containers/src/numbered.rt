//! Values at their numbers: the newest in slots, the older ones in a map.

ghost use Rattle.std.specs.Prelude.{◌≡◌, ℕ, ◌+◌, ◌<◌, ◌≤◌, ◌-◌, ◌^◌, [], ◌∷◌, ◌++◌, length, take, slice_get, Some, None, false, OnOk, OnErr};
ghost use Rattle.std.specs.BTreeMap.{get};
ghost use Rattle.std.specs.Option.{OnSome, option_copied, option_copied_mut};
ghost use Rattle.std.specs.Ordering.{nat_cmp};
ghost use Rattle.ipc_terms.specs.Lists.{changed};
ghost use Rattle.ipc_containers.specs.Numbers.{older_slots, AllBelow, SetsAt};
ghost use Rattle.ipc_containers.specs.Slots.{at, emptied, most_slots, IsNextFrom};

use crate::recent::Recent;
use ipc_terms::NoMemory;
use std::alloc::Global;
use std::collections::BTreeMap;
use std::marker::Model;

/// Values at the numbers that they were given in turn. Those from `base` on have a slot each, so they are found by an
/// index. Where there are over 64 slots and most are empty, two go with each value that leaves: nothing is left of an empty
/// one, and a value enters the map. So there are at most 64 slots and two for each value, unless the map is refused memory,
/// and room for at most 200 and 6 for each value.
#[derive(Drop)]
pub struct Numbered<V: Drop> {
    older: BTreeMap<usize, V>,
    /// The number of the first of the recent slots.
    base: usize,
    recent: Recent<V>,
    /// Whether the map was refused memory, and since then most of the recent slots have been empty.
    refused: bool,
}

impl<V: Drop> Model for Numbered<V> {
    ghost use Rattle.std.specs.Prelude.{◌++◌, List, Option};
    ghost use Rattle.ipc_containers.specs.Numbers.{older_slots, IsNumbered};

    ghost Value = { List (Option V) };

    ghost view = { λ a. older_slots a.older a.base ++ a.recent };

    ghost invariant = { λ a. IsNumbered a.older a.base a.recent a.refused };
}

impl<V: Drop> Numbered<V> {
    ghost use Rattle.std.specs.Borrow.{LendsSo, sem};
    ghost use Rattle.ipc_containers.specs.contracts.numbered.Numbered.{the_row};

    /// No values. Takes no memory.
    pub fn new(alloc: Global) -> Self
        ensures { result ≡ [] }
    {
        Numbered {
            older: BTreeMap::new(alloc),
            base: 0,
            recent: Recent::new(alloc),
            refused: false,
        }
    }

    /// How many values there ever were: the number of the next.
    #[inline(always)]
    pub fn next_number(&self) -> usize
        ensures { result ≡ length self.now }
    {
        self.base + self.recent.len()
    }

    /// The value of the number, if it wasn't taken.
    #[inline(always)]
    pub fn get(&self, number: usize) -> Option<&V>
        ensures { option_copied result ≡ at self.now number }
    {
        match number.checked_sub(self.base) {
            Some(slot) => self.recent.get(slot),
            None => self.older.get(&number),
        }
    }

    /// The least number from this one on that has a value. Looks for an older one in the map, and at recent slots, not at
    /// all numbers that there were.
    pub fn next_from(&self, number: usize) -> Option<usize>
        ensures { IsNextFrom self.now number result }
    {
        if let Some((older, _)) = self.older.range(number..).next() {
            return Some(*older);
        }
        let slot = self.recent.next_from(number.saturating_sub(self.base))?;
        Some(self.base + slot)
    }

    /// Gives the value the next number. An `Err` changes nothing; it comes behind the last number too.
    pub fn push(&mut self, value: V) -> Result<(), NoMemory>
        ensures ok { OnOk result (self.new ≡ self.old ++ Some value ∷ []) }
        ensures err { OnErr result (self.new ≡ self.old) }
    {
        if self.next_number() == usize::MAX {
            return Err(NoMemory);
        }
        self.recent.push(value)?;
        Ok(())
    }

    /// Passes over the next number, which has no value. An `Err` changes nothing; it comes behind the last number too.
    pub fn push_empty(&mut self) -> Result<(), NoMemory>
        ensures ok { OnOk result (self.new ≡ self.old ++ None ∷ []) }
        ensures err { OnErr result (self.new ≡ self.old) }
    {
        if self.next_number() == usize::MAX {
            return Err(NoMemory);
        }
        self.recent.push_empty()?;
        settle(
            &mut self.older,
            &mut self.base,
            &mut self.recent,
            &mut self.refused,
        );
        Ok(())
    }

    /// Gives a value to a number that was given before, and has none now. An `Err` changes nothing.
    pub fn put(&mut self, number: usize, value: V) -> Result<(), NoMemory>
        requires { slice_get self.old number ≡ Some None }
        ensures ok { OnOk result (self.new ≡ changed (λ x. Some value) self.old number) }
        ensures err { OnErr result (self.new ≡ self.old) }
    {
        let Some(slot) = number.checked_sub(self.base) else {
            self.older.insert(number, value)?;
            return Ok(());
        };
        self.recent.put(slot, value);
        Ok(())
    }

    /// Undoes the last push: its number is the next again. It can't fail.
    pub fn undo_push(&mut self)
        ensures { self.new ≡ take (length self.old - 1) self.old }
    {
        if self.recent.pop() {
            settle(
                &mut self.older,
                &mut self.base,
                &mut self.recent,
                &mut self.refused,
            );
            return;
        }
        if let Some(last) = self.base.checked_sub(1) {
            self.older.remove(&last);
            self.base = last;
        }
    }

    /// Takes the value of the number, if it is there. Its number isn't given again. It can't fail.
    pub fn take(&mut self, number: usize) -> Option<V>
        ensures value { result ≡ at self.old number }
        ensures rest { self.new ≡ changed emptied self.old number }
    {
        let value = take_out(&mut self.older, self.base, &mut self.recent, number);
        settle(
            &mut self.older,
            &mut self.base,
            &mut self.recent,
            &mut self.refused,
        );
        value
    }

    /// The value of the number, if it wasn't taken, to be changed.
    #[inline(always)]
    pub fn get_mut(&mut self, number: usize) -> Option<&mut V>
        ensures* writes_back { sem 𝓛 (LendsSo (the_row V.row) V.row self.entry result (λ after v. OnSome result (after ≡ changed (λ x. Some v) self.old number)) (λ after. after ≡ self.old)) }
        ensures value { option_copied_mut result ≡ at self.old number }
    {
        match number.checked_sub(self.base) {
            Some(slot) => {
                let value = self.recent.get_mut(slot)?;
                Some(value)
            }
            None => self.older.get_mut(&number),
        }
    }
}

/// Takes the value of the number, if it is there.
fn take_out<V: Drop>(
    older: &mut BTreeMap<usize, V>,
    base: usize,
    recent: &mut Recent<V>,
    number: usize,
) -> Option<V>
    requires { AllBelow older.old base }
    ensures below { AllBelow older.new base }
    ensures value { result ≡ at (older_slots older.old base ++ recent.old) number }
    ensures rest { older_slots older.new base ++ recent.new ≡ changed emptied (older_slots older.old base ++ recent.old) number }
{
    match number.checked_sub(base) {
        Some(slot) => recent.take(slot),
        None => older.remove(&number),
    }
}

/// Where most of the recent slots are empty, the first two of them go, and their values enter the map. Where that is refused
/// memory, they stay.
fn settle<V: Drop>(
    older: &mut BTreeMap<usize, V>,
    base: &mut usize,
    recent: &mut Recent<V>,
    refused: &mut bool,
)
    requires below { AllBelow older.old base.old }
    requires fits { base.old + length recent.old < 2 ^ 64 }
    ensures below { AllBelow older.new base.new }
    ensures values { older_slots older.new base.new ++ recent.new ≡ older_slots older.old base.old ++ recent.old }
    ensures two_fewer { (most : ℕ) → most_slots (older_slots older.old base.old ++ recent.old) ≤ most → (refused.old ≡ false → length recent.old ≤ most + 2) → refused.new ≡ false → length recent.new ≤ most }
{
    move_oldest(older, base, recent, refused);
    move_oldest(older, base, recent, refused);
}

/// Where most of the recent slots are empty, the first of them goes, and its value enters the map. Where that is refused
/// memory, it stays.
fn move_oldest<V: Drop>(
    older: &mut BTreeMap<usize, V>,
    base: &mut usize,
    recent: &mut Recent<V>,
    refused: &mut bool,
)
    requires below { AllBelow older.old base.old }
    requires fits { base.old + length recent.old < 2 ^ 64 }
    ensures below { AllBelow older.new base.new }
    ensures values { older_slots older.new base.new ++ recent.new ≡ older_slots older.old base.old ++ recent.old }
    ensures one_fewer { (most : ℕ) → most_slots (older_slots older.old base.old ++ recent.old) ≤ most → (refused.old ≡ false → length recent.old ≤ most + 1) → refused.new ≡ false → length recent.new ≤ most }
{
    if !recent.is_sparse() {
        *refused = false;
        return;
    }
    let Ok(()) = move_first(older, *base, recent) else {
        *refused = true;
        return;
    };
    recent.drop_first();
    *base += 1;
}

/// The value of the first slot, if there is one, goes to its number in the map, at which none stands. An `Err` changes
/// nothing.
fn move_first<V: Drop>(
    older: &mut BTreeMap<usize, V>,
    number: usize,
    recent: &mut Recent<V>,
) -> Result<(), NoMemory>
    requires absent { get nat_cmp older.old number ≡ None }
    requires some { 0 < length recent.old }
    ensures older { OnOk result (SetsAt older.old older.new number (at recent.old 0)) }
    ensures recent { OnOk result (recent.new ≡ changed emptied recent.old 0) }
    ensures unchanged { OnErr result ((older.new.entries ≡ older.old.entries) × (recent.new ≡ recent.old)) }
{
    let Some(value) = recent.take(0) else {
        return Ok(());
    };
    match older.insert(number, value) {
        Ok(_) => Ok(()),
        Err(refused) => {
            recent.put(0, refused.value.1);
            Err(NoMemory)
        }
    }
}
