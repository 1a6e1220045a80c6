//! Large values at their numbers.

ghost use Rattle.std.specs.Prelude.{◌≡◌, ◌+◌, ◌-◌, ◌^◌, ◌<◌, [], ◌∷◌, ◌++◌, length, take, Some, OnOk, OnErr};
ghost use Rattle.std.specs.Option.{OnSome, option_copied, option_copied_mut};
ghost use Rattle.ipc_terms.specs.Lists.{changed};
ghost use Rattle.ipc_containers.specs.Slots.{at, emptied, IsNextFrom};

use crate::numbered::Numbered;
use ipc_terms::NoMemory;
use std::alloc::Global;
use std::boxed::Box;
use std::marker::Model;

/// Values at the numbers that they were given in turn, each in a box of its own: for those that are larger than a slot.
#[derive(Drop)]
pub struct NumberedBoxes<V: Drop> {
    alloc: Global,
    boxes: Numbered<Box<V>>,
}

impl<V: Drop> Model for NumberedBoxes<V> {
    ghost use Rattle.std.specs.Prelude.{List, Option, map, option_map};

    ghost Value = { List (Option V) };

    ghost view = { λ a. map (option_map (λ b. b.value)) a.boxes };
}

impl<V: Drop> NumberedBoxes<V> {
    ghost use Rattle.std.specs.Borrow.{LendsSo, sem};
    ghost use Rattle.ipc_containers.specs.contracts.boxes.NumberedBoxes.{the_row};

    /// No values. Takes no memory.
    pub fn new(alloc: Global) -> Self
        ensures { result ≡ [] }
    {
        NumberedBoxes {
            alloc,
            boxes: Numbered::new(alloc),
        }
    }

    /// How many values there ever were: the number of the next.
    pub fn next_number(&self) -> usize
        ensures { result ≡ length self.now }
    {
        self.boxes.next_number()
    }

    /// The value of the number, if it wasn't taken.
    pub fn get(&self, number: usize) -> Option<&V>
        ensures { option_copied result ≡ at self.now number }
    {
        let value = self.boxes.get(number)?;
        Some(value.as_ref())
    }

    /// The least number from this one on that has a value, as `Numbered` finds it.
    pub fn next_from(&self, number: usize) -> Option<usize>
        ensures { IsNextFrom self.now number result }
    {
        self.boxes.next_from(number)
    }

    /// Gives the value the next number. An `Err` changes nothing; it comes behind the last number too.
    pub fn push(&mut self, value: V) -> Result<(), NoMemory>
        ensures ok { OnOk result (self.new ≡ self.old ++ Some value ∷ []) }
        ensures err { OnErr result (self.new ≡ self.old) }
    {
        let Ok(boxed) = Box::new(self.alloc, value) else {
            return Err(NoMemory);
        };
        self.boxes.push(boxed)?;
        Ok(())
    }

    /// Undoes the last push: its number is the next again. It can't fail.
    pub fn undo_push(&mut self)
        ensures { self.new ≡ take (length self.old - 1) self.old }
    {
        self.boxes.undo_push();
    }

    /// Takes the value of the number, if it is there. Its number isn't given again. It can't fail.
    pub fn take(&mut self, number: usize) -> Option<V>
        ensures value { result ≡ at self.old number }
        ensures rest { self.new ≡ changed emptied self.old number }
    {
        let boxed = self.boxes.take(number)?;
        Some(Box::into_inner(boxed))
    }

    /// The value of the number, if it wasn't taken, to be changed.
    pub fn get_mut(&mut self, number: usize) -> Option<&mut V>
        ensures* writes_back { sem 𝓛 (LendsSo (the_row V.row) V.row self.entry result (λ after v. OnSome result (after ≡ changed (λ x. Some v) self.old number)) (λ after. after ≡ self.old)) }
        ensures value { option_copied_mut result ≡ at self.old number }
    {
        let value = self.boxes.get_mut(number)?;
        Some(value.as_mut())
    }
}
