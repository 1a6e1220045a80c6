//! The items of one key.

ghost use Rattle.std.specs.Prelude.{◌≡◌, ◌↔◌, ◌-◌, ◌^◌, min, [], ◌∷◌, ◌++◌, drop, slice_get, IsTrue, OnOk, OnErr, IsOk};
ghost use Rattle.std.specs.List.{sum_by};
ghost use Rattle.std.specs.Option.{option_copied};
ghost use Rattle.ipc_terms.specs.Lists.{first};

use crate::measured::Measured;
use ipc_terms::NoMemory;
use std::alloc::Global;
use std::collections::VecDeque;
use std::marker::Model;
use std::mem::replace;

/// Items in order of entry. The first stands in the bucket itself, so one alone takes no memory.
#[derive(Drop)]
pub struct Bucket<T: Drop> {
    first: Option<T>,
    /// None where there is no first.
    others: VecDeque<T>,
}

impl<T: Drop> Model for Bucket<T> {
    ghost use Rattle.std.specs.Prelude.{List};
    ghost use Rattle.ipc_containers.specs.Bucket.{items_of, OthersFollow};

    ghost Value = { List T };

    ghost view = { λ b. items_of b.first b.others.items };

    ghost invariant = { λ b. OthersFollow b.first b.others.items };
}

impl<T: Drop> Bucket<T> {
    /// One item. Takes no memory.
    pub fn of(alloc: Global, item: T) -> Self
        ensures { result ≡ item ∷ [] }
    {
        Bucket {
            first: Some(item),
            others: VecDeque::new(alloc),
        }
    }

    /// The item enters behind all others. An `Err` leaves all as it was.
    pub fn push(&mut self, item: T) -> Result<(), NoMemory>
        ensures ok { OnOk result (self.new ≡ self.old ++ item ∷ []) }
        ensures err { OnErr result (self.new ≡ self.old) }
        ensures without_memory { self.old ≡ [] → IsOk result }
    {
        if self.first.is_none() {
            self.first = Some(item);
        } else {
            self.others.push_back(item)?;
        }
        Ok(())
    }

    /// The first item leaves. Takes no memory.
    pub fn pop(&mut self) -> Option<T>
        ensures first { result ≡ first self.old }
        ensures rest { self.new ≡ drop 1 self.old }
    {
        let next = self.others.pop_front();
        replace(&mut self.first, next)
    }

    /// The first item; `None` where there is none.
    pub fn first(&self) -> Option<&T>
        ensures { option_copied result ≡ first self.now }
    {
        self.first.as_ref()
    }

    /// The item at this index, counted from 0 in order of entry.
    pub fn get(&self, index: usize) -> Option<&T>
        ensures { option_copied result ≡ slice_get self.now index }
    {
        match index.checked_sub(1) {
            Some(other) => self.others.get(other),
            None => self.first.as_ref(),
        }
    }

    /// Whether there are no items.
    pub fn is_empty(&self) -> bool
        ensures { IsTrue result ↔ (self.now ≡ []) }
    {
        self.first.is_none()
    }
}

impl<T: Measured + Drop> Bucket<T> {
    /// How large all items are together: 2^64 - 1 where it is more. Looks at each.
    pub fn size(&self) -> u64
        ensures { result ≡ min (sum_by T.size self.now) (2 ^ 64 - 1) }
    {
        let mut size = match &self.first {
            Some(item) => item.size(),
            None => 0,
        };
        for item in self.others.iter() {
            size = size.saturating_add(item.size());
        }
        size
    }
}
