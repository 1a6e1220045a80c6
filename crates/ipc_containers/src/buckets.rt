//! Items in buckets.

ghost use Rattle.std.specs.Prelude.{◌≡◌, ◌==◌, ◌-◌, ◌^◌, min, ℕ, List, [], filter, slice_get, None, if◌then◌else◌, OnOk, OnErr};
ghost use Rattle.std.specs.List.{sum_by};
ghost use Rattle.std.specs.Option.{unwrap_or, option_copied, option_map};
ghost use Rattle.ipc_terms.specs.Lists.{first};
ghost use Rattle.ipc_containers.specs.Buckets.{bucket_at, with_last, without_front, OthersAreFilled, EmptyStandsAlone, Holds, IsFirstOfGreatest, IsGreatestLeft, IsNextKey};

use crate::bucket::Bucket;
use crate::measured::Measured;
use ipc_terms::NoMemory;
use std::alloc::Global;
use std::collections::BTreeMap;
use std::collections::btree_map::Entry;

/// Items under keys: each key that has items has a bucket, in which they stand in order of entry. The only bucket stays
/// when it empties, so that items which come and go one at a time take no memory. Each call takes as long as to find a
/// bucket.
#[derive(Drop)]
pub struct Buckets<T: Drop> {
    alloc: Global,
    buckets: BTreeMap<u64, Bucket<T>>,
}

impl<T: Drop> Buckets<T> {
    /// No items. Takes no memory.
    pub fn new(alloc: Global) -> Self
        ensures none { (key : ℕ) → bucket_at result key ≡ None }
        ensures alone { EmptyStandsAlone result }
    {
        Buckets {
            alloc,
            buckets: BTreeMap::new(alloc),
        }
    }

    /// The item enters at the end of the key's bucket, which is made where there is none. An `Err`
    /// leaves all as it was.
    pub fn enter(&mut self, key: u64, item: T) -> Result<(), NoMemory>
        ensures ok { OnOk result ((q : ℕ) → bucket_at self.new q ≡ (if q == key then with_last item (bucket_at self.old q) else bucket_at self.old q)) }
        ensures err { OnErr result ((q : ℕ) → bucket_at self.new q ≡ bucket_at self.old q) }
        ensures alone { EmptyStandsAlone self.old → EmptyStandsAlone self.new }
    {
        self.drop_empty(key);
        match self.buckets.entry(key)? {
            Entry::Occupied(bucket) => bucket.into_mut().push(item)?,
            Entry::Vacant(place) => {
                place.insert(Bucket::of(self.alloc, item));
            }
        }
        Ok(())
    }

    /// Drops the bucket that is empty, if there is one, unless it is this key's. Takes no memory.
    fn drop_empty(&mut self, key: u64)
        ensures kept { (q : ℕ) → bucket_at self.new q ≡ bucket_at self.old q }
        ensures filled { EmptyStandsAlone self.old → OthersAreFilled key self.new }
    {
        if self.buckets.len() > 1 {
            return;
        }
        let Some((other, bucket)) = self.buckets.first_key_value() else {
            return;
        };
        if *other != key && bucket.is_empty() {
            self.buckets.pop_first();
        }
    }

    /// The first item leaves the key's bucket. An empty bucket goes, unless it is the only one. Takes no memory.
    pub fn leave(&mut self, key: u64)
        ensures rest { (q : ℕ) → bucket_at self.new q ≡ (if q == key then without_front (bucket_at self.old q) else bucket_at self.old q) }
        ensures alone { EmptyStandsAlone self.old → EmptyStandsAlone self.new }
    {
        let Some(bucket) = self.buckets.get_mut(&key) else {
            return;
        };
        bucket.pop();
        if bucket.is_empty() && self.buckets.len() > 1 {
            self.buckets.remove(&key);
        }
    }

    /// The first item of the greatest key leaves; `None` where no key has any. An empty bucket goes, unless it is the
    /// only one. Takes no memory.
    pub fn leave_greatest(&mut self) -> Option<T>
        ensures { (items : ℕ → List T) → Holds self.old items → IsGreatestLeft items self.new result }
    {
        let is_only = self.buckets.len() == 1;
        let mut last = self.buckets.last_entry()?;
        let bucket = last.get_mut();
        let item = bucket.pop()?;
        if bucket.is_empty() && !is_only {
            last.remove();
        }
        Some(item)
    }

    /// The first item of the key's bucket; `None` where it has none.
    pub fn first_of(&self, key: u64) -> Option<&T>
        ensures { option_copied result ≡ first (unwrap_or (bucket_at self.now key) []) }
    {
        self.buckets.get(&key)?.first()
    }

    /// The least key from this one on that has items; `None` where none has any.
    pub fn next_from(&self, key: u64) -> Option<u64>
        ensures { (items : ℕ → List T) → Holds self.now items → IsNextKey items key result }
    {
        if let Some((next, bucket)) = self.buckets.range(key..).next() {
            if bucket.is_empty() {
                return None;
            }
            return Some(*next);
        }
        None
    }

    /// The item at this index of the key's bucket, counted from 0 in order of entry.
    pub fn item(&self, key: u64, index: usize) -> Option<&T>
        ensures { option_copied result ≡ slice_get (unwrap_or (bucket_at self.now key) []) index }
    {
        self.buckets.get(&key)?.get(index)
    }

    /// The greatest key that has items, and the first of them; `None` where no key has any.
    pub fn greatest(&self) -> Option<(u64, &T)>
        ensures { (items : ℕ → List T) → Holds self.now items → IsFirstOfGreatest items (option_map (λ found. (found.0, found.1.now)) result) }
    {
        let (key, bucket) = self.buckets.last_key_value()?;
        let item = bucket.first()?;
        Some((*key, item))
    }
}

impl<T: Measured + Drop> Buckets<T> {
    /// How large all items are together: 2^64 - 1 where it is more. Looks at each. Takes no memory.
    pub fn size(&self) -> u64
        ensures { (key_of : T → ℕ) (all : List T) → Holds self.now (λ key. filter (λ item. key == key_of item) all) → result ≡ min (sum_by T.size all) (2 ^ 64 - 1) }
    {
        let mut size = 0u64;
        for bucket in self.buckets.values() {
            size = size.saturating_add(bucket.size());
        }
        size
    }
}
