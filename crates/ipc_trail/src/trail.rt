//! A trail: a list of records that only grows, of which the oldest may be forgotten.

ghost use Rattle.std.specs.Prelude.{◌≡◌, ◌+◌, ◌^◌, ◌<◌, ◌≤◌, [], ◌∷◌, min, max, nat_lt, length, slice_get, Some, None, IsSome, IfOk, OnOk, if◌then◌else◌};
ghost use Rattle.std.specs.Option.{option_copied, option_map};
ghost use Rattle.ipc_terms.specs.History.{record_at, message_of, message_at};
ghost use Rattle.ipc_terms.specs.Lines.{line_of, lines};
ghost use Rattle.ipc_terms.specs.Pages.{page};
ghost use Rattle.ipc_trail.specs.Receipts.{receipt_of};
ghost use Rattle.ipc_trail.specs.Sizes.{kept_bytes};

use crate::audit::{Receipt, lines_from, receipt_of};
use crate::message::{bytes_of, priority_of};
use crate::sizes::event_bytes;
use ipc_terms::{Bytes, Event, Lines, NoMemory, Record};
use std::alloc::Global;
use std::collections::VecDeque;
use std::marker::Model;
use std::snapshot::Snapshot;

/// The most records that there may ever be.
const MOST: u64 = 0x7fff_ffff_ffff_ffff;

/// The records that were forgotten, the newest first. Proofs alone read it; nothing of it is kept at run time.
#[derive(Drop)]
enum Gone {
    /// None yet.
    Nothing,
    /// After all else this one.
    Also(Snapshot<Record>, Snapshot<Snapshot<Gone>>),
}

/// A list of records that only grows, seen as the history that it is, the place of the oldest record that
/// it still has, and the number of records for which room is reserved. A record's place is how many records
/// came before it.
#[derive(Drop)]
pub struct Trail {
    records: VecDeque<Record>,
    first: u64,
    gone: Snapshot<Gone>,
    /// About how many bytes the records take.
    bytes: u64,
}

impl Model for Trail {
    ghost use Rattle.std.specs.Prelude.{◌≡◌, ◌≤◌, ◌+◌, ◌-◌, ◌++◌, min, reverse, length};
    ghost use Rattle.std.specs.VecDeque.{deque_capacity, deque_len};
    ghost use Rattle.ipc_trail.specs.Log.{Log};
    ghost use Rattle.std.specs.List.{sum_by};
    ghost use Rattle.ipc_terms.specs.declared.record.Record.{Record};
    ghost use Rattle.ipc_trail.specs.Gone.{gone_records};
    ghost use Rattle.ipc_trail.specs.Sizes.{event_bytes};

    ghost Value = { Log };

    ghost view = { λ a. record { history = reverse a.records.items ++ gone_records a.gone.value; first = a.first; room = min (deque_capacity a.records - deque_len a.records) (9223372036854775807 - (a.first + deque_len a.records)) } };

    ghost invariant = { λ a. (a.first ≡ length (gone_records a.gone.value)) × (a.first + deque_len a.records ≤ 9223372036854775807) × (deque_len a.records ≡ length a.records.items) × (a.bytes ≤ sum_by (λ (r : Record). event_bytes r.event) a.records.items) };
}

impl Trail {
    /// A trail without records. Takes no memory.
    pub fn new(alloc: Global) -> Self
        ensures history { result.history ≡ [] }
        ensures first { result.first ≡ 0 }
    {
        Trail {
            records: VecDeque::new(alloc),
            first: 0,
            gone: Snapshot::of(&Gone::Nothing),
            bytes: 0,
        }
    }

    /// The place of the oldest record that it still has; the length, where it has none.
    #[inline(always)]
    pub fn first(&self) -> u64
        ensures first { result ≡ self.now.first }
        ensures within { result ≤ length self.now.history }
    {
        self.first
    }

    /// How many records the trail ever had; the place of the next one.
    #[inline(always)]
    pub fn len(&self) -> usize
        ensures count { result ≡ length self.now.history }
        ensures small { result < 2 ^ 63 }
    {
        self.first as usize + self.records.len()
    }

    /// About how many bytes the records take that it still has: 128 each, and the messages and names in them.
    #[inline(always)]
    pub fn bytes(&self) -> u64
        ensures { result ≤ kept_bytes self.now.first self.now.history }
    {
        self.bytes
    }

    /// The record at a place; places count from 0. `None` before the oldest that it has, at the length and
    /// past it.
    pub fn get(&self, place: usize) -> Option<&Record>
        ensures { option_copied result ≡ (if nat_lt place self.now.first then None else record_at place self.now.history) }
    {
        let at = (place as u64).checked_sub(self.first)?;
        find_record(&self.records, at as usize)
    }

    /// The receipt of the record at a place; places count from 0. `None` before the oldest that it has, at the
    /// length and past it.
    pub fn receipt(&self, place: usize) -> Option<Receipt>
        ensures { result ≡ option_map (λ r. receipt_of (line_of place r)) (if nat_lt place self.now.first then None else record_at place self.now.history) }
    {
        match self.get(place) {
            Some(found) => Some(receipt_of(place as u64, found)),
            None => None,
        }
    }

    /// The audit's lines from the place `start` on, or from the oldest record on that it has, if that is later, the
    /// oldest first: at most `count`, and at most 1,000. Past the last record there are none. Refused events are shown too.
    pub fn page(&self, alloc: Global, start: u64, count: u16) -> Result<Lines, NoMemory>
        ensures { IfOk result (λ shown. shown ≡ page (max start self.now.first) count (lines self.now.history)) }
    {
        let kept = self.records.len();
        let skipped = (start.max(self.first) - self.first).min(kept as u64) as usize;
        let asked = (kept - skipped).min(count.min(1_000) as usize);
        let first = self.first + skipped as u64;
        Ok(Lines::new(lines_from(alloc, first, &self.records, skipped, asked)?))
    }

    /// The bytes of the message whose send stands at the place, whether it was accepted or refused.
    /// Copies share them.
    pub fn bytes_at(&self, ticket: u64) -> &Bytes
        requires kept { self.now.first ≤ ticket }
        requires there { IsSome (message_at ticket self.now.history) }
        ensures { option_map (λ m. m.bytes) (message_at ticket self.now.history) ≡ Some result.now }
    {
        bytes_of(self.send_at(ticket))
    }

    /// The priority of the message whose send stands at the place, whether it was accepted or
    /// refused. A greater one comes out first (POSIX.1-2017, `mq_send`).
    pub fn prio_at(&self, ticket: u64) -> u32
        requires kept { self.now.first ≤ ticket }
        requires there { IsSome (message_at ticket self.now.history) }
        ensures { option_map (λ m. m.priority) (message_at ticket self.now.history) ≡ Some result }
    {
        priority_of(self.send_at(ticket))
    }

    /// Makes room for one record. An `Err` leaves the records as they were; the room may differ.
    #[inline(always)]
    pub fn reserve_one(&mut self) -> Result<(), NoMemory>
        ensures kept { self.new.history ≡ self.old.history }
        ensures room { OnOk result (0 < self.new.room) }
        ensures fits { OnOk result (length self.new.history + 1 < 2 ^ 63) }
        ensures first { self.new.first ≡ self.old.first }
    {
        if self.first + self.records.len() as u64 >= MOST - 1 {
            return Err(NoMemory);
        }
        self.records.reserve(1)?;
        Ok(())
    }

    /// Adds a record at the end, where room was reserved. Takes no memory.
    #[inline(always)]
    pub fn push_reserved(&mut self, added: Record)
        requires { 0 < self.old.room }
        ensures history { self.new.history ≡ added ∷ self.old.history }
        ensures first { self.new.first ≡ self.old.first }
    {
        self.bytes = self.bytes.saturating_add(event_bytes(&added.event));
        self.records.push_back_reserved(added);
    }

    /// Forgets the oldest record that it has, if it has one. The history stays what it was. Takes no memory.
    #[inline(always)]
    pub fn forget_one(&mut self)
        ensures history { self.new.history ≡ self.old.history }
        ensures first { self.new.first ≡ min (self.old.first + 1) (length self.old.history) }
    {
        if let Some(record) = self.records.pop_front() {
            self.bytes = self.bytes.saturating_sub(event_bytes(&record.event));
            let oldest = Snapshot::of(&record);
            self.gone = Snapshot::of(&Gone::Also(oldest, Snapshot::of(&self.gone)));
            self.first += 1;
        }
    }

    /// The event of the send that stands at the place.
    fn send_at(&self, ticket: u64) -> &Event
        requires kept { self.now.first ≤ ticket }
        requires there { IsSome (message_at ticket self.now.history) }
        ensures { message_of result.now ≡ message_at ticket self.now.history }
    {
        let Some(found) = self.get(ticket as usize) else {
            unreachable!();
        };
        &found.event
    }
}

fn find_record(records: &VecDeque<Record>, place: usize) -> Option<&Record>
    ensures { option_copied result ≡ slice_get records.now.items place }
{
    records.get(place)
}
