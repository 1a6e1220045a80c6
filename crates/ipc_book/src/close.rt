//! The comparison of the seats' lists with the trail.

ghost use Rattle.std.specs.Prelude.{◌≡◌, ◌≢◌, ◌<◌, ◌≤◌, ◌+◌, ◌↔◌, ℕ, List, None, [], ◌∷◌, ◌++◌, Some, Err, true, false, length, min, slice_get, slice_index, IsTrue, IfOk, OnOk, MatchOption, ⊤};
ghost use Rattle.ipc_book.specs.Seats.{SeatView, IsInOrder};
ghost use Rattle.ipc_book.specs.Closing.{IsInTrail, AllInTrail, Counted, AreTheTrail, FirstMissing, all_kept};
ghost use Rattle.ipc_book.specs.declared.entry.Entry.{Entry as Listed};
ghost use Rattle.ipc_book.specs.declared.entry.CloseFault.TheVariants.{SeatOut, Missing};

use crate::entry::{CloseFault, Entry};
use crate::events::same_event;
use crate::seat::{Receipts, Seat};
use ipc_core::Core;
use ipc_terms::NoMemory;
use std::alloc::Global;
use std::sync::ledger::{Ledger, Share};

/// Whether the receipt and its event stand in the trail at the receipt's place.
fn stands(core: &Core, entry: &Entry) -> bool
    requires whole { core.now.first ≡ 0 }
    ensures { IsTrue result ↔ IsInTrail core.now.history entry.now }
{
    let place = entry.receipt.place as usize;
    let Some(found) = core.trail().get(place) else {
        return false;
    };
    core.trail().receipt(place) == Some(entry.receipt) && same_event(&found.event, &entry.event)
}

/// One more, up to 2.
fn up(n: u8) -> u8
    ensures { result ≡ min 2 (n + 1) }
{
    if n < 2 { n + 1 } else { 2 }
}

/// Counts an entry that stands.
fn note(core: &Core, entry: &Entry, counts: &mut [u8]) -> bool
    requires whole { core.now.first ≡ 0 }
    requires counts { length counts.old ≡ length core.now.history }
    ensures stands { IsTrue result ↔ IsInTrail core.now.history entry.now }
    ensures counted { (xs : List Listed) → Counted core.now.history counts.old xs → Counted core.now.history counts.new (xs ++ entry.now ∷ []) }
{
    if !stands(core, entry) {
        return false;
    }
    let at = entry.receipt.place as usize;
    counts[at] = up(counts[at]);
    true
}

/// Counts a seat's entries. True if all stand.
fn tally(core: &Core, entries: &Vec<Entry>, counts: &mut [u8]) -> bool
    requires whole { core.now.first ≡ 0 }
    requires counts { length counts.old ≡ length core.now.history }
    ensures stand { result ≡ true → AllInTrail core.now.history entries.now.items }
    ensures fall { result ≡ false → AllInTrail core.now.history entries.now.items → ⊥ }
    ensures counted { (xs : List Listed) → Counted core.now.history counts.old xs → Counted core.now.history counts.new (xs ++ entries.now.items) }
{
    let mut all = true;
    for entry in entries {
        if !note(core, entry, counts) {
            all = false;
        }
    }
    all
}

/// Counts what one seat keeps. True if all of it stands.
fn tally_seat<L: Ledger>(core: &Core, seat: &Seat<L>, counts: &mut [u8]) -> bool
    requires whole { core.now.first ≡ 0 }
    requires counts { length counts.old ≡ length core.now.history }
    ensures stand { result ≡ true → AllInTrail core.now.history seat.now.list }
    ensures fall { result ≡ false → AllInTrail core.now.history seat.now.list → ⊥ }
    ensures counted { (xs : List Listed) → Counted core.now.history counts.old xs → Counted core.now.history counts.new (xs ++ seat.now.list) }
{
    tally(core, seat.receipts.entries(), counts)
}

/// Counts what all seats keep. True if all of it stands.
fn tally_all<L: Ledger>(core: &Core, seats: &Vec<Seat<L>>, counts: &mut [u8]) -> bool
    requires whole { core.now.first ≡ 0 }
    requires counts { length counts.old ≡ length core.now.history }
    ensures stand { result ≡ true → AllInTrail core.now.history (all_kept seats.now.items) }
    ensures fall { result ≡ false → AllInTrail core.now.history (all_kept seats.now.items) → ⊥ }
    ensures counted { Counted core.now.history counts.old [] → Counted core.now.history counts.new (all_kept seats.now.items) }
    ensures order { (i : ℕ) (s : SeatView) → slice_get seats.now.items i ≡ Some s → IsInOrder s.list }
{
    let mut all = true;
    for seat in seats {
        seat.in_order();
        if !tally_seat(core, seat, counts) {
            all = false;
        }
    }
    all
}

/// The first place that isn't counted once.
fn first_amiss(counts: &[u8]) -> Option<usize>
    ensures none { result ≡ None → (p : ℕ) → p < length counts.now → slice_index counts.now p ≡ 1 }
    ensures some { MatchOption result ⊤ (λ p. (p < length counts.now) × (slice_index counts.now p ≢ 1) × ((q : ℕ) → q < p → slice_index counts.now q ≡ 1)) }
{
    for (i, n) in counts.iter().enumerate() {
        if *n != 1 {
            return Some(i);
        }
    }
    None
}

/// One count a place for what all seats keep, and whether all of it stands.
fn counts_of<L: Ledger>(
    core: &Core,
    alloc: Global,
    seats: &Vec<Seat<L>>,
) -> Result<(Vec<u8>, bool), NoMemory>
    requires whole { core.now.first ≡ 0 }
    ensures places { IfOk result (λ t. length t.0.items ≡ length core.now.history) }
    ensures counted { IfOk result (λ t. Counted core.now.history t.0.items (all_kept seats.now.items)) }
    ensures stand { IfOk result (λ t. t.1 ≡ true → AllInTrail core.now.history (all_kept seats.now.items)) }
    ensures fall { IfOk result (λ t. t.1 ≡ false → AllInTrail core.now.history (all_kept seats.now.items) → ⊥) }
    ensures order { OnOk result ((i : ℕ) (s : SeatView) → slice_get seats.now.items i ≡ Some s → IsInOrder s.list) }
{
    let Ok(mut counts) = vec![in alloc; 0u8; core.trail().len()] else {
        return Err(NoMemory);
    };
    let all = tally_all(core, seats, counts.as_mut_slice());
    Ok((counts, all))
}

/// Compares what the seats keep with the trail, by one count a place.
pub(crate) fn audit<L: Ledger>(
    core: &Core,
    alloc: Global,
    seats: &Vec<Seat<L>>,
) -> Result<(), CloseFault>
    requires whole { core.now.first ≡ 0 }
    ensures ok { OnOk result (AreTheTrail core.now.history seats.now.items) }
    ensures missing { (p : ℕ) → result ≡ Err (Missing p) → FirstMissing core.now.history (all_kept seats.now.items) p }
    ensures none_out { (n : ℕ) → result ≡ Err (SeatOut n) → ⊥ }
{
    let Ok((counts, all)) = counts_of(core, alloc, seats) else {
        return Err(CloseFault::NoMemory);
    };
    match first_amiss(counts.as_slice()) {
        Some(p) => Err(CloseFault::Missing(p as u64)),
        None if all => Ok(()),
        None => Err(CloseFault::Missing(counts.len() as u64)),
    }
}

/// Puts the seats' shares to this one.
pub(crate) fn gather<L: Ledger>(home: &mut Share<L>, seats: Vec<Seat<L>>)
    ensures { home.old.parts ≤ home.new.parts }
{
    for seat in seats {
        let Seat { sid: _, receipts } = seat;
        let Receipts { entries: _, share } = receipts;
        home.merge(share);
    }
}
