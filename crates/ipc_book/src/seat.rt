//! Seats.

ghost use Rattle.std.specs.Prelude.{◌≡◌, [], length, IfSome};
ghost use Rattle.ipc_terms.specs.declared.record.Event.TheVariants.{Do};
ghost use Rattle.ipc_book.specs.Seats.{IsInOrder, session_of};

use crate::entry::Entry;
use ipc_terms::{Call, Event, Sid};
use std::alloc::Global;
use std::marker::Model;
use std::sync::ledger::{Ledger, Share};

/// Receipts in order, each with its event, and a share of a ledger, which is one for each of them. A
/// type of its own, so that only what adds a receipt proves this again.
#[derive(Drop)]
pub(crate) struct Receipts<L: Ledger> {
    pub(crate) entries: Vec<Entry>,
    pub(crate) share: Share<L>,
}

impl<L: Ledger> Model for Receipts<L> {
    ghost use Rattle.std.specs.Prelude.{◌≡◌, length};
    ghost use Rattle.ipc_book.specs.Seats.{ReceiptsView, IsInOrder};

    ghost Value = { ReceiptsView };

    ghost view = { λ s. record { list = s.entries.items; share = s.share.amount } };

    ghost invariant = { λ s. (s.share.parts ≡ 1) × (s.share.amount ≡ length s.entries.items) × IsInOrder s.entries.items };
}

/// A session's place at a book: its receipts in order, each with its event, and its share of the
/// book's ledger, which is one for each of them.
#[derive(Drop)]
pub struct Seat<L: Ledger> {
    pub(crate) sid: Option<Sid>,
    pub(crate) receipts: Receipts<L>,
}

impl<L: Ledger> Model for Seat<L> {
    ghost use Rattle.ipc_book.specs.Seats.{SeatView};

    ghost Value = { SeatView };

    ghost view = { λ s. record { sid = s.sid; list = s.receipts.list; share = s.receipts.share } };
}

impl<L: Ledger> Receipts<L> {
    /// No receipts. Takes no memory.
    pub(crate) fn new(alloc: Global, share: Share<L>) -> Self
        requires parts { share.parts ≡ 1 }
        requires amount { share.amount ≡ 0 }
        ensures { result ≡ record { list = []; share = 0 } }
    {
        Receipts {
            entries: Vec::new(alloc),
            share,
        }
    }

    /// How many receipts there are.
    pub(crate) fn len(&self) -> usize
        ensures { result ≡ length self.now.list }
    {
        self.entries.len()
    }

    /// The receipts, each with its event.
    pub(crate) fn entries(&self) -> &Vec<Entry>
        ensures { result.now.items ≡ self.now.list }
    {
        &self.entries
    }

    /// Tries to make room for one more receipt.
    pub(crate) fn make_room(&mut self)
        ensures { self.new ≡ self.old }
    {
        let _ = self.entries.reserve(1);
    }

    /// They stand in the order of their places, and the share is one for each. Does nothing; a fact of
    /// the type.
    pub(crate) fn in_order(&self)
        ensures order { IsInOrder self.now.list }
        ensures share { self.now.share ≡ length self.now.list }
    {
        let _entries = &self.entries;
    }
}

impl<L: Ledger> Seat<L> {
    /// The seat's session.
    pub fn sid(&self) -> Option<Sid>
        ensures { result ≡ self.now.sid }
    {
        self.sid
    }

    /// The event of a call by the seat's session, or by nobody where the seat has none.
    pub(crate) fn calling(&self, call: Call) -> Event
        ensures { result ≡ Do (session_of self.now.sid) call }
    {
        Event::Do {
            sid: self.sid.unwrap_or(Sid::NOBODY),
            call,
        }
    }

    /// A copy of the event of a call by the seat's session, or by nobody where the seat has none, if there is
    /// memory for one.
    pub(crate) fn copy_of(&self, call: &Call) -> Option<Event>
        ensures { IfSome result (λ event. event ≡ Do (session_of self.now.sid) call.now) }
    {
        let call = call.clone().ok()?;
        Some(self.calling(call))
    }

    /// Tries to make room for one more receipt.
    pub(crate) fn make_room(&mut self)
        ensures { self.new ≡ self.old }
    {
        self.receipts.make_room();
    }

    /// How many receipts it keeps.
    pub fn len(&self) -> usize
        ensures { result ≡ length self.now.list }
    {
        self.receipts.len()
    }

    /// Its receipts stand in the order of their places, and its share of the ledger is one for each.
    /// Does nothing; a fact of every seat.
    pub fn in_order(&self)
        ensures order { IsInOrder self.now.list }
        ensures share { self.now.share ≡ length self.now.list }
    {
        self.receipts.in_order();
    }
}
