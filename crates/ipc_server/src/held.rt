//! A seat behind a lock of its own.

ghost use Rattle.std.specs.Prelude.{◌≡◌, ◌+◌, length, IfOk, OnOk};

use ipc_book::{OfferFault, Seat, Shared, StepFault};
use ipc_terms::{Answer, Call, Sid};
use std::alloc::Global;
use std::marker::{Brand, Model, PhantomData};
use std::sync::ledger::Ledger;
use std::sync::{Arc, Wait};

/// With what a seat's receipts began; proofs alone read it.
pub trait Origin {
    ghost use Rattle.std.specs.Prelude.{List};
    ghost use Rattle.ipc_book.specs.declared.entry.Entry.{Entry};

    ghost list: { List Entry };
}

impl Origin for Brand {
    ghost use Rattle.std.specs.Prelude.{[]};

    ghost list = { [] };
}

/// A seat whose receipts go on from those that it came with, whatever is done under the lock.
#[derive(Drop)]
pub(crate) struct Held<L: Ledger, B: Origin> {
    pub(crate) seat: Seat<L>,
    pub(crate) of: PhantomData<B>,
}

impl<L: Ledger, B: Origin> Model for Held<L, B> {
    ghost use Rattle.ipc_book.specs.Seats.{SeatView};
    ghost use Rattle.ipc_server.specs.Begun.{BeginsWith};

    ghost Value = { SeatView };

    ghost view = { λ h. h.seat };

    ghost invariant = { λ h. BeginsWith B.list h.seat.list };
}

impl<L: Ledger, B: Origin> Held<L, B> {
    /// A seat with receipts that are the origin.
    pub(crate) fn new(seat: Seat<L>) -> Held<L, B>
        requires { seat.list ≡ B.list }
        ensures { result ≡ seat }
    {
        Held {
            seat,
            of: PhantomData,
        }
    }

    /// The session, if there is one.
    pub(crate) fn sid(&self) -> Option<Sid>
        ensures { result ≡ self.now.sid }
    {
        self.seat.sid()
    }

    /// Steps a hello where there is no session yet. The session that starts, if the key was somebody's.
    pub(crate) fn hello<R: Wait>(
        &mut self,
        rt: &R,
        alloc: Global,
        shared: &Shared<L>,
        key: &[u8],
    ) -> Result<Option<Sid>, StepFault>
        ensures { IfOk result (λ sid. sid ≡ self.new.sid) }
    {
        if self.seat.sid().is_none() {
            shared.hello(rt, alloc, &mut self.seat, key)?;
        }
        Ok(self.seat.sid())
    }

    /// Steps a call, if fewer than so many answers are untaken.
    pub(crate) fn offer<R: Wait>(
        &mut self,
        rt: &R,
        alloc: Global,
        shared: &Shared<L>,
        call: Call,
        most: usize,
    ) -> Result<(), (OfferFault, Call)>
        ensures { OnOk result (length self.new.list ≡ length self.old.list + 1) }
    {
        shared.offer(rt, alloc, &mut self.seat, call, most)?;
        Ok(())
    }

    pub(crate) fn hang_up<R: Wait>(
        &mut self,
        rt: &R,
        alloc: Global,
        shared: &Shared<L>,
    ) -> Result<(), StepFault> {
        shared.hang_up(rt, alloc, &mut self.seat)?;
        Ok(())
    }

    /// What is untaken.
    pub(crate) fn collect<R: Wait>(&self, rt: &R, shared: &Shared<L>) -> Vec<Answer> {
        shared.collect(rt, &self.seat)
    }
}
