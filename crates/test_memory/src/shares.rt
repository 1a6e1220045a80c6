//! Books that threads share: ann's calls are stepped at once, and bob's only where there is room for their answers.

ghost use Rattle.std.specs.Prelude.{◌≡◌, ◌^◌};

use crate::books::{Case, MOST_UNTAKEN, Serves, TRIES, Who, book_of, go_with, taken};
use crate::fault::Fault;
use crate::subject::Outcome;
use ipc_book::{CloseFault, Seat, Shared};
use ipc_terms::{Answer, Call, NoMemory, Sid};
use ipc_trail::Receipt;
use std::alloc::Global;
use std::marker::Brand;
use std::sync::Wait;
use std::sync::ledger::{Blank, Ledger};

/// A shared book, and the runtime that waits for its lock.
#[derive(Drop)]
pub struct Hall<'r, L: Ledger, R: Wait> {
    pub rt: &'r R,
    pub book: Shared<L>,
}

impl<L: Ledger, R: Wait> Serves for Hall<'_, L, R> {
    type Seat = Seat<L>;

    /// The session of each seat, how many receipts it keeps, and how many answers wait.
    type Seen = ((Option<Sid>, usize, usize), (Option<Sid>, usize, usize));

    fn new_seat(&mut self, alloc: Global) -> Result<Seat<L>, NoMemory> {
        self.book.seat(self.rt, alloc)
    }

    fn hello(&mut self, alloc: Global, seat: &mut Seat<L>, key: &[u8]) -> Result<Receipt, Fault> {
        if seat.sid().is_some() {
            return Err(Fault::Otherwise);
        }
        Ok(self.book.hello(self.rt, alloc, seat, key)?)
    }

    fn call(
        &mut self,
        alloc: Global,
        who: Who,
        seat: &mut Seat<L>,
        asked: Call,
    ) -> Result<Receipt, Fault> {
        match who {
            Who::Ann => Ok(self.book.call(self.rt, alloc, seat, asked)?),
            Who::Bob => taken(self.book.offer(self.rt, alloc, seat, asked, MOST_UNTAKEN)),
        }
    }

    fn hang_up(&mut self, alloc: Global, seat: &mut Seat<L>) -> Result<Receipt, Fault> {
        Ok(self.book.hang_up(self.rt, alloc, seat)?)
    }

    /// Where no call is due, a tick is made all the same.
    fn tick(&mut self, alloc: Global, seat: &mut Seat<L>, moment: u64) -> Result<Receipt, Fault> {
        if seat.sid().is_some() {
            return Err(Fault::Otherwise);
        }
        if let Some(receipt) = self.book.tick_if_due(self.rt, alloc, seat, moment)? {
            return Ok(receipt);
        }
        Ok(self.book.tick(self.rt, alloc, seat, moment)?)
    }

    fn answers(&mut self, seat: &Seat<L>) -> Vec<Answer> {
        self.book.collect(self.rt, seat)
    }

    fn seen(&self, _alloc: Global, ann: &Seat<L>, bob: &Seat<L>) -> Result<Self::Seen, Fault> {
        let ann = (ann.sid(), ann.len(), self.book.waiting(self.rt, ann));
        let bob = (bob.sid(), bob.len(), self.book.waiting(self.rt, bob));
        Ok((ann, bob))
    }

    fn close_with(
        self,
        alloc: Global,
        seats: Vec<Seat<L>>,
    ) -> Result<usize, (CloseFault, Self, Vec<Seat<L>>)> {
        let Hall { rt, book } = self;
        match book.close(alloc, seats) {
            Ok(closed) => Ok(closed.core().trail().len()),
            Err((fault, book, seats)) => Err((fault, Hall { rt, book }, seats)),
        }
    }
}

fn go_once<L: Ledger, R: Wait>(rt: &R, alloc: Global, blank: Blank, case: Case) -> Outcome
    requires name { blank.name ≡ L.name }
    requires parts { blank.parts ≡ L.parts }
    requires many { blank.parts ≡ 2 ^ 63 }
{
    match book_of::<L>(alloc, blank) {
        Ok(book) => {
            let book = Shared::new(book);
            go_with(alloc, Hall { rt, book }, case)
        }
        Err(fault) => Err((0, fault.of_case())),
    }
}

/// Makes a shared book and two seats, the steps, and closes the book.
pub fn go_anew<R: Wait>(rt: &R, alloc: Global, case: Case) -> Outcome {
    for _ in 0..TRIES {
        match go_once::<Brand, R>(rt, alloc, Blank::new(1 << 63), case) {
            Err((_, Fault::Anew)) => {}
            outcome => return outcome,
        }
    }
    Err((0, Fault::Refused))
}
