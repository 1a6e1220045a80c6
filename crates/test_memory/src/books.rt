//! Books, and what two seats do at one.

ghost use Rattle.std.specs.Prelude.{◌≡◌, ◌^◌};

use crate::cores::seen_of;
use crate::fault::Fault;
use crate::made::{are_lines, call, config};
use crate::subject::{Outcome, Subject, go};
use ipc_book::{Book, CloseFault, OfferFault, Seat};
use ipc_terms::{Answer, NoMemory, Sid, TICK_NUMBER};
use ipc_trail::Receipt;
use std::alloc::Global;
use std::marker::Brand;
use std::sync::ledger::{Blank, Ledger};

/// Whose seat it is.
#[derive(Clone, Copy)]
pub enum Who {
    Ann,
    Bob,
}

/// What is done, and the number of the rule that refuses it; 0 where it is accepted.
pub enum Step {
    /// A seat without a session comes with a key.
    Hello(Who, &'static [u8], u16),
    Call(Who, &'static str, u16),
    HangUp(Who, u16),
    /// A tick of this moment, by a seat without a session.
    Tick(Who, u64),
    /// The lines of what the seat collects.
    Collect(Who, &'static str),
}

use Step::{Call, Collect, HangUp, Hello, Tick};
use Who::{Ann, Bob};

impl Step {
    pub fn who(&self) -> Who {
        match self {
            Hello(who, ..) | Call(who, ..) | HangUp(who, _) | Tick(who, _) | Collect(who, _) =>
                *who,
        }
    }
}

/// What is done at a book.
#[derive(Clone, Copy)]
pub enum Case {
    Calls,
    Ticks,
}

static CALLS: [Step; 17] = [
    Hello(Bob, b"zz", 31),
    Call(Bob, "umask 000", 1),
    Hello(Ann, b"ka1", 0),
    Call(Ann, "mq-open /k rw --create --mode 0666", 0),
    Hello(Bob, b"kb1", 0),
    Call(Bob, "mq-open /k rw", 15),
    Call(Ann, "mq-close 7", 8),
    Call(Ann, "chmod 0644 mq /k", 0),
    Call(Bob, "mq-open /k r", 0),
    Call(Bob, "mq-receive 1 8192", 0),
    Call(Ann, "mq-send 0 5 hi", 0),
    Collect(
        Bob,
        "started 1\nrefused 15 EACCES ModeDenied\nopened 1\nreceived 5 hi\n",
    ),
    Collect(Bob, ""),
    HangUp(Bob, 0),
    Call(Bob, "umask 000", 1),
    Collect(
        Ann,
        "started 0\nopened 0\nrefused 8 EBADF BadDescr\ndone\nsent\n",
    ),
    HangUp(Ann, 0),
];

static TICKS: [Step; 10] = [
    Hello(Ann, b"ka1", 0),
    Call(Ann, "sem-open /s --create", 0),
    Call(Ann, "sem-timedwait 0 5", 0),
    Tick(Bob, 4),
    Collect(Ann, "started 0\nopened 0\n"),
    Tick(Bob, 5),
    Tick(Bob, 5),
    Collect(Ann, "refused 32 ETIMEDOUT TimedOut\n"),
    Call(Ann, "sem-timedwait 0 5", 32),
    HangUp(Ann, 0),
];

impl Case {
    fn steps(self) -> &'static [Step] {
        match self {
            Case::Calls => &CALLS,
            Case::Ticks => &TICKS,
        }
    }

    /// How many records the trail has in the end.
    fn records(self) -> usize {
        match self {
            Case::Calls => 14,
            Case::Ticks => 8,
        }
    }
}

/// More answers than a seat leaves untaken here.
pub const MOST_UNTAKEN: usize = 8;

/// How often a case is begun, and a book closed.
pub const TRIES: usize = 3;

/// A book that serves seats, whoever has it.
pub trait Serves: Drop {
    type Seat: Drop;

    /// What is seen of the book and of two seats.
    type Seen: PartialEq + Drop;

    fn new_seat(&mut self, alloc: Global) -> Result<Self::Seat, NoMemory>;

    /// Comes with a key, on a seat without a session.
    fn hello(&mut self, alloc: Global, seat: &mut Self::Seat, key: &[u8]) -> Result<Receipt, Fault>;

    fn call(
        &mut self,
        alloc: Global,
        who: Who,
        seat: &mut Self::Seat,
        asked: ipc_terms::Call,
    ) -> Result<Receipt, Fault>;

    fn hang_up(&mut self, alloc: Global, seat: &mut Self::Seat) -> Result<Receipt, Fault>;

    /// Makes a tick, by a seat without a session.
    fn tick(&mut self, alloc: Global, seat: &mut Self::Seat, moment: u64) -> Result<Receipt, Fault>;

    fn answers(&mut self, seat: &Self::Seat) -> Vec<Answer>;

    fn seen(&self, alloc: Global, ann: &Self::Seat, bob: &Self::Seat) -> Result<Self::Seen, Fault>;

    /// Closes the book with the seats: how many records its trail has.
    fn close_with(
        self,
        alloc: Global,
        seats: Vec<Self::Seat>,
    ) -> Result<usize, (CloseFault, Self, Vec<Self::Seat>)>;
}

/// What a call that was offered gives, which has room for its answers.
pub fn taken<T, B: Drop>(offered: Result<T, (OfferFault, B)>) -> Result<T, Fault> {
    match offered {
        Ok(given) => Ok(given),
        Err((OfferFault::Fault(fault), _)) => Err(Fault::from(fault)),
        Err((OfferFault::Full, _)) => Err(Fault::Otherwise),
    }
}

impl<L: Ledger> Serves for Book<L> {
    type Seat = Seat<L>;

    /// What is seen of the core, and of each seat.
    type Seen = (String, (Option<Sid>, usize), (Option<Sid>, usize));

    fn new_seat(&mut self, alloc: Global) -> Result<Seat<L>, NoMemory> {
        self.seat(alloc)
    }

    fn hello(&mut self, alloc: Global, seat: &mut Seat<L>, key: &[u8]) -> Result<Receipt, Fault> {
        if seat.sid().is_some() {
            return Err(Fault::Otherwise);
        }
        Ok(self.hello_for(alloc, seat, key)?)
    }

    fn call(
        &mut self,
        alloc: Global,
        who: Who,
        seat: &mut Seat<L>,
        asked: ipc_terms::Call,
    ) -> Result<Receipt, Fault> {
        match who {
            Ann => Ok(self.step_for(alloc, seat, asked)?),
            Bob => Ok(taken(self.offer_with_copy(alloc, seat, asked, None, MOST_UNTAKEN))?.0),
        }
    }

    fn hang_up(&mut self, alloc: Global, seat: &mut Seat<L>) -> Result<Receipt, Fault> {
        Ok(self.hang_up_for(alloc, seat)?)
    }

    fn tick(&mut self, alloc: Global, seat: &mut Seat<L>, moment: u64) -> Result<Receipt, Fault> {
        if seat.sid().is_some() {
            return Err(Fault::Otherwise);
        }
        Ok(self.tick_for(alloc, seat, moment)?)
    }

    fn answers(&mut self, seat: &Seat<L>) -> Vec<Answer> {
        self.collect(seat)
    }

    fn seen(&self, alloc: Global, ann: &Seat<L>, bob: &Seat<L>) -> Result<Self::Seen, Fault> {
        let ann = (ann.sid(), ann.len());
        let bob = (bob.sid(), bob.len());
        Ok((seen_of(self.core(), alloc)?, ann, bob))
    }

    fn close_with(
        self,
        alloc: Global,
        seats: Vec<Seat<L>>,
    ) -> Result<usize, (CloseFault, Self, Vec<Seat<L>>)> {
        match self.close(alloc, seats) {
            Ok(closed) => Ok(closed.core().trail().len()),
            Err(fault) => Err(fault),
        }
    }
}

/// A new book.
pub fn book_of<L: Ledger>(alloc: Global, blank: Blank) -> Result<Book<L>, Fault>
    requires name { blank.name ≡ L.name }
    requires parts { blank.parts ≡ L.parts }
    requires many { blank.parts ≡ 2 ^ 63 }
{
    Ok(Book::new(alloc, config(alloc)?, blank)?)
}

/// A seat. One that is refused memory is asked for again, and is none of those that the book wants back.
pub fn seat_at<B: Serves>(book: &mut B, alloc: Global) -> Result<B::Seat, Fault> {
    for _ in 0..TRIES {
        if let Ok(seat) = book.new_seat(alloc) {
            return Ok(seat);
        }
    }
    Err(Fault::Refused)
}

/// Two seats.
fn seats_at<B: Serves>(book: &mut B, alloc: Global) -> Result<Vec<B::Seat>, Fault> {
    let mut seats = Vec::new(alloc);
    seats.push(seat_at(book, alloc)?)?;
    seats.push(seat_at(book, alloc)?)?;
    Ok(seats)
}

/// Whether it is the receipt of an accepted tick.
fn is_ticks(receipt: Receipt) -> bool {
    (receipt.sid, receipt.op, receipt.rule) == (Sid::NOBODY, TICK_NUMBER, 0)
}

/// Makes the step on a seat, and says whether it gives what it must: the rule of its number refuses it, or these are the
/// lines of what the seat collects.
fn give<B: Serves>(
    book: &mut B,
    seat: &mut B::Seat,
    alloc: Global,
    step: &Step,
) -> Result<bool, Fault> {
    match *step {
        Hello(_, key, rule) => Ok(book.hello(alloc, seat, key)?.rule == rule),
        Call(who, command, rule) => {
            let asked = call(alloc, command)?;
            Ok(book.call(alloc, who, seat, asked)?.rule == rule)
        }
        HangUp(_, rule) => Ok(book.hang_up(alloc, seat)?.rule == rule),
        Tick(_, moment) => Ok(is_ticks(book.tick(alloc, seat, moment)?)),
        Collect(_, lines) => are_lines(alloc, &book.answers(seat), lines),
    }
}

/// A book, and two seats at it.
#[derive(Drop)]
struct Desk<'b, 's, B: Serves> {
    book: &'b mut B,
    ann: &'s mut B::Seat,
    bob: &'s mut B::Seat,
}

impl<B: Serves> Subject for Desk<'_, '_, B> {
    type Step = Step;

    type Seen = B::Seen;

    fn gives(&mut self, alloc: Global, step: &Step) -> Result<bool, Fault> {
        match step.who() {
            Ann => give(self.book, self.ann, alloc, step),
            Bob => give(self.book, self.bob, alloc, step),
        }
    }

    fn seen(&self, alloc: Global, _step: &Step) -> Result<B::Seen, Fault> {
        self.book.seen(alloc, self.ann, self.bob)
    }
}

/// Closes the book with the seats, until that is not refused memory. How many records its trail has, if it closes.
pub fn records_of<B: Serves>(
    alloc: Global,
    book: B,
    seats: Vec<B::Seat>,
) -> Result<Option<usize>, Fault> {
    let (mut book, mut seats) = (book, seats);
    for _ in 0..TRIES {
        match book.close_with(alloc, seats) {
            Ok(records) => return Ok(Some(records)),
            Err((CloseFault::NoMemory, same, given_back)) => {
                book = same;
                seats = given_back;
            }
            Err(_) => return Ok(None),
        }
    }
    Err(Fault::Refused)
}

/// Makes the steps on the book and its two seats.
fn go_at<B: Serves>(book: &mut B, seats: &mut [B::Seat], alloc: Global, steps: &[Step]) -> Outcome {
    match seats {
        [ann, bob] => {
            let mut desk = Desk { book, ann, bob };
            go(&mut desk, alloc, steps)
        }
        _ => Err((0, Fault::Otherwise)),
    }
}

/// Makes two seats at the book, the steps, and closes the book: its trail is to be whole.
pub fn go_with<B: Serves>(alloc: Global, mut book: B, case: Case) -> Outcome {
    let mut seats = match seats_at(&mut book, alloc) {
        Ok(seats) => seats,
        Err(fault) => return Err((0, fault.of_case())),
    };
    go_at(&mut book, &mut seats, alloc, case.steps())?;
    match records_of(alloc, book, seats) {
        Ok(Some(records)) if records == case.records() => Ok(()),
        Ok(_) => Err((case.steps().len(), Fault::Otherwise)),
        Err(fault) => Err((case.steps().len(), fault.of_case())),
    }
}

fn go_once<L: Ledger>(alloc: Global, blank: Blank, case: Case) -> Outcome
    requires name { blank.name ≡ L.name }
    requires parts { blank.parts ≡ L.parts }
    requires many { blank.parts ≡ 2 ^ 63 }
{
    match book_of::<L>(alloc, blank) {
        Ok(book) => go_with(alloc, book, case),
        Err(fault) => Err((0, fault.of_case())),
    }
}

/// Makes a book and two seats, the steps, and closes the book.
pub fn go_anew(alloc: Global, case: Case) -> Outcome {
    for _ in 0..TRIES {
        match go_once::<Brand>(alloc, Blank::new(1 << 63), case) {
            Err((_, Fault::Anew)) => {}
            outcome => return outcome,
        }
    }
    Err((0, Fault::Refused))
}
