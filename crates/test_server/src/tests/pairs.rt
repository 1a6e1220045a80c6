//! Two seats at one book, which closes with both.

ghost use Rattle.std.specs.Prelude.{◌≡◌, ◌^◌};

use super::books::{Closed, close_book, shared_book};
use super::memory_tests::serve_both;
use super::seat_tests::{offer_one, pass_one, work_beside};
use super::ticker_tests::{serve_beside_ticker, tick_beside};
use ipc_book::{CloseFault, Seat, Shared};
use std::alloc::Global;
use std::marker::Brand;
use std::process::Abort;
use std::sync::Wait;
use std::sync::ledger::{Blank, Ledger};
use std::test::*;
use std::thread::Threads;
use std::time::Clock;

/// What the two do.
#[derive(Clone, Copy)]
pub(crate) enum Pair {
    /// One connection is served while the other waits in its read.
    Connections,
    /// Each makes many calls, on a thread of its own.
    Threads,
    /// One sends a message, and the other gets it.
    Message,
    /// One offers a call while it has too many answers, and the other answers it.
    Offer,
    /// One waits until a moment, and the other is a ticker's.
    Ticker,
    /// The same of a connection that is served.
    TimedConnection,
}

/// What a new book has once the two have come and it is closed.
pub(crate) fn closed_by<R: Threads + Wait + Clock + Abort + Sync>(
    rt: &R,
    alloc: Global,
    pair: Pair,
) -> Result<Closed, Fail> {
    meet_in::<Brand, R>(rt, alloc, Blank::new(1 << 63), pair)
}

fn meet_in<L: Ledger + Send + Sync, R: Threads + Wait + Clock + Abort + Sync>(
    rt: &R,
    alloc: Global,
    blank: Blank,
    pair: Pair,
) -> Result<Closed, Fail>
    requires name { blank.name ≡ L.name }
    requires parts { blank.parts ≡ L.parts }
    requires many { blank.parts ≡ 2 ^ 63 }
{
    let book: Shared<L> = shared_book(alloc, blank)?;
    let (one, two) = meet(rt, alloc, &book, pair)?;
    close_both(rt, alloc, book, one, two)
}

fn meet<L: Ledger + Send + Sync, R: Threads + Wait + Clock + Abort + Sync>(
    rt: &R,
    alloc: Global,
    book: &Shared<L>,
    pair: Pair,
) -> Result<(Seat<L>, Seat<L>), Fail> {
    match pair {
        Pair::Connections => serve_both(rt, alloc, book),
        Pair::Threads => work_beside(rt, alloc, book),
        Pair::Message => pass_one(rt, alloc, book),
        Pair::Offer => offer_one(rt, alloc, book),
        Pair::Ticker => tick_beside(rt, alloc, book),
        Pair::TimedConnection => serve_beside_ticker(rt, alloc, book),
    }
}

/// With no seat and with one the book doesn't close, and says how many are out; with both it does.
fn close_both<L: Ledger, R: Abort>(
    rt: &R,
    alloc: Global,
    book: Shared<L>,
    one: Seat<L>,
    two: Seat<L>,
) -> Result<Closed, Fail> {
    let none = book.close(alloc, Vec::new(alloc));
    let (fault, book, mut seats) = none.err().ok_or("both seats are out")?;
    assert!(rt; fault == CloseFault::SeatOut(2));
    seats.push(one)?;
    let (fault, book, mut seats) = book.close(alloc, seats).err().ok_or("one seat is out")?;
    assert!(rt; fault == CloseFault::SeatOut(1));
    seats.push(two)?;
    close_book(alloc, book, seats)
}
