//! Books of the tests' users, and what a connection or workers leave that are served at one.

ghost use Rattle.std.specs.Prelude.{◌≡◌, ◌^◌, ◌≤◌};

use ipc_access::Users;
use ipc_book::{Book, Seat, Shared};
use ipc_core::{Config, Core, Limits};
use ipc_server::{Ending, Gate, Link, Listen, WorkersFault, run_workers, serve_connection};
use ipc_terms::{Event, Record, Sid};
use std::alloc::Global;
use std::io::{Read, Write};
use std::marker::Brand;
use std::sync::Wait;
use std::sync::ledger::{Blank, Ledger};
use std::test::Fail;
use std::thread::Threads;

const FILE: &[u8] =
    b"root:r00t:0:0::\nann:ka1:1000:1000:50:\nbob:kb1:1001:1001:50,51:\ncy:kc1:1002:1002::\n";

/// A new book, behind its lock.
pub(crate) fn shared_book<L: Ledger>(alloc: Global, blank: Blank) -> Result<Shared<L>, Fail>
    requires name { blank.name ≡ L.name }
    requires parts { blank.parts ≡ L.parts }
    requires many { blank.parts ≡ 2 ^ 63 }
{
    let config = Config {
        users: Users::read(alloc, FILE)?,
        limits: Limits::STANDARD,
    };
    let book = Book::new(alloc, config, blank).ok().ok_or("a book")?;
    Ok(Shared::new(book))
}

/// What a closed book's trail has.
#[derive(Clone, Copy, PartialEq, Eq)]
pub(crate) struct Closed {
    pub(crate) records: usize,
    /// The last record is an accepted hang-up.
    pub(crate) is_hung_up: bool,
    /// How many answers the first session has not taken.
    pub(crate) untaken: usize,
}

/// Closes the book with these seats, which are all that it made.
pub(crate) fn close_book<L: Ledger>(
    alloc: Global,
    book: Shared<L>,
    seats: Vec<Seat<L>>,
) -> Result<Closed, Fail> {
    let book = book.close(alloc, seats).ok().ok_or("the book closes")?;
    Ok(end_of(book.core()))
}

fn end_of(core: &Core) -> Closed {
    let records = core.trail().len();
    let last = core.trail().get(records.saturating_sub(1));
    Closed {
        records,
        is_hung_up: last.is_some_and(is_hang_up),
        untaken: core.waiting(Sid(0)),
    }
}

fn is_hang_up(record: &Record) -> bool {
    record.rule.is_none() && matches!(&record.event, Event::Hangup { .. })
}

/// How a connection ended that was served alone, and what it left.
#[derive(Clone, Copy, PartialEq, Eq)]
pub(crate) struct Left {
    pub(crate) ending: Ending,
    /// The seat came back with a session.
    pub(crate) is_live: bool,
    pub(crate) closed: Closed,
}

/// Serves a connection through the one seat of a new book, and closes the book.
pub(crate) fn serve_alone<
    R: Threads + Wait + Sync,
    I: Read + Drop,
    O: Write + Send + Drop,
    G: Gate + Sync,
>(rt: &R, alloc: Global, reader: I, writer: O, gate: &G) -> Result<Left, Fail> {
    serve_in::<Brand, R, I, O, G>(rt, alloc, Blank::new(1 << 63), reader, writer, gate)
}

fn serve_in<
    L: Ledger + Send + Sync,
    R: Threads + Wait + Sync,
    I: Read + Drop,
    O: Write + Send + Drop,
    G: Gate + Sync,
>(rt: &R, alloc: Global, blank: Blank, reader: I, writer: O, gate: &G) -> Result<Left, Fail>
    requires name { blank.name ≡ L.name }
    requires parts { blank.parts ≡ L.parts }
    requires many { blank.parts ≡ 2 ^ 63 }
{
    let book: Shared<L> = shared_book(alloc, blank)?;
    let seat = book.seat(rt, alloc).ok().ok_or("a seat")?;
    let served = serve_connection(rt, alloc, &book, seat, 0, reader, writer, gate);
    let is_live = served.seat.sid().is_some();
    let mut seats = Vec::new(alloc);
    seats.push(served.seat)?;
    Ok(Left {
        ending: served.ending,
        is_live,
        closed: close_book(alloc, book, seats)?,
    })
}

/// What workers serve.
#[derive(Drop)]
pub(crate) struct Work<'a, N, G> {
    pub(crate) listener: &'a N,
    /// How many workers serve it.
    pub(crate) workers: usize,
    /// After how many connections they stop.
    pub(crate) stop_after: Option<u64>,
    pub(crate) gate: &'a G,
    ghost some: { 1 ≤ workers },
}

/// How workers ended, and what they left.
#[derive(Clone, Copy, PartialEq, Eq)]
pub(crate) struct Worked {
    pub(crate) outcome: Result<(), WorkersFault>,
    /// How many seats came back.
    pub(crate) seats: usize,
    pub(crate) closed: Closed,
}

/// Serves connections by workers at a new book, and closes the book with their seats.
pub(crate) fn serve_by_workers<
    R: Threads + Wait + Sync,
    C: Link + Send + Sync + Drop,
    N: Listen<Conn = C>,
    G: Gate + Sync,
>(rt: &R, alloc: Global, work: &Work<'_, N, G>) -> Result<Worked, Fail> {
    work_in::<Brand, R, C, N, G>(rt, alloc, Blank::new(1 << 63), work)
}

fn work_in<
    L: Ledger + Send + Sync,
    R: Threads + Wait + Sync,
    C: Link + Send + Sync + Drop,
    N: Listen<Conn = C>,
    G: Gate + Sync,
>(rt: &R, alloc: Global, blank: Blank, work: &Work<'_, N, G>) -> Result<Worked, Fail>
    requires name { blank.name ≡ L.name }
    requires parts { blank.parts ≡ L.parts }
    requires many { blank.parts ≡ 2 ^ 63 }
{
    let book: Shared<L> = shared_book(alloc, blank)?;
    let (workers, stop_after) = (work.workers, work.stop_after);
    let ended = run_workers(
        rt,
        alloc,
        work.listener,
        &book,
        workers,
        stop_after,
        work.gate,
    );
    let (outcome, seats) = match ended {
        Ok(seats) => (Ok(()), seats),
        Err((fault, seats)) => (Err(fault), seats),
    };
    Ok(Worked {
        outcome,
        seats: seats.len(),
        closed: close_book(alloc, book, seats)?,
    })
}
