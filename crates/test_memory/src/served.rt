//! Connections that are served, over memory. One that is refused memory may end early; what it has been answered by then
//! is the beginning of what it is to be answered, its session is hung up, and its seat comes back.

ghost use Rattle.std.specs.Prelude.{◌≡◌, ◌^◌, None};

use crate::books::{TRIES, book_of, records_of, seat_at};
use crate::fault::Fault;
use crate::shares::Hall;
use crate::subject::Outcome;
use ipc_book::{Seat, Shared};
use ipc_server::{Ending, Link, Listen, OpenGate, WorkersFault, run_workers, serve_connection};
use std::alloc::Global;
use std::io;
use std::io::{ErrorKind, Read, Write};
use std::marker::Brand;
use std::sync::Wait;
use std::sync::atomic::{AtomicBool, AtomicUsize, Ordering};
use std::sync::ledger::{Blank, Ledger};
use std::thread::Threads;

/// How connections are served.
#[derive(Clone, Copy)]
pub enum Way {
    /// One, on the seat of a thread.
    Alone,
    /// One after the other, by workers.
    ByWorkers,
}

/// A hello by the key `ka1`, an open of `/a` that creates it, a send and a receive.
const REQUESTS: &[u8] =
    b"\0\0\0\x06\x01\0\x03ka1\0\0\0\x0a\x03\0\x02/a\x03\x01\x01\xb6\0\0\0\0\x0f\x06\0\0\0\0\0\0\0\0\0\0\0\x05hi\0\0\0\x0d\x07\0\0\0\0\0\0\0\0\0\0\x20\0";

/// What it is answered.
const ANSWERS: &[u8] =
    b"\0\0\0\x09\x41\0\0\0\0\0\0\0\0\0\0\0\x09\x43\0\0\0\0\0\0\0\0\0\0\0\x01\x46\0\0\0\x07\x47\0\0\0\x05hi";

/// How many records it leaves, with that of the hang-up.
const RECORDS: usize = 5;

const WORKERS: usize = 2;

/// How far a connection's bytes are read and its answers written.
#[derive(Drop)]
struct Talk {
    read: AtomicUsize,
    written: AtomicUsize,
    /// Something was written that is not to be answered.
    is_other: AtomicBool,
}

impl Talk {
    fn new() -> Talk {
        Talk {
            read: AtomicUsize::new(0),
            written: AtomicUsize::new(0),
            is_other: AtomicBool::new(false),
        }
    }

    /// Whether what was written is the beginning of the answers.
    fn is_right(&self) -> bool {
        !self.is_other.load(Ordering::SeqCst)
    }

    fn is_whole(&self) -> bool {
        self.is_right() && self.written.load(Ordering::SeqCst) == ANSWERS.len()
    }
}

/// The connection of a talk. It takes no memory.
#[derive(Drop)]
struct Line<'a>(&'a Talk);

impl Link for Line<'_> {
    fn read(&self, buffer: &mut [u8]) -> io::Result<usize> {
        let at = self.0.read.load(Ordering::SeqCst);
        let mut rest = REQUESTS.get(at..).unwrap_or(b"");
        let count = rest.read(buffer)?;
        self.0.read.store(at.wrapping_add(count), Ordering::SeqCst);
        Ok(count)
    }

    fn write(&self, bytes: &[u8]) -> io::Result<usize> {
        let at = self.0.written.load(Ordering::SeqCst);
        let rest = ANSWERS.get(at..).unwrap_or(b"");
        if !rest.starts_with(bytes) {
            self.0.is_other.store(true, Ordering::SeqCst);
        }
        let end = at.wrapping_add(bytes.len());
        self.0.written.store(end, Ordering::SeqCst);
        Ok(bytes.len())
    }
}

impl Write for Line<'_> {
    fn write(&mut self, bytes: &[u8]) -> io::Result<usize> {
        Link::write(self, bytes)
    }

    fn flush(&mut self) -> io::Result<()> {
        Ok(())
    }
}

/// Gives the talk's connection once.
#[derive(Drop)]
struct Door<'a> {
    talk: &'a Talk,
    is_given: AtomicBool,
}

impl<'a> Listen for Door<'a> {
    type Conn = Line<'a>;

    fn accept(&self) -> io::Result<Line<'a>> {
        if self.is_given.swap(true, Ordering::SeqCst) {
            return Err(io::Error::from(ErrorKind::Other));
        }
        Ok(Line(self.talk))
    }
}

/// Serves the talk on one seat, which comes back without a session.
fn serve_alone<L: Ledger + Send + Sync, R: Threads + Wait + Sync>(
    hall: &mut Hall<'_, L, R>,
    alloc: Global,
    talk: &Talk,
) -> Result<Vec<Seat<L>>, Fault> {
    let mut seats = Vec::with_capacity(alloc, 1)?;
    let seat = seat_at(hall, alloc)?;
    if seat.sid().is_some() {
        return Err(Fault::Otherwise);
    }
    let (rt, book) = (hall.rt, &hall.book);
    let served = serve_connection(rt, alloc, book, seat, 0, REQUESTS, Line(talk), &OpenGate);
    let is_over = served.seat.sid().is_none();
    let is_right = match served.ending {
        Ending::Closed => talk.is_whole(),
        Ending::NoMemory => talk.is_right(),
        _ => false,
    };
    seats.push(served.seat)?;
    if is_over && is_right {
        Ok(seats)
    } else {
        Err(Fault::Otherwise)
    }
}

/// Serves the talk by workers, whose seats come back.
fn serve_by_workers<L: Ledger + Send + Sync, R: Threads + Wait + Sync>(
    rt: &R,
    alloc: Global,
    book: &Shared<L>,
    talk: &Talk,
) -> Result<Vec<Seat<L>>, Fault> {
    let door = Door {
        talk,
        is_given: AtomicBool::new(false),
    };
    let (is_right, seats) = match run_workers(rt, alloc, &door, book, WORKERS, Some(1), &OpenGate) {
        Ok(seats) => (seats.len() == WORKERS && talk.is_right(), seats),
        Err((WorkersFault::NoMemory, seats)) => (talk.is_right(), seats),
        Err((WorkersFault::AcceptFailed, seats)) => (false, seats),
    };
    if is_right {
        Ok(seats)
    } else {
        Err(Fault::Otherwise)
    }
}

/// Serves a talk in a new book, and closes the book: its records are those of the whole talk, if it came to its end.
fn serve_in<L: Ledger + Send + Sync, R: Threads + Wait + Sync>(
    rt: &R,
    alloc: Global,
    blank: Blank,
    way: Way,
) -> Result<bool, Fault>
    requires name { blank.name ≡ L.name }
    requires parts { blank.parts ≡ L.parts }
    requires many { blank.parts ≡ 2 ^ 63 }
{
    let book: Shared<L> = Shared::new(book_of(alloc, blank)?);
    let mut hall = Hall { rt, book };
    let talk = Talk::new();
    let seats = match way {
        Way::Alone => serve_alone(&mut hall, alloc, &talk)?,
        Way::ByWorkers => serve_by_workers(rt, alloc, &hall.book, &talk)?,
    };
    match records_of(alloc, hall, seats)? {
        Some(RECORDS) if talk.is_whole() => Ok(true),
        // The connection ended early, and is to be served in a new book.
        Some(records) if !talk.is_whole() && records <= RECORDS => Err(Fault::Anew),
        _ => Ok(false),
    }
}

/// Serves a talk; anew, where it ended early.
pub fn go_anew<R: Threads + Wait + Sync>(rt: &R, alloc: Global, way: Way) -> Outcome {
    for _ in 0..TRIES {
        match serve_in::<Brand, R>(rt, alloc, Blank::new(1 << 63), way) {
            Ok(true) => return Ok(()),
            Ok(false) => return Err((0, Fault::Otherwise)),
            Err(Fault::Refused | Fault::Anew) => {}
            Err(fault) => return Err((0, fault)),
        }
    }
    Err((0, Fault::Refused))
}
