//! A client that reads no answers, and workers whose listener ends.

use super::books::{Left, Work, serve_alone, serve_by_workers};
use super::signs::{Sign, wait_a_turn};
use super::streams::{HELLO, INTERRUPT, NOT_IN_CALL, STARTED};
use ipc_server::{Ending, Gate, Link, Listen, WorkersFault};
use std::alloc::{AllocError, Global};
use std::io;
use std::io::{ErrorKind, Read, Write};
use std::sync::Wait;
use std::sync::atomic::{AtomicU64, AtomicUsize, Ordering};
use std::test::*;
use std::thread::Threads;
use std::time::Clock;

/// How many interrupts come behind the hello.
const CALLS: usize = 1_000;

/// The most bytes of answers that are untaken at once: 256, with that of the hello.
const MOST_AT_ONCE: usize = 13 + 255 * 7;

/// Gives one frame at each read: a hello, and then interrupts.
#[derive(Drop)]
struct Caller<'a> {
    frames: &'a AtomicUsize,
}

impl Read for Caller<'_> {
    fn read(&mut self, buffer: &mut [u8]) -> io::Result<usize> {
        let mut frame = match self.frames.fetch_add(1, Ordering::SeqCst) {
            0 => HELLO,
            place if place <= CALLS => INTERRUPT,
            _ => b"",
        };
        frame.read(buffer)
    }
}

/// Holds the first answer for 100 turns, and then notes how many frames were given by then.
#[derive(Drop)]
struct Hold<'a, R> {
    clock: &'a R,
    frames: &'a AtomicUsize,
    is_over: Sign,
    noted: AtomicUsize,
}

impl<'a, R> Hold<'a, R> {
    fn new(clock: &'a R, frames: &'a AtomicUsize) -> Self {
        Hold {
            clock,
            frames,
            is_over: Sign::new(),
            noted: AtomicUsize::new(0),
        }
    }
}

impl<R: Clock> Gate for Hold<'_, R> {
    fn before_read(&self, _conn: u64) {}

    fn before_answer(&self, _conn: u64) {
        if self.is_over.is_given() {
            return;
        }
        for _ in 0..100 {
            wait_a_turn(self.clock);
        }
        self.noted
            .store(self.frames.load(Ordering::SeqCst), Ordering::SeqCst);
        self.is_over.give();
    }
}

/// The answers to the hello and to each interrupt.
fn all_answers(alloc: Global) -> Result<Vec<u8>, AllocError> {
    let mut answers = Vec::new(alloc);
    answers.extend_from_slice(STARTED)?;
    for _ in 0..CALLS {
        answers.extend_from_slice(NOT_IN_CALL)?;
    }
    Ok(answers)
}

/// Whether the connection went to its end: all is answered, and the trail has each frame and the hang-up.
fn is_whole(alloc: Global, left: &Left, written: &[u8]) -> Result<bool, AllocError> {
    let answers = all_answers(alloc)?;
    let is_closed = left.ending == Ending::Closed && left.closed.records == CALLS + 2;
    Ok(is_closed && written == answers.as_slice())
}

/// A connection that reads nothing for a while. Each record in the trail is of a frame that was given.
#[test]
fn unread_answers_hold_the_reader(rt: HostRuntime) -> Result<(), Fail> {
    let frames = AtomicUsize::new(0);
    let hold = Hold::new(&rt, &frames);
    let mut output = Vec::new(rt.alloc());
    let reader = Caller { frames: &frames };
    let left = serve_alone(&rt, rt.alloc(), reader, &mut output, &hold)?;
    let noted = hold.noted.load(Ordering::SeqCst);
    assert!(rt; 0 < noted && noted <= 600, "{noted} frames are read");
    assert!(rt; is_whole(rt.alloc(), &left, &output)?);
    Ok(())
}

/// The hello and each interrupt.
fn all_requests(alloc: Global) -> Result<Vec<u8>, AllocError> {
    let mut requests = Vec::new(alloc);
    requests.extend_from_slice(HELLO)?;
    for _ in 0..CALLS {
        requests.extend_from_slice(INTERRUPT)?;
    }
    Ok(requests)
}

/// Keeps what is written, and how long the longest piece is.
#[derive(Drop)]
struct Pieces<'a> {
    written: &'a mut Vec<u8>,
    longest: &'a mut usize,
}

impl Write for Pieces<'_> {
    fn write(&mut self, bytes: &[u8]) -> io::Result<usize> {
        *self.longest = bytes.len().max(*self.longest);
        self.written.write(bytes)
    }

    fn flush(&mut self) -> io::Result<()> {
        Ok(())
    }
}

/// A connection that sends all its calls in one piece, and reads nothing for a while: no more answers wait for it than may be
/// untaken.
#[test]
fn unread_answers_hold_calls_of_one_piece(rt: HostRuntime) -> Result<(), Fail> {
    let frames = AtomicUsize::new(0);
    let hold = Hold::new(&rt, &frames);
    let requests = all_requests(rt.alloc())?;
    let (mut written, mut longest) = (Vec::new(rt.alloc()), 0);
    let writer = Pieces {
        written: &mut written,
        longest: &mut longest,
    };
    let left = serve_alone(&rt, rt.alloc(), requests.as_slice(), writer, &hold)?;
    assert!(rt; longest <= MOST_AT_ONCE, "{longest} bytes at once");
    assert!(rt; is_whole(rt.alloc(), &left, &written)?);
    Ok(())
}

/// A connection that takes no answers.
#[derive(Drop)]
struct Broken;

impl Write for Broken {
    fn write(&mut self, _bytes: &[u8]) -> io::Result<usize> {
        Err(io::Error::from(ErrorKind::BrokenPipe))
    }

    fn flush(&mut self) -> io::Result<()> {
        Ok(())
    }
}

/// A connection whose first write fails while more answers wait: none of them is left.
#[test]
fn answers_that_cannot_be_written_are_dropped(rt: HostRuntime) -> Result<(), Fail> {
    let frames = AtomicUsize::new(0);
    let hold = Hold::new(&rt, &frames);
    let requests = all_requests(rt.alloc())?;
    let left = serve_alone(&rt, rt.alloc(), requests.as_slice(), Broken, &hold)?;
    let untaken = left.closed.untaken;
    assert!(rt; untaken == 0, "{untaken} answers are left");
    assert!(rt; left.ending == Ending::WriteFailed && left.closed.is_hung_up);
    Ok(())
}

/// A connection that sends a hello and reads nothing.
#[derive(Drop)]
struct Greeting {
    reads: AtomicUsize,
}

impl Link for Greeting {
    fn read(&self, buffer: &mut [u8]) -> io::Result<usize> {
        let mut rest = if self.reads.fetch_add(1, Ordering::SeqCst) == 0 {
            HELLO
        } else {
            b""
        };
        rest.read(buffer)
    }

    fn write(&self, bytes: &[u8]) -> io::Result<usize> {
        Ok(bytes.len())
    }
}

/// What each accept gives: a connection, or a fault.
type Accepts = &'static [Option<ErrorKind>];

/// A listener over memory.
#[derive(Drop)]
struct Listener {
    accepts: Accepts,
    accepted: AtomicUsize,
}

impl Listen for Listener {
    type Conn = Greeting;

    fn accept(&self) -> io::Result<Greeting> {
        let place = self.accepted.fetch_add(1, Ordering::SeqCst);
        match self.accepts.get(place) {
            Some(None) => Ok(Greeting {
                reads: AtomicUsize::new(0),
            }),
            Some(Some(kind)) => Err(io::Error::from(*kind)),
            None => Err(io::Error::from(ErrorKind::Other)),
        }
    }
}

/// Notes the numbers of the connections that are read, each as a bit.
#[derive(Drop)]
struct Numbers {
    seen: AtomicU64,
}

impl Numbers {
    /// Whether these are the numbers from 0 on, of so many connections.
    fn are_first(&self, connections: usize) -> bool {
        let seen = self.seen.load(Ordering::SeqCst);
        (0..64).all(|number| (seen >> number & 1 == 1) == (number < connections))
    }
}

impl Gate for Numbers {
    fn before_read(&self, conn: u64) {
        if conn < 64 {
            self.seen.fetch_or(1 << conn, Ordering::SeqCst);
        }
    }

    fn before_answer(&self, _conn: u64) {}
}

/// How many workers serve.
const WORKERS: usize = 3;

/// What the accepts give, after how many connections the workers stop, how they end, and how many records they leave.
type Row = (Accepts, Option<u64>, Result<(), WorkersFault>, usize);

static ROWS: [Row; 6] = [
    (&[], Some(0), Ok(()), 0),
    (&[None, None], Some(1), Ok(()), 2),
    (&[None, None, None, None, None], Some(5), Ok(()), 10),
    (
        &[None, Some(ErrorKind::ConnectionReset), None],
        Some(3),
        Err(WorkersFault::AcceptFailed),
        2,
    ),
    (
        &[Some(ErrorKind::ConnectionReset)],
        None,
        Err(WorkersFault::AcceptFailed),
        0,
    ),
    // Connections that broke off before they were accepted.
    (
        &[
            Some(ErrorKind::ConnectionAborted),
            None,
            Some(ErrorKind::Interrupted),
            None,
        ],
        Some(2),
        Ok(()),
        4,
    ),
];

/// Whether the workers end so, the connections have the first numbers, two records each, and the book closes with the
/// workers' seats.
fn end_so<R: Threads + Wait + Sync>(rt: &R, alloc: Global, row: &Row) -> Result<bool, Fail> {
    let (accepts, stop_after, outcome, records) = row;
    let listener = Listener {
        accepts,
        accepted: AtomicUsize::new(0),
    };
    let numbers = Numbers {
        seen: AtomicU64::new(0),
    };
    let work = Work {
        listener: &listener,
        workers: WORKERS,
        stop_after: *stop_after,
        gate: &numbers,
    };
    let worked = serve_by_workers(rt, alloc, &work)?;
    Ok(
        worked.outcome == *outcome
            && worked.seats == WORKERS
            && worked.closed.records == *records
            && numbers.are_first(*records / 2),
    )
}

#[test]
fn workers_end_so(rt: HostRuntime) -> Result<(), Fail> {
    for (number, row) in ROWS.iter().enumerate() {
        if !end_so(&rt, rt.alloc(), row)? {
            return Err(Fail::new(format_args!("workers {number} end otherwise")));
        }
    }
    Ok(())
}
