//! Tickers, and sessions that wait until a moment.

ghost use Rattle.std.specs.Prelude.{◌≡◌, None};

use super::pairs::{Pair, closed_by};
use super::seat_tests::{act, bell_of};
use super::signs::{MOST_TURNS, Sign, wait_a_turn};
use super::streams::HELLO;
use ipc_book::{Seat, Shared};
use ipc_server::{Clock, Ending, OpenGate, Served, run_ticker, serve_connection};
use ipc_terms::{Answer, Bytes, Call, Desc, Mode, Name, OpenFlags, Rule, SemaphoreOpen, Sid};
use std::alloc::{AllocError, Global};
use std::io::{ErrorKind, Read, Write};
use std::process::Abort;
use std::sync::Wait;
use std::sync::atomic::{AtomicU32, Ordering};
use std::sync::ledger::Ledger;
use std::test::*;
use std::thread::Threads;
use std::{io, thread, time};

/// The moment until which sessions wait.
const DEADLINE: u64 = 5;

#[test]
fn a_ticker_ends_a_wait(rt: HostRuntime) -> Result<(), Fail> {
    assert!(rt; closed_by(&rt, rt.alloc(), Pair::Ticker)?.records == 7);
    Ok(())
}

#[test]
fn a_wait_of_a_connection_ends(rt: HostRuntime) -> Result<(), Fail> {
    assert!(rt; closed_by(&rt, rt.alloc(), Pair::TimedConnection)?.records == 6);
    Ok(())
}

/// Opens a semaphore at 0, and waits for it until the deadline.
fn calls_of_waiter(alloc: Global) -> Result<Vec<Call>, AllocError> {
    let mut calls = Vec::new(alloc);
    calls.push(Call::SemOpen(SemaphoreOpen {
        name: Name::new(Bytes::from_slice(alloc, b"/t")?),
        flags: OpenFlags::CREATE,
        mode: Mode(0o600),
        value: 0,
    }))?;
    calls.push(Call::SemTimedWait {
        desc: Desc(0),
        deadline: DEADLINE,
    })?;
    Ok(calls)
}

/// A clock that shows one moment, and whose first pause ends the ticker.
#[derive(Clone, Copy)]
struct Stopped {
    moment: u64,
}

impl Clock for Stopped {
    ghost may_show = { λ clock moment. moment ≡ clock.moment };

    fn moment(&self) -> u64 {
        self.moment
    }

    fn pause(&self) -> bool {
        false
    }
}

/// Runs a ticker up to its first pause. How many ticks it made.
fn tick_at<L: Ledger, R: Wait>(
    rt: &R,
    alloc: Global,
    book: &Shared<L>,
    seat: Seat<L>,
    moment: u64,
) -> (Seat<L>, usize)
    requires { seat.sid ≡ None }
    ensures { result.0.sid ≡ None }
{
    let before = seat.len();
    let seat = run_ticker(rt, alloc, book, seat, &Stopped { moment });
    let made = seat.len().saturating_sub(before);
    (seat, made)
}

/// A seat whose session, the first of the book, has ended.
fn left_seat<L: Ledger, R: Wait>(rt: &R, alloc: Global, book: &Shared<L>) -> Option<Seat<L>> {
    let mut seat = act(rt, alloc, book, b"ka1", Vec::new(alloc))?;
    book.hang_up(rt, alloc, &mut seat).ok()?;
    Some(seat)
}

/// A ticker makes no tick before the deadline of the session that waits, and one at it.
fn tick_twice<L: Ledger, R: Wait + Abort>(
    rt: &R,
    alloc: Global,
    book: &Shared<L>,
    seat: Seat<L>,
) -> Result<Seat<L>, Fail> {
    if seat.sid().is_some() {
        return Err(Fail::new("the seat has a session"));
    }
    let (seat, early) = tick_at(rt, alloc, book, seat, DEADLINE - 1);
    assert!(rt; early == 0 && book.due(rt, DEADLINE) == Some(Sid(1)));
    let (seat, made) = tick_at(rt, alloc, book, seat, DEADLINE);
    assert!(rt; made == 1 && book.due(rt, DEADLINE).is_none());
    Ok(seat)
}

/// A seat that was left, and the one of session 1, which waits until the deadline.
fn left_and_waiting<L: Ledger, R: Wait>(
    rt: &R,
    alloc: Global,
    book: &Shared<L>,
) -> Result<(Seat<L>, Seat<L>), Fail> {
    let left = left_seat(rt, alloc, book).ok_or("a seat that was left")?;
    let waiter = act(rt, alloc, book, b"kb1", calls_of_waiter(alloc)?).ok_or("a waiter")?;
    Ok((left, waiter))
}

/// A ticker rings the bell of the session that waits, and not that of the session before it.
fn tick_and_ring<L: Ledger, R: Wait + Abort>(
    rt: &R,
    alloc: Global,
    book: &Shared<L>,
    seat: Seat<L>,
) -> Result<Seat<L>, Fail> {
    let older = bell_of(rt, alloc, book, Sid(0))?;
    let bell = bell_of(rt, alloc, book, Sid(1))?;
    let ticker = tick_twice(rt, alloc, book, seat)?;
    assert!(rt; older.rings() == 0 && bell.rings() == 1);
    Ok(ticker)
}

/// Session 1 waits until the deadline, and a ticker ends that: the session is told, and its bell is rung. A second wait, until a
/// moment later, is not over.
pub(crate) fn tick_beside<L: Ledger, R: Wait + Abort>(
    rt: &R,
    alloc: Global,
    book: &Shared<L>,
) -> Result<(Seat<L>, Seat<L>), Fail> {
    let (left, mut waiter) = left_and_waiting(rt, alloc, book)?;
    let ticker = tick_and_ring(rt, alloc, book, left)?;
    wait_again(rt, alloc, book, &mut waiter)?;
    Ok((waiter, ticker))
}

/// The session was told that its wait is over. It waits until a moment after the deadline: it is told nothing, and due then.
fn wait_again<L: Ledger, R: Wait + Abort>(
    rt: &R,
    alloc: Global,
    book: &Shared<L>,
    waiter: &mut Seat<L>,
) -> Result<(), Fail> {
    assert!(rt; is_timed_out(book.collect(rt, waiter).as_slice()));
    let call = Call::SemTimedWait {
        desc: Desc(0),
        deadline: DEADLINE + 1,
    };
    book.call(rt, alloc, waiter, call)
        .ok()
        .ok_or("a second wait")?;
    assert!(rt; book.collect(rt, waiter).len() == 0 && book.due(rt, DEADLINE).is_none());
    assert!(rt; book.due(rt, DEADLINE + 1) == Some(Sid(1)));
    Ok(())
}

fn is_timed_out(answers: &[Answer]) -> bool {
    matches!(
        answers,
        [
            Answer::Started(Sid(1)),
            Answer::Opened(Desc(0)),
            Answer::Refused(Rule::TimedOut),
        ]
    )
}

/// The same calls as frames.
const REQUESTS: &[u8] =
    b"\0\0\0\x0c\x0b\0\x02/t\x01\x01\x80\0\0\0\0\0\0\0\x11\x1c\0\0\0\0\0\0\0\0\0\0\0\0\0\0\0\x05";

/// A wait until a moment after the deadline.
const LATER: &[u8] = b"\0\0\0\x11\x1c\0\0\0\0\0\0\0\0\0\0\0\0\0\0\0\x06";

/// A wait ended at its deadline.
const TIMED_OUT: &[u8] = b"\0\0\0\x03\x4c\0\x20";

/// What the session was told.
#[derive(Drop)]
struct Told {
    /// Its wait has ended.
    once: Sign,
    /// A second one has.
    twice: Sign,
}

/// The rest of a stream, which comes once the session was told that its wait has ended. It fails, where that does not come.
#[derive(Drop)]
struct BehindWait<'a, R> {
    clock: &'a R,
    told: &'a Told,
    rest: &'a [u8],
}

impl<R: time::Clock> Read for BehindWait<'_, R> {
    fn read(&mut self, buffer: &mut [u8]) -> io::Result<usize> {
        if self.told.once.comes(self.clock) {
            self.rest.read(buffer)
        } else {
            Err(io::Error::from(ErrorKind::TimedOut))
        }
    }
}

/// Tells that a wait has ended.
#[derive(Drop)]
struct Teller<'a> {
    told: &'a Told,
}

impl Write for Teller<'_> {
    fn write(&mut self, bytes: &[u8]) -> io::Result<usize> {
        if bytes.ends_with(TIMED_OUT) {
            if self.told.once.is_given() {
                self.told.twice.give();
            }
            self.told.once.give();
        }
        Ok(bytes.len())
    }

    fn flush(&mut self) -> io::Result<()> {
        Ok(())
    }
}

fn serve_waiter<L: Ledger + Send + Sync, R: Threads + Wait + time::Clock + Sync>(
    rt: &R,
    alloc: Global,
    book: &Shared<L>,
    told: &Told,
) -> Option<Served<L>> {
    let seat = book.seat(rt, alloc).ok()?;
    let behind = BehindWait {
        clock: rt,
        told,
        rest: LATER,
    };
    let reader = HELLO.chain(REQUESTS).chain(behind);
    Some(serve_connection(rt, alloc, book, seat, 0, reader, Teller { told }, &OpenGate))
}

/// A clock that shows the deadline, until the session was told.
#[derive(Drop)]
struct Running<'a, R> {
    clock: &'a R,
    told: &'a Told,
    turns: AtomicU32,
}

impl<R: time::Clock> Clock for Running<'_, R> {
    fn moment(&self) -> u64 {
        DEADLINE
    }

    fn pause(&self) -> bool {
        wait_a_turn(self.clock);
        !self.told.once.is_given() && self.turns.fetch_add(1, Ordering::SeqCst) < MOST_TURNS
    }
}

fn tick_along<L: Ledger, R: Wait + time::Clock>(
    rt: &R,
    alloc: Global,
    book: &Shared<L>,
    told: &Told,
) -> Option<Seat<L>> {
    let seat = book.seat(rt, alloc).ok()?;
    let clock = Running {
        clock: rt,
        told,
        turns: AtomicU32::new(0),
    };
    Some(run_ticker(rt, alloc, book, seat, &clock))
}

/// A connection is served whose session waits, and its writer writes that the wait has ended once a ticker ends it. A second
/// wait, until a moment later, is not over when the stream ends.
pub(crate) fn serve_beside_ticker<L: Ledger + Send + Sync, R: Threads + Wait + time::Clock + Sync>(
    rt: &R,
    alloc: Global,
    book: &Shared<L>,
) -> Result<(Seat<L>, Seat<L>), Fail> {
    let made = Told {
        once: Sign::new(),
        twice: Sign::new(),
    };
    let told = &made;
    let (served, ticker) = thread::join(
        rt,
        move || serve_waiter(rt, alloc, book, told),
        move || tick_along(rt, alloc, book, told),
    );
    let (served, ticker) = (served.ok_or("a waiter")?, ticker.ok_or("a ticker")?);
    if served.ending != Ending::Closed || ticker.len() != 1 {
        return Err(Fail::new("the wait does not end"));
    }
    if told.twice.is_given() {
        return Err(Fail::new("the second wait ends"));
    }
    Ok((served.seat, ticker))
}
