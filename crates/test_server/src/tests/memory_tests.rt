//! Connections over memory: streams cut at every byte, and a reader that waits.

use super::books::serve_alone;
use super::pairs::{Pair, closed_by};
use super::signs::Sign;
use super::streams::{HELLO, STARTED, STREAMS, Stream, answers_within, bytes_of};
use ipc_book::{Seat, Shared};
use ipc_server::{Ending, Gate, OpenGate, Served, serve_connection};
use std::alloc::Global;
use std::io::{ErrorKind, Read, Write};
use std::sync::Wait;
use std::sync::ledger::Ledger;
use std::test::*;
use std::thread::Threads;
use std::time::Clock;
use std::{io, thread};

/// Whether a connection over this reader is answered and ends so, and its session is hung up.
fn goes<R: Threads + Wait + Sync, I: Read + Drop>(
    rt: &R,
    alloc: Global,
    reader: I,
    answers: &[u8],
    ending: Ending,
) -> Result<bool, Fail> {
    let mut output = Vec::new(alloc);
    let left = serve_alone(rt, alloc, reader, &mut output, &OpenGate)?;
    Ok(
        output.as_slice() == answers
            && left.ending == ending
            && !left.is_live
            && left.closed.is_hung_up == answers.starts_with(STARTED),
    )
}

/// Whether the stream is answered as it is to be, where it ends after so many bytes, and where it comes whole in two pieces.
fn goes_cut<R: Threads + Wait + Sync>(
    rt: &R,
    alloc: Global,
    stream: &Stream,
    bytes: &[u8],
    cut: usize,
) -> Result<bool, Fail> {
    let (one, two) = bytes.split_at(cut.min(bytes.len()));
    let ending = if two.len() <= stream.rest.len() {
        stream.ending
    } else {
        Ending::Closed
    };
    let within = answers_within(alloc, stream.frames, one.len())?;
    let all = answers_within(alloc, stream.frames, bytes.len())?;
    Ok(
        goes(rt, alloc, one, &within, ending)?
            && goes(rt, alloc, one.chain(two), &all, stream.ending)?,
    )
}

/// Where the stream is cut first when it is answered otherwise.
fn first_bad_cut<R: Threads + Wait + Sync>(
    rt: &R,
    alloc: Global,
    stream: &Stream,
) -> Result<Option<usize>, Fail> {
    let mut bytes = bytes_of(alloc, stream.frames)?;
    bytes.extend_from_slice(stream.rest)?;
    for cut in 0..=bytes.len() {
        if !goes_cut(rt, alloc, stream, &bytes, cut)? {
            return Ok(Some(cut));
        }
    }
    Ok(None)
}

#[test]
fn streams_are_answered_however_cut(rt: HostRuntime) -> Result<(), Fail> {
    for (row, stream) in STREAMS.iter().enumerate() {
        if let Some(cut) = first_bad_cut(&rt, rt.alloc(), stream)? {
            return Err(Fail::new(format_args!("stream {row} goes otherwise, cut at {cut}")));
        }
    }
    Ok(())
}

/// What two connections of one book tell one another.
#[derive(Drop)]
pub(crate) struct Signs {
    /// The first is about to read.
    before_read: Sign,
    /// The first reads.
    reading: Sign,
    /// The second got its session.
    started: Sign,
}

impl Gate for Signs {
    fn before_read(&self, conn: u64) {
        if conn == 0 {
            self.before_read.give();
        }
    }

    fn before_answer(&self, _conn: u64) {}
}

/// Gives nothing before the second connection got its session.
#[derive(Drop)]
struct SlowReader<'a, R> {
    clock: &'a R,
    signs: &'a Signs,
    bytes: &'a [u8],
}

impl<R: Clock> Read for SlowReader<'_, R> {
    fn read(&mut self, buffer: &mut [u8]) -> io::Result<usize> {
        if !self.signs.before_read.is_given() {
            return Err(io::Error::from(ErrorKind::Other));
        }
        self.signs.reading.give();
        if !self.signs.started.comes(self.clock) {
            return Err(io::Error::from(ErrorKind::TimedOut));
        }
        self.bytes.read(buffer)
    }
}

/// Tells that session 0 has started.
#[derive(Drop)]
struct Teller<'a> {
    signs: &'a Signs,
}

impl Write for Teller<'_> {
    fn write(&mut self, bytes: &[u8]) -> io::Result<usize> {
        if bytes == STARTED {
            self.signs.started.give();
        }
        Ok(bytes.len())
    }

    fn flush(&mut self) -> io::Result<()> {
        Ok(())
    }
}

fn serve_first<L: Ledger + Send + Sync, R: Threads + Wait + Clock + Sync>(
    rt: &R,
    alloc: Global,
    book: &Shared<L>,
    signs: &Signs,
) -> Option<Served<L>> {
    let seat = book.seat(rt, alloc).ok()?;
    let reader = SlowReader {
        clock: rt,
        signs,
        bytes: HELLO,
    };
    Some(serve_connection(rt, alloc, book, seat, 0, reader, io::sink(), signs))
}

fn serve_second<L: Ledger + Send + Sync, R: Threads + Wait + Clock + Sync>(
    rt: &R,
    alloc: Global,
    book: &Shared<L>,
    signs: &Signs,
) -> Option<Served<L>> {
    if !signs.reading.comes(rt) {
        return None;
    }
    let seat = book.seat(rt, alloc).ok()?;
    let writer = Teller { signs };
    Some(serve_connection(rt, alloc, book, seat, 1, HELLO, writer, signs))
}

/// The second connection is served while the first waits in its read.
pub(crate) fn serve_both<L: Ledger + Send + Sync, R: Threads + Wait + Clock + Sync>(
    rt: &R,
    alloc: Global,
    book: &Shared<L>,
) -> Result<(Seat<L>, Seat<L>), Fail> {
    let made = Signs {
        before_read: Sign::new(),
        reading: Sign::new(),
        started: Sign::new(),
    };
    let signs = &made;
    let (first, second) = thread::join(
        rt,
        move || serve_first(rt, alloc, book, signs),
        move || serve_second(rt, alloc, book, signs),
    );
    let (first, second) = (first.ok_or("the first")?, second.ok_or("the second")?);
    if (first.ending, second.ending) != (Ending::Closed, Ending::Closed) {
        return Err(Fail::new("one waits for the other"));
    }
    Ok((first.seat, second.seat))
}

#[test]
fn one_reads_while_another_is_served(rt: HostRuntime) -> Result<(), Fail> {
    assert!(rt; closed_by(&rt, rt.alloc(), Pair::Connections)?.records == 4);
    Ok(())
}
