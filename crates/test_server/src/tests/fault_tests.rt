//! Reads and writes that fail once: the session is hung up, and the book closes with its seat.

use super::books::{Left, serve_alone};
use super::streams::{ONE_MESSAGE, answers_within, bytes_of};
use ipc_server::{Ending, OpenGate};
use std::alloc::{AllocError, Global};
use std::io;
use std::io::{ErrorKind, Read, Write};
use std::sync::Wait;
use std::test::*;
use std::thread::Threads;

/// The most bytes that a read gives and a write takes.
const PIECE: usize = 5;

/// How many reads serve the connection: twelve give bytes, and the last is at the end.
const ALL_READS: usize = 13;

/// More than the writes that serve the connection.
const MOST_WRITES: usize = 100;

const NEVER: usize = usize::MAX;

/// A fault that comes once, when so many times are over.
#[derive(Drop)]
struct Fault {
    left: usize,
    kind: ErrorKind,
}

impl Fault {
    fn count(&mut self) -> io::Result<()> {
        let is_due = self.left == 0;
        self.left = self.left.wrapping_sub(1);
        if is_due {
            Err(io::Error::from(self.kind))
        } else {
            Ok(())
        }
    }
}

/// A reader that gives its bytes a few at a time, of which one read fails.
#[derive(Drop)]
struct FailingReader<'a> {
    rest: &'a [u8],
    fault: Fault,
}

impl Read for FailingReader<'_> {
    fn read(&mut self, buffer: &mut [u8]) -> io::Result<usize> {
        self.fault.count()?;
        let most = buffer.len().min(PIECE);
        self.rest.read(&mut buffer[..most])
    }
}

/// A writer that takes a few bytes at a time, of which one write fails.
#[derive(Drop)]
struct FailingWriter<'a> {
    written: &'a mut Vec<u8>,
    fault: Fault,
}

impl Write for FailingWriter<'_> {
    fn write(&mut self, bytes: &[u8]) -> io::Result<usize> {
        self.fault.count()?;
        let most = bytes.len().min(PIECE);
        self.written.write(&bytes[..most])
    }

    fn flush(&mut self) -> io::Result<()> {
        Ok(())
    }
}

/// Serves one message over a reader and a writer that fail after so many times. How it ended, and what was written.
fn serve_failing<R: Threads + Wait + Sync>(
    rt: &R,
    alloc: Global,
    reads: usize,
    writes: usize,
    kind: ErrorKind,
) -> Result<(Left, Vec<u8>), Fail> {
    let bytes = bytes_of(alloc, ONE_MESSAGE)?;
    let mut written = Vec::new(alloc);
    let reader = FailingReader {
        rest: &bytes,
        fault: Fault { left: reads, kind },
    };
    let writer = FailingWriter {
        written: &mut written,
        fault: Fault { left: writes, kind },
    };
    let left = serve_alone(rt, alloc, reader, writer, &OpenGate)?;
    Ok((left, written))
}

/// All that is answered where nothing fails.
fn all_answers(alloc: Global) -> Result<Vec<u8>, AllocError> {
    answers_within(alloc, ONE_MESSAGE, NEVER)
}

/// Whether it ended so after a fault: the session that had started is hung up.
fn is_over(left: &Left, ending: Ending) -> bool {
    left.ending == ending && !left.is_live && left.closed.is_hung_up == (left.closed.records > 0)
}

/// What was read before the read that fails is answered.
#[test]
fn failed_reads_end_connections(rt: HostRuntime) -> Result<(), Fail> {
    for reads in 0..ALL_READS {
        let (left, written) = serve_failing(
            &rt,
            rt.alloc(),
            reads,
            NEVER,
            ErrorKind::ConnectionReset,
        )?;
        let answers = answers_within(rt.alloc(), ONE_MESSAGE, reads * PIECE)?;
        if !is_over(&left, Ending::ReadFailed) || written != answers {
            return Err(Fail::new(format_args!("read {reads} fails otherwise")));
        }
    }
    let (left, written) = serve_failing(
        &rt,
        rt.alloc(),
        ALL_READS,
        NEVER,
        ErrorKind::ConnectionReset,
    )?;
    assert!(rt; is_over(&left, Ending::Closed) && written == all_answers(rt.alloc())?);
    Ok(())
}

/// Whether the write that fails after so many ends it, and nothing more is written. None, where there was none.
fn is_cut_off<R: Threads + Wait + Sync>(
    rt: &R,
    alloc: Global,
    writes: usize,
) -> Result<Option<bool>, Fail> {
    let (left, written) = serve_failing(rt, alloc, NEVER, writes, ErrorKind::BrokenPipe)?;
    let answers = all_answers(alloc)?;
    if left.ending == Ending::Closed && written == answers {
        return Ok(None);
    }
    Ok(Some(
        is_over(&left, Ending::WriteFailed)
            && left.closed.is_hung_up
            && left.closed.untaken == 0
            && written.len() < answers.len()
            && answers.starts_with(&written),
    ))
}

#[test]
fn failed_writes_end_connections(rt: HostRuntime) -> Result<(), Fail> {
    for writes in 0..MOST_WRITES {
        match is_cut_off(&rt, rt.alloc(), writes)? {
            Some(true) => {}
            Some(false) => return Err(Fail::new(format_args!("write {writes} fails otherwise"))),
            None => {
                assert!(rt; writes * PIECE >= 42);
                return Ok(());
            }
        }
    }
    Err(Fail::new("each write fails"))
}

#[test]
fn interrupted_reads_and_writes_are_tried_again(rt: HostRuntime) -> Result<(), Fail> {
    for times in 0..ALL_READS {
        let (left, written) = serve_failing(&rt, rt.alloc(), times, times, ErrorKind::Interrupted)?;
        if !is_over(&left, Ending::Closed) || written != all_answers(rt.alloc())? {
            return Err(Fail::new(format_args!("after {times} it ends otherwise")));
        }
    }
    Ok(())
}
