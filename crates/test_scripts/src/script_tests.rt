//! What no script shows: readers and writers that fail, and when answers are written.

use ipc_access::UserFault;
use ipc_core::{Field, Limits};
use ipc_script::{ScriptFault, run_script, run_script_on};
use std::alloc::Global;
use std::cell::Cell;
use std::io;
use std::io::{ErrorKind, Read, Write};
use std::test::Fail;

/// Whether a run over the script writes this and ends so.
fn runs(
    alloc: Global,
    limits: Limits,
    script: &[u8],
    written: &str,
    outcome: Result<(), ScriptFault>,
) -> bool {
    let mut output = Vec::new(alloc);
    run_script(alloc, limits, script, &mut output) == outcome
        && output.as_slice() == written.as_bytes()
}

const NO_MESSAGES: Limits = Limits {
    msg_max: 0,
    ..Limits::STANDARD
};

#[test]
fn limits_are_tested_after_users(rt: HostRuntime) {
    let bad_limit = Err(ScriptFault::Config(Field::MsgMax));
    assert!(rt; runs(rt.alloc(), NO_MESSAGES, b".\n", "", bad_limit));
    let bad_line = Err(ScriptFault::Users(UserFault::BadLine(1)));
    assert!(rt; runs(rt.alloc(), NO_MESSAGES, b"bad\n.\n", "", bad_line));
}

/// A script, and what it writes.
const SCRIPT: &str = "ann:ka1:1000:1000::\n.\na hello ka1\na hello\nb hello ka1\n";

const WRITTEN: &str = "a started 0\na fault usage\nb started 1\n";

/// A reader of a few bytes at a time, of which one read fails.
#[derive(Drop)]
struct FailingReader<'a> {
    rest: &'a [u8],
    reads: u64,
    fails_at: u64,
    kind: ErrorKind,
}

impl Read for FailingReader<'_> {
    fn read(&mut self, buffer: &mut [u8]) -> io::Result<usize> {
        self.reads = self.reads.saturating_add(1);
        if self.reads == self.fails_at {
            return Err(io::Error::from(self.kind));
        }
        let most = buffer.len().min(7);
        self.rest.read(&mut buffer[..most])
    }
}

/// A writer to memory of a few bytes at a time, of which one write fails, and which shows at a flush how
/// many bytes were written.
#[derive(Drop)]
struct Output<'a> {
    written: Vec<u8>,
    writes: u64,
    fails_at: u64,
    shown: &'a Cell<usize>,
}

impl Write for Output<'_> {
    fn write(&mut self, buffer: &[u8]) -> io::Result<usize> {
        self.writes = self.writes.saturating_add(1);
        if self.writes == self.fails_at {
            return Err(io::Error::from(ErrorKind::BrokenPipe));
        }
        let most = buffer.len().min(5);
        self.written.write(&buffer[..most])
    }

    fn flush(&mut self) -> io::Result<()> {
        self.shown.set(self.written.len());
        Ok(())
    }
}

/// Runs the script by a reader whose read of this number fails. An `Ok` has written all, and an
/// `Err` a part.
fn read_with_failure(alloc: Global, fails_at: u64, kind: ErrorKind) -> Result<bool, Fail> {
    let reader = FailingReader {
        rest: SCRIPT.as_bytes(),
        reads: 0,
        fails_at,
        kind,
    };
    let mut output = Vec::new(alloc);
    let outcome = run_script(alloc, Limits::STANDARD, reader, &mut output);
    is_whole(outcome, ScriptFault::Read, &output)
}

/// Whether all was written; or by this fault a part.
fn is_whole(
    outcome: Result<(), ScriptFault>,
    wanted: ScriptFault,
    written: &[u8],
) -> Result<bool, Fail> {
    let whole = WRITTEN.as_bytes();
    match outcome {
        Ok(()) if written == whole => Ok(true),
        Err(fault) if fault == wanted && whole.starts_with(written) => Ok(false),
        _ => Err(Fail::new("another outcome")),
    }
}

/// Runs over the script with a writer whose write of this number fails. An `Ok` has written all, and an
/// `Err` a part.
fn write_with_failure(alloc: Global, script: &[u8], fails_at: u64) -> Result<bool, Fail> {
    let shown = Cell::new(0);
    let mut output = Output {
        written: Vec::new(alloc),
        writes: 0,
        fails_at,
        shown: &shown,
    };
    let outcome = run_script(alloc, Limits::STANDARD, script, &mut output);
    is_whole(outcome, ScriptFault::Write, &output.written)
}

/// By a read or a write of this number that fails, a part is written, or all where no such one is made. A
/// read that is interrupted is made again.
fn fails_once(alloc: Global, fails_at: u64) -> Result<bool, Fail> {
    let reads = read_with_failure(alloc, fails_at, ErrorKind::UnexpectedEof)?;
    let interrupted = read_with_failure(alloc, fails_at, ErrorKind::Interrupted)?;
    let writes = write_with_failure(alloc, SCRIPT.as_bytes(), fails_at)?;
    // 54 bytes by sevens, and the read that finds the end; one block of 38 bytes by fives.
    Ok(reads == (fails_at > 9) && interrupted && writes == (fails_at > 8))
}

#[test]
fn each_read_and_write_fails_once(rt: HostRuntime) -> Result<(), Fail> {
    for fails_at in 1..=12u64 {
        if !fails_once(rt.alloc(), fails_at)? {
            return Err(Fail::new(format_args!("at {fails_at}")));
        }
    }
    Ok(())
}

/// A writer to memory whose first writes fail.
#[derive(Drop)]
struct Recovering {
    failures: usize,
    written: Vec<u8>,
}

impl Write for Recovering {
    fn write(&mut self, buffer: &[u8]) -> io::Result<usize> {
        if let Some(left) = self.failures.checked_sub(1) {
            self.failures = left;
            return Err(io::Error::from(ErrorKind::BrokenPipe));
        }
        self.written.write(buffer)
    }

    fn flush(&mut self) -> io::Result<()> {
        Ok(())
    }
}

/// What was answered is tried to be written before more is waited for, at the run's end, and once more where that fails.
#[test]
fn answers_are_tried_three_times(rt: HostRuntime) -> Result<(), Fail> {
    for (failures, wanted) in [(1, WRITTEN), (2, WRITTEN), (3, "")] {
        let writer = Recovering {
            failures,
            written: Vec::new(rt.alloc()),
        };
        let ended = run_script_on(rt.alloc(), Limits::STANDARD, SCRIPT.as_bytes(), writer);
        let Ok((writer, Err(ScriptFault::Write))) = ended else {
            return Err(Fail::new(format_args!("no fault by {failures} failures")));
        };
        if writer.written.as_slice() != wanted.as_bytes() {
            return Err(Fail::new(format_args!("by {failures} failures")));
        }
    }
    Ok(())
}

/// Where the writer fails, what it lost was answered before the line that is at fault.
#[test]
fn a_writer_s_fault_comes_before_a_later_line_s(rt: HostRuntime) -> Result<(), Fail> {
    let script = b"ann:ka1:1000:1000::\n.\na hello ka1\n\xff\n".as_slice();
    assert!(rt; !write_with_failure(rt.alloc(), script, 1)?);
    Ok(())
}

/// What a person types, each with the answers to the lines that it ends; the first two are the user
/// file.
static TYPED: [(&str, &str); 9] = [
    ("ann:ka1:1000:1000::\n", ""),
    (".\n", ""),
    ("a hello ka1\n", "a started 0\n"),
    ("# a comment\n", ""),
    ("a umask 027\n", "a mask 022\n"),
    ("a mq-open /jobs rw --create\n", "a opened 0\n"),
    ("a um", ""),
    ("ask 022\na umask", "a mask 027\n"),
    ("\n", "a fault usage\n"),
];

/// A reader of what is typed, which fails where an answer to an earlier line isn't shown yet.
#[derive(Drop)]
struct Person<'a> {
    typed: usize,
    due: usize,
    shown: &'a Cell<usize>,
}

impl Read for Person<'_> {
    fn read(&mut self, buffer: &mut [u8]) -> io::Result<usize> {
        if self.shown.get() != self.due {
            return Err(io::Error::from(ErrorKind::TimedOut));
        }
        let Some((line, answer)) = TYPED.get(self.typed) else {
            return Ok(0);
        };
        self.typed += 1;
        self.due = self.due.saturating_add(answer.len());
        line.as_bytes().read(buffer)
    }
}

#[test]
fn answers_are_shown_before_more_is_read(rt: HostRuntime) {
    let shown = Cell::new(0);
    let person = Person {
        typed: 0,
        due: 0,
        shown: &shown,
    };
    let screen = Output {
        written: Vec::new(rt.alloc()),
        writes: 0,
        fails_at: 0,
        shown: &shown,
    };
    let outcome = run_script(rt.alloc(), Limits::STANDARD, person, screen);
    assert!(rt; outcome == Ok(()));
}

/// What a script wrote before the line that is at fault, and nothing where its users are.
#[test]
fn the_writer_is_given_back(rt: HostRuntime) {
    let alloc = rt.alloc();
    let script = b"ann:ka1:1000:1000::\n.\na hello ka1\n\xff\n".as_slice();
    let ended = run_script_on(alloc, Limits::STANDARD, script, Vec::new(alloc));
    assert!(rt;
        matches!(&ended, Ok((written, Err(ScriptFault::Line(4)))) if written.as_slice() == b"a started 0\n".as_slice())
    );
    let of_users = run_script_on(
        alloc,
        Limits::STANDARD,
        b"bad\n.\n".as_slice(),
        Vec::new(alloc),
    );
    assert!(rt; matches!(of_users, Err(ScriptFault::Users(UserFault::BadLine(1)))));
}
