//! Lines that are read and split into words, and lines that are written.

use ipc_lines::{LineFault, Lines, Output, words_of};
use std::alloc::Global;
use std::cell::Cell;
use std::io;
use std::io::{ErrorKind, Read, Write};
use std::test::Fail;

/// Lines, and their words.
static WORDS: [(&str, &[&str]); 7] = [
    ("", &[]),
    ("mq-close", &["mq-close"]),
    ("mq-close 0", &["mq-close", "0"]),
    ("\t a \t\tb  c ", &["a", "b", "c"]),
    (" \t ", &[]),
    ("# a", &["#", "a"]),
    ("a\r b\u{b}c", &["a\r", "b\u{b}c"]),
];

fn has_words(alloc: Global, (line, words): &(&str, &[&str])) -> Result<bool, Fail> {
    Ok(words_of(alloc, line)?.as_slice() == *words)
}

#[test]
fn blanks_part_words(rt: HostRuntime) -> Result<(), Fail> {
    for (row, shown) in WORDS.iter().enumerate() {
        if !has_words(rt.alloc(), shown)? {
            return Err(Fail::new(format_args!("row {row} has other words")));
        }
    }
    Ok(())
}

/// Bytes, and what their lines are in turn.
static INPUTS: [(&[u8], &[Result<Option<&str>, LineFault>]); 5] = [
    (b"", &[Ok(None)]),
    (
        b"a\n\nb",
        &[Ok(Some("a")), Ok(Some("")), Ok(Some("b")), Ok(None)],
    ),
    (b"a\r\n", &[Ok(Some("a\r")), Ok(None)]),
    (b"\n", &[Ok(Some("")), Ok(None)]),
    (b"a\n\xff\n", &[Ok(Some("a")), Err(LineFault::Bad(2))]),
];

fn has_lines(
    alloc: Global,
    (input, wanted): &(&'static [u8], &[Result<Option<&str>, LineFault>]),
) -> Result<bool, LineFault> {
    let mut lines = Lines::new(alloc, *input)?;
    let mut output = Output::new(alloc, Vec::new(alloc))?;
    for line in *wanted {
        if lines.next_line_after(&mut output) != *line {
            return Ok(false);
        }
    }
    Ok(true)
}

#[test]
fn lines_are_read_one_by_one(rt: HostRuntime) -> Result<(), Fail> {
    for (row, shown) in INPUTS.iter().enumerate() {
        if has_lines(rt.alloc(), shown) != Ok(true) {
            return Err(Fail::new(format_args!("row {row} has other lines")));
        }
    }
    Ok(())
}

/// Counts how often it is read at its end: a terminal asks a person each time.
#[derive(Drop)]
struct Counting<'a> {
    rest: &'a [u8],
    ends: &'a Cell<usize>,
}

impl Read for Counting<'_> {
    fn read(&mut self, buffer: &mut [u8]) -> io::Result<usize> {
        if self.rest.is_empty() {
            self.ends.set(self.ends.get().saturating_add(1));
        }
        self.rest.read(buffer)
    }
}

/// How often the end is read where more lines are asked for than these bytes have.
fn reads_at_the_end(alloc: Global, input: &[u8]) -> Result<usize, LineFault> {
    let ends = Cell::new(0);
    let reader = Counting {
        rest: input,
        ends: &ends,
    };
    let mut lines = Lines::new(alloc, reader)?;
    for _ in 0..4 {
        lines.next_line()?;
    }
    Ok(ends.get())
}

#[test]
fn the_end_is_read_once(rt: HostRuntime) -> Result<(), Fail> {
    for input in [b"".as_slice(), b"a\n", b"a\nb"] {
        if reads_at_the_end(rt.alloc(), input) != Ok(1) {
            return Err(Fail::new(format_args!("of {} bytes", input.len())));
        }
    }
    Ok(())
}

/// So many bytes without a line feed, behind which each read fails.
#[derive(Drop)]
struct Unbroken<'a> {
    left: usize,
    reads: &'a Cell<usize>,
}

impl Read for Unbroken<'_> {
    fn read(&mut self, buffer: &mut [u8]) -> io::Result<usize> {
        self.reads.set(self.reads.get().saturating_add(1));
        if self.left == 0 {
            return Err(io::Error::from(ErrorKind::Other));
        }
        let count = buffer.len().min(self.left);
        buffer[..count].fill(b'a');
        self.left -= count;
        Ok(count)
    }
}

/// How many bytes have no line feed, what the first line is then, and after how many reads of 8,192 bytes.
static UNBROKEN: [(usize, LineFault, usize); 3] = [
    (1_048_576, LineFault::Read, 129),
    (1_048_577, LineFault::Bad(1), 129),
    (1_100_000, LineFault::Bad(1), 129),
];

/// A line that is too long is refused as soon as that is read: a pipe that stays open is not waited for.
#[test]
fn a_line_that_is_too_long_waits_for_no_more(rt: HostRuntime) -> Result<(), Fail> {
    for (left, fault, wanted) in &UNBROKEN {
        let reads = Cell::new(0);
        let reader = Unbroken {
            left: *left,
            reads: &reads,
        };
        let Ok(mut lines) = Lines::new(rt.alloc(), reader) else {
            return Err(Fail::new("no lines"));
        };
        if lines.next_line() != Err(*fault) || reads.get() != *wanted {
            return Err(Fail::new(format_args!("of {left} bytes")));
        }
    }
    Ok(())
}

/// The number of the next line and whether it is at hand, before each line of three.
fn numbers(alloc: Global) -> Result<Vec<(u64, bool)>, LineFault> {
    let mut lines = Lines::new(alloc, b"a\nb\nc".as_slice())?;
    let mut numbers = Vec::new(alloc);
    for _ in 0..3 {
        if numbers
            .push((lines.next_number(), lines.is_at_hand()))
            .is_err()
        {
            return Err(LineFault::Memory);
        }
        lines.next_line()?;
    }
    Ok(numbers)
}

#[test]
fn lines_are_counted(rt: HostRuntime) -> Result<(), Fail> {
    match numbers(rt.alloc()) {
        Ok(numbers) => assert!(rt;
            numbers.as_slice() == [(1, false), (2, true), (3, false)].as_slice()
        ),
        Err(_) => return Err(Fail::new("a fault")),
    }
    Ok(())
}

/// Lines in a block, which is written at the end.
fn written(alloc: Global, bytes: &mut Vec<u8>) -> Result<(), LineFault> {
    let mut output = Output::new(alloc, bytes)?;
    output.put("a b\n")?;
    output.put("c\n")?;
    output.flush()
}

#[test]
fn lines_are_written(rt: HostRuntime) {
    let mut bytes = Vec::new(rt.alloc());
    let outcome = written(rt.alloc(), &mut bytes);
    assert!(rt; outcome == Ok(()) && bytes.as_slice() == b"a b\nc\n".as_slice());
}

/// A writer to memory whose first writes fail.
#[derive(Drop)]
struct Recovering {
    failures: usize,
    written: Vec<u8>,
}

impl Write for Recovering {
    fn write(&mut self, buffer: &[u8]) -> io::Result<usize> {
        if let Some(left) = self.failures.checked_sub(1) {
            self.failures = left;
            return Err(io::Error::from(ErrorKind::Other));
        }
        self.written.write(buffer)
    }

    fn flush(&mut self) -> io::Result<()> {
        Ok(())
    }
}

/// How many of the first writes fail, what is written, and how an output ends then.
static FAILURES: [(usize, &[u8], Result<(), LineFault>); 3] = [
    (0, b"a b\n", Ok(())),
    (1, b"a b\n", Err(LineFault::Write)),
    (2, b"", Err(LineFault::Write)),
];

/// What a failed write left at the end is tried once more, and the end is at fault still.
#[test]
fn the_end_is_tried_once_more(rt: HostRuntime) -> Result<(), Fail> {
    let alloc = rt.alloc();
    for (failures, wanted, outcome) in &FAILURES {
        let writer = Recovering {
            failures: *failures,
            written: Vec::new(alloc),
        };
        let Ok(mut output) = Output::new(alloc, writer) else {
            return Err(Fail::new("no output"));
        };
        let put = output.put("a b\n");
        let (writer, ended) = output.finish();
        if put != Ok(()) || ended != *outcome || writer.written.as_slice() != *wanted {
            return Err(Fail::new(format_args!("of {failures} failures")));
        }
    }
    Ok(())
}
