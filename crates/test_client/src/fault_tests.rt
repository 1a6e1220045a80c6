//! Reads and writes that fail, and what was printed before; and that each line is shown at once.

use crate::made::{Failing, run_session};
use ipc_client::{ClientFault, client_session};
use std::alloc::Global;
use std::cell::Cell;
use std::io;
use std::io::{ErrorKind, Read, Write};
use std::test::Fail;

/// What a server gives: that the session started, a notice, and two answers.
const GIVEN: &[u8] =
    b"\0\0\0\x09\x41\0\0\0\0\0\0\0\0\0\0\0\x09\x4e\0\0\0\0\0\0\0\x05\0\0\0\x01\x46\0\0\0\x01\x42";

const COMMANDS: &[u8] = b"mq-send 0 5 hi\nnone\nmq-close 0\n";

const PRINTED: &[u8] = b"notice 5\nsent\nfault usage\ndone\n";

/// Whether a session whose read of this number fails prints a part and ends so, or all where no such read is made.
fn read_fails(alloc: Global, fails_at: u64, kind: ErrorKind, fault: ClientFault) -> bool {
    let server = Failing {
        rest: GIVEN,
        most: 4,
        reads: 0,
        fails_at,
        kind,
    };
    let ended = run_session(alloc, server, COMMANDS);
    let is_whole = ended.printed.as_slice() == PRINTED;
    match ended.outcome {
        // 36 bytes by fours.
        Ok(all_are_done) => {
            !all_are_done && is_whole && (fails_at > 9 || kind == ErrorKind::Interrupted)
        }
        Err(found) => found == fault && !is_whole && PRINTED.starts_with(&ended.printed),
    }
}

/// Errors of a read, and the fault that the session ends by; an interrupted one is made again.
static ERRORS: [(ErrorKind, ClientFault); 3] = [
    (ErrorKind::ConnectionReset, ClientFault::Net),
    (ErrorKind::OutOfMemory, ClientFault::Memory),
    (ErrorKind::Interrupted, ClientFault::Read),
];

#[test]
fn each_read_fails_once(rt: HostRuntime) -> Result<(), Fail> {
    for fails_at in 1..=12u64 {
        for (kind, fault) in &ERRORS {
            if !read_fails(rt.alloc(), fails_at, *kind, *fault) {
                return Err(Fail::new(format_args!("at read {fails_at}")));
            }
        }
    }
    Ok(())
}

/// A writer that takes so many bytes in all, a few at a time, and shows at a flush how many it took.
#[derive(Drop)]
struct Screen<'a> {
    room: usize,
    taken: usize,
    shown: &'a Cell<usize>,
}

impl<'a> Screen<'a> {
    fn with_room(room: usize, shown: &'a Cell<usize>) -> Screen<'a> {
        Screen {
            room,
            taken: 0,
            shown,
        }
    }
}

impl Write for Screen<'_> {
    fn write(&mut self, buffer: &[u8]) -> io::Result<usize> {
        let taken = buffer.len().min(5).min(self.room);
        if taken == 0 {
            return Err(io::Error::from(ErrorKind::BrokenPipe));
        }
        self.room -= taken;
        self.taken = self.taken.saturating_add(taken);
        Ok(taken)
    }

    fn flush(&mut self) -> io::Result<()> {
        self.shown.set(self.taken);
        Ok(())
    }
}

/// How a session ends whose connection and output take so many bytes.
fn written(alloc: Global, sends: usize, prints: usize) -> Result<bool, ClientFault> {
    let (sent, shown) = (Cell::new(0), Cell::new(0));
    let mut connection = Screen::with_room(sends, &sent);
    let output = Screen::with_room(prints, &shown);
    client_session(alloc, b"ka1", GIVEN, &mut connection, COMMANDS, output)
}

/// Bytes that the connection and the output take, and how the session ends.
static ROOM: [(usize, usize, Result<bool, ClientFault>); 6] = [
    (1_000, 1_000, Ok(false)),
    (0, 1_000, Err(ClientFault::Net)),
    (9, 0, Err(ClientFault::Net)),
    (10, 1_000, Err(ClientFault::Net)),
    (1_000, 8, Err(ClientFault::Write)),
    (1_000, 20, Err(ClientFault::Write)),
];

#[test]
fn writes_fail(rt: HostRuntime) -> Result<(), Fail> {
    for (row, (sends, prints, outcome)) in ROOM.iter().enumerate() {
        if written(rt.alloc(), *sends, *prints) != *outcome {
            return Err(Fail::new(format_args!("row {row} ends otherwise")));
        }
    }
    Ok(())
}

/// A failing reader of commands is no fault of the connection.
#[test]
fn commands_may_fail(rt: HostRuntime) {
    let commands = Failing {
        rest: COMMANDS,
        most: 64,
        reads: 0,
        fails_at: 1,
        kind: ErrorKind::ConnectionReset,
    };
    let ended = run_session(rt.alloc(), GIVEN, commands);
    assert!(rt; ended.outcome == Err(ClientFault::Read));
}

/// Pieces, and how many bytes are due on the screen before each is read.
type Due = &'static [(&'static [u8], usize)];

/// A server's frames.
const ANSWERS_DUE: Due = &[
    (b"\0\0\0\x09\x41\0\0\0\0\0\0\0\0", 0),
    (b"\0\0\0\x09\x4e\0\0\0\0\0\0\0\x05", 0),
    (b"\0\0\0\x01\x46", 9),
    (b"\0\0\0\x01\x42", 26),
];

/// The lines of a person who waits for each answer.
const COMMANDS_DUE: Due = &[
    (b"mq-send 0 5 hi\n", 0),
    (b"none\n", 14),
    (b"mq-close 0\n", 26),
    (b"", 31),
];

/// A reader that fails where a line that is due isn't shown yet.
#[derive(Drop)]
struct Watching<'a> {
    due: Due,
    given: usize,
    shown: &'a Cell<usize>,
}

impl<'a> Watching<'a> {
    fn new(due: Due, shown: &'a Cell<usize>) -> Watching<'a> {
        Watching {
            due,
            given: 0,
            shown,
        }
    }
}

impl Read for Watching<'_> {
    fn read(&mut self, buffer: &mut [u8]) -> io::Result<usize> {
        let Some((piece, due)) = self.due.get(self.given) else {
            return Ok(0);
        };
        if self.shown.get() != *due {
            return Err(io::Error::from(ErrorKind::TimedOut));
        }
        self.given += 1;
        let mut rest = *piece;
        rest.read(buffer)
    }
}

#[test]
fn lines_are_shown_before_more_is_waited_for(rt: HostRuntime) {
    let shown = Cell::new(0);
    let mut sent = Vec::new(rt.alloc());
    let outcome = client_session(
        rt.alloc(),
        b"ka1",
        Watching::new(ANSWERS_DUE, &shown),
        &mut sent,
        Watching::new(COMMANDS_DUE, &shown),
        Screen::with_room(1_000, &shown),
    );
    assert!(rt; outcome == Ok(false) && shown.get() == PRINTED.len());
}
