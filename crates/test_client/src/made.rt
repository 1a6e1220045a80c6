//! What a session sends, prints and ends with, in rows and in pieces, and a reader of which one read fails.

use ipc_client::{ClientFault, client_session};
use std::alloc::Global;
use std::io;
use std::io::{ErrorKind, Read};

/// The frame of a hello with the key `ka1`.
pub(crate) const HELLO: &[u8] = b"\0\0\0\x06\x01\0\x03ka1";

/// What a session sends, prints and ends with.
#[derive(Drop)]
pub(crate) struct Ended {
    pub(crate) outcome: Result<bool, ClientFault>,
    pub(crate) sent: Vec<u8>,
    pub(crate) printed: Vec<u8>,
}

/// A session with the key `ka1` over these commands, whose server gives what this reader has.
pub(crate) fn run_session<R: Read + Drop, C: Read + Drop>(
    alloc: Global,
    server: R,
    commands: C,
) -> Ended {
    let (mut sent, mut printed) = (Vec::new(alloc), Vec::new(alloc));
    let outcome = client_session(alloc, b"ka1", server, &mut sent, commands, &mut printed);
    Ended {
        outcome,
        sent,
        printed,
    }
}

/// Commands, the frames that come, the frames that are sent after the hello, what is printed, and how the session ends.
pub(crate) type Row<'a> = (
    &'a str,
    &'a [u8],
    &'a [u8],
    &'a str,
    Result<bool, ClientFault>,
);

/// Whether the row's session goes so over a connection that gives its frames.
pub(crate) fn goes<R: Read + Drop>(alloc: Global, row: &Row<'_>, connection: R) -> bool {
    let (commands, _, sent, printed, outcome) = row;
    let ended = run_session(alloc, connection, commands.as_bytes());
    ended.outcome == *outcome
        && ended.printed.as_slice() == printed.as_bytes()
        && ended.sent.as_slice().strip_prefix(HELLO) == Some(*sent)
}

/// The same, where the answers come in two pieces, cut at each byte in turn.
pub(crate) fn goes_cut(alloc: Global, row: &Row<'_>) -> bool {
    for cut in 0..=row.1.len() {
        let (one, two) = row.1.split_at(cut);
        if !goes(alloc, row, one.chain(two)) {
            return false;
        }
    }
    true
}

/// A reader that gives its bytes a few at a time, of which one read fails.
#[derive(Drop)]
pub(crate) struct Failing<'a> {
    pub(crate) rest: &'a [u8],
    /// The most bytes of a read.
    pub(crate) most: usize,
    pub(crate) reads: u64,
    /// The number of the read that fails, counted from 1.
    pub(crate) fails_at: u64,
    pub(crate) kind: ErrorKind,
}

impl Read for Failing<'_> {
    fn read(&mut self, buffer: &mut [u8]) -> io::Result<usize> {
        self.reads = self.reads.saturating_add(1);
        if self.reads == self.fails_at {
            return Err(io::Error::from(self.kind));
        }
        let most = buffer.len().min(self.most);
        self.rest.read(&mut buffer[..most])
    }
}
