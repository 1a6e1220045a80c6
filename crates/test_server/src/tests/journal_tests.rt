//! What a journal is told of connections.

ghost use Rattle.std.specs.Prelude.{◌≡◌, ◌^◌};

use super::books::shared_book;
use super::streams::{HELLO, STREAMS};
use ipc_book::Shared;
use ipc_server::{Ending, Journal, Link, Listen, OpenGate, run_workers_with_journal};
use std::alloc::Global;
use std::io;
use std::io::{ErrorKind, Read};
use std::marker::Brand;
use std::net::SocketAddr;
use std::sync::Wait;
use std::sync::atomic::{AtomicU64, AtomicUsize, Ordering};
use std::sync::ledger::{Blank, Ledger};
use std::test::*;
use std::thread::Threads;

/// How many requests of each stream are stepped.
const REQUESTS: [usize; 16] = [0, 2, 4, 2, 3, 3, 1, 1, 1, 1, 1, 1, 1, 0, 1, 3];

/// A connection that sends one of the streams, a frame at each read.
#[derive(Drop)]
struct Sending {
    stream: usize,
    reads: AtomicUsize,
}

impl Link for Sending {
    fn read(&self, buffer: &mut [u8]) -> io::Result<usize> {
        let place = self.reads.fetch_add(1, Ordering::SeqCst);
        let Some(stream) = STREAMS.get(self.stream) else {
            return Ok(0);
        };
        let mut piece = match stream.frames.get(place) {
            Some((frame, _)) => *frame,
            None if place == stream.frames.len() => stream.rest,
            None => b"",
        };
        piece.read(buffer)
    }

    fn write(&self, bytes: &[u8]) -> io::Result<usize> {
        Ok(bytes.len())
    }
}

/// Gives a connection for each of the streams, in their order.
#[derive(Drop)]
struct Senders {
    accepted: AtomicUsize,
}

impl Listen for Senders {
    type Conn = Sending;

    fn accept(&self) -> io::Result<Sending> {
        let stream = self.accepted.fetch_add(1, Ordering::SeqCst);
        if stream >= STREAMS.len() {
            return Err(io::Error::from(ErrorKind::Other));
        }
        Ok(Sending {
            stream,
            reads: AtomicUsize::new(0),
        })
    }
}

/// The numbers of connections, each as a bit.
#[derive(Drop)]
struct Numbers {
    bits: AtomicU64,
}

impl Numbers {
    fn new() -> Numbers {
        Numbers {
            bits: AtomicU64::new(0),
        }
    }

    fn note(&self, conn: u64) {
        if conn < 64 {
            self.bits.fetch_or(1 << conn, Ordering::SeqCst);
        }
    }

    fn has(&self, conn: usize) -> bool {
        conn < 64 && self.bits.load(Ordering::SeqCst) >> conn & 1 == 1
    }
}

/// Notes which connections began, were greeted by the right key, and ended after so many requests and as their stream does.
#[derive(Drop)]
struct Notes {
    begun: Numbers,
    greeted: Numbers,
    ended: Numbers,
    told: AtomicUsize,
}

impl Journal for Notes {
    fn begun(&self, conn: u64, peer: Option<SocketAddr>) {
        self.told.fetch_add(1, Ordering::SeqCst);
        if peer.is_none() {
            self.begun.note(conn);
        }
    }

    fn greeted(&self, conn: u64, key: &[u8]) {
        self.told.fetch_add(1, Ordering::SeqCst);
        if key == b"ka1".as_slice() {
            self.greeted.note(conn);
        }
    }

    fn ended(&self, conn: u64, requests: usize, ending: Ending) {
        self.told.fetch_add(1, Ordering::SeqCst);
        let stream = usize::try_from(conn).unwrap_or(usize::MAX);
        let is_right = REQUESTS.get(stream).is_some_and(|most| *most == requests)
            && STREAMS.get(stream).is_some_and(|it| it.ending == ending);
        if is_right {
            self.ended.note(conn);
        }
    }
}

impl Notes {
    fn new() -> Notes {
        Notes {
            begun: Numbers::new(),
            greeted: Numbers::new(),
            ended: Numbers::new(),
            told: AtomicUsize::new(0),
        }
    }

    /// Whether a connection of this stream is noted as it is to be.
    fn is_right(&self, stream: usize) -> bool {
        let is_greeted = STREAMS
            .get(stream)
            .and_then(|it| it.frames.first())
            .is_some_and(|(frame, _)| *frame == HELLO);
        self.begun.has(stream) && self.ended.has(stream) && self.greeted.has(stream) == is_greeted
    }
}

/// Serves all streams by so many workers at a new book.
fn serve_streams<R: Threads + Wait + Sync>(
    rt: &R,
    alloc: Global,
    notes: &Notes,
) -> Result<bool, Fail> {
    serve_in::<Brand, R>(rt, alloc, Blank::new(1 << 63), notes)
}

fn serve_in<L: Ledger + Send + Sync, R: Threads + Wait + Sync>(
    rt: &R,
    alloc: Global,
    blank: Blank,
    notes: &Notes,
) -> Result<bool, Fail>
    requires name { blank.name ≡ L.name }
    requires parts { blank.parts ≡ L.parts }
    requires many { blank.parts ≡ 2 ^ 63 }
{
    let book: Shared<L> = shared_book(alloc, blank)?;
    let listener = Senders {
        accepted: AtomicUsize::new(0),
    };
    let most = Some(STREAMS.len() as u64);
    let ended = run_workers_with_journal(rt, alloc, &listener, &book, 3, most, &OpenGate, notes);
    Ok(ended.is_ok())
}

/// Each connection begins and ends once, and is greeted once if its hello is accepted. They are numbered from 0 on.
#[test]
fn connections_are_told(rt: HostRuntime) -> Result<(), Fail> {
    let notes = Notes::new();
    assert!(rt; serve_streams(&rt, rt.alloc(), &notes)?);
    for stream in 0..STREAMS.len() {
        if !notes.is_right(stream) {
            return Err(Fail::new(format_args!("stream {stream} is told otherwise")));
        }
    }
    let told = notes.told.load(Ordering::SeqCst);
    assert!(rt; told == 2 * STREAMS.len() + 12, "told {told} times");
    Ok(())
}
