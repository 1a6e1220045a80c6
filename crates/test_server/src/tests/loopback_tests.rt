//! Workers and their clients over loopback, both ends in one process.

use super::books::{Work, serve_by_workers};
use super::signs::Sign;
use super::streams::{
    HELLO, INTERRUPT, NOT_IN_CALL, OPEN, OPENED, RECEIVE, RECEIVED, SEND, SENT, STARTED,
};
use ipc_server::{Gate, OpenGate};
use std::alloc::Global;
use std::io::{Read, Write};
use std::net::{Ipv4Addr, Net, OpenStream, SocketAddr, TcpListener, TcpStream};
use std::sync::Wait;
use std::test::*;
use std::thread::Threads;
use std::time::{Clock, Duration};
use std::{io, thread};

const WORKERS: usize = 2;

/// How many seconds a client waits for an answer.
const PATIENCE: u64 = 20;

/// A connection's number, what the client sends over it, and the bytes that it then waits for.
type Step = (usize, &'static [u8], &'static [u8]);

/// Sends a message and receives it, all before the first answer is read.
static ONE_MESSAGE: &[Step] = &[
    (0, HELLO, b""),
    (0, OPEN, b""),
    (0, SEND, b""),
    (0, RECEIVE, b""),
    (0, b"", STARTED),
    (0, b"", OPENED),
    (0, b"", SENT),
    (0, b"", RECEIVED),
];

/// Session 1 has started.
const STARTED_1: &[u8] = b"\0\0\0\x09\x41\0\0\0\0\0\0\0\x01";

/// Description 1 is opened.
const OPENED_1: &[u8] = b"\0\0\0\x09\x43\0\0\0\0\0\0\0\x01";

/// Sends `hi` to description 1, at priority 5.
const SEND_1: &[u8] = b"\0\0\0\x0f\x06\0\0\0\0\0\0\0\x01\0\0\0\x05hi";

/// One session waits for a message, and another sends it.
static TWO_SESSIONS: &[Step] = &[
    (0, HELLO, STARTED),
    (0, OPEN, OPENED),
    (0, RECEIVE, b""),
    (1, HELLO, STARTED_1),
    (1, OPEN, OPENED_1),
    (1, SEND_1, SENT),
    (0, b"", RECEIVED),
];

/// The session that started first sends it, and the other waits.
static YOUNGER_WAITS: &[Step] = &[
    (0, HELLO, STARTED),
    (1, HELLO, STARTED_1),
    (1, OPEN, OPENED),
    (1, RECEIVE, b""),
    (0, INTERRUPT, NOT_IN_CALL),
    (0, OPEN, OPENED_1),
    (0, SEND_1, SENT),
    (1, b"", RECEIVED),
];

/// Two hellos, then their answers but for the last byte of the session's number: either may come first.
static TWO_HELLOS: &[Step] = &[
    (0, HELLO, b""),
    (1, HELLO, b""),
    (0, b"", b"\0\0\0\x09\x41\0\0\0\0\0\0\0"),
    (1, b"", b"\0\0\0\x09\x41\0\0\0\0\0\0\0"),
];

/// So many connections to the address, one after the other.
fn connect_all<R: Net>(
    rt: &R,
    alloc: Global,
    address: SocketAddr,
    connections: u64,
) -> io::Result<Vec<R::Stream>> {
    let mut streams = Vec::new(alloc);
    for _ in 0..connections {
        let stream = TcpStream::connect(rt, address)?;
        stream.set_read_timeout(Some(Duration::from_secs(PATIENCE)))?;
        streams.push(stream)?;
    }
    Ok(streams)
}

/// Whether these bytes come next, once the request is sent.
fn answers<S: Read + Write>(
    alloc: Global,
    stream: &mut S,
    request: &[u8],
    wanted: &[u8],
) -> io::Result<bool> {
    stream.write_all(request)?;
    let mut answer = Vec::from_elem(alloc, 0, wanted.len())?;
    stream.read_exact(answer.as_mut_slice())?;
    Ok(answer.as_slice() == wanted)
}

/// Connects as many times, and says whether each step is answered so.
fn talk<R: Net>(
    rt: &R,
    alloc: Global,
    address: SocketAddr,
    connections: u64,
    steps: &[Step],
) -> io::Result<bool> {
    let mut streams = connect_all(rt, alloc, address, connections)?;
    for (number, request, wanted) in steps {
        let Some(stream) = streams.get_mut(*number) else {
            return Ok(false);
        };
        if !answers(alloc, stream, request, wanted)? {
            return Ok(false);
        }
    }
    Ok(true)
}

/// A client and two workers: the steps are answered so, and the book closes with the workers' seats.
fn go_over_loopback<
    R: Net<Listener = TcpListener, Stream = TcpStream> + Threads + Wait + Sync,
    G: Gate + Sync,
>(rt: &R, alloc: Global, connections: u64, steps: &'static [Step], gate: &G) -> Result<(), Fail> {
    let listener = TcpListener::bind(rt, SocketAddr::from((Ipv4Addr::LOCALHOST, 0)))?;
    let address = listener.local_addr()?;
    let work = Work {
        listener: &listener,
        workers: WORKERS,
        stop_after: Some(connections),
        gate,
    };
    let (talked, worked) = thread::join(
        rt,
        move || talk(rt, alloc, address, connections, steps).unwrap_or(false),
        || serve_by_workers(rt, alloc, &work),
    );
    let worked = worked?;
    if talked && worked.outcome == Ok(()) && worked.seats == WORKERS {
        Ok(())
    } else {
        Err(Fail::new("other answers"))
    }
}

#[test]
fn one_message_goes_over_loopback(rt: HostRuntime) -> Result<(), Fail> {
    go_over_loopback(&rt, rt.alloc(), 1, ONE_MESSAGE, &OpenGate)
}

#[test]
fn a_message_goes_from_one_to_another(rt: HostRuntime) -> Result<(), Fail> {
    go_over_loopback(&rt, rt.alloc(), 2, TWO_SESSIONS, &OpenGate)
}

#[test]
fn a_message_goes_to_the_younger(rt: HostRuntime) -> Result<(), Fail> {
    go_over_loopback(&rt, rt.alloc(), 2, YOUNGER_WAITS, &OpenGate)
}

/// Holds the answers of connection 0 until connection 1 is about to be answered.
#[derive(Drop)]
struct Turnstile<'a, R> {
    clock: &'a R,
    second: Sign,
    ran_out: Sign,
}

impl<R: Clock> Gate for Turnstile<'_, R> {
    fn before_read(&self, _conn: u64) {}

    fn before_answer(&self, conn: u64) {
        if conn != 0 {
            self.second.give();
        } else if !self.second.comes(self.clock) {
            self.ran_out.give();
        }
    }
}

#[test]
fn two_are_answered_side_by_side(rt: HostRuntime) -> Result<(), Fail> {
    let gate = Turnstile {
        clock: &rt,
        second: Sign::new(),
        ran_out: Sign::new(),
    };
    go_over_loopback(&rt, rt.alloc(), 2, TWO_HELLOS, &gate)?;
    assert!(rt; !gate.ran_out.is_given());
    Ok(())
}
