//! Connections of a server, each of which sends several requests in a piece: frames are read, calls are stepped under
//! the book's lock, and answers are collected and spelled.

ghost use Rattle.std.specs.Prelude.{◌≡◌, ◌^◌};

use crate::chance::{Chance, name_of};
use crate::setting::{Digest, Size, config, key_of, queue_open, semaphore_open};
use anyhow::{Result, ensure};
use ipc_book::{Book, Seat, Shared};
use ipc_terms::{Attributes, Bytes, Call, Desc, Mode, OpenFlags};
use ipc_wire::{Frames, Request, put_answer, put_request};
use std::alloc::Global;
use std::marker::Brand;
use std::sync::Wait;
use std::sync::ledger::{Blank, Ledger};

const CONNECTIONS: u32 = 64;

/// Queues that several connections share.
const SHARED_QUEUES: u32 = 8;

/// Answers that a session may leave untaken.
const MOST_UNTAKEN: usize = 256;

/// One connection.
#[derive(Drop)]
struct Connection<L: Ledger> {
    seat: Seat<L>,
    frames: Frames,
    input: Vec<u8>,
    output: Vec<u8>,
    number: u32,
}

/// The descriptions of a connection: its own queue, a queue that it shares, and its semaphore.
fn desc_of(number: u32, place: u32) -> Desc {
    Desc(3 * u64::from(number) + u64::from(place))
}

const ATTRIBUTES: Attributes = Attributes {
    maxmsg: 16,
    msgsize: 1_024,
};

fn put(bytes: &mut Vec<u8>, call: Call) -> Result<()> {
    put_request(bytes, &Request::Do(call))?;
    Ok(())
}

/// Adds the requests with which a connection begins.
fn put_opens(alloc: Global, input: &mut Vec<u8>, number: u32) -> Result<()> {
    let own = name_of(alloc, "own", number)?;
    let shared = name_of(alloc, "shared", number % SHARED_QUEUES)?;
    let lock = name_of(alloc, "lock", number)?;
    let nonblock = OpenFlags::CREATE | OpenFlags::NONBLOCK;
    put(input, Call::Umask(Mode(0)))?;
    put(input, queue_open(own, OpenFlags::CREATE, ATTRIBUTES))?;
    put(input, queue_open(shared, nonblock, ATTRIBUTES))?;
    put(input, semaphore_open(lock, 1))
}

/// Adds the hello of a connection.
fn put_hello(alloc: Global, input: &mut Vec<u8>, number: u32) -> Result<()> {
    let key = Bytes::from_slice(alloc, &key_of(number as usize))?;
    put_request(input, &Request::Hello(key))?;
    Ok(())
}

/// Adds a send and a receive.
fn put_message(alloc: Global, chance: &mut Chance, input: &mut Vec<u8>, desc: Desc) -> Result<()> {
    let below = if chance.one_in(16) { 1_025 } else { 129 };
    let call = Call::MqSend {
        desc,
        priority: chance.below(8),
        bytes: chance.message(alloc, below)?,
    };
    put(input, call)?;
    put(
        input,
        Call::MqReceive {
            desc,
            length: 1_024,
        },
    )
}

/// Adds two requests: most are a send and a receive of a message by the connection's own queue.
fn put_pair(alloc: Global, chance: &mut Chance, input: &mut Vec<u8>, number: u32) -> Result<()> {
    match chance.below(16) {
        0..10 => put_message(alloc, chance, input, desc_of(number, 0)),
        10..12 => put_message(alloc, chance, input, desc_of(number, 1)),
        12..15 => {
            put(input, Call::SemWait(desc_of(number, 2)))?;
            put(input, Call::SemPost(desc_of(number, 2)))
        }
        _ => {
            put(input, Call::MqGetattr(desc_of(number, 1)))?;
            put(input, Call::Umask(Mode(chance.below(512) as u16)))
        }
    }
}

impl<L: Ledger> Connection<L> {
    /// Steps the request.
    fn step<R: Wait>(
        &mut self,
        rt: &R,
        alloc: Global,
        shared: &Shared<L>,
        request: Request,
    ) -> Result<()> {
        let is_stepped = match request {
            Request::Hello(key) => {
                self.seat.sid().is_none()
                    && shared
                        .hello(rt, alloc, &mut self.seat, key.as_slice())
                        .is_ok()
            }
            Request::Do(call) => shared
                .offer(rt, alloc, &mut self.seat, call, MOST_UNTAKEN)
                .is_ok(),
        };
        ensure!(is_stepped, "a request was not stepped");
        Ok(())
    }

    /// Steps the requests of the input, and takes the answers of the session into the digest.
    fn serve<R: Wait>(
        &mut self,
        rt: &R,
        alloc: Global,
        shared: &Shared<L>,
        digest: &mut Digest,
    ) -> Result<()> {
        let requests = self.frames.feed(alloc, &self.input)?;
        self.input.clear();
        for request in requests {
            self.step(rt, alloc, shared, request)?;
        }
        for answer in &shared.collect(rt, &self.seat) {
            put_answer(&mut self.output, answer)?;
        }
        digest.add(&self.output);
        self.output.clear();
        Ok(())
    }
}

/// A connection that has started a session, and opened its queues and its semaphore.
fn connect<L: Ledger, R: Wait>(
    rt: &R,
    alloc: Global,
    shared: &Shared<L>,
    number: u32,
    digest: &mut Digest,
) -> Result<Connection<L>> {
    let mut connection = Connection {
        seat: shared.seat(rt, alloc)?,
        frames: Frames::new(alloc),
        input: Vec::new(alloc),
        output: Vec::new(alloc),
        number,
    };
    put_hello(alloc, &mut connection.input, number)?;
    put_opens(alloc, &mut connection.input, number)?;
    connection.serve(rt, alloc, shared, digest)?;
    Ok(connection)
}

/// A piece of each connection in turn.
fn round<L: Ledger, R: Wait>(
    rt: &R,
    alloc: Global,
    shared: &Shared<L>,
    connections: &mut Vec<Connection<L>>,
    chance: &mut Chance,
    digest: &mut Digest,
) -> Result<()> {
    for connection in connections.iter_mut() {
        for _ in 0..1 + chance.below(8) {
            put_pair(alloc, chance, &mut connection.input, connection.number)?;
        }
        connection.serve(rt, alloc, shared, digest)?;
    }
    Ok(())
}

fn serve_book<L: Ledger, R: Wait>(
    rt: &R,
    alloc: Global,
    shared: &Shared<L>,
    chance: &mut Chance,
    size: Size,
    digest: &mut Digest,
) -> Result<()> {
    let mut connections = Vec::new(alloc);
    for number in 0..CONNECTIONS {
        connections.push(connect(rt, alloc, shared, number, digest)?)?;
    }
    for _ in 0..size.choose(2, 400) {
        round(rt, alloc, shared, &mut connections, chance, digest)?;
    }
    Ok(())
}

fn live_with<L: Ledger, R: Wait>(
    rt: &R,
    alloc: Global,
    chance: &mut Chance,
    size: Size,
    digest: &mut Digest,
    blank: Blank,
) -> Result<()>
    requires name { blank.name ≡ L.name }
    requires parts { blank.parts ≡ L.parts }
    requires many { blank.parts ≡ 2 ^ 63 }
{
    let book: Book<L> = Book::new(alloc, config(alloc)?, blank)?;
    let shared = Shared::new(book);
    serve_book(rt, alloc, &shared, chance, size, digest)
}

/// One life of a server.
pub fn live<R: Wait>(
    rt: &R,
    alloc: Global,
    chance: &mut Chance,
    size: Size,
    digest: &mut Digest,
) -> Result<()> {
    live_with::<Brand, R>(rt, alloc, chance, size, digest, Blank::new(1 << 63))
}
