//! Queues with tens of thousands of messages, of few priorities and of nearly as many priorities as messages, some of
//! them long: they fill, pass messages while they are full, and are emptied. A semaphore on which hundreds of sessions
//! wait.

use crate::chance::{Chance, name_of};
use crate::connections::Connections;
use crate::setting::{Digest, Size, queue_open, semaphore_open};
use anyhow::Result;
use ipc_hub::Conn;
use ipc_terms::{Attributes, Call, Desc, Mode, OpenFlags};
use std::alloc::Global;

/// Queues, of which each has a connection.
const QUEUES: u32 = 4;

/// Connections that wait for one semaphore.
const WAITERS: u32 = 300;

const LONGEST: u32 = 16_384;

const ATTRIBUTES: Attributes = Attributes {
    maxmsg: 65_536,
    msgsize: LONGEST,
};

/// A message: of any priority or of one of four, by the queue; one in a hundred may be as long as any.
fn send(alloc: Global, chance: &mut Chance, number: u32) -> Result<Call> {
    let priorities = if number.is_multiple_of(2) { 32_768 } else { 4 };
    let below = if chance.one_in(100) { LONGEST } else { 65 };
    Ok(Call::MqSend {
        desc: Desc(u64::from(number)),
        priority: chance.below(priorities),
        bytes: chance.message(alloc, below)?,
    })
}

fn receive(number: u32) -> Call {
    Call::MqReceive {
        desc: Desc(u64::from(number)),
        length: LONGEST,
    }
}

/// The connection that opened the queue: of user 0, since users come in turn.
fn conn_of(number: u32) -> Conn {
    Conn(8 * u64::from(number))
}

/// Adds sixteen requests, where so many in eight are sends.
fn put_piece(
    connections: &mut Connections,
    chance: &mut Chance,
    number: u32,
    sends: u32,
) -> Result<()> {
    for _ in 0..16 {
        let call = if chance.below(8) < sends {
            send(connections.alloc, chance, number)?
        } else {
            receive(number)
        };
        connections.put(call)?;
    }
    Ok(())
}

/// Sends and receives by the queues in turn.
fn pass(
    connections: &mut Connections,
    chance: &mut Chance,
    pieces: u32,
    sends: u32,
    digest: &mut Digest,
) -> Result<()> {
    for piece in 0..pieces {
        let number = piece % QUEUES;
        put_piece(connections, chance, number, sends)?;
        connections.feed(conn_of(number))?;
        connections.take(conn_of(number), digest)?;
    }
    Ok(())
}

/// The description by which a waiter waits, behind those of the queues.
fn waiting_by(number: u32) -> Desc {
    Desc(u64::from(QUEUES) + u64::from(number))
}

fn open_queue(connections: &mut Connections, number: u32) -> Result<()> {
    let name = name_of(connections.alloc, "q", number)?;
    let flags = OpenFlags::CREATE | OpenFlags::NONBLOCK;
    connections.ask(conn_of(number), queue_open(name, flags, ATTRIBUTES))
}

fn open_semaphore(connections: &mut Connections, number: u32) -> Result<()> {
    let name = name_of(connections.alloc, "s", 0)?;
    connections.ask(Conn(u64::from(number)), semaphore_open(name, 0))
}

fn open_all(connections: &mut Connections) -> Result<()> {
    connections.ask(Conn(0), Call::Umask(Mode(0)))?;
    for number in 0..QUEUES {
        open_queue(connections, number)?;
    }
    for number in 0..WAITERS {
        open_semaphore(connections, number)?;
    }
    Ok(())
}

/// All but the first session wait, and the first posts until each was served.
fn wait_and_post(connections: &mut Connections, digest: &mut Digest) -> Result<()> {
    for number in 1..WAITERS {
        let call = Call::SemWait(waiting_by(number));
        connections.ask(Conn(u64::from(number)), call)?;
    }
    for number in 1..WAITERS {
        connections.ask(Conn(0), Call::SemPost(waiting_by(0)))?;
        connections.take(Conn(u64::from(number)), digest)?;
    }
    connections.take(Conn(0), digest)
}

/// One life of a server.
pub fn live(alloc: Global, chance: &mut Chance, size: Size, digest: &mut Digest) -> Result<()> {
    let mut connections = Connections::new(alloc, WAITERS as usize)?;
    open_all(&mut connections)?;
    let pieces = size.choose(16, 4_000);
    for _ in 0..size.choose(1, 8) {
        wait_and_post(&mut connections, digest)?;
    }
    pass(&mut connections, chance, pieces, 8, digest)?;
    pass(&mut connections, chance, pieces, 4, digest)?;
    pass(&mut connections, chance, pieces, 0, digest)
}
