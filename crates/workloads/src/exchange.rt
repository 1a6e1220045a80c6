//! Pairs of sessions that wait for each other, a frame a piece: receives and waits that block until the other sends or
//! posts, full queues, interrupted calls and notices.

use crate::chance::{Chance, name_of};
use crate::connections::Connections;
use crate::setting::{Digest, Size, queue_open, semaphore_open};
use anyhow::Result;
use ipc_hub::Conn;
use ipc_terms::{Attributes, Call, Desc, Mode, OpenFlags};
use std::alloc::Global;

const PAIRS: u32 = 32;

/// Two connections, and their descriptions of one queue and one semaphore.
#[derive(Clone, Copy)]
struct Pair {
    here: Conn,
    there: Conn,
    queue_here: Desc,
    queue_there: Desc,
    semaphore_here: Desc,
    semaphore_there: Desc,
}

/// The pair of this number, if descriptions are opened pair by pair, and of each pair end by end.
fn pair_of(number: u32) -> Pair {
    let number = u64::from(number);
    let conn = 2 * number;
    let desc = 4 * number;
    Pair {
        here: Conn(conn),
        there: Conn(conn + 1),
        queue_here: Desc(desc),
        semaphore_here: Desc(desc + 1),
        queue_there: Desc(desc + 2),
        semaphore_there: Desc(desc + 3),
    }
}

const ATTRIBUTES: Attributes = Attributes {
    maxmsg: 2,
    msgsize: 512,
};

/// Opens a pair's queue and semaphore at this end.
fn open_end(connections: &mut Connections, conn: Conn, number: u32) -> Result<()> {
    let queue = name_of(connections.alloc, "q", number)?;
    connections.ask(conn, queue_open(queue, OpenFlags::CREATE, ATTRIBUTES))?;
    let semaphore = name_of(connections.alloc, "s", number)?;
    connections.ask(conn, semaphore_open(semaphore, 0))
}

/// Opens a pair's queue and semaphore at both ends. Without a mask all users may use what it creates.
fn open_pair(connections: &mut Connections, number: u32, digest: &mut Digest) -> Result<()> {
    let Pair { here, there, .. } = pair_of(number);
    connections.ask(here, Call::Umask(Mode(0)))?;
    open_end(connections, here, number)?;
    open_end(connections, there, number)?;
    connections.take(here, digest)?;
    connections.take(there, digest)
}

fn send(chance: &mut Chance, alloc: Global, desc: Desc) -> Result<Call> {
    Ok(Call::MqSend {
        desc,
        priority: chance.below(10),
        bytes: chance.message(alloc, 257)?,
    })
}

fn receive(desc: Desc) -> Call {
    Call::MqReceive { desc, length: 512 }
}

/// A receive that blocks, and the send that serves it.
fn receive_first(connections: &mut Connections, chance: &mut Chance, pair: &Pair) -> Result<()> {
    let sent = send(chance, connections.alloc, pair.queue_here)?;
    connections.ask(pair.there, receive(pair.queue_there))?;
    connections.ask(pair.here, sent)
}

/// A send, and the receive that takes its message.
fn send_first(connections: &mut Connections, chance: &mut Chance, pair: &Pair) -> Result<()> {
    let sent = send(chance, connections.alloc, pair.queue_there)?;
    connections.ask(pair.there, sent)?;
    connections.ask(pair.here, receive(pair.queue_here))
}

/// A send more than the queue has room for, and receives that take all.
fn send_too_many(connections: &mut Connections, chance: &mut Chance, pair: &Pair) -> Result<()> {
    for _ in 0..3 {
        let sent = send(chance, connections.alloc, pair.queue_here)?;
        connections.ask(pair.here, sent)?;
    }
    for _ in 0..3 {
        connections.ask(pair.there, receive(pair.queue_there))?;
    }
    Ok(())
}

/// A wait that blocks, and the post that serves it.
fn wait_first(connections: &mut Connections, pair: &Pair) -> Result<()> {
    connections.ask(pair.here, Call::SemWait(pair.semaphore_here))?;
    connections.ask(pair.there, Call::SemPost(pair.semaphore_there))
}

/// A receive that blocks until its session ends it, and a call that is refused meanwhile.
fn interrupt(connections: &mut Connections, pair: &Pair) -> Result<()> {
    connections.ask(pair.here, receive(pair.queue_here))?;
    connections.ask(pair.here, Call::MqGetattr(pair.queue_here))?;
    connections.ask(pair.here, Call::Interrupt)
}

/// A notice that a message came, and the receive that takes it.
fn notice(connections: &mut Connections, chance: &mut Chance, pair: &Pair) -> Result<()> {
    let desc = pair.queue_there;
    connections.ask(pair.there, Call::MqNotify { desc, on: true })?;
    let sent = send(chance, connections.alloc, pair.queue_here)?;
    connections.ask(pair.here, sent)?;
    connections.ask(pair.there, receive(desc))
}

fn exchange(connections: &mut Connections, chance: &mut Chance, pair: &Pair) -> Result<()> {
    match chance.below(12) {
        0..4 => receive_first(connections, chance, pair),
        4..7 => send_first(connections, chance, pair),
        7 => send_too_many(connections, chance, pair),
        8 | 9 => wait_first(connections, pair),
        10 => interrupt(connections, pair),
        _ => notice(connections, chance, pair),
    }
}

/// Exchanges by pairs that are drawn, each of which takes its answers at once.
fn exchange_all(
    connections: &mut Connections,
    chance: &mut Chance,
    count: u32,
    digest: &mut Digest,
) -> Result<()> {
    for _ in 0..count {
        let pair = pair_of(chance.below(PAIRS));
        exchange(connections, chance, &pair)?;
        connections.take(pair.here, digest)?;
        connections.take(pair.there, digest)?;
    }
    Ok(())
}

/// One life of a server.
pub fn live(alloc: Global, chance: &mut Chance, size: Size, digest: &mut Digest) -> Result<()> {
    let mut connections = Connections::new(alloc, 2 * PAIRS as usize)?;
    for number in 0..PAIRS {
        open_pair(&mut connections, number, digest)?;
    }
    exchange_all(&mut connections, chance, size.choose(200, 40_000), digest)
}
