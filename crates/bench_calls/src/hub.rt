//! Pairs of calls through a hub.
//!
//! Each connection has a queue and a semaphore of its own. A pair is, by its KIND, a send and a receive of a message of 64
//! bytes (`message`), a post and a wait (`semaphore`), two umasks (`mask`) or two questions for the queue's owner (`stat`).
//! In each round every connection is fed PIECE pairs, as one piece, or frame by frame where PIECE is 0, and its output is
//! taken after each piece. Prints how many bytes came out, and the microseconds.
use anyhow::{Result, bail};
use ipc_access::Users;
use ipc_core::{Config, Limits};
use ipc_hub::{Conn, Hub};
use std::alloc::Global;
use std::time::Instant;

const USERS: &[u8] = b"ann:ka1:1000:1000::1000000000000000\n";

/// A hello with the key `ka1`.
const HELLO: &[u8] = b"\0\0\0\x06\x01\0\x03ka1";

/// An open of a queue that creates it, to read and write, without its name's last two bytes and what follows them.
const OPEN: &[u8] = b"\0\0\0\x0b\x03\0\x03/";

const OPEN_END: &[u8] = b"\x03\x01\x01\x80\0";

/// An open of a semaphore that creates it, likewise.
const OPEN_SEMAPHORE: &[u8] = b"\0\0\0\x0d\x0b\0\x03/";

const OPEN_SEMAPHORE_END: &[u8] = b"\x01\x01\x80\0\0\0\0";

/// Requests without their description and what follows it.
const SEND: &[u8] = b"\0\0\0\x4d\x06";

const RECEIVE: &[u8] = b"\0\0\0\x0d\x07";

const POST: &[u8] = b"\0\0\0\x09\x0e";

const WAIT: &[u8] = b"\0\0\0\x09\x0f";

/// A umask, octal 022.
const UMASK: &[u8] = b"\0\0\0\x03\x02\0\x12";

/// A question for a queue's owner, group and mode, without its name's last two bytes.
const STAT: &[u8] = b"\0\0\0\x08\x13\x01\x01\0\x03/";

const PRIORITY: &[u8] = b"\0\0\0\x05";

const LENGTH: &[u8] = b"\0\0\x20\0";

const MESSAGE: [u8; 64] = [b'm'; 64];

/// What a pair of calls is.
#[derive(Clone, Copy)]
pub enum Kind {
    Message,
    Semaphore,
    Mask,
    Stat,
}

pub const KINDS: [Kind; 4] = [Kind::Message, Kind::Semaphore, Kind::Mask, Kind::Stat];

impl Kind {
    fn of_word(word: &str) -> Option<Kind> {
        match word {
            "message" => Some(Kind::Message),
            "semaphore" => Some(Kind::Semaphore),
            "mask" => Some(Kind::Mask),
            "stat" => Some(Kind::Stat),
            _ => None,
        }
    }
}

/// One connection, and what it is fed.
#[derive(Drop)]
struct Client {
    conn: Conn,
    pieces: Vec<Vec<u8>>,
}

/// The last two bytes of the names of a client's queue and semaphore.
fn name_end(number: u8) -> [u8; 2] {
    [b'A' + number / 16 % 16, b'A' + number % 16]
}

fn start_of(alloc: Global, number: u8) -> Result<Vec<u8>> {
    let mut bytes = Vec::new(alloc);
    bytes.extend_from_slice(HELLO)?;
    bytes.extend_from_slice(OPEN)?;
    bytes.extend_from_slice(&name_end(number))?;
    bytes.extend_from_slice(OPEN_END)?;
    bytes.extend_from_slice(OPEN_SEMAPHORE)?;
    bytes.extend_from_slice(&name_end(number))?;
    bytes.extend_from_slice(OPEN_SEMAPHORE_END)?;
    Ok(bytes)
}

fn put_by_description(bytes: &mut Vec<u8>, request: &[u8], desc: u64) -> Result<()> {
    bytes.extend_from_slice(request)?;
    bytes.extend_from_slice(&desc.to_be_bytes())?;
    Ok(())
}

/// Adds the first request of a pair of this kind.
fn put_first(bytes: &mut Vec<u8>, kind: Kind, number: u8) -> Result<()> {
    match kind {
        Kind::Message => {
            put_by_description(bytes, SEND, queue_of(number))?;
            bytes.extend_from_slice(PRIORITY)?;
            bytes.extend_from_slice(&MESSAGE)?;
        }
        Kind::Semaphore => put_by_description(bytes, POST, semaphore_of(number))?,
        Kind::Mask => bytes.extend_from_slice(UMASK)?,
        Kind::Stat => {
            bytes.extend_from_slice(STAT)?;
            bytes.extend_from_slice(&name_end(number))?;
        }
    }
    Ok(())
}

/// Adds the second request of a pair of this kind.
fn put_second(bytes: &mut Vec<u8>, kind: Kind, number: u8) -> Result<()> {
    match kind {
        Kind::Message => {
            put_by_description(bytes, RECEIVE, queue_of(number))?;
            bytes.extend_from_slice(LENGTH)?;
            Ok(())
        }
        Kind::Semaphore => put_by_description(bytes, WAIT, semaphore_of(number)),
        Kind::Mask | Kind::Stat => put_first(bytes, kind, number),
    }
}

/// The description of a client's queue. Clients open a queue and a semaphore each, in turn.
fn queue_of(number: u8) -> u64 {
    2 * u64::from(number)
}

fn semaphore_of(number: u8) -> u64 {
    2 * u64::from(number) + 1
}

/// What a client is fed in a round.
fn pieces_of(alloc: Global, kind: Kind, number: u8, pairs: u32) -> Result<Vec<Vec<u8>>> {
    let (mut first, mut second) = (Vec::new(alloc), Vec::new(alloc));
    for _ in 0..pairs {
        put_first(&mut first, kind, number)?;
        put_second(&mut first, kind, number)?;
    }
    let mut pieces = Vec::new(alloc);
    if pairs == 0 {
        put_first(&mut first, kind, number)?;
        put_second(&mut second, kind, number)?;
        pieces.push(first)?;
        pieces.push(second)?;
    } else {
        pieces.push(first)?;
    }
    Ok(pieces)
}

/// Connections that have each opened a queue and a semaphore.
fn clients_of(
    alloc: Global,
    hub: &mut Hub,
    kind: Kind,
    count: u8,
    pairs: u32,
) -> Result<Vec<Client>> {
    let mut clients = Vec::new(alloc);
    for number in 0..count {
        let conn = hub.open(alloc)?;
        hub.feed(alloc, conn, &start_of(alloc, number)?)?;
        hub.take(alloc, conn)?;
        let pieces = pieces_of(alloc, kind, number, pairs)?;
        clients.push(Client { conn, pieces })?;
    }
    Ok(clients)
}

/// Feeds each connection what a round has, and says how many bytes came out.
fn round(alloc: Global, hub: &mut Hub, clients: &[Client]) -> Result<usize> {
    let mut bytes = 0_usize;
    for client in clients {
        for piece in &client.pieces {
            hub.feed(alloc, client.conn, piece)?;
            bytes = bytes.wrapping_add(hub.take(alloc, client.conn)?.len());
        }
    }
    Ok(bytes)
}

/// How many bytes came out of so many rounds.
fn rounds_of(alloc: Global, hub: &mut Hub, clients: &[Client], rounds: u32) -> Result<usize> {
    let mut bytes = 0_usize;
    for _ in 0..rounds {
        bytes = bytes.wrapping_add(round(alloc, hub, clients)?);
    }
    Ok(bytes)
}

/// What is run: `kind` by so many connections, `pairs` in a piece, each connection `rounds` times.
#[derive(Clone, Copy)]
pub struct Job {
    kind: Kind,
    connections: u8,
    pairs: u32,
    rounds: u32,
}

impl Job {
    /// A pair of this kind by one connection.
    pub fn small(kind: Kind) -> Job {
        Job {
            kind,
            connections: 1,
            pairs: 1,
            rounds: 1,
        }
    }

    /// What the words ask for: KIND CONNECTIONS PIECE ROUNDS.
    pub fn of_words(words: &[String]) -> Result<Job> {
        let [kind, connections, piece, rounds] = words else {
            bail!("hub takes KIND CONNECTIONS PIECE ROUNDS");
        };
        let Some(kind) = Kind::of_word(kind) else {
            bail!("KIND is message, semaphore, mask or stat");
        };
        Ok(Job {
            kind,
            connections: connections.parse()?,
            pairs: piece.parse()?,
            rounds: rounds.parse()?,
        })
    }
}

fn timed(rt: &HostRuntime, hub: &mut Hub, job: Job) -> Result<(usize, u128)> {
    let clients = clients_of(rt.alloc(), hub, job.kind, job.connections, job.pairs)?;
    let start = Instant::now(rt)?;
    let bytes = rounds_of(rt.alloc(), hub, &clients, job.rounds)?;
    Ok((bytes, start.elapsed(rt)?.as_micros()))
}

/// A hub of one user.
pub fn new_hub(alloc: Global) -> Result<Hub> {
    let users = Users::read(alloc, USERS)?;
    let limits = Limits::STANDARD;
    Ok(Hub::new(alloc, Config { users, limits })?)
}

/// Does a job by a hub of its own. Gives how many bytes came out, and the microseconds of its rounds.
pub fn run(rt: &HostRuntime, job: Job) -> Result<(usize, u128)> {
    let mut hub = new_hub(rt.alloc())?;
    let done = timed(rt, &mut hub, job);
    // An explicit drop has one exit.
    drop(hub);
    done
}
