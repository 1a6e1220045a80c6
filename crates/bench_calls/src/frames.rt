//! A stream of sends of one length, in pieces: read by `Frames`, or stepped by a hub.

use crate::hub::new_hub;
use anyhow::{Result, bail};
use ipc_hub::Hub;
use ipc_wire::Frames;
use std::alloc::Global;
use std::time::Instant;

const HELLO: &[u8] = b"\0\0\0\x06\x01\0\x03ka1";

/// A send by description 0 at priority 5, without its length and its message.
const SEND: &[u8] = b"\x06\0\0\0\0\0\0\0\0\0\0\0\x05";

/// What is fed.
#[derive(Clone, Copy)]
pub struct Job {
    /// How many bytes each message has.
    message: u32,
    /// How many bytes a piece has; 0: the stream is one piece.
    piece: usize,
    /// How many sends follow the hello.
    count: u32,
}

impl Job {
    /// Ten sends of 64 bytes in pieces of 7.
    pub fn small() -> Job {
        Job {
            message: 64,
            piece: 7,
            count: 10,
        }
    }

    /// What the words ask for: MESSAGE PIECE COUNT.
    pub fn of_words(words: &[String]) -> Result<Job> {
        let [message, piece, count] = words else {
            bail!("frames and stream take MESSAGE PIECE COUNT");
        };
        Ok(Job {
            message: message.parse()?,
            piece: piece.parse()?,
            count: count.parse()?,
        })
    }

    /// A hello and the sends.
    fn stream(self, alloc: Global) -> Result<Vec<u8>> {
        let message = Vec::from_elem(alloc, b'm', self.message as usize)?;
        let length = self.message.saturating_add(SEND.len() as u32);
        let mut stream = Vec::new(alloc);
        stream.extend_from_slice(HELLO)?;
        for _ in 0..self.count {
            stream.extend_from_slice(&length.to_be_bytes())?;
            stream.extend_from_slice(SEND)?;
            stream.extend_from_slice(&message)?;
        }
        Ok(stream)
    }

    fn piece_of(self, stream: &[u8]) -> usize {
        let piece = if self.piece == 0 {
            stream.len()
        } else {
            self.piece
        };
        piece.max(1)
    }
}

/// How many requests the pieces give.
fn requests_of(alloc: Global, stream: &[u8], piece: usize) -> Result<usize> {
    let mut frames = Frames::new(alloc);
    let mut requests = 0_usize;
    for part in stream.chunks(piece.max(1)) {
        requests = requests.wrapping_add(frames.feed(alloc, part)?.len());
    }
    Ok(requests)
}

/// How many bytes a hub answers one connection that is fed the pieces.
fn answered(alloc: Global, hub: &mut Hub, stream: &[u8], piece: usize) -> Result<usize> {
    let conn = hub.open(alloc)?;
    for part in stream.chunks(piece.max(1)) {
        hub.feed(alloc, conn, part)?;
    }
    Ok(hub.take(alloc, conn)?.len())
}

/// Reads the stream. Gives how many requests came, and the microseconds.
pub fn read(rt: &HostRuntime, job: Job) -> Result<(usize, u128)> {
    let stream = job.stream(rt.alloc())?;
    let piece = job.piece_of(&stream);
    let start = Instant::now(rt)?;
    let requests = requests_of(rt.alloc(), &stream, piece)?;
    Ok((requests, start.elapsed(rt)?.as_micros()))
}

/// Feeds the stream to a hub of its own, which refuses each send: no description is open. Gives how many bytes came out, and
/// the microseconds.
pub fn step(rt: &HostRuntime, job: Job) -> Result<(usize, u128)> {
    let mut hub = new_hub(rt.alloc())?;
    let stepped = step_timed(rt, &mut hub, job);
    // An explicit drop has one exit.
    drop(hub);
    stepped
}

fn step_timed(rt: &HostRuntime, hub: &mut Hub, job: Job) -> Result<(usize, u128)> {
    let stream = job.stream(rt.alloc())?;
    let piece = job.piece_of(&stream);
    let start = Instant::now(rt)?;
    let bytes = answered(rt.alloc(), hub, &stream, piece)?;
    Ok((bytes, start.elapsed(rt)?.as_micros()))
}
