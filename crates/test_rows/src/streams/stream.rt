//! One stream, and what a hub answers to it.

use crate::files::{first_difference, read};
use crate::streams::answers::{Call, put_lines};
use crate::streams::common::{bytes_of, new_hub};
use crate::streams::feeds::Feeds;
use anyhow::Result;
use ipc_hub::Hub;
use std::alloc::{AllocError, Global};
use std::rt::Files;

/// The calls that follow the feeds of a stream.
const CALLS: [Call; 7] = [
    Call::Tick(5),
    Call::Take,
    Call::Take,
    Call::Feed(b""),
    Call::HangUp,
    Call::Feed(b""),
    Call::Take,
];

/// What the feeds came to, and the answers to the calls that follow.
fn answers_behind(alloc: Global, hub: &mut Hub, feeds: Feeds) -> Result<String, AllocError> {
    let mut lines = feeds.line(alloc)?;
    put_lines(&mut lines, alloc, hub, feeds.conn, &CALLS)?;
    Ok(lines)
}

/// What the hub answers where the stream comes in these pieces.
fn answers_in_pieces(alloc: Global, hub: &mut Hub, pieces: &[&[u8]]) -> Result<String> {
    let mut feeds = Feeds::new(hub.open(alloc)?);
    for piece in pieces {
        feeds.feed(hub, alloc, piece);
    }
    Ok(answers_behind(alloc, hub, feeds)?)
}

/// The same of a new hub, which is dropped at one exit.
fn answers_to(alloc: Global, pieces: &[&[u8]]) -> Result<String> {
    let mut hub = new_hub(alloc)?;
    let answers = answers_in_pieces(alloc, &mut hub, pieces);
    drop(hub);
    answers
}

/// Feeds two connections byte by byte, in turn.
fn feed_in_turn(
    alloc: Global,
    hub: &mut Hub,
    (one, stream): (&mut Feeds, &[u8]),
    (other, beside): (&mut Feeds, &[u8]),
) {
    for at in 0..stream.len().max(beside.len()) {
        if let Some(byte) = stream.get(at) {
            one.feed(hub, alloc, &[*byte]);
        }
        if let Some(byte) = beside.get(at) {
            other.feed(hub, alloc, &[*byte]);
        }
    }
}

/// What the hub answers where the stream comes byte by byte, in turn with another connection's; and then what that
/// is answered.
fn answers_of_both(alloc: Global, hub: &mut Hub, stream: &[u8], beside: &[u8]) -> Result<String> {
    let mut feeds = Feeds::new(hub.open(alloc)?);
    let mut others = Feeds::new(hub.open(alloc)?);
    feed_in_turn(alloc, hub, (&mut feeds, stream), (&mut others, beside));
    let mut lines = answers_behind(alloc, hub, feeds)?;
    lines.push_str(others.line(alloc)?.as_str())?;
    put_lines(&mut lines, alloc, hub, others.conn, &[Call::Take])?;
    Ok(lines)
}

/// The same of a new hub, which is dropped at one exit.
fn answers_in_turn(alloc: Global, stream: &[u8], beside: &[u8]) -> Result<String> {
    let mut hub = new_hub(alloc)?;
    let answers = answers_of_both(alloc, &mut hub, stream, beside);
    drop(hub);
    answers
}

/// The pieces of a stream: at 0 it is whole, and past its end it comes byte by byte.
fn pieces_at(alloc: Global, stream: &[u8], at: usize) -> Result<Vec<&[u8]>, AllocError> {
    if at > stream.len() {
        return stream.chunks(1).collect(alloc);
    }
    let (one, other) = stream.split_at(at);
    let mut pieces = Vec::new(alloc);
    if !one.is_empty() {
        pieces.push(one)?;
    }
    pieces.push(other)?;
    Ok(pieces)
}

/// The first difference where the stream is whole, cut in two at some byte, or comes byte by byte.
fn piece_differs(alloc: Global, stream: &[u8], wanted: &str) -> Result<Option<String>> {
    for at in 0..stream.len().saturating_add(2) {
        let pieces = pieces_at(alloc, stream, at)?;
        let given = answers_to(alloc, &pieces)?;
        if let Some(difference) = first_difference(alloc, given.as_str(), wanted)? {
            return Ok(Some(format!(in alloc; "cut at {at}: {difference}")?));
        }
    }
    Ok(None)
}

/// Whether the stream of this name is answered as it must be, however it comes, and else how it isn't.
pub fn judge(rt: &(impl Files + AllocGlobal), name: &str) -> Result<String> {
    let alloc = rt.alloc();
    let stream = bytes_of(alloc, read(rt, name, "in")?.as_str())?;
    let mut wanted = read(rt, name, "out")?;
    if let Some(difference) = piece_differs(alloc, &stream, wanted.as_str())? {
        return Ok(difference);
    }
    wanted.push_str(read(rt, name, "beside")?.as_str())?;
    let beside = bytes_of(alloc, read(rt, "streams/beside", "in")?.as_str())?;
    let given = answers_in_turn(alloc, &stream, &beside)?;
    match first_difference(alloc, given.as_str(), wanted.as_str())? {
        Some(difference) => Ok(format!(in alloc; "in turn: {difference}")?),
        None => Ok(String::from_str(alloc, "as written")?),
    }
}
