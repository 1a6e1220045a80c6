//! The reader: reads a connection's stream, and steps its requests.

use crate::desk::Desk;
use crate::ending::Ending;
use crate::gate::Gate;
use crate::held::Origin;
use crate::journal::Journal;
use ipc_book::{OfferFault, StepFault};
use ipc_terms::{Answer, Call, NoMemory, Rule};
use ipc_wire::{Frames, Request};
use std::io::{ErrorKind, Read};
use std::sync::Wait;
use std::sync::ledger::Ledger;

/// How many bytes a read asks for.
const PIECE: usize = 65_536;

/// Nothing is stepped while so many answers are untaken.
const MOST_UNTAKEN: usize = 256;

/// How often a step that wants memory is tried.
const MOST_TRIES: u32 = 100;

/// Reads and steps until the connection ends, and says why it does.
pub(crate) fn read_and_step<L: Ledger, B: Origin, R: Wait, I: Read + Drop, G: Gate, J: Journal>(
    rt: &R,
    desk: &Desk<'_, L, B, G, J>,
    mut reader: I,
) -> Ending {
    let Ok(mut buffer) = vec![in desk.alloc; 0u8; PIECE] else {
        return Ending::NoMemory;
    };
    let mut frames = Frames::new(desk.alloc);
    for _ in rt.forever() {
        desk.gate.before_read(desk.conn);
        match reader.read(buffer.as_mut_slice()) {
            Ok(count) => {
                let piece = buffer.as_slice().get(..count).unwrap_or(&[]);
                let ending = step_piece(rt, desk, &mut frames, piece);
                desk.bell.ring();
                if let Some(ending) = ending {
                    return ending;
                }
            }
            Err(error) if error.kind() == ErrorKind::Interrupted => {}
            Err(_) => return Ending::ReadFailed,
        }
    }
    unreachable!()
}

/// Steps the requests that a piece of the stream completes. None where the connection goes on.
fn step_piece<L: Ledger, B: Origin, R: Wait, G: Gate, J: Journal>(
    rt: &R,
    desk: &Desk<'_, L, B, G, J>,
    frames: &mut Frames,
    piece: &[u8],
) -> Option<Ending> {
    if piece.is_empty() {
        return Some(Ending::Closed);
    }
    let Ok(requests) = frames.feed(desk.alloc, piece) else {
        return Some(Ending::NoMemory);
    };
    for request in requests {
        let ending = match request {
            Request::Hello(key) => greet(rt, desk, key.as_slice()),
            Request::Do(call) => step(rt, desk, call),
        };
        if ending.is_some() {
            return ending;
        }
    }
    frames.fault().map(Ending::Wire)
}

/// Steps the hello, and tells the journal where it was accepted.
fn greet<L: Ledger, B: Origin, R: Wait, G: Gate, J: Journal>(
    rt: &R,
    desk: &Desk<'_, L, B, G, J>,
    key: &[u8],
) -> Option<Ending> {
    let ending = hello(rt, desk, key);
    if ending.is_none() {
        desk.journal.greeted(desk.conn, key);
    }
    ending
}

/// Steps the hello. Whoever's step answers the session from now on rings for its writer.
fn hello<L: Ledger, B: Origin, R: Wait, G: Gate, J: Journal>(
    rt: &R,
    desk: &Desk<'_, L, B, G, J>,
    key: &[u8],
) -> Option<Ending> {
    let mut place = desk.chair.place.lock(rt);
    for _ in 0..MOST_TRIES {
        match place.held.hello(rt, desk.alloc, desk.shared, key) {
            Ok(Some(session)) => {
                return match desk.shared.add_bell(rt, session, desk.bell) {
                    Ok(()) => None,
                    Err(NoMemory) => Some(Ending::NoMemory),
                };
            }
            Ok(None) => {
                place.last = Some(Answer::Refused(Rule::BadKey));
                return Some(Ending::BadKey);
            }
            Err(StepFault::NoMemory) => {}
            Err(StepFault::Stale { .. }) => return Some(Ending::StillLive),
        }
    }
    Some(Ending::NoMemory)
}

/// Steps a call, once there is room for its answers.
fn step<L: Ledger, B: Origin, R: Wait, G: Gate, J: Journal>(
    rt: &R,
    desk: &Desk<'_, L, B, G, J>,
    call: Call,
) -> Option<Ending> {
    let mut call = call;
    let mut tries = 1;
    for _ in rt.forever() {
        let mut place = desk.chair.place.lock(rt);
        if place.failure.is_some() {
            return place.failure;
        }
        match place
            .held
            .offer(rt, desk.alloc, desk.shared, call, MOST_UNTAKEN)
        {
            Ok(()) => return None,
            Err((OfferFault::Full, back)) => {
                call = back;
                desk.bell.ring();
                drop(desk.chair.has_room.wait(rt, place));
            }
            Err((OfferFault::Fault(StepFault::NoMemory), back)) if tries < MOST_TRIES => {
                call = back;
                tries += 1;
            }
            Err((OfferFault::Fault(StepFault::NoMemory), _)) => return Some(Ending::NoMemory),
            Err((OfferFault::Fault(StepFault::Stale { .. }), _)) => return Some(Ending::StillLive),
        }
    }
    unreachable!()
}
