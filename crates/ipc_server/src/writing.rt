//! The writer: takes a session's answers and writes them.

use crate::desk::Desk;
use crate::ending::Ending;
use crate::gate::Gate;
use crate::held::Origin;
use ipc_terms::{Answer, NoMemory};
use ipc_wire::put_answer;
use std::io::Write;
use std::sync::Wait;
use std::sync::ledger::Ledger;

/// The most room that the buffer of answers keeps while nothing is written: 64 KiB.
const KEPT_ROOM: usize = 65_536;

/// Writes what is untaken whenever the bell rings, until the reader is done and all is written, or a write fails.
pub(crate) fn write_answers<L: Ledger, B: Origin, R: Wait, O: Write + Drop, G: Gate, J>(
    rt: &R,
    desk: &Desk<'_, L, B, G, J>,
    mut writer: O,
) {
    let mut bytes = Vec::new(desk.alloc);
    for _ in rt.forever() {
        let seen = desk.bell.rings();
        let (answers, last, is_over) = take(rt, desk);
        if spell(&mut bytes, answers, last).is_err() {
            desk.fail(rt, Ending::NoMemory);
            return;
        }
        if !bytes.is_empty() && !write(desk, &mut writer, &mut bytes) {
            desk.fail(rt, Ending::WriteFailed);
            return;
        }
        if is_over {
            return;
        }
        desk.bell.await_ring(rt, seen);
    }
}

/// What is untaken, and whether nothing more is stepped. The reader may step again.
fn take<L: Ledger, B: Origin, R: Wait, G: Gate, J>(
    rt: &R,
    desk: &Desk<'_, L, B, G, J>,
) -> (Vec<Answer>, Option<Answer>, bool) {
    let mut place = desk.chair.place.lock(rt);
    let is_over = place.is_over;
    let last = place.last.take();
    let answers = place.held.collect(rt, desk.shared);
    drop(place);
    desk.chair.has_room.notify_one();
    (answers, last, is_over)
}

/// Spells the answers at the end of the buffer, and drops them: a client may say nothing for long.
fn spell(bytes: &mut Vec<u8>, answers: Vec<Answer>, last: Option<Answer>) -> Result<(), NoMemory> {
    for answer in answers.iter().chain(&last) {
        if put_answer(bytes, answer).is_err() {
            return Err(NoMemory);
        }
    }
    Ok(())
}

/// Writes the buffer and empties it; one that has grown large is given back. Says whether it was written.
fn write<L: Ledger, B: Origin, O: Write + Drop, G: Gate, J>(
    desk: &Desk<'_, L, B, G, J>,
    writer: &mut O,
    bytes: &mut Vec<u8>,
) -> bool {
    desk.gate.before_answer(desk.conn);
    let is_written = writer.write_all(bytes.as_slice()).is_ok() && writer.flush().is_ok();
    if bytes.capacity() > KEPT_ROOM {
        *bytes = Vec::new(desk.alloc);
    } else {
        bytes.clear();
    }
    is_written
}
