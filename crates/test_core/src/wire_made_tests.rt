//! Made frames, whole and broken, against the table of the fields.

use crate::wire_bodies_tests::{HELLO, framed};
use crate::wire_tests::fed;
use ipc_wire::{Frames, WireFault};
use std::alloc::Global;
use std::test::Fail;

/// The fields of each opcode from 1 on: `b` a bool, `f` a family, `a` an access, `q` the flags of a queue's
/// open, `s` those of a semaphore's, `2`, `4` and `8` so many bytes, `t` a text, `w` an optional number of
/// four bytes, `p` an optional pair of them, `n` an optional text, and `r` the rest. A hang-up and a tick,
/// 25 and 29, have no frame.
static FIELDS: [Option<&[u8]>; 30] = [
    Some(b"t"),
    Some(b"2"),
    Some(b"taq2p"),
    Some(b"8"),
    Some(b"t"),
    Some(b"84r"),
    Some(b"84"),
    Some(b"8"),
    Some(b"8b"),
    Some(b"8b"),
    Some(b"ts24"),
    Some(b"8"),
    Some(b"t"),
    Some(b"8"),
    Some(b"8"),
    Some(b"8"),
    Some(b"8"),
    Some(b"f42"),
    Some(b"fn"),
    Some(b"2fn"),
    Some(b"wwfn"),
    Some(b"48"),
    Some(b""),
    Some(b"82"),
    None,
    Some(b"848r"),
    Some(b"848"),
    Some(b"88"),
    None,
    Some(b"88"),
];

/// The fields of this opcode.
fn fields_of(opcode: u8) -> Option<&'static [u8]> {
    let place = (opcode as usize).checked_sub(1)?;
    *FIELDS.get(place)?
}

/// What follows the first bytes, so many as there are to be.
fn behind(bytes: &[u8], count: usize) -> Option<&[u8]> {
    bytes.get(count..)
}

/// What follows a byte from `least` to `most`.
fn byte_within(bytes: &[u8], least: u8, most: u8) -> Option<&[u8]> {
    match bytes {
        [byte, rest @ ..] if least <= *byte && *byte <= most => Some(rest),
        _ => None,
    }
}

fn text_behind(bytes: &[u8]) -> Option<&[u8]> {
    match bytes {
        [high, low, rest @ ..] => behind(rest, u16::from_be_bytes([*high, *low]) as usize),
        _ => None,
    }
}

fn optional_behind(bytes: &[u8], kind: u8) -> Option<&[u8]> {
    match bytes {
        [0, rest @ ..] => Some(rest),
        [1, rest @ ..] => match kind {
            b'w' => behind(rest, 4),
            b'p' => behind(rest, 8),
            _ => text_behind(rest),
        },
        _ => None,
    }
}

/// What follows a field of this kind; none where the field is cut off or its value isn't allowed.
fn field_behind(kind: u8, bytes: &[u8]) -> Option<&[u8]> {
    match kind {
        b'b' => byte_within(bytes, 0, 1),
        b'f' => byte_within(bytes, 1, 2),
        b'a' => byte_within(bytes, 1, 3),
        b'q' => byte_within(bytes, 0, 7),
        b's' => byte_within(bytes, 0, 3),
        b't' => text_behind(bytes),
        b'2' => behind(bytes, 2),
        b'4' => behind(bytes, 4),
        b'8' => behind(bytes, 8),
        b'r' => Some(&[]),
        _ => optional_behind(bytes, kind),
    }
}

/// The fault of a body behind a hello, by the table.
fn fault_of(body: &[u8]) -> Option<WireFault> {
    let [opcode, fields @ ..] = body else {
        return Some(WireFault::Empty);
    };
    let kinds = match fields_of(*opcode) {
        Some(kinds) if *opcode != 1 => kinds,
        _ => return Some(WireFault::BadOpcode),
    };
    let mut rest = fields;
    for kind in kinds {
        match field_behind(*kind, rest) {
            Some(after) => rest = after,
            None => return Some(WireFault::BadField),
        }
    }
    (!rest.is_empty()).then_some(WireFault::Trailing)
}

/// Numbers from a seed.
#[derive(Drop)]
struct Dice(u64);

impl Dice {
    /// A number from 0 to 255.
    fn byte(&mut self) -> u8 {
        self.0 = self
            .0
            .wrapping_mul(6_364_136_223_846_793_005)
            .wrapping_add(1_442_695_040_888_963_407);
        (self.0 >> 56) as u8
    }

    /// Mostly a small number, so that most values are allowed and most lengths are short.
    fn small(&mut self) -> u8 {
        if self.byte() < 224 {
            self.byte() & 3
        } else {
            self.byte()
        }
    }
}

/// A body of a few bytes behind an opcode from 0 to 31. Where the table has fixed sizes, mostly of that size.
fn made_body(alloc: Global, dice: &mut Dice) -> Result<Vec<u8>, Fail> {
    let opcode = dice.byte() & 31;
    let mut body = Vec::new(alloc);
    body.push(opcode)?;
    for kind in fields_of(opcode).unwrap_or(b"8") {
        push_field(&mut body, dice, *kind)?;
    }
    // At times a byte is lost or comes more.
    match dice.byte() {
        0..=15 => body.push(0)?,
        16..=31 => drop(body.pop()),
        _ => {}
    }
    Ok(body)
}

/// So many bytes of the dice, small ones.
fn push_bytes(body: &mut Vec<u8>, dice: &mut Dice, count: u8) -> Result<(), Fail> {
    for _ in 0..count {
        body.push(dice.small())?;
    }
    Ok(())
}

/// A field of this kind, allowed or not.
fn push_field(body: &mut Vec<u8>, dice: &mut Dice, kind: u8) -> Result<(), Fail> {
    match kind {
        b'2' => push_bytes(body, dice, 2),
        b'4' => push_bytes(body, dice, 4),
        b'8' => push_bytes(body, dice, 8),
        b't' => push_text(body, dice),
        b'r' => {
            let count = dice.small();
            push_bytes(body, dice, count)
        }
        b'w' | b'p' | b'n' => push_optional(body, dice, kind),
        _ => push_bytes(body, dice, 1),
    }
}

fn push_text(body: &mut Vec<u8>, dice: &mut Dice) -> Result<(), Fail> {
    let length = dice.byte() & 7;
    // At times the length is another than that of the bytes.
    let told = if dice.byte() < 240 {
        length
    } else {
        dice.byte()
    };
    body.push(0)?;
    body.push(told)?;
    push_bytes(body, dice, length)
}

fn push_optional(body: &mut Vec<u8>, dice: &mut Dice, kind: u8) -> Result<(), Fail> {
    let flag = dice.small() & 3;
    body.push(flag)?;
    match (flag, kind) {
        (1, b'w') => push_bytes(body, dice, 4),
        (1, b'p') => push_bytes(body, dice, 8),
        (1, _) => push_text(body, dice),
        _ => Ok(()),
    }
}

/// Whether the body behind a hello is read as the table says, and spelled again as it was read, in two pieces.
fn is_read_by_the_table(alloc: Global, body: &[u8], cut: usize) -> Result<bool, Fail> {
    let stream = framed(alloc, HELLO, body)?;
    let (front, back) = stream.split_at(cut.min(stream.len()));
    let mut frames = Frames::new(alloc);
    let mut spelled = Vec::new(alloc);
    let count = fed(alloc, &mut frames, &[front, back], &mut spelled)?;
    let fault = fault_of(body);
    let read = if fault.is_none() { stream.len() } else { 10 };
    Ok(
        frames.fault() == fault
            && count == 1 + fault.is_none() as usize
            && stream.get(..read) == Some(spelled.as_slice()),
    )
}

#[test]
fn made_frames_are_read_by_the_table(rt: HostRuntime) -> Result<(), Fail> {
    let mut dice = Dice(1);
    let mut whole = 0_u32;
    for at in 0..100_000_u32 {
        let body = made_body(rt.alloc(), &mut dice)?;
        let cut = (dice.byte() & 31) as usize;
        if !is_read_by_the_table(rt.alloc(), &body, cut)? {
            return Err(Fail::new(format_args!("frame {at}")));
        }
        whole = whole.wrapping_add(fault_of(&body).is_none() as u32);
    }
    // Both kinds came.
    assert!(rt; 20_000 < whole && whole < 80_000);
    Ok(())
}
