//! Bodies of frames: each kind of request and answer cut in each of its fields, values that are not allowed, and
//! opcodes.

use ipc_wire::{Frames, ReadFault, WireFault, read_answer};
use std::alloc::Global;
use std::test::Fail;

pub(crate) const HELLO: &[u8] = b"\0\0\0\x06\x01\0\x03ka1";

/// A body of each kind of request and answer, with each option there and not there, and how many of its bytes are
/// fields of a known length: the others are a message, which may be cut.
static BODIES: [(&[u8], usize); 50] = [
    (b"\x01\0\x03ka1", 6),
    (b"\x02\0\x12", 3),
    (b"\x03\0\x02/a\x03\x01\x01\xb6\0", 10),
    (b"\x03\0\x02/a\x01\x07\x01\x80\x01\0\0\0\x0a\0\0\x20\0", 18),
    (b"\x04\0\0\0\0\0\0\0\x07", 9),
    (b"\x05\0\x02/a", 5),
    (b"\x06\0\0\0\0\0\0\0\0\0\0\0\x05hi", 13),
    (b"\x07\0\0\0\0\0\0\0\0\0\0\x20\0", 13),
    (b"\x08\0\0\0\0\0\0\0\x07", 9),
    (b"\x09\0\0\0\0\0\0\0\x07\x01", 10),
    (b"\x0a\0\0\0\0\0\0\0\x07\0", 10),
    (b"\x0b\0\x02/s\x03\x01\x80\0\0\0\x01", 12),
    (b"\x0c\0\0\0\0\0\0\0\x07", 9),
    (b"\x0d\0\x02/s", 5),
    (b"\x0e\0\0\0\0\0\0\0\x07", 9),
    (b"\x0f\0\0\0\0\0\0\0\x07", 9),
    (b"\x10\0\0\0\0\0\0\0\x07", 9),
    (b"\x11\0\0\0\0\0\0\0\x07", 9),
    (b"\x12\x01\0\0\0\0\0\x0a", 8),
    (b"\x13\x02\0", 3),
    (b"\x13\x01\x01\0\x02/a", 7),
    (b"\x14\x01\xff\x01\0", 5),
    (b"\x14\x01\xff\x02\x01\0\x02/s", 9),
    (b"\x15\0\0\x01\0", 5),
    (b"\x15\x01\0\0\x03\xe8\0\x01\x01\0\x02/a", 13),
    (b"\x15\0\x01\0\0\0\x32\x02\0", 9),
    (b"\x16\0\0\x03\xe8\0\0\0\0\0\x0c\x35\0", 13),
    (b"\x17", 1),
    (b"\x18\0\0\0\0\0\0\0\0\x03\xe8", 11),
    (b"\x1a\0\0\0\0\0\0\0\0\0\0\0\x05\0\0\0\0\0\0\0\x09hi", 21),
    (b"\x1b\0\0\0\0\0\0\0\0\0\0\x20\0\0\0\0\0\0\0\0\x09", 21),
    (b"\x1c\0\0\0\0\0\0\0\x07\0\0\0\0\0\0\0\x09", 17),
    (b"\x1e\0\0\0\0\0\0\0\x07\0\0\0\0\0\0\0\x02", 17),
    (b"\x41\0\0\0\0\0\0\0\0", 9),
    (b"\x42", 1),
    (b"\x43\0\0\0\0\0\0\0\x07", 9),
    (b"\x44\0\x12", 3),
    (b"\x45\x01\0\0\0\x0a\0\0\x20\0\0\0\0\x03", 14),
    (b"\x46", 1),
    (b"\x47\0\0\0\x05hi", 5),
    (b"\x48\x7f\xff\xff\xff", 5),
    (b"\x49\0\0", 3),
    (b"\x49\0\x02\0\x02/a\0\0", 9),
    (b"\x4a\0\0\x03\xe8\0\0\0\x32\x01\xb6", 11),
    (b"\x4b\0\0", 3),
    (
        b"\x4b\0\x01\0\0\0\0\0\0\0\x03\xff\xff\xff\xff\xff\xff\xff\xff\x01\0\0\0\x02/x",
        26,
    ),
    (b"\x4c\0\x21", 3),
    (b"\x4d", 1),
    (b"\x4e\0\0\0\0\0\0\0\x02", 9),
    (b"\x4f\0\0\0\0\0\0\0\x02", 9),
];

/// Bodies with one value that is not allowed.
static NOT_ALLOWED: [&[u8]; 18] = [
    // Accesses of 0 and 4; a flag that no open has, and one that an open of a semaphore has not.
    b"\x03\0\x02/a\0\x01\x01\xb6\0",
    b"\x03\0\x02/a\x04\x01\x01\xb6\0",
    b"\x03\0\x02/a\x03\x08\x01\xb6\0",
    b"\x0b\0\x02/a\x04\x01\xb6\0\0\0\0",
    // Bools of 2.
    b"\x09\0\0\0\0\0\0\0\x07\x02",
    b"\x0a\0\0\0\0\0\0\0\x07\x02",
    b"\x45\x02\0\0\0\x0a\0\0\x20\0\0\0\0\x03",
    // Options that are neither there nor not.
    b"\x03\0\x02/a\x03\x01\x01\xb6\x02\0\0\0\x0a\0\0\x20\0",
    b"\x13\x01\x02\0\x02/a",
    b"\x14\x01\xff\x01\xff",
    b"\x15\x02\0\0\x03\xe8\0\x01\0",
    b"\x15\0\x02\0\0\x03\xe8\x01\0",
    // Families of 0 and 3.
    b"\x12\0\0\0\0\0\0\x0a",
    b"\x13\x03\0",
    b"\x14\x01\xff\0\0",
    // Rules of 0, 34 and 289, whose low byte is 33.
    b"\x4c\0\0",
    b"\x4c\0\x22",
    b"\x4c\x01\x21",
];

/// The front, and the frame of this body behind it.
pub(crate) fn framed(alloc: Global, front: &[u8], body: &[u8]) -> Result<Vec<u8>, Fail> {
    let length = u32::try_from(body.len()).unwrap_or(0);
    let mut frame = Vec::from_slice(alloc, front)?;
    frame.extend_from_slice(&length.to_be_bytes())?;
    frame.extend_from_slice(body)?;
    Ok(frame)
}

/// The fault of a request's body behind another one.
fn request_fault(alloc: Global, front: &[u8], body: &[u8]) -> Result<Option<WireFault>, Fail> {
    let mut frames = Frames::new(alloc);
    frames.feed(alloc, front)?;
    frames.feed(alloc, &framed(alloc, b"", body)?)?;
    Ok(frames.fault())
}

/// The fault of the answer in front.
fn front_fault(alloc: Global, bytes: &[u8]) -> Option<WireFault> {
    match read_answer(alloc, bytes) {
        Err(ReadFault::Wire(fault)) => Some(fault),
        _ => None,
    }
}

fn answer_fault(alloc: Global, body: &[u8]) -> Result<Option<WireFault>, Fail> {
    Ok(front_fault(alloc, &framed(alloc, b"", body)?))
}

/// The fault of a body: of an answer's, of a hello's, or of another request's behind a hello.
fn fault_of(alloc: Global, body: &[u8]) -> Result<Option<WireFault>, Fail> {
    match body {
        [64..=255, ..] => answer_fault(alloc, body),
        [1, ..] => request_fault(alloc, b"", body),
        _ => request_fault(alloc, HELLO, body),
    }
}

/// Whether the body is read, it is at fault where a field is cut, and where a byte follows its last one.
fn is_whole(alloc: Global, body: &[u8], fields: usize) -> Result<bool, Fail> {
    for end in 1..=body.len() {
        let (front, _rest) = body.split_at(end);
        if fault_of(alloc, front)? != (end < fields).then_some(WireFault::BadField) {
            return Ok(false);
        }
    }
    let mut longer = Vec::from_slice(alloc, body)?;
    longer.push(0)?;
    let is_closed = body.len() == fields;
    Ok(fault_of(alloc, &longer)? == is_closed.then_some(WireFault::Trailing))
}

#[test]
fn a_body_that_is_cut_in_a_field_is_at_fault(rt: HostRuntime) -> Result<(), Fail> {
    for (at, (body, fields)) in BODIES.iter().enumerate() {
        if !is_whole(rt.alloc(), body, *fields)? {
            return Err(Fail::new(format_args!("body {at}")));
        }
    }
    Ok(())
}

#[test]
fn a_value_that_is_not_allowed_is_at_fault(rt: HostRuntime) -> Result<(), Fail> {
    for (at, body) in NOT_ALLOWED.iter().enumerate() {
        if fault_of(rt.alloc(), body)? != Some(WireFault::BadField) {
            return Err(Fail::new(format_args!("body {at}")));
        }
    }
    Ok(())
}

#[test]
fn an_answer_s_length_is_from_1_to_16777300(rt: HostRuntime) {
    assert!(rt; front_fault(rt.alloc(), b"\0\0\0\0") == Some(WireFault::Empty));
    assert!(rt; front_fault(rt.alloc(), b"\x01\0\0\x54").is_none());
    assert!(rt; front_fault(rt.alloc(), b"\x01\0\0\x55") == Some(WireFault::TooLong));
}

/// Whether an opcode alone, without fields, has none of its kind.
fn is_no_opcode(fault: Option<WireFault>) -> bool {
    fault == Some(WireFault::BadOpcode)
}

/// A hang-up and a tick have the numbers 25 and 29, and no frame.
fn is_call(byte: u8) -> bool {
    matches!(byte, 2..=24 | 26..=28 | 30)
}

#[test]
fn each_byte_is_an_opcode_or_none(rt: HostRuntime) -> Result<(), Fail> {
    for byte in 0..=255_u8 {
        let first = is_no_opcode(request_fault(rt.alloc(), b"", &[byte])?);
        let later = is_no_opcode(request_fault(rt.alloc(), HELLO, &[byte])?);
        let answer = is_no_opcode(answer_fault(rt.alloc(), &[byte])?);
        let known = (byte == 1, is_call(byte), 65 <= byte && byte <= 79);
        if (!first, !later, !answer) != known {
            return Err(Fail::new(format_args!("at {byte}")));
        }
    }
    Ok(())
}
