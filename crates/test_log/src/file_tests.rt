//! A file: whole, cut at each byte, with each byte changed, and without one of its records.

use crate::made::{Found, read_file};
use ipc_log::{HEAD_LEN, Head, Retelling, TrailDigest, TrailFault, put_head};
use std::alloc::Global;
use std::test::Fail;

/// A file, in parts: its head, and seven records.
static PARTS: [&[u8]; 8] = [
    // The head: from place 5 on, limits of 10, 8,192 and 256, a user file's sum, and a second retelling: 3 records of what were 9, and a
    // digest.
    b"MQTRAIL2\0\0\0\0\0\0\0\x05\0\0\0\x0a\0\0 \0\0\0\x01\0\x01#Eg\x89\xab\xcd\xef\0\0\0\0\0\0\0\x02\0\0\0\0\0\0\0\x03\0\0\0\0\0\0\0\x090123456789abcdefGHIJKLMNOPQRSTUV\xc6\xba\x1c\x81",
    // Place 5: a hello of user 1000.
    b"\0\0\0\x0f\x16tw\xe3\0\0\0\0\0\0\0\x05\0\x01\x01\0\0\x03\xe8\xb1\0w\xa3",
    // Place 6: session 0 opens `/q`.
    b"\0\0\0 h\xda\xc5\x19\0\0\0\0\0\0\0\x06\0\x02\0\0\0\0\0\0\0\0\0\0\0\x0a\x03\0\x02/q\x03\x01\x01\x80\0\xc9x9\x96",
    // Place 7: it sends `hi`.
    b"\0\0\0%]+\xd1\x05\0\0\0\0\0\0\0\x07\0\x02\0\0\0\0\0\0\0\0\0\0\0\x0f\x06\0\0\0\0\0\0\0\0\0\0\0\x05hi~8@1",
    // Place 8: an empty message, refused by rule 26.
    b"\0\0\0#{\x8a6\xed\0\0\0\0\0\0\0\x08\x1a\x02\0\0\0\0\0\0\0\0\0\0\0\x0d\x06\0\0\0\0\0\0\0\0\0\0\0\x05\xe7;\xed\xe9",
    // Place 9: a hello of nobody, refused by rule 31.
    b"\0\0\0\x0b\xd1\xee\xe0\xfc\0\0\0\0\0\0\0\x09\x1f\x01\0\xaeq\xc0\xf7",
    // Place 10: a tick.
    b"\0\0\0\x12\xb9\x02\xfc_\0\0\0\0\0\0\0\x0a\0\x04\0\0\0\0\0\0\x01,\xee\x87*\xd1",
    // Place 11: session 0 hangs up.
    b"\0\0\0\x12\xb9\x02\xfc_\0\0\0\0\0\0\0\x0b\0\x03\0\0\0\0\0\0\0\0\xc0\xca\xcas",
];

/// The first parts, one after the other.
fn parts(alloc: Global, count: usize) -> Result<Vec<u8>, Fail> {
    let mut file = Vec::new(alloc);
    for part in PARTS.iter().take(count) {
        file.extend_from_slice(part)?;
    }
    Ok(file)
}

/// How many whole parts stand in so many bytes.
fn whole_parts(bytes: usize) -> usize {
    let (mut end, mut whole) = (0usize, 0usize);
    for part in &PARTS {
        end = end.saturating_add(part.len());
        if bytes < end {
            return whole;
        }
        whole = whole.saturating_add(1);
    }
    whole
}

/// Whether the first parts were found, and no more.
fn has(alloc: Global, found: &Found, count: usize) -> Result<bool, Fail> {
    Ok(found.again == parts(alloc, count)? && found.records == count.saturating_sub(1) as u64)
}

#[test]
fn a_head_is_spelled(rt: HostRuntime) -> Result<(), Fail> {
    let head = Head {
        first: 5,
        msg_max: 10,
        msgsize_max: 8192,
        queues_max: 256,
        users: 0x0123_4567_89ab_cdef,
        retelling: Retelling {
            generation: 2,
            records: 3,
            old_records: 9,
            old_digest: TrailDigest(
                u64::from_be_bytes(*b"01234567"),
                u64::from_be_bytes(*b"89abcdef"),
                u64::from_be_bytes(*b"GHIJKLMN"),
                u64::from_be_bytes(*b"OPQRSTUV"),
            ),
        },
    };
    let mut out = Vec::from_slice(rt.alloc(), b"before")?;
    put_head(&mut out, &head)?;
    assert!(rt; out.as_slice().strip_prefix(b"before") == Some(PARTS[0]));
    assert!(rt; PARTS[0].len() == HEAD_LEN);
    Ok(())
}

#[test]
fn a_file_that_is_cut_has_the_records_that_are_whole(rt: HostRuntime) -> Result<(), Fail> {
    let file = parts(rt.alloc(), PARTS.len())?;
    for end in 0..=file.len() {
        let found = read_file(rt.alloc(), &file[..end])?;
        if found.fault.is_some() || !has(rt.alloc(), &found, whole_parts(end))? {
            return Err(Fail::new(format_args!("cut at {end}")));
        }
    }
    Ok(())
}

/// What is changed in a byte: each bit, all bits, and some.
static CHANGES: [u8; 10] = [1, 2, 4, 8, 16, 32, 64, 128, 255, 90];

/// Whether a fault is found in the part whose byte is changed, and the parts before it are read.
fn tells(alloc: Global, file: &[u8], at: usize, change: u8) -> Result<bool, Fail> {
    let mut changed = Vec::from_slice(alloc, file)?;
    if let Some(byte) = changed.get_mut(at) {
        *byte ^= change;
    }
    let found = read_file(alloc, &changed)?;
    Ok(found.fault.is_some() && has(alloc, &found, whole_parts(at))?)
}

#[test]
fn a_byte_that_is_changed_is_found(rt: HostRuntime) -> Result<(), Fail> {
    let file = parts(rt.alloc(), PARTS.len())?;
    for at in 0..file.len() {
        for change in &CHANGES {
            if !tells(rt.alloc(), &file, at, *change)? {
                return Err(Fail::new(format_args!("byte {at}, change {change}")));
            }
        }
    }
    Ok(())
}

#[test]
fn a_record_that_is_left_out_is_missed(rt: HostRuntime) -> Result<(), Fail> {
    for out in 1..PARTS.len() - 1 {
        let mut file = parts(rt.alloc(), out)?;
        for part in PARTS.iter().skip(out + 1) {
            file.extend_from_slice(part)?;
        }
        let found = read_file(rt.alloc(), &file)?;
        if found.fault != Some(TrailFault::BadPlace) || !has(rt.alloc(), &found, out)? {
            return Err(Fail::new(format_args!("without part {out}")));
        }
    }
    Ok(())
}
