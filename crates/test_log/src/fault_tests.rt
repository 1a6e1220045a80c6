//! What is wrong with a head or a record, the texts of that, and records that are not written.

use crate::made::{closed, read_file};
use ipc_log::{LogFault, TrailFault, WriteFault, put_record, read_head, read_record};
use ipc_terms::{Bytes, Call, Event, Name, Record, Sid};
use std::alloc::Global;
use std::fmt::Display;
use std::test::Fail;

/// Bodies with a field that goes past the end, or has a value that is not allowed.
static BAD_FIELDS: [&[u8]; 15] = [
    // No place, no verdict, no kind, no field.
    b"",
    b"\0\0\0\0\0\0\0",
    b"\0\0\0\0\0\0\0\x01",
    b"\0\0\0\0\0\0\0\x01\0",
    b"\0\0\0\0\0\0\0\x01\0\x01",
    b"\0\0\0\0\0\0\0\x01\0\x04\0\0\0\0\0\0\0",
    // A rule of 34; kinds of 0 and 5; neither found nor not.
    b"\0\0\0\0\0\0\0\x01\x22\x01\0",
    b"\0\0\0\0\0\0\0\x01\0\0",
    b"\0\0\0\0\0\0\0\x01\0\x05",
    b"\0\0\0\0\0\0\0\x01\0\x01\x02",
    // A byte behind the last field.
    b"\0\0\0\0\0\0\0\x01\0\x01\0\0",
    b"\0\0\0\0\0\0\0\x01\0\x02\0\0\0\0\0\0\0\x07\0\0\0\x01\x17\0",
    // A frame that is cut, one that is empty, and one of a hello.
    b"\0\0\0\0\0\0\0\x01\0\x02\0\0\0\0\0\0\0\x07\0\0\0\x02\x17",
    b"\0\0\0\0\0\0\0\x01\0\x02\0\0\0\0\0\0\0\x07\0\0\0\0",
    b"\0\0\0\0\0\0\0\x01\0\x02\0\0\0\0\0\0\0\x07\0\0\0\x06\x01\0\x03ka1",
];

/// The fault of the record at place 1.
fn fault_of(alloc: Global, bytes: &[u8]) -> Option<TrailFault> {
    match read_record(alloc, 1, bytes) {
        Err(LogFault::Trail(fault)) => Some(fault),
        _ => None,
    }
}

#[test]
fn a_body_whose_fields_do_not_read_is_at_fault(rt: HostRuntime) -> Result<(), Fail> {
    for (at, body) in BAD_FIELDS.iter().enumerate() {
        let text = closed(rt.alloc(), body.len(), body)?;
        if fault_of(rt.alloc(), &text) != Some(TrailFault::BadFields) {
            return Err(Fail::new(format_args!("body {at}")));
        }
    }
    Ok(())
}

#[test]
fn a_length_is_at_most_16777322(rt: HostRuntime) -> Result<(), Fail> {
    let longest = closed(rt.alloc(), 16_777_322, b"")?;
    let longer = closed(rt.alloc(), 16_777_323, b"")?;
    assert!(rt; matches!(read_record(rt.alloc(), 1, &longest), Ok(None)));
    assert!(rt; fault_of(rt.alloc(), &longer) == Some(TrailFault::BadLength));
    Ok(())
}

#[test]
fn a_record_of_another_place_is_at_fault(rt: HostRuntime) -> Result<(), Fail> {
    let body = b"\0\0\0\0\0\0\0\x02\0\x01\0";
    let text = closed(rt.alloc(), body.len(), body)?;
    assert!(rt; fault_of(rt.alloc(), &text) == Some(TrailFault::BadPlace));
    Ok(())
}

#[test]
fn another_file_is_known_by_its_first_bytes(rt: HostRuntime) -> Result<(), Fail> {
    assert!(rt; matches!(read_head(b"MQTRAIL"), Ok(None)));
    assert!(rt; matches!(read_head(b"MQTRAIL2 and no sum"), Ok(None)));
    let next = read_file(rt.alloc(), b"MQTRAIL1")?;
    assert!(rt; next.fault == Some(TrailFault::BadMagic));
    Ok(())
}

#[test]
fn a_call_that_no_frame_spells_is_not_written(rt: HostRuntime) -> Result<(), Fail> {
    let name = Name::new(Bytes::from_vec(Vec::from_elem(rt.alloc(), b'a', 65_536)?)?);
    let made = Record {
        event: Event::Do {
            sid: Sid(0),
            call: Call::MqUnlink(name),
        },
        rule: None,
    };
    let mut out = Vec::from_slice(rt.alloc(), b"before")?;
    let result = put_record(&mut out, 0, &made);
    assert!(rt; matches!(result, Err(WriteFault::TooLong)));
    assert!(rt; out.as_slice() == b"before".as_slice());
    Ok(())
}

/// Whether the value is shown as this text.
fn shows<T: Display>(alloc: Global, value: &T, text: &str) -> Result<(), Fail> {
    let shown = format!(in alloc; "{value}")?;
    if shown.as_str() == text {
        Ok(())
    } else {
        Err(Fail::new(format_args!("{shown} in place of {text}")))
    }
}

static FAULTS: [(TrailFault, &str); 5] = [
    (TrailFault::BadMagic, "not a trail of this version"),
    (TrailFault::BadLength, "record too long"),
    (TrailFault::BadSum, "sum of other bytes"),
    (TrailFault::BadFields, "bad field"),
    (TrailFault::BadPlace, "record of another place"),
];

#[test]
fn faults_have_words(rt: HostRuntime) -> Result<(), Fail> {
    for (fault, words) in &FAULTS {
        shows(rt.alloc(), &LogFault::Trail(*fault), words)?;
    }
    shows(rt.alloc(), &LogFault::NoMemory, "memory")
}
