//! Each kind of event and call: how it is spelled, and that it is read again.

use crate::made::{call_of, closed, framed};
use ipc_log::{put_record, read_record};
use ipc_terms::{EVERY_RULE, Event, Record, Rule, Sid, Uid};
use std::alloc::Global;
use std::test::Fail;

/// The frame's body of each kind of call, with each option there and not there.
static CALLS: [&[u8]; 32] = [
    b"\x02\0\x12",
    b"\x03\0\x02/a\x03\x01\x01\xb6\0",
    b"\x03\0\x02/a\x01\x07\x01\x80\x01\0\0\0\x0a\0\0\x20\0",
    b"\x04\0\0\0\0\0\0\0\x07",
    b"\x05\0\x02/a",
    b"\x06\0\0\0\0\0\0\0\0\0\0\0\x05hi",
    b"\x07\0\0\0\0\0\0\0\0\0\0\x20\0",
    b"\x08\0\0\0\0\0\0\0\x07",
    b"\x09\0\0\0\0\0\0\0\x07\x01",
    b"\x0a\0\0\0\0\0\0\0\x07\0",
    b"\x0b\0\x02/s\x03\x01\x80\0\0\0\x01",
    b"\x0c\0\0\0\0\0\0\0\x07",
    b"\x0d\0\x02/s",
    b"\x0e\0\0\0\0\0\0\0\x07",
    b"\x0f\0\0\0\0\0\0\0\x07",
    b"\x10\0\0\0\0\0\0\0\x07",
    b"\x11\0\0\0\0\0\0\0\x07",
    b"\x12\x01\0\0\0\0\0\x0a",
    b"\x13\x02\0",
    b"\x13\x01\x01\0\x02/a",
    b"\x14\x01\xff\x01\0",
    b"\x14\x01\xff\x02\x01\0\x02/s",
    b"\x15\0\0\x01\0",
    b"\x15\x01\0\0\x03\xe8\0\x01\x01\0\x02/a",
    b"\x15\0\x01\0\0\0\x32\x02\0",
    b"\x16\0\0\x03\xe8\0\0\0\0\0\x0c\x35\0",
    b"\x17",
    b"\x18\0\0\0\0\0\0\0\0\x03\xe8",
    b"\x1a\0\0\0\0\0\0\0\0\0\0\0\x05\0\0\0\0\0\0\0\x09hi",
    b"\x1b\0\0\0\0\0\0\0\0\0\0\x20\0\0\0\0\0\0\0\0\x09",
    b"\x1c\0\0\0\0\0\0\0\x07\0\0\0\0\0\0\0\x09",
    b"\x1e\0\0\0\0\0\0\0\x07\0\0\0\0\0\0\0\x02",
];

/// Behind what stands in a buffer the record is spelled by this body, and it is read again in front of other bytes.
fn goes(alloc: Global, place: u64, made: &Record, body: &[u8]) -> Result<bool, Fail> {
    let text = closed(alloc, body.len(), body)?;
    let mut out = Vec::from_slice(alloc, b"before")?;
    put_record(&mut out, place, made)?;
    let is_spelled = out.as_slice().strip_prefix(b"before") == Some(text.as_slice());
    let mut longer = Vec::from_slice(alloc, &text)?;
    longer.extend_from_slice(b"behind")?;
    let Ok(Some((read, taken))) = read_record(alloc, place, &longer) else {
        return Ok(false);
    };
    let mut again = Vec::new(alloc);
    put_record(&mut again, place, &read)?;
    Ok(is_spelled && taken == text.len() && again == text)
}

/// Whether the record of the call in a frame with this body, by session 7, accepted at place 258, is spelled so.
fn call_goes(alloc: Global, call: &[u8]) -> Result<bool, Fail> {
    let mut body = Vec::from_slice(alloc, b"\0\0\0\0\0\0\x01\x02\0\x02\0\0\0\0\0\0\0\x07")?;
    body.extend_from_slice(&framed(alloc, call)?)?;
    let event = Event::Do {
        sid: Sid(7),
        call: call_of(alloc, call)?,
    };
    goes(alloc, 258, &Record { event, rule: None }, &body)
}

#[test]
fn each_call_is_spelled_by_its_frame(rt: HostRuntime) -> Result<(), Fail> {
    for (at, call) in CALLS.iter().enumerate() {
        if !call_goes(rt.alloc(), call)? {
            return Err(Fail::new(format_args!("call {at}")));
        }
    }
    Ok(())
}

/// An event that is no call, and its body without the place and the verdict.
fn other(number: usize) -> Option<(Event, &'static [u8])> {
    match number {
        0 => Some((Event::Hello { found: None }, b"\x01\0")),
        1 => Some((
            Event::Hello {
                found: Some(Uid(1000)),
            },
            b"\x01\x01\0\0\x03\xe8",
        )),
        2 => Some((Event::Hangup { sid: Sid(9) }, b"\x03\0\0\0\0\0\0\0\x09")),
        3 => Some((Event::Tick { moment: 300 }, b"\x04\0\0\0\0\0\0\x01\x2c")),
        _ => None,
    }
}

/// Whether the event with this verdict is spelled so.
fn other_goes(
    alloc: Global,
    event: Event,
    rule: Option<Rule>,
    fields: &[u8],
) -> Result<bool, Fail> {
    let code = match rule {
        None => 0,
        Some(rule) => rule.number(),
    };
    let mut body = Vec::from_slice(alloc, &1u64.to_be_bytes())?;
    body.push(u8::try_from(code).unwrap_or(255))?;
    body.extend_from_slice(fields)?;
    goes(alloc, 1, &Record { event, rule }, &body)
}

#[test]
fn each_other_event_and_each_verdict_is_spelled(rt: HostRuntime) -> Result<(), Fail> {
    for number in 0..4 {
        for at in 0..=EVERY_RULE.len() {
            let rule = at
                .checked_sub(1)
                .and_then(|place| EVERY_RULE.get(place))
                .copied();
            let Some((event, fields)) = other(number) else {
                return Err(Fail::new("no event"));
            };
            if !other_goes(rt.alloc(), event, rule, fields)? {
                return Err(Fail::new(format_args!("event {number}, rule {at}")));
            }
        }
    }
    Ok(())
}
