//! Reading records.

ghost use Rattle.std.specs.Prelude.{◌≡◌, ◌+◌, ◌<◌, ◌≤◌, length, option_map, IfOk, IfSome};
ghost use Rattle.ipc_fields.specs.Given.{Gives};
ghost use Rattle.ipc_wire.specs.Answers.{rule_of};
ghost use Rattle.ipc_log.specs.Fields.{verdict_field, call_field, event_field, entry};
ghost use Rattle.ipc_log.specs.Trail.{body_front, around_body, entry_read, record_front};
ghost use Rattle.ipc_log.specs.Given.{Finds};

use crate::fault::{LogFault, TrailFault};
use crate::summed::{MAX_BODY, PREFIX_LEN, SUM_LEN, summed_at};
use ipc_fields::{ReadFault, WireFault, alone, optional_uid_at, u8_at, u64_at};
use ipc_terms::{Call, EVERY_RULE, Event, Record, Rule, Sid};
use ipc_wire::{Request, read_request};
use std::alloc::Global;

/// The rule of this number, if there is one.
#[tactic(auto, unfolding(ipc_wire::specs::Answers::rule_of))]
fn rule_of(number: u8) -> Option<Rule>
    ensures { result ≡ rule_of number }
{
    EVERY_RULE
        .iter()
        .copied()
        .find(|rule| rule.number() == u16::from(number))
}

/// One byte, the verdict, and what follows it.
#[tactic(auto, unfolding(crate::specs::Fields::verdict_field))]
fn verdict_at(bytes: &[u8]) -> Result<(Option<Rule>, &[u8]), ReadFault>
    ensures { Gives (λ x. (x.0, x.1.now)) result (verdict_field.read bytes.now) }
{
    let (number, rest) = u8_at(bytes)?;
    if number == 0 {
        return Ok((None, rest));
    }
    match rule_of(number) {
        Some(rule) => Ok((Some(rule), rest)),
        None => Err(ReadFault::Wire(WireFault::BadField)),
    }
}

/// The frame of a call, and what follows it.
#[tactic(auto, unfolding(crate::specs::Fields::call_field))]
fn call_at(alloc: Global, bytes: &[u8]) -> Result<(Call, &[u8]), ReadFault>
    ensures { Gives (λ x. (x.0, x.1.now)) result (call_field.read bytes.now) }
{
    let Some((request, rest)) = read_request(alloc, false, bytes)? else {
        return Err(ReadFault::Wire(WireFault::BadField));
    };
    match request {
        Request::Do(call) => Ok((call, rest)),
        Request::Hello(_) => Err(ReadFault::Wire(WireFault::BadField)),
    }
}

/// A byte that tells the kind of an event, its fields, and what follows them.
#[tactic(auto, unfolding(crate::specs::Fields::event_field))]
fn event_at(alloc: Global, bytes: &[u8]) -> Result<(Event, &[u8]), ReadFault>
    ensures { Gives (λ x. (x.0, x.1.now)) result (event_field.read bytes.now) }
{
    let (kind, rest) = u8_at(bytes)?;
    match kind {
        1 => {
            let (found, rest) = optional_uid_at(rest)?;
            Ok((Event::Hello { found }, rest))
        }
        2 => {
            let (sid, rest) = u64_at(rest)?;
            let (call, rest) = call_at(alloc, rest)?;
            let sid = Sid(sid);
            Ok((Event::Do { sid, call }, rest))
        }
        3 => {
            let (sid, rest) = u64_at(rest)?;
            Ok((Event::Hangup { sid: Sid(sid) }, rest))
        }
        4 => {
            let (moment, rest) = u64_at(rest)?;
            Ok((Event::Tick { moment }, rest))
        }
        _ => Err(ReadFault::Wire(WireFault::BadField)),
    }
}

/// The place and the record of a whole body.
#[tactic(auto, unfolding(crate::specs::Fields::record_field))]
fn entry_of(alloc: Global, body: &[u8]) -> Result<(u64, Record), ReadFault>
    ensures { Gives (λ x. x) result (entry.read body.now) }
{
    let (place, rest) = u64_at(body)?;
    let (rule, rest) = verdict_at(rest)?;
    let (event, rest) = event_at(alloc, rest)?;
    alone((place, Record { event, rule }), rest)
}

/// The body in front; none as long as it and its sum are not whole.
#[tactic(auto, unfolding(crate::specs::Trail::body_front))]
fn body_of(bytes: &[u8]) -> Result<Option<&[u8]>, LogFault>
    ensures { Finds (option_map (λ x. x.now)) result (body_front bytes.now) }
{
    let Some(len) = summed_at(4, bytes)? else {
        return Ok(None);
    };
    let len = u32::from_be_bytes([len[0], len[1], len[2], len[3]]) as usize;
    if len > MAX_BODY {
        return Err(LogFault::Trail(TrailFault::BadLength));
    }
    summed_at(len, &bytes[PREFIX_LEN..])
}

/// The record of this body, which must be that of `place`, and how many bytes it takes.
fn record_of(alloc: Global, place: u64, body: &[u8]) -> Result<Option<(Record, usize)>, LogFault>
    ensures { Finds (λ x. x) result (entry_read place (length body.now + around_body) (entry.read body.now)) }
{
    let (found, read) = match entry_of(alloc, body) {
        Ok(entry) => entry,
        Err(ReadFault::Wire(_)) => return Err(LogFault::Trail(TrailFault::BadFields)),
        Err(ReadFault::NoMemory) => return Err(LogFault::NoMemory),
    };
    if found == place {
        Ok(Some((read, body.len() + PREFIX_LEN + SUM_LEN)))
    } else {
        Err(LogFault::Trail(TrailFault::BadPlace))
    }
}

/// The record in front, which must be that of `place`, and how many bytes it takes; none as long as it is not whole. What is
/// wrong with its length is said as soon as the length and its sum are there, and else what comes first of a wrong sum, a bad
/// field and another place.
#[tactic(auto, unfolding(crate::specs::Trail::record_front))]
pub fn read_record(
    alloc: Global,
    place: u64,
    bytes: &[u8],
) -> Result<Option<(Record, usize)>, LogFault>
    ensures finds { Finds (λ x. x) result (record_front place bytes.now) }
    ensures within { IfOk result (λ found. IfSome found (λ x. (0 < x.1) × (x.1 ≤ length bytes.now))) }
{
    let Some(body) = body_of(bytes)? else {
        return Ok(None);
    };
    record_of(alloc, place, body)
}
