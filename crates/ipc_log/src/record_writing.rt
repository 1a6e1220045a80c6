//! Writing records.

ghost use Rattle.std.specs.Prelude.{◌≡◌, ℕ, ◌+◌, ◌≤◌, ◌++◌, length, take, drop, vec_len, Some, None, IsErrOf, IfOk, OnOk, OnErr};
ghost use Rattle.std.specs.Int.{w32, to_be_bytes};
ghost use Rattle.ipc_fields.specs.Field.{◌⊕◌};
ghost use Rattle.ipc_fields.specs.Given.{Begins, Puts};
ghost use Rattle.ipc_log.specs.Summed.{summed};
ghost use Rattle.ipc_log.specs.Fields.{verdict_field, call_field, event_field, entry};
ghost use Rattle.ipc_log.specs.Trail.{closed, spell_record};

use crate::checksum::crc32c;
use crate::summed::{MAX_BODY, PREFIX_LEN, put_sum};
use ipc_fields::{WriteFault, put_optional_uid, put_u8, put_u64};
use ipc_terms::{Call, Event, Record, Rule};
use ipc_wire::{Request, put_request};
use std::alloc::AllocError;

/// One byte: 0 where the event was accepted, else the number of the rule that refused it.
#[tactic(auto, unfolding(crate::specs::Fields::verdict_field))]
fn put_verdict(out: &mut Vec<u8>, rule: Option<Rule>) -> Result<(), WriteFault>
    ensures puts { Puts out.old.items out.new.items result (verdict_field.spell rule) }
    ensures begins { Begins out.old.items out.new.items }
{
    let code = match rule {
        None => 0,
        Some(rule) => rule.number() as u8,
    };
    put_u8(out, code)
}

/// An equal call, which shares its bytes.
fn copied(call: &Call) -> Result<Call, AllocError>
    ensures { IfOk result (λ copy. copy ≡ call.now) }
{
    call.clone()
}

/// The frame of a call.
#[tactic(auto, unfolding(crate::specs::Fields::call_field))]
fn put_call(out: &mut Vec<u8>, call: &Call) -> Result<(), WriteFault>
    ensures puts { Puts out.old.items out.new.items result (call_field.spell call.now) }
    ensures begins { Begins out.old.items out.new.items }
{
    let request = Request::Do(copied(call)?);
    put_request(out, &request)
}

/// A byte that tells the kind of the event, and its fields. A hello has no key here: the event has none.
#[tactic(auto, using(ipc_fields::proofs::Joins::joins), unfolding(crate::specs::Fields::event_field))]
fn put_event(out: &mut Vec<u8>, event: &Event) -> Result<(), WriteFault>
    ensures puts { Puts out.old.items out.new.items result (event_field.spell event.now) }
    ensures begins { Begins out.old.items out.new.items }
{
    match event {
        Event::Hello { found } => {
            put_u8(out, 1)?;
            put_optional_uid(out, *found)
        }
        Event::Do { sid, call } => {
            put_u8(out, 2)?;
            put_u64(out, sid.0)?;
            put_call(out, call)
        }
        Event::Hangup { sid } => {
            put_u8(out, 3)?;
            put_u64(out, sid.0)
        }
        Event::Tick { moment } => {
            put_u8(out, 4)?;
            put_u64(out, *moment)
        }
    }
}

/// The place, the verdict and the event.
#[tactic(auto, using(ipc_fields::proofs::Joins::joins), unfolding(crate::specs::Fields::record_field))]
fn put_entry(out: &mut Vec<u8>, place: u64, added: &Record) -> Result<(), WriteFault>
    ensures puts { Puts out.old.items out.new.items result (entry.spell (place, added.now)) }
    ensures begins { Begins out.old.items out.new.items }
{
    put_u64(out, place)?;
    put_verdict(out, added.rule)?;
    put_event(out, &added.event)
}

/// A length and its sum.
fn prefix_of(len: u32) -> [u8; PREFIX_LEN]
    ensures { result ≡ summed (to_be_bytes w32 len) }
{
    let [a, b, c, d] = len.to_be_bytes();
    let [e, f, g, h] = crc32c(&[a, b, c, d]).to_be_bytes();
    [a, b, c, d, e, f, g, h]
}

fn set_prefix_in(bytes: &mut [u8], start: usize, len: u32)
    requires { start + 8 ≤ length bytes.old }
    ensures { bytes.new ≡ take start bytes.old ++ summed (to_be_bytes w32 len) ++ drop (start + 8) bytes.old }
{
    bytes[start..start + PREFIX_LEN].copy_from_slice(&prefix_of(len));
}

/// Sets the length of the record that began at `start`, and the length's sum.
fn set_prefix(out: &mut Vec<u8>, start: usize, len: u32)
    requires { start + 8 ≤ vec_len out.old }
    ensures { out.new.items ≡ take start out.old.items ++ summed (to_be_bytes w32 len) ++ drop (start + 8) out.old.items }
{
    set_prefix_in(out, start, len);
}

/// Ends the record that began at `start`: sets its length, for which eight bytes of any value stand there, and puts the sum
/// of its body behind it.
#[tactic(auto, using(ipc_fields::proofs::Joins::joins))]
fn close_record(out: &mut Vec<u8>, start: usize) -> Result<(), WriteFault>
    requires { start + 8 ≤ vec_len out.old }
    ensures puts { Puts (take start out.old.items) out.new.items result (closed (Some (drop (start + 8) out.old.items))) }
    ensures begins { Begins (take start out.old.items) out.new.items }
{
    let body = start + PREFIX_LEN;
    let len = out.len() - body;
    if len > MAX_BODY {
        return Err(WriteFault::TooLong);
    }
    set_prefix(out, start, len as u32);
    put_sum(out, body)
}

fn put_closed(out: &mut Vec<u8>, place: u64, added: &Record) -> Result<(), WriteFault>
    ensures puts { Puts out.old.items out.new.items result (spell_record place added.now) }
    ensures begins { Begins out.old.items out.new.items }
{
    let start = out.len();
    put_u64(out, 0)?;
    put_entry(out, place, added)?;
    close_record(out, start)
}

/// Puts the record of a place behind what stands in the buffer. Flags that mean nothing to its call are left out. `TooLong`
/// where no frame spells its call. An `Err` leaves the bytes as they were.
pub fn put_record(out: &mut Vec<u8>, place: u64, added: &Record) -> Result<(), WriteFault>
    ensures put { OnOk result ((Some out.old.items ⊕ spell_record place added.now) ≡ Some out.new.items) }
    ensures too_long { IsErrOf result WriteFault.TooLong → spell_record place added.now ≡ None }
    ensures err { OnErr result (out.new.items ≡ out.old.items) }
{
    let before = out.len();
    match put_closed(out, place, added) {
        Ok(()) => Ok(()),
        Err(fault) => {
            out.truncate(before);
            Err(fault)
        }
    }
}
