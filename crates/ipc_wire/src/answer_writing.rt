//! Writing answers.

ghost use Rattle.std.specs.Prelude.{◌≡◌, List, length, Some, None, IfOk, IsErrOf, OnOk, OnErr};
ghost use Rattle.ipc_fields.specs.Field.{◌⊕◌, ◌⊗◌, u32, text, boolean, counted, all_spelled, only, then_rest};
ghost use Rattle.ipc_fields.specs.Given.{Begins, Puts};
ghost use Rattle.ipc_fields.specs.Terms.{attributes_field};
ghost use Rattle.ipc_wire.specs.Answers.{facts_field, line_field, answer_fields, answer_body};
ghost use Rattle.ipc_wire.specs.Streams.{spell_answer};

use crate::framing::{Message, put_message, write_message};
use ipc_fields::{
    WriteFault, put_attributes, put_bool, put_bytes, put_text, put_u8, put_u16, put_u32, put_u64,
};
use ipc_terms::{Answer, Attributes, Bytes, Facts, Line, Name};
use std::alloc::Global;

/// The most items of a list.
const MAX_COUNT: usize = 65_535;

fn put_each_name(out: &mut Vec<u8>, names: &[Name]) -> Result<(), WriteFault>
    ensures puts { Puts out.old.items out.new.items result (all_spelled text names.now) }
    ensures begins { Begins out.old.items out.new.items }
{
    for name in names {
        put_text(out, name.as_slice())?;
    }
    Ok(())
}

#[tactic(auto, using(ipc_fields::proofs::Joins::joins), unfolding(ipc_fields::specs::Field::counted))]
fn put_names(out: &mut Vec<u8>, names: &[Name]) -> Result<(), WriteFault>
    ensures puts { Puts out.old.items out.new.items result ((counted text).spell names.now) }
    ensures begins { Begins out.old.items out.new.items }
{
    if names.len() > MAX_COUNT {
        return Err(WriteFault::TooLong);
    }
    put_u16(out, names.len() as u16)?;
    put_each_name(out, names)
}

#[tactic(auto, using(ipc_fields::proofs::Joins::joins), unfolding(crate::specs::Answers::line_field))]
fn put_line(out: &mut Vec<u8>, line: &Line) -> Result<(), WriteFault>
    ensures puts { Puts out.old.items out.new.items result (line_field.spell line.now) }
    ensures begins { Begins out.old.items out.new.items }
{
    put_u64(out, line.place)?;
    put_u64(out, line.sid.0)?;
    put_u8(out, line.op)?;
    put_u16(out, line.rule)?;
    put_text(out, line.name.as_slice())
}

fn put_each_line(out: &mut Vec<u8>, lines: &[Line]) -> Result<(), WriteFault>
    ensures puts { Puts out.old.items out.new.items result (all_spelled line_field lines.now) }
    ensures begins { Begins out.old.items out.new.items }
{
    for line in lines {
        put_line(out, line)?;
    }
    Ok(())
}

#[tactic(auto, using(ipc_fields::proofs::Joins::joins), unfolding(ipc_fields::specs::Field::counted))]
fn put_lines(out: &mut Vec<u8>, lines: &[Line]) -> Result<(), WriteFault>
    ensures puts { Puts out.old.items out.new.items result ((counted line_field).spell lines.now) }
    ensures begins { Begins out.old.items out.new.items }
{
    if lines.len() > MAX_COUNT {
        return Err(WriteFault::TooLong);
    }
    put_u16(out, lines.len() as u16)?;
    put_each_line(out, lines)
}

#[tactic(auto, using(ipc_fields::proofs::Joins::joins))]
fn put_attrs(
    out: &mut Vec<u8>,
    nonblock: bool,
    attributes: Attributes,
    messages: u32,
) -> Result<(), WriteFault>
    ensures puts { Puts out.old.items out.new.items result ((only (boolean ⊗ attributes_field ⊗ u32)).spell (nonblock, (attributes, messages))) }
    ensures begins { Begins out.old.items out.new.items }
{
    put_bool(out, nonblock)?;
    put_attributes(out, attributes)?;
    put_u32(out, messages)
}

#[tactic(auto, using(ipc_fields::proofs::Joins::joins))]
fn put_received(out: &mut Vec<u8>, priority: u32, bytes: &Bytes) -> Result<(), WriteFault>
    ensures puts { Puts out.old.items out.new.items result ((then_rest u32).spell (priority, bytes.now)) }
    ensures begins { Begins out.old.items out.new.items }
{
    put_u32(out, priority)?;
    put_bytes(out, bytes.as_slice())
}

#[tactic(auto, using(ipc_fields::proofs::Joins::joins), unfolding(crate::specs::Answers::facts_field))]
fn put_facts(out: &mut Vec<u8>, facts: &Facts) -> Result<(), WriteFault>
    ensures puts { Puts out.old.items out.new.items result (facts_field.spell facts.now) }
    ensures begins { Begins out.old.items out.new.items }
{
    put_u32(out, facts.owner.0)?;
    put_u32(out, facts.group.0)?;
    put_u16(out, facts.mode.0)
}

#[tactic(auto, using(ipc_fields::proofs::Joins::joins), unfolding(crate::specs::Answers::answer_with, crate::specs::Answers::rule_field))]
fn put_fields(out: &mut Vec<u8>, answer: &Answer) -> Result<(), WriteFault>
    ensures puts { Puts out.old.items out.new.items result (answer_fields answer.now) }
    ensures begins { Begins out.old.items out.new.items }
{
    match answer {
        Answer::Started(sid) => put_u64(out, sid.0),
        Answer::Done | Answer::Sent | Answer::Interrupted => Ok(()),
        Answer::Opened(desc) | Answer::Notice(desc) | Answer::Taken(desc) => {
            put_u64(out, desc.0)
        }
        Answer::Mask(mask) => put_u16(out, mask.0),
        Answer::Attrs {
            nonblock,
            attributes,
            messages,
        } => put_attrs(out, *nonblock, *attributes, *messages),
        Answer::Received { priority, bytes } => put_received(out, *priority, bytes),
        Answer::Value(value) => put_u32(out, *value),
        Answer::Names(names) => put_names(out, names.as_slice()),
        Answer::Stat(facts) => put_facts(out, facts),
        Answer::Records(lines) => put_lines(out, lines.as_slice()),
        Answer::Refused(rule) => put_u16(out, rule.number()),
    }
}

impl Message for Answer {
    ghost body_of = { answer_body };

    #[tactic(auto, using(ipc_fields::proofs::Joins::joins), unfolding(crate::specs::Answers::answer_body))]
    fn put_body(&self, out: &mut Vec<u8>) -> Result<(), WriteFault> {
        put_u8(out, self.op().number())?;
        put_fields(out, self)
    }
}

/// Puts the one frame of an answer behind what stands in the buffer. `TooLong` where a text has more than
/// 65,535 bytes, a list more than 65,535 items, or the body more than `MAX_BODY` bytes. An `Err` leaves the
/// bytes as they were.
pub fn put_answer(out: &mut Vec<u8>, answer: &Answer) -> Result<(), WriteFault>
    ensures put { OnOk result ((Some out.old.items ⊕ spell_answer answer.now) ≡ Some out.new.items) }
    ensures too_long { IsErrOf result WriteFault.TooLong → spell_answer answer.now ≡ None }
    ensures err { OnErr result (out.new.items ≡ out.old.items) }
{
    put_message(out, answer)
}

/// The one frame of an answer, as `put_answer` puts it.
pub fn write_answer(alloc: Global, answer: &Answer) -> Result<Vec<u8>, WriteFault>
    ensures spelled { IfOk result (λ bytes. spell_answer answer.now ≡ Some bytes.items) }
    ensures too_long { IsErrOf result WriteFault.TooLong → spell_answer answer.now ≡ None }
{
    write_message(alloc, answer)
}
