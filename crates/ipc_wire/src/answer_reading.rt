//! Reading answers.

ghost use Rattle.std.specs.Prelude.{◌≡◌, ◌≤◌, List, length, drop, option_map, IfOk, IfSome};
ghost use Rattle.ipc_fields.specs.Field.{text, so_many, counted, only};
ghost use Rattle.ipc_fields.specs.Given.{Gives};
ghost use Rattle.ipc_fields.specs.Terms.{sid_field, desc_field, mode_field};
ghost use Rattle.ipc_wire.specs.Answers.{facts_field, line_field, rule_of, rule_field, answer_fields_at, answer_at};
ghost use Rattle.ipc_wire.specs.Streams.{answer_front};
ghost use Rattle.ipc_terms.specs.declared.op.AnswerOp.TheVariants as op;

use crate::request_reading::only_description;
use ipc_fields::{
    ReadFault, WireFault, alone, attributes_at, body_of, bool_at, name_of, text_at, u8_at, u16_at,
    u32_at, u64_at,
};
use ipc_terms::{
    Answer, AnswerOp, Bytes, EVERY_RULE, Facts, Gid, Line, Lines, Mode, Name, Names, Rule, Sid, Uid,
};
use std::alloc::Global;

/// The rule of this number, if there is one.
#[tactic(auto, unfolding(crate::specs::Answers::rule_of))]
fn rule_of(number: u16) -> Option<Rule>
    ensures { result ≡ rule_of number }
{
    EVERY_RULE
        .iter()
        .copied()
        .find(|rule| rule.number() == number)
}

#[tactic(auto, unfolding(crate::specs::Answers::answer_fields_at, crate::specs::Answers::rule_field))]
fn refused_at(bytes: &[u8]) -> Result<Answer, ReadFault>
    ensures { Gives (λ x. x) result (answer_fields_at op.Refused bytes.now) }
{
    let (number, rest) = u16_at(bytes)?;
    let Some(rule) = rule_of(number) else {
        return Err(ReadFault::Wire(WireFault::BadField));
    };
    alone(Answer::Refused(rule), rest)
}

#[tactic(auto, unfolding(crate::specs::Answers::line_field))]
fn line_at(alloc: Global, bytes: &[u8]) -> Result<(Line, &[u8]), ReadFault>
    ensures { Gives (λ x. (x.0, x.1.now)) result (line_field.read bytes.now) }
{
    let (place, rest) = u64_at(bytes)?;
    let (sid, rest) = u64_at(rest)?;
    let (op, rest) = u8_at(rest)?;
    let (rule, rest) = u16_at(rest)?;
    let (name, rest) = text_at(rest)?;
    let line = Line {
        place,
        sid: Sid(sid),
        op,
        rule,
        name: name_of(alloc, name)?,
    };
    Ok((line, rest))
}

fn so_many_names(alloc: Global, count: u16, bytes: &[u8]) -> Result<(Vec<Name>, &[u8]), ReadFault>
    ensures { Gives (λ x. (x.0.items, x.1.now)) result (so_many text count bytes.now) }
{
    let mut names = Vec::new(alloc);
    let mut rest = bytes;
    for _ in 0..count {
        let (text, after) = text_at(rest)?;
        let name = name_of(alloc, text)?;
        names.push(name)?;
        rest = after;
    }
    Ok((names, rest))
}

fn so_many_lines(alloc: Global, count: u16, bytes: &[u8]) -> Result<(Vec<Line>, &[u8]), ReadFault>
    ensures { Gives (λ x. (x.0.items, x.1.now)) result (so_many line_field count bytes.now) }
{
    let mut lines = Vec::new(alloc);
    let mut rest = bytes;
    for _ in 0..count {
        let (line, after) = line_at(alloc, rest)?;
        lines.push(line)?;
        rest = after;
    }
    Ok((lines, rest))
}

#[tactic(auto, unfolding(crate::specs::Answers::answer_fields_at, ipc_fields::specs::Field::counted))]
fn names_at(alloc: Global, bytes: &[u8]) -> Result<Answer, ReadFault>
    ensures { Gives (λ x. x) result (answer_fields_at op.Names bytes.now) }
{
    let (count, rest) = u16_at(bytes)?;
    let (names, rest) = so_many_names(alloc, count, rest)?;
    alone(Answer::Names(Names::new(names)), rest)
}

#[tactic(auto, unfolding(crate::specs::Answers::answer_fields_at, ipc_fields::specs::Field::counted))]
fn records_at(alloc: Global, bytes: &[u8]) -> Result<Answer, ReadFault>
    ensures { Gives (λ x. x) result (answer_fields_at op.Records bytes.now) }
{
    let (count, rest) = u16_at(bytes)?;
    let (lines, rest) = so_many_lines(alloc, count, rest)?;
    alone(Answer::Records(Lines::new(lines)), rest)
}

#[tactic(auto, unfolding(crate::specs::Answers::answer_fields_at))]
fn attrs_at(bytes: &[u8]) -> Result<Answer, ReadFault>
    ensures { Gives (λ x. x) result (answer_fields_at op.Attrs bytes.now) }
{
    let (nonblock, rest) = bool_at(bytes)?;
    let (attributes, rest) = attributes_at(rest)?;
    let (messages, rest) = u32_at(rest)?;
    let answer = Answer::Attrs {
        nonblock,
        attributes,
        messages,
    };
    alone(answer, rest)
}

#[tactic(auto, unfolding(crate::specs::Answers::answer_fields_at))]
fn received_at(alloc: Global, bytes: &[u8]) -> Result<Answer, ReadFault>
    ensures { Gives (λ x. x) result (answer_fields_at op.Received bytes.now) }
{
    let (priority, rest) = u32_at(bytes)?;
    let bytes = Bytes::from_slice(alloc, rest)?;
    Ok(Answer::Received { priority, bytes })
}

#[tactic(auto, unfolding(crate::specs::Answers::answer_fields_at, crate::specs::Answers::facts_field))]
fn stat_at(bytes: &[u8]) -> Result<Answer, ReadFault>
    ensures { Gives (λ x. x) result (answer_fields_at op.Stat bytes.now) }
{
    let (owner, rest) = u32_at(bytes)?;
    let (group, rest) = u32_at(rest)?;
    let (mode, rest) = u16_at(rest)?;
    let facts = Facts {
        owner: Uid(owner),
        group: Gid(group),
        mode: Mode(mode),
    };
    alone(Answer::Stat(facts), rest)
}

fn only_sid(bytes: &[u8]) -> Result<Sid, ReadFault>
    ensures { Gives (λ x. x) result ((only sid_field).read bytes.now) }
{
    let (number, rest) = u64_at(bytes)?;
    alone(Sid(number), rest)
}

fn only_mode(bytes: &[u8]) -> Result<Mode, ReadFault>
    ensures { Gives (λ x. x) result ((only mode_field).read bytes.now) }
{
    let (mode, rest) = u16_at(bytes)?;
    alone(Mode(mode), rest)
}

#[tactic(auto, unfolding(crate::specs::Answers::answer_fields_at))]
fn value_at(bytes: &[u8]) -> Result<Answer, ReadFault>
    ensures { Gives (λ x. x) result (answer_fields_at op.Value bytes.now) }
{
    let (value, rest) = u32_at(bytes)?;
    alone(Answer::Value(value), rest)
}

/// What follows the opcode.
#[tactic(auto, unfolding(crate::specs::Answers::answer_fields_at))]
fn fields_of(alloc: Global, op: AnswerOp, bytes: &[u8]) -> Result<Answer, ReadFault>
    ensures { Gives (λ x. x) result (answer_fields_at op bytes.now) }
{
    match op {
        AnswerOp::Started => Ok(Answer::Started(only_sid(bytes)?)),
        AnswerOp::Done => alone(Answer::Done, bytes),
        AnswerOp::Opened => Ok(Answer::Opened(only_description(bytes)?)),
        AnswerOp::Mask => Ok(Answer::Mask(only_mode(bytes)?)),
        AnswerOp::Attrs => attrs_at(bytes),
        AnswerOp::Sent => alone(Answer::Sent, bytes),
        AnswerOp::Received => received_at(alloc, bytes),
        AnswerOp::Value => value_at(bytes),
        AnswerOp::Names => names_at(alloc, bytes),
        AnswerOp::Stat => stat_at(bytes),
        AnswerOp::Records => records_at(alloc, bytes),
        AnswerOp::Refused => refused_at(bytes),
        AnswerOp::Interrupted => alone(Answer::Interrupted, bytes),
        AnswerOp::Notice => Ok(Answer::Notice(only_description(bytes)?)),
        AnswerOp::Taken => Ok(Answer::Taken(only_description(bytes)?)),
    }
}

/// The answer of a whole body.
#[tactic(auto, unfolding(crate::specs::Answers::answer_at))]
fn answer_of(alloc: Global, body: &[u8]) -> Result<Answer, ReadFault>
    ensures { Gives (λ x. x) result (answer_at body.now) }
{
    match body {
        [] => Err(ReadFault::Wire(WireFault::Empty)),
        [byte, rest @ ..] => match AnswerOp::of_number(*byte) {
            None => Err(ReadFault::Wire(WireFault::BadOpcode)),
            Some(op) => fields_of(alloc, op, rest),
        },
    }
}

/// The answer in front and how many bytes its frame takes; none as long as the frame is not whole.
pub fn read_answer(alloc: Global, bytes: &[u8]) -> Result<Option<(Answer, usize)>, ReadFault>
    ensures front { Gives (option_map (λ x. (x.0, drop x.1 bytes.now))) result (answer_front bytes.now) }
    ensures within { IfOk result (λ found. IfSome found (λ x. x.1 ≤ length bytes.now)) }
{
    match body_of(bytes)? {
        None => Ok(None),
        Some((body, rest)) => {
            let answer = answer_of(alloc, body)?;
            Ok(Some((answer, bytes.len() - rest.len())))
        }
    }
}
