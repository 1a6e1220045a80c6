//! Lines of the audit in a line.

ghost use Rattle.std.specs.Prelude.{◌≡◌, ◌++◌, OnOk};
ghost use Rattle.std.specs.String.{string_bytes};
ghost use Rattle.ipc_terms.specs.declared.call.Answer.TheVariants.{Records};
ghost use Rattle.ipc_words.specs.Answers.{answer_line, event_text, line_text, session_text, spaced_lines};

use crate::commands::form_of_op;
use crate::printing::put_bytes;
use ipc_terms::{Line, Sid};
use std::alloc::AllocError;

/// Adds the line of an answer that has these lines.
#[tactic(auto, unfolding(crate::specs::Answers::answer_line))]
pub fn put_records(text: &mut String, lines: &[Line]) -> Result<(), AllocError>
    ensures { OnOk result (string_bytes text.new ≡ string_bytes text.old ++ answer_line (Records lines.now)) }
{
    write!(text, "records {}", lines.len())?;
    put_spaced_lines(text, lines)
}

/// Adds each line behind a space.
fn put_spaced_lines(text: &mut String, lines: &[Line]) -> Result<(), AllocError>
    ensures { OnOk result (string_bytes text.new ≡ string_bytes text.old ++ spaced_lines lines.now) }
{
    for line in lines {
        text.push_str(" ")?;
        put_record(text, line)?;
    }
    Ok(())
}

/// Adds a line of the audit, `PLACE:SESSION:EVENT:RULE:NAME`. On `Err` a part of it may be left in the text.
#[tactic(auto, unfolding(crate::specs::Answers::line_text))]
pub fn put_record(text: &mut String, line: &Line) -> Result<(), AllocError>
    ensures { OnOk result (string_bytes text.new ≡ string_bytes text.old ++ line_text line.now) }
{
    write!(text, "{}:", line.place)?;
    put_session(text, line.sid)?;
    text.push_str(":")?;
    put_event(text, line.op)?;
    write!(text, ":{}:", line.rule)?;
    put_bytes(text, line.name.as_slice())
}

/// The session's number, or `-` for nobody.
fn put_session(text: &mut String, session: Sid) -> Result<(), AllocError>
    ensures { OnOk result (string_bytes text.new ≡ string_bytes text.old ++ session_text session) }
{
    if session == Sid::NOBODY {
        text.push_str("-")
    } else {
        write!(text, "{}", session.0)
    }
}

/// The word of the command whose call has this number, `hello`, `hangup` or `tick`; the number where none has it.
#[tactic(auto, unfolding(crate::specs::Answers::event_text))]
fn put_event(text: &mut String, op: u8) -> Result<(), AllocError>
    ensures { OnOk result (string_bytes text.new ≡ string_bytes text.old ++ event_text op) }
{
    match op {
        1 => text.push_str("hello"),
        25 => text.push_str("hangup"),
        29 => text.push_str("tick"),
        _ => match form_of_op(op) {
            Some(form) => text.push_str(form.word),
            None => write!(text, "{op}"),
        },
    }
}
