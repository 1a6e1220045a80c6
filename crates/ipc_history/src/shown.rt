//! What is shown of a record, and of the answers that it gave.

ghost use Rattle.std.specs.Prelude.{◌≡◌, ◌-◌, ◌++◌, length, map, min, IfOk, OnOk};
ghost use Rattle.std.specs.String.{string_bytes};
ghost use Rattle.ipc_terms.specs.Lines.{lines};
ghost use Rattle.ipc_terms.specs.Pages.{page};
ghost use Rattle.ipc_terms.specs.Timed.{deadline_of};
ghost use Rattle.ipc_policy.specs.Decides.History.{History};
ghost use Rattle.ipc_policy.specs.Decides.Verdict.{for_session};
ghost use Rattle.ipc_history.specs.Shown.{answer_text, deadline_text, page_text, record_text, rest_text};

use crate::lines::line_of;
use ipc_terms::{Answer, Call, Event, NoMemory, Record, Sid};
use ipc_words::{put_line, put_record};
use std::alloc::{AllocError, Global};

/// The most lines that an audit shows.
const LONGEST_PAGE: u16 = 1_000;

/// The record's line in an audit, and behind it what an audit leaves out.
pub fn text_of(alloc: Global, place: u64, shown: &Record) -> Result<String, NoMemory>
    ensures { IfOk result (λ text. string_bytes text ≡ record_text place shown.now) }
{
    let line = line_of(alloc, place, shown)?;
    let mut text = String::new(alloc);
    put_record(&mut text, &line)?;
    put_rest(&mut text, &shown.event)?;
    Ok(text)
}

/// Adds whom a hello was found to be, a tick's moment, or a timed call's deadline.
fn put_rest(text: &mut String, event: &Event) -> Result<(), AllocError>
    ensures { OnOk result (string_bytes text.new ≡ string_bytes text.old ++ rest_text event.now) }
{
    match event {
        Event::Hello { found: Some(user) } => write!(text, " found={}", user.0),
        Event::Hello { found: None } => text.push_str(" found=-"),
        Event::Tick { moment } => write!(text, " moment={moment}"),
        Event::Do { call, .. } => put_deadline(text, call),
        Event::Hangup { .. } => Ok(()),
    }
}

fn put_deadline(text: &mut String, call: &Call) -> Result<(), AllocError>
    ensures { OnOk result (string_bytes text.new ≡ string_bytes text.old ++ deadline_text (deadline_of call.now)) }
{
    match call {
        Call::MqTimedSend { deadline, .. }
        | Call::MqTimedReceive { deadline, .. }
        | Call::SemTimedWait { deadline, .. } => write!(text, " deadline={deadline}"),
        _ => Ok(()),
    }
}

/// A line of each of these answers that the session was given, in their order, by the place of the record that gave them.
pub fn texts_of_answers(
    alloc: Global,
    place: u64,
    given: &[(Sid, Answer)],
    session: Sid,
) -> Result<Vec<String>, NoMemory>
    ensures { IfOk result (λ texts. map string_bytes texts.items ≡ map (answer_text place) (for_session session.0 given.now)) }
{
    let mut texts = Vec::new(alloc);
    for answered in given {
        if answered.0 == session {
            texts.push(text_of_answer(alloc, place, &answered.1)?)?;
        }
    }
    Ok(texts)
}

fn text_of_answer(alloc: Global, place: u64, answer: &Answer) -> Result<String, NoMemory>
    ensures { IfOk result (λ text. string_bytes text ≡ answer_text place answer.now) }
{
    let mut text = format!(in alloc; "{place}:")?;
    put_line(&mut text, answer)?;
    Ok(text)
}

/// The line of an audit's answer, by the place of the record that gave it: how many lines it showed of the records before, and from
/// which place on. Its lines are left out.
pub fn text_of_page(alloc: Global, place: u64, start: u64, count: u16) -> Result<String, NoMemory>
    ensures { IfOk result (λ text. (h : History) → length h ≡ place → string_bytes text ≡ page_text place start (length (page start count (lines h)))) }
{
    let text = text_of_count(alloc, place, start, lines_shown(place, start, count))?;
    Ok(text)
}

/// How many lines an audit shows of so many records.
fn lines_shown(records: u64, start: u64, count: u16) -> u64
    ensures { result ≡ min (min count 1000) (records - start) }
{
    u64::from(count.min(LONGEST_PAGE)).min(records.saturating_sub(start))
}

fn text_of_count(alloc: Global, place: u64, start: u64, shown: u64) -> Result<String, AllocError>
    ensures { IfOk result (λ text. string_bytes text ≡ page_text place start shown) }
{
    let text = format!(in alloc; "{place}:records {shown} from {start}")?;
    Ok(text)
}
