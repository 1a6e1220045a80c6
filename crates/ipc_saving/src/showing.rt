//! The lines that are printed of a record: its own, or those of the answers that it gives a session.

use ipc_core::answers_of;
use ipc_history::{text_of, text_of_page, texts_of_answers};
use ipc_program::{Places, Replaying};
use ipc_state::State;
use ipc_terms::{Answer, Call, Event, NoMemory, Record, Sid};
use std::alloc::Global;

/// Of what lines are printed.
#[derive(Clone, Copy)]
pub enum Shown {
    /// Of the records from one place to another.
    Records(Places),
    /// Of the answers to a session.
    Answers(Sid),
}

/// Of what lines are asked for, if of anything.
pub fn shown_of(replaying: &Replaying) -> Option<Shown> {
    match (replaying.audit, replaying.answers) {
        (Some(places), _) => Some(Shown::Records(places)),
        (None, Some(session)) => Some(Shown::Answers(Sid(session))),
        (None, None) => None,
    }
}

/// The lines of the record of this place, which comes next in this state. They stand once it is stepped, if its rule is the verdict.
pub fn texts_of(
    alloc: Global,
    state: &State,
    place: u64,
    next: &Record,
    shown: Shown,
) -> Result<Vec<String>, NoMemory> {
    match shown {
        Shown::Records(places) => texts_of_record(alloc, place, next, places),
        Shown::Answers(session) => texts_for(alloc, state, place, next, session),
    }
}

/// The record's own line, if its place is one of these.
fn texts_of_record(
    alloc: Global,
    place: u64,
    next: &Record,
    places: Places,
) -> Result<Vec<String>, NoMemory> {
    if place < places.first || places.last < place {
        return Ok(Vec::new(alloc));
    }
    alone(alloc, text_of(alloc, place, next)?)
}

/// The lines of the answers that the record gives the session. The state has no record any more that an audit could show.
fn texts_for(
    alloc: Global,
    state: &State,
    place: u64,
    next: &Record,
    session: Sid,
) -> Result<Vec<String>, NoMemory> {
    if let Event::Do {
        sid,
        call: Call::Audit { start, count },
    } = &next.event
    {
        let Some(rule) = next.rule else {
            return texts_of_audit(alloc, place, *start, *count, *sid == session);
        };
        return texts_of_answers(alloc, place, &[(*sid, Answer::Refused(rule))], session);
    }
    let given = answers_of(state, alloc, &next.event)?;
    texts_of_answers(alloc, place, &given, session)
}

/// The line of an accepted audit, if it is the session's.
fn texts_of_audit(
    alloc: Global,
    place: u64,
    start: u64,
    count: u16,
    is_own: bool,
) -> Result<Vec<String>, NoMemory> {
    if !is_own {
        return Ok(Vec::new(alloc));
    }
    alone(alloc, text_of_page(alloc, place, start, count)?)
}

/// A list of one text.
fn alone(alloc: Global, text: String) -> Result<Vec<String>, NoMemory> {
    Ok(vec![in alloc; text]?)
}
