//! Calls on several connections of a hub, and what each answers.

use crate::files::{first_difference, read};
use crate::streams::answers::{Call, line_of};
use crate::streams::common::{bytes_of, new_hub};
use anyhow::Result;
use ipc_hub::{Conn, Hub};
use std::alloc::{AllocError, Global};
use std::rt::Files;

fn open_line(alloc: Global, hub: &mut Hub) -> Result<String, AllocError> {
    match hub.open(alloc) {
        Ok(conn) => format!(in alloc; "open Ok({})\n", conn.0),
        Err(fault) => format!(in alloc; "open Err({fault:?})\n"),
    }
}

fn next_line(alloc: Global, hub: &mut Hub) -> Result<String, AllocError> {
    match hub.next_answered() {
        Some(conn) => format!(in alloc; "next {}\n", conn.0),
        None => String::from_str(alloc, "next none\n"),
    }
}

fn least_line(alloc: Global, hub: &Hub) -> Result<String, AllocError> {
    match hub.least_deadline() {
        Some(deadline) => format!(in alloc; "least {deadline}\n"),
        None => String::from_str(alloc, "least none\n"),
    }
}

fn started_line(alloc: Global, hub: &Hub, place: u64) -> Result<String, AllocError> {
    match hub.started_at(place as usize) {
        Some(user) => format!(in alloc; "started {}\n", user.0),
        None => String::from_str(alloc, "started none\n"),
    }
}

fn session_line(alloc: Global, hub: &Hub, conn: Conn) -> Result<String, AllocError> {
    let answer = hub.has_session(conn);
    format!(in alloc; "session {answer:?}\n")
}

fn discard_line(alloc: Global, hub: &mut Hub, conn: Conn) -> Result<String, AllocError> {
    let answer = hub.discard(conn);
    format!(in alloc; "discard {answer:?}\n")
}

/// The frames that are taken behind two bytes, which stay where there is no such connection.
fn taken_behind(alloc: Global, hub: &mut Hub, conn: Conn) -> Result<String> {
    let mut bytes = Vec::from_slice(alloc, b"\xab\xcd")?;
    let answer = hub.take_into(conn, &mut bytes);
    Ok(format!(in alloc; "take_into {answer:?} {}\n", hex::encode(alloc, bytes)?)?)
}

/// What is fed as long as fewer answers are untaken than the words in front say.
fn fed_some(alloc: Global, hub: &mut Hub, conn: Conn, words: &str) -> Result<String> {
    let (most, digits) = words.split_once(' ').unwrap_or((words, ""));
    let piece = bytes_of(alloc, digits)?;
    let call = Call::FeedSome(&piece, most.parse::<usize>()?);
    Ok(line_of(alloc, hub, conn, call)?)
}

/// The answer to a line: `open`, `next`, `least`, or a call and what it is made with.
fn answer_to(alloc: Global, hub: &mut Hub, line: &str) -> Result<String> {
    let (call, rest) = line.split_once(' ').unwrap_or((line, ""));
    match call {
        "open" => Ok(open_line(alloc, hub)?),
        "next" => Ok(next_line(alloc, hub)?),
        "least" => Ok(least_line(alloc, hub)?),
        _ => answer_with(alloc, hub, call, rest),
    }
}

/// The answer to `feed`, `feed_some`, `hang_up`, `take`, `take_into`, `discard`, `look` or `session` with a connection's number,
/// and the digits of what is fed, to `tick` or `due` with a moment, or to `started` with a place of the trail.
fn answer_with(alloc: Global, hub: &mut Hub, call: &str, rest: &str) -> Result<String> {
    let (number, digits) = rest.split_once(' ').unwrap_or((rest, ""));
    let number = number.parse::<u64>()?;
    let conn = Conn(number);
    let answer = match call {
        "feed" => {
            let piece = bytes_of(alloc, digits)?;
            line_of(alloc, hub, conn, Call::Feed(&piece))
        }
        "feed_some" => return fed_some(alloc, hub, conn, digits),
        "take_into" => return taken_behind(alloc, hub, conn),
        "look" => line_of(alloc, hub, conn, Call::Look),
        "session" => session_line(alloc, hub, conn),
        "discard" => discard_line(alloc, hub, conn),
        "started" => started_line(alloc, hub, number),
        "due" => format!(in alloc; "due {}\n", hub.due(number)),
        "hang_up" => line_of(alloc, hub, conn, Call::HangUp),
        "tick" => line_of(alloc, hub, conn, Call::Tick(number)),
        "take" => line_of(alloc, hub, conn, Call::Take),
        _ => format!(in alloc; "{call} is no call\n"),
    };
    Ok(answer?)
}

/// The answers to the calls, a line each.
fn answers_of_calls(alloc: Global, hub: &mut Hub, calls: &str) -> Result<String> {
    let mut given = String::new(alloc);
    for line in calls.lines() {
        given.push_str(answer_to(alloc, hub, line)?.as_str())?;
    }
    Ok(given)
}

/// The same of a new hub, which is dropped at one exit.
fn answers_to(alloc: Global, calls: &str) -> Result<String> {
    let mut hub = new_hub(alloc)?;
    let given = answers_of_calls(alloc, &mut hub, calls);
    drop(hub);
    given
}

/// Whether the calls of this name are answered as they must be, and else where they first aren't.
pub fn judge(rt: &(impl Files + AllocGlobal), name: &str) -> Result<String> {
    let alloc = rt.alloc();
    let calls = read(rt, name, "calls")?;
    let wanted = read(rt, name, "out")?;
    let given = answers_to(alloc, calls.as_str())?;
    match first_difference(alloc, given.as_str(), wanted.as_str())? {
        Some(difference) => Ok(difference),
        None => Ok(String::from_str(alloc, "as written")?),
    }
}
