//! Names, calls and configurations that cases make, and the texts of answers.

use crate::fault::Fault;
use ipc_access::Users;
use ipc_core::{Config, Limits};
use ipc_lines::words_of;
use ipc_terms::{Answer, Bytes, Call, Event, Name, NoMemory, Sid};
use ipc_words::{call_of_words, put_line};
use std::alloc::Global;

/// The users of cores, hubs and books.
pub const USERS: &[u8] = b"root:r00t:0:0::\nann:ka1:1000:1000:50:\nbob:kb1:1001:1001:50,51:\n";

pub fn name(alloc: Global, text: &[u8]) -> Result<Name, NoMemory> {
    Ok(Name::new(Bytes::from_slice(alloc, text)?))
}

/// The call that a command means.
pub fn call(alloc: Global, command: &str) -> Result<Call, Fault> {
    Ok(call_of_words(alloc, &words_of(alloc, command)?)?)
}

/// The session's call.
pub fn act(alloc: Global, session: u64, command: &str) -> Result<Event, Fault> {
    Ok(Event::Do {
        sid: Sid(session),
        call: call(alloc, command)?,
    })
}

/// The users, and the standard limits.
pub fn config(alloc: Global) -> Result<Config, Fault> {
    Ok(Config {
        users: Users::read(alloc, USERS)?,
        limits: Limits::STANDARD,
    })
}

/// Adds the lines of the answers.
pub fn put_lines(text: &mut String, answers: &[Answer]) -> Result<(), Fault> {
    for answer in answers {
        put_line(text, answer)?;
        text.push_str("\n")?;
    }
    Ok(())
}

/// Whether these are the lines of the answers, which were given: so the case begins anew where there is no memory
/// to compare them.
pub fn are_lines(alloc: Global, answers: &[Answer], lines: &str) -> Result<bool, Fault> {
    let mut text = String::new(alloc);
    match put_lines(&mut text, answers) {
        Ok(()) => Ok(text.as_str() == lines),
        Err(fault) => Err(fault.of_case()),
    }
}
