//! Whether commands, files and answers are read, written and copied as they must be.

use crate::fault::Fault;
use crate::made::{act, call};
use ipc_access::{UserFault, Users};
use ipc_client::frame_of_words;
use ipc_lines::words_of;
use ipc_terms::{Event, Sid};
use ipc_wire::{Request, read_answer, write_request};
use ipc_words::{WordFault, line_of_answer, put_fault};
use std::alloc::Global;

/// The frame of a call of session 3.
fn frame_of_event(alloc: Global, event: Event) -> Result<Vec<u8>, Fault> {
    match event {
        Event::Do { sid: Sid(3), call } => Ok(write_request(alloc, &Request::Do(call))?),
        _ => Err(Fault::Otherwise),
    }
}

/// Whether the copy of an event of the command's call is the same.
pub fn is_copied(alloc: Global, command: &str) -> Result<bool, Fault> {
    let event = act(alloc, 3, command)?;
    let copy = event.copy()?;
    Ok(frame_of_event(alloc, copy)?.as_slice() == frame_of_event(alloc, event)?.as_slice())
}

/// Whether each user is found by a key, and no other is.
fn are_found(users: &Users) -> bool {
    let mut all = true;
    for user in users.as_slice() {
        all = all && users.find(user.key.as_slice()) == Some(user.cred.uid);
    }
    all && users.find(b"zz") == None
}

/// Whether the file has so many users, or this first fault.
pub fn reads(alloc: Global, file: &[u8], wanted: Result<usize, UserFault>) -> Result<bool, Fault> {
    match Users::read(alloc, file) {
        Ok(users) => Ok(wanted == Ok(users.as_slice().len()) && are_found(&users)),
        Err(UserFault::NoMemory) => Err(Fault::Refused),
        Err(fault) => Ok(wanted == Err(fault)),
    }
}

/// Whether this is the frame of the command's request.
pub fn is_framed(alloc: Global, command: &str, wanted: &[u8]) -> Result<bool, Fault> {
    let written = write_request(alloc, &Request::Do(call(alloc, command)?))?;
    let given = frame_of_words(alloc, &words_of(alloc, command)?)?;
    Ok(written.as_slice() == wanted && given.as_slice() == wanted)
}

/// Whether this is the line of the command's fault.
pub fn is_at_fault(alloc: Global, command: &str, wanted: &str) -> Result<bool, Fault> {
    let fault = match frame_of_words(alloc, &words_of(alloc, command)?) {
        Ok(_) => return Ok(false),
        Err(WordFault::NoMemory) => return Err(Fault::Refused),
        Err(fault) => fault,
    };
    let mut line = String::new(alloc);
    put_fault(&mut line, &fault)?;
    Ok(line.as_str() == wanted)
}

/// Whether this is the line of the answer with this frame.
pub fn is_line(alloc: Global, frame: &[u8], wanted: &str) -> Result<bool, Fault> {
    match read_answer(alloc, frame)? {
        Some((answer, _length)) => Ok(line_of_answer(alloc, &answer)?.as_str() == wanted),
        None => Ok(false),
    }
}
