//! Names, calls and events that tests make.
#![tactic(auto)]

use ipc_terms::{
    Access, Bytes, Call, Desc, Event, Mode, Name, Names, NoMemory, OpenFlags, QueueOpen, Sid,
};
use std::alloc::Global;

/// A name of these bytes.
pub fn name(alloc: Global, text: &[u8]) -> Result<Name, NoMemory> {
    Ok(Name::new(Bytes::from_slice(alloc, text)?))
}

/// A list of these names.
pub fn names(alloc: Global, texts: &[&[u8]]) -> Result<Names, NoMemory> {
    let mut listed = Vec::new(alloc);
    for text in texts {
        listed.push(name(alloc, text)?)?;
    }
    Ok(Names::new(listed))
}

/// The names, one after the other.
pub fn joined(alloc: Global, names: &[Name]) -> Result<Vec<u8>, NoMemory> {
    let mut shown = Vec::new(alloc);
    for name in names {
        shown.extend_from_slice(name.as_slice())?;
    }
    Ok(shown)
}

/// A send to the queue of the description.
pub fn send(alloc: Global, desc: u64, priority: u32, bytes: &[u8]) -> Result<Call, NoMemory> {
    Ok(Call::MqSend {
        desc: Desc(desc),
        priority,
        bytes: Bytes::from_slice(alloc, bytes)?,
    })
}

/// One with a deadline.
pub fn timed_send(
    alloc: Global,
    desc: u64,
    priority: u32,
    deadline: u64,
    bytes: &[u8],
) -> Result<Call, NoMemory> {
    Ok(Call::MqTimedSend {
        desc: Desc(desc),
        priority,
        deadline,
        bytes: Bytes::from_slice(alloc, bytes)?,
    })
}

/// An open of a queue for both, without attributes.
pub fn open(alloc: Global, text: &[u8], flags: OpenFlags, mode: u16) -> Result<Call, NoMemory> {
    Ok(Call::MqOpen(QueueOpen {
        name: name(alloc, text)?,
        access: Access::Both,
        flags,
        mode: Mode(mode),
        attributes: None,
    }))
}

/// A receive with room for the longest message.
pub fn receive(desc: u64) -> Call {
    Call::MqReceive {
        desc: Desc(desc),
        length: 8192,
    }
}

/// The session's call.
pub fn act(session: u64, call: Call) -> Event {
    Event::Do {
        sid: Sid(session),
        call,
    }
}
