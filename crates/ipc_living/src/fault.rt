//! Why a trail isn't retold, or two trails aren't compared.

use ipc_fields::WriteFault;
use ipc_replay::ReplayFault;
use ipc_state::Field;
use ipc_terms::{Family, Name, NoMemory, Rule, Uid};
use std::alloc::{AllocError, AllocFailed};
use std::{fmt, str};

/// Of what a part of the short history tells.
#[derive(Drop)]
pub enum Subject {
    /// The object of this name and this creator.
    Object(Family, Name, Uid),
    /// The messages that this user sent to the queue of this name.
    Messages(Name, Uid),
    /// The family's directory.
    Directory(Family),
    /// The limit of this user.
    Limit(Uid),
    /// The time, and the ends of the sessions.
    End,
}

/// Why no short history is written, or it isn't that of a trail.
#[derive(Drop)]
pub enum CompactFault {
    /// A limit is out of its range.
    Config(Field),
    /// The rule forbids an event of the short history that tells of this.
    Refused(Subject, Rule),
    /// There is no such user, and this can't be told without one.
    NoUser(Subject),
    /// Nobody knows who sent the message whose send stands at this place in the trail.
    Unknown(u64),
    /// Something else lives behind the short history.
    Differs,
    /// The short history is that of other files.
    OtherFiles,
    /// It couldn't be written.
    Write,
    /// A growth was refused.
    NoMemory,
}

impl fmt::Display for Subject {
    fn fmt<W: fmt::Write>(&self, f: &mut fmt::Formatter<W>) -> fmt::Result {
        match self {
            Subject::Object(family, name, Uid(creator)) => {
                let (kind, name) = (kind_of(*family), text_of(name));
                write!(f, "{kind} {name} of {creator}")
            }
            Subject::Messages(name, Uid(sender)) => {
                let name = text_of(name);
                write!(f, "messages of {sender} in {name}")
            }
            Subject::Directory(family) => {
                let kind = kind_of(*family);
                write!(f, "directory of {kind}s")
            }
            Subject::Limit(Uid(user)) => write!(f, "limit of {user}"),
            Subject::End => f.write_str("end"),
        }
    }
}

fn kind_of(family: Family) -> &'static str {
    match family {
        Family::Mq => "queue",
        Family::Sem => "semaphore",
    }
}

/// A name that can be printed.
fn text_of(name: &Name) -> &str {
    match str::from_utf8(name.as_slice()) {
        Ok(text) => text,
        Err(_) => "(a name that isn't UTF-8)",
    }
}

impl fmt::Display for CompactFault {
    fn fmt<W: fmt::Write>(&self, f: &mut fmt::Formatter<W>) -> fmt::Result {
        match self {
            CompactFault::Config(field) => write!(f, "config {field}"),
            CompactFault::Refused(subject, rule) => {
                let (number, error, name) = (rule.number(), rule.errno(), rule.name());
                write!(f, "{subject}: refused {number} {error} {name}")
            }
            CompactFault::NoUser(subject) => write!(f, "{subject}: no such user"),
            CompactFault::Unknown(place) => write!(f, "sender of record {place} unknown"),
            CompactFault::Differs => f.write_str("differs"),
            CompactFault::OtherFiles => f.write_str("of other files"),
            CompactFault::Write => f.write_str("write"),
            CompactFault::NoMemory => f.write_str("memory"),
        }
    }
}

// A `Rule` has no `Debug`.
impl fmt::Debug for CompactFault {
    fn fmt<W: fmt::Write>(&self, f: &mut fmt::Formatter<W>) -> fmt::Result {
        fmt::Display::fmt(self, f)
    }
}

impl From<NoMemory> for CompactFault {
    fn from(_fault: NoMemory) -> Self {
        CompactFault::NoMemory
    }
}

impl From<AllocError> for CompactFault {
    fn from(_fault: AllocError) -> Self {
        CompactFault::NoMemory
    }
}

impl<T: Drop> From<AllocFailed<T>> for CompactFault {
    fn from(_fault: AllocFailed<T>) -> Self {
        CompactFault::NoMemory
    }
}

/// No verdict differs: each event is decided before it is stepped.
impl From<ReplayFault> for CompactFault {
    fn from(fault: ReplayFault) -> Self {
        match fault {
            ReplayFault::BadConfig(field) => CompactFault::Config(field),
            ReplayFault::Differs(_) | ReplayFault::NoMemory => CompactFault::NoMemory,
        }
    }
}

/// Memory alone is left: each call of the short history has a frame.
impl From<WriteFault> for CompactFault {
    fn from(_fault: WriteFault) -> Self {
        CompactFault::NoMemory
    }
}
