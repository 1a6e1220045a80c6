//! What an event asks for, in the policy's words. Where rules ask this of each event it is inlined, since most events ask for
//! nothing of the kind, and a call costs more than to see that.

ghost use Rattle.std.specs.Prelude.{◌≡◌};
ghost use Rattle.ipc_policy.specs.Decides.Names.{naming, opening, unlinking};
ghost use Rattle.ipc_policy.specs.Decides.Objects.{kind_of};
ghost use Rattle.ipc_policy.specs.Decides.Rules.{described};

use crate::config::Config;
use ipc_terms::{
    Access, Asked, Attributes, Call, Desc, Event, Family, Kind, Mode, Name, OpenFlags, Sid, Target,
};
use std::marker::Model;

/// Whose call it is, and the name of which family it names.
#[derive(Drop)]
pub struct Naming<'a> {
    pub session: Sid,
    pub family: Family,
    pub name: &'a Name,
}

impl<'a> Model for Naming<'a> {
    ghost use Rattle.ipc_policy.specs.Decides.Names.{Naming};

    ghost Value = { Naming };

    ghost view = { λ a. record { session = a.session; family = a.family; name = a.name.now } };
}

/// What an open asks for.
#[derive(Drop)]
pub struct Opening<'a> {
    pub session: Sid,
    pub family: Family,
    pub name: &'a Name,
    pub flags: OpenFlags,
    pub access: Access,
    pub mode: Mode,
    pub kind: Asked,
}

impl<'a> Model for Opening<'a> {
    ghost use Rattle.ipc_policy.specs.Decides.Names.{Opening};

    ghost Value = { Opening };

    ghost view = { λ a. record { session = a.session; family = a.family; name = a.name.now; flags = a.flags; access = a.access; mode = a.mode; kind = a.kind } };
}

/// The open that the event is, if it is one.
#[inline(always)]
pub fn opening_of(event: &Event) -> Option<Opening<'_>>
    ensures { result ≡ opening event.now }
{
    match event {
        Event::Do {
            sid,
            call: Call::MqOpen(asked),
        } => Some(Opening {
            session: *sid,
            family: Family::Mq,
            name: &asked.name,
            flags: asked.flags,
            access: asked.access,
            mode: asked.mode,
            kind: Asked::Queue(asked.attributes),
        }),
        Event::Do {
            sid,
            call: Call::SemOpen(asked),
        } => Some(Opening {
            session: *sid,
            family: Family::Sem,
            name: &asked.name,
            flags: asked.flags,
            access: Access::Both,
            mode: asked.mode,
            kind: Asked::Semaphore(asked.value),
        }),
        _ => None,
    }
}

/// What an unlink names, if the event is one.
#[inline(always)]
pub fn unlinking_of(event: &Event) -> Option<Naming<'_>>
    ensures { result ≡ unlinking event.now }
{
    let Event::Do { sid, call } = event else {
        return None;
    };
    let (family, name) = match call {
        Call::MqUnlink(name) => (Family::Mq, name),
        Call::SemUnlink(name) => (Family::Sem, name),
        _ => return None,
    };
    Some(Naming {
        session: *sid,
        family,
        name,
    })
}

/// What a named call names, if the event is one.
#[inline(always)]
pub fn naming_of(event: &Event) -> Option<Naming<'_>>
    ensures { result ≡ naming event.now }
{
    let Event::Do { sid, call } = event else {
        return None;
    };
    let (family, name) = match call {
        Call::MqOpen(asked) => (Family::Mq, &asked.name),
        Call::MqUnlink(name) => (Family::Mq, name),
        Call::SemOpen(asked) => (Family::Sem, &asked.name),
        Call::SemUnlink(name) => (Family::Sem, name),
        Call::StatName(target) | Call::Chmod { target, .. } | Call::Chown { target, .. } => {
            match target {
                Target::Name(family, name) => (*family, name),
                Target::Dir(_) => return None,
            }
        }
        _ => return None,
    };
    Some(Naming {
        session: *sid,
        family,
        name,
    })
}

/// The description that a call names, and the family of what it is to give.
#[derive(Clone, Copy)]
pub struct Described {
    pub family: Family,
    pub desc: Desc,
}

/// The description that a call names, if it names one.
#[inline(always)]
pub fn description_of(call: &Call) -> Option<Described>
    ensures { result ≡ described call.now }
{
    let (family, desc) = match call {
        Call::MqClose(desc)
        | Call::MqSend { desc, .. }
        | Call::MqReceive { desc, .. }
        | Call::MqTimedSend { desc, .. }
        | Call::MqTimedReceive { desc, .. }
        | Call::MqGetattr(desc)
        | Call::MqSetattr { desc, .. }
        | Call::MqNotify { desc, .. }
        | Call::MqGive { desc, .. } => (Family::Mq, *desc),
        Call::SemClose(desc)
        | Call::SemPost(desc)
        | Call::SemWait(desc)
        | Call::SemTryWait(desc)
        | Call::SemGetvalue(desc)
        | Call::SemTimedWait { desc, .. } => (Family::Sem, *desc),
        _ => return None,
    };
    Some(Described { family, desc })
}

/// What an open makes of what it asks for. A queue has the attributes that are given, else 10 messages
/// of 8,192 bytes, or fewer and shorter ones where the limits are lower.
pub fn kind_of(config: &Config, asked: Asked) -> Kind
    ensures { result ≡ kind_of config.now asked }
{
    match asked {
        Asked::Queue(Some(given)) => Kind::Queue(given),
        Asked::Queue(None) => Kind::Queue(Attributes {
            maxmsg: config.limits.msg_max.min(10),
            msgsize: config.limits.msgsize_max.min(8192),
        }),
        Asked::Semaphore(value) => Kind::Semaphore(value),
    }
}
