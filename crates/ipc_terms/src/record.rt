//! What happens, and what is recorded of it.

ghost use Rattle.std.specs.Prelude.{◌≡◌, IfOk};
ghost use Rattle.std.specs.Option.{option_copied};
ghost use Rattle.ipc_terms.specs.Events.{caller};
ghost use Rattle.ipc_terms.specs.Lines.{event_op, event_name};

use crate::call::Call;
use crate::errors::NoMemory;
use crate::ids::{Sid, Uid};
use crate::name::Name;
use crate::op::{HANG_UP_NUMBER, HELLO_NUMBER, TICK_NUMBER};
use crate::rule::Rule;

/// One step of the server.
#[derive(Clone, Drop)]
pub enum Event {
    /// Somebody came with a key. The user whose key it is was found, or none was.
    Hello { found: Option<Uid> },
    /// A session made a call.
    Do { sid: Sid, call: Call },
    /// A session hung up. It has no answer if it is accepted.
    Hangup { sid: Sid },
    /// The clock tells a moment, in milliseconds. The earliest parked call whose deadline has passed ends.
    Tick { moment: u64 },
}

impl Event {
    /// An equal event.
    pub fn copy(&self) -> Result<Event, NoMemory>
        ensures { IfOk result (λ copy. copy ≡ self.now) }
    {
        Ok(self.clone()?)
    }

    /// The session that the event names; a hello and a tick name nobody.
    pub fn caller(&self) -> Sid
        ensures { result ≡ caller self.now }
    {
        match self {
            Event::Hello { .. } | Event::Tick { .. } => Sid::NOBODY,
            Event::Do { sid, .. } | Event::Hangup { sid } => *sid,
        }
    }

    /// The number of the call, or that of a hello, a hang-up or a tick.
    pub fn op(&self) -> u8
        ensures { result ≡ event_op self.now }
    {
        match self {
            Event::Hello { .. } => HELLO_NUMBER,
            Event::Do { call, .. } => call.op().number(),
            Event::Hangup { .. } => HANG_UP_NUMBER,
            Event::Tick { .. } => TICK_NUMBER,
        }
    }

    /// The name that the call names, if it names one.
    pub fn name(&self) -> Option<&Name>
        ensures { option_copied result ≡ event_name self.now }
    {
        match self {
            Event::Do { call, .. } => call.name(),
            _ => None,
        }
    }
}

/// An event, and the rule that refused it; with no rule it was accepted.
#[derive(Drop)]
pub struct Record {
    pub event: Event,
    pub rule: Option<Rule>,
}
