//! The timed calls of a server, by place and by session.

ghost use Rattle.std.specs.Prelude.{◌≡◌, [], ◌∷◌, ◌++◌, find, IfSome, IfNone, OnOk, OnErr};
ghost use Rattle.std.specs.Option.{option_map};
ghost use Rattle.ipc_containers.specs.Calls.{is_over, AllBelow, IsLeast};
ghost use Rattle.ipc_containers.specs.Sessions.{without_session, NoneOf};

use crate::deadlines::Deadlines;
use crate::timed::Timed;
use ipc_terms::{NoMemory, Sid};
use std::alloc::Global;
use std::collections::BTreeMap;
use std::marker::Model;

/// The parked calls that wait no longer than to their deadlines, in the order of their places. A session has one call at
/// most.
#[derive(Drop)]
pub struct TimedCalls {
    deadlines: Deadlines,
    /// The place of each session's call, by the session's number.
    places: BTreeMap<u64, u64>,
}

impl Model for TimedCalls {
    ghost use Rattle.std.specs.Prelude.{List};
    ghost use Rattle.std.specs.Ordering.{nat_cmp};
    ghost use Rattle.std.specs.BTreeMap.{get};
    ghost use Rattle.ipc_containers.specs.declared.timed.Timed.{Timed};
    ghost use Rattle.ipc_containers.specs.Sessions.{IsKept};

    ghost Value = { List Timed };

    ghost view = { λ a. a.deadlines };

    ghost invariant = { λ a. IsKept (get nat_cmp a.places) a.deadlines };
}

impl TimedCalls {
    /// No calls. Takes no memory.
    pub fn new(alloc: Global) -> TimedCalls
        ensures { result ≡ [] }
    {
        TimedCalls {
            deadlines: Deadlines::new(),
            places: BTreeMap::new(alloc),
        }
    }

    /// A call comes, of a session that has none, whose place is behind all others. An `Err` changes nothing.
    pub fn push(&mut self, alloc: Global, call: Timed) -> Result<(), NoMemory>
        requires behind { AllBelow call.place self.old }
        requires free { NoneOf call.session.0 self.old }
        ensures ok { OnOk result (self.new ≡ self.old ++ call ∷ []) }
        ensures err { OnErr result (self.new ≡ self.old) }
    {
        self.places.insert(call.session.0, call.place)?;
        if let Err(refused) = self.deadlines.push(alloc, call) {
            self.places.remove(&call.session.0);
            return Err(refused);
        }
        Ok(())
    }

    /// The session's call goes, if it has one. Takes no memory.
    pub fn end(&mut self, sid: Sid)
        ensures { self.new ≡ without_session sid.0 self.old }
    {
        if let Some(place) = self.places.remove(&sid.0) {
            self.deadlines.remove(place);
        }
    }

    /// The session of the earliest call whose deadline is at most the moment, if there is one. Takes no memory.
    pub fn due(&self, moment: u64) -> Option<Sid>
        ensures { result ≡ option_map (λ t. t.session) (find (is_over moment) self.now) }
    {
        self.deadlines.due(moment)
    }

    /// The least deadline, if there is a call. Takes no memory.
    pub fn least(&self) -> Option<u64>
        ensures some { IfSome result (λ least. IsLeast least self.now) }
        ensures none { IfNone result (self.now ≡ []) }
    {
        self.deadlines.least()
    }
}
