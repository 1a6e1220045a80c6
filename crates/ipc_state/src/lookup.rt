//! What an event meets: each table is asked once.

ghost use Rattle.std.specs.Prelude.{◌≡◌, ◌&&◌, false, is_some, None, option_and_then, IsTrue};
ghost use Rattle.std.specs.Option.{option_copied, option_map};
ghost use Rattle.ipc_terms.specs.Events.{caller};
ghost use Rattle.ipc_terms.specs.Timed.{plain, deadline};
ghost use Rattle.ipc_policy.specs.Decides.Sessions.{live, cred, mask};
ghost use Rattle.ipc_policy.specs.Decides.Names.{naming, is_bound};
ghost use Rattle.ipc_policy.specs.Decides.Objects.{facts, directory};
ghost use Rattle.ipc_policy.specs.Decides.Bodies.{due};
ghost use Rattle.ipc_policy.specs.Decides.Descriptions.{holds, is_nonblock};
ghost use Rattle.ipc_policy.specs.Decides.Parking.{parked};
ghost use Rattle.ipc_policy.specs.Decides.Registrations.{registered};
ghost use Rattle.ipc_policy.specs.Decides.Rules.{no_session, is_some_and, object_held, is_full, is_empty, is_zero, is_greatest, would_park};
ghost use Rattle.ipc_policy.specs.Decides.Timed.{now, is_past};
ghost use Rattle.ipc_policy.specs.Decides.Verdict.{verdict, Legal};
ghost use Rattle.ipc_state.specs.Agrees.{IsCore};
ghost use Rattle.ipc_state.specs.OnTime.{ended_call};
ghost use Rattle.ipc_state.specs.Meetings.{description, by_description, by_name, object_by, object_bound, queue_held, semaphore_held, facts_asked};

use crate::clock::{Clock, deadline_in, due_at};
use crate::rows::{
    facts_in, given_by, has_registration, has_value, held_in, is_empty_queue, is_full_queue,
    is_live_in, is_nonblock_in, is_parked_in, number_in, number_meant, object_at, object_in,
    queue_in, receiver_in, row_meant, semaphore_in, sender_in, user_in, waiter_in,
};
use crate::states::State;
use ipc_access::Cred;
use ipc_descr::Row;
use ipc_policy::{Config, Held, Registration};
use ipc_queue::Queue;
use ipc_sem::Sem;
use ipc_tables::{ObjectRow, Session, Tables};
use ipc_terms::{Call, Event, Facts, Family, Mode, Object, SEM_VALUE_MAX, Sid, Target};
use ipc_trail::Trail;
use std::marker::Model;

/// The objects that an event means, by their numbers.
#[derive(Clone, Copy)]
pub struct Meant {
    /// What the caller has by the description that the event names.
    pub held: Option<u64>,
    /// That to which the name is bound that the event names.
    pub bound: Option<u64>,
    /// The session whose parked call the event ends, if it is accepted.
    pub ended: Option<Sid>,
    /// Whether the event parks, if it is accepted.
    pub parks: bool,
}

/// An event, and what it meets in a state: who calls, what the description that it names gives, and to what the name that it
/// names is bound. No question takes memory.
#[derive(Drop)]
pub struct Lookup<'a> {
    config: &'a Config,
    trail: &'a Trail,
    tables: &'a Tables,
    clock: &'a Clock,
    event: &'a Event,
    session: Option<Session>,
    row: Option<&'a Row>,
    given: Option<&'a ObjectRow>,
    bound: Option<u64>,
    named: Option<&'a ObjectRow>,
}

impl<'a> Model for Lookup<'a> {
    ghost use Rattle.std.specs.Option.{option_copied};
    ghost use Rattle.ipc_state.specs.Meetings.{Meeting};
    ghost use Rattle.ipc_state.specs.Rows.{IsLookup};

    ghost Value = { Meeting };

    ghost view = { λ a. record { config = a.config.now; history = a.trail.now.history; event = a.event.now } };

    ghost invariant = { λ a. IsLookup a.config.now a.trail.now.history a.tables.now a.clock.now a.event.now a.session (option_copied a.row) (option_copied a.given) a.bound (option_copied a.named) };
}

impl<'a> Lookup<'a> {
    /// Looks up what the event meets.
    pub fn new(state: &'a State, event: &'a Event) -> Lookup<'a>
        ensures { result ≡ record { config = state.now.config; history = state.now.history; event = event.now } }
    {
        let (config, tables) = (state.config(), state.tables());
        let session = tables.session(event.caller());
        let row = row_meant(tables.descriptions(), event);
        let bound = number_meant(tables, event);
        Lookup {
            config,
            trail: state.trail(),
            tables,
            clock: state.clock(),
            event,
            session,
            row,
            given: given_by(tables, row),
            bound,
            named: object_at(tables, bound),
        }
    }

    pub fn event(&self) -> &'a Event
        ensures { result.now ≡ self.now.event }
    {
        self.event
    }

    pub fn config(&self) -> &'a Config
        ensures { result.now ≡ self.now.config }
    {
        self.config
    }

    /// Every event so far with its verdict.
    pub fn trail(&self) -> &'a Trail
        ensures { result.now.history ≡ self.now.history }
    {
        self.trail
    }

    /// The tables, which say the same as the history.
    pub(crate) fn tables(&self) -> &'a Tables
        ensures { IsCore self.now.config self.now.history result.now }
    {
        self.tables
    }

    /// Whether the caller is live.
    pub fn is_live(&self) -> bool
        ensures { result ≡ live self.now.history (caller self.now.event).0 }
    {
        is_live_in(self.session)
    }

    /// Whether the caller's call is parked.
    pub fn is_parked(&self) -> bool
        ensures { result ≡ is_some (parked self.now.config self.now.history (caller self.now.event).0) }
    {
        is_parked_in(self.session)
    }

    /// Who the caller's user is, where a call or a hang-up is one of a session that is live.
    pub fn cred(&self) -> Option<&'a Cred>
        requires { no_session self.now.config self.now.history self.now.event ≡ false }
        ensures { option_copied result ≡ cred self.now.config self.now.history (caller self.now.event).0 }
    {
        user_in(self.config, self.session)
    }

    /// The mask of the caller, which is live.
    pub fn mask(&self) -> Mode
        requires { IsTrue (live self.now.history (caller self.now.event).0) }
        ensures { result ≡ record { 0 = mask self.now.history (caller self.now.event).0 } }
    {
        let Some(session) = self.session else {
            unreachable!();
        };
        session.mask
    }

    /// Whether the session is live.
    pub fn is_session_live(&self, sid: Sid) -> bool
        ensures { result ≡ live self.now.history sid.0 }
    {
        is_live_in(self.tables.session(sid))
    }

    /// The objects that the event means, by their numbers, and what it does to the parked calls.
    pub fn meant(&self) -> Meant
        ensures held { result.held ≡ by_description (object_by self.now.history) self.now.event }
        ensures bound { result.bound ≡ by_name (object_bound self.now.history) self.now.event }
        ensures ended { verdict self.now.config self.now.history self.now.event ≡ None → option_map (λ s. s.0) result.ended ≡ ended_call self.now.config self.now.history (plain self.now.event) }
        ensures parks { result.parks ≡ would_park self.now.config self.now.history (plain self.now.event) }
    {
        Meant {
            held: number_in(self.row),
            bound: self.bound,
            ended: self.ended(),
            parks: self.would_park(),
        }
    }

    /// Whether the event has a deadline, and the time has reached it.
    pub fn is_past(&self) -> bool
        ensures { result ≡ is_past (now self.now.history) (deadline self.now.event) }
    {
        match deadline_in(self.event) {
            Some(deadline) => deadline <= self.clock.time,
            None => false,
        }
    }

    /// Whether the event, without its deadline, parks, if it is accepted.
    pub fn would_park(&self) -> bool
        ensures { result ≡ would_park self.now.config self.now.history (plain self.now.event) }
    {
        let Event::Do { call, .. } = self.event else {
            return false;
        };
        match call {
            Call::MqSend { .. } => self.is_full(),
            Call::MqReceive { .. } => self.is_empty(),
            Call::SemWait(_) => self.is_zero(),
            Call::MqTimedSend { .. } => self.is_full(),
            Call::MqTimedReceive { .. } => self.is_empty(),
            Call::SemTimedWait { .. } => self.is_zero(),
            _ => false,
        }
    }

    /// The session whose call a tick of this moment ends, if there is one.
    pub fn due(&self, moment: u64) -> Option<Sid>
        ensures { option_map (λ s. s.0) result ≡ due self.now.config self.now.history moment }
    {
        due_at(self.clock, moment)
    }

    /// The session whose parked call the event ends, if it is accepted.
    pub fn ended(&self) -> Option<Sid>
        ensures { verdict self.now.config self.now.history self.now.event ≡ None → option_map (λ s. s.0) result ≡ ended_call self.now.config self.now.history (plain self.now.event) }
    {
        match self.event {
            Event::Hello { .. } => None,
            Event::Do { sid, call } => match call {
                Call::MqSend { .. } => receiver_in(self.queue()),
                Call::MqReceive { .. } => sender_in(self.queue()),
                Call::MqTimedSend { .. } => receiver_in(self.queue()),
                Call::MqTimedReceive { .. } => sender_in(self.queue()),
                Call::SemPost(_) => waiter_in(self.semaphore()),
                Call::Interrupt => Some(*sid),
                _ => None,
            },
            Event::Hangup { sid } => Some(*sid),
            Event::Tick { moment } => due_at(self.clock, *moment),
        }
    }

    /// What the caller holds by the description that the event names.
    pub fn held(&self) -> Option<Held>
        ensures { result ≡ by_description (holds self.now.history) self.now.event }
    {
        held_in(self.row)
    }

    /// The object that the caller has by the description that the event names.
    pub fn object_held(&self) -> Option<Object>
        ensures { result ≡ by_description (object_held self.now.config self.now.history) self.now.event }
    {
        object_in(self.given)
    }

    /// Whether the name that the event names is bound.
    pub fn is_bound(&self) -> bool
        ensures { result ≡ is_some_and (λ x. is_bound self.now.history x.family x.name) (naming self.now.event) }
    {
        self.bound.is_some()
    }

    /// The owner, group and mode of the object to which the name is bound that the event names.
    pub fn facts_bound(&self) -> Option<Facts>
        ensures { result ≡ by_name (λ x. option_and_then (facts self.now.config self.now.history) (object_bound self.now.history x)) self.now.event }
    {
        facts_in(self.named)
    }

    /// Whether the caller holds the description that the event names, and calls by it are refused where they would park.
    pub fn is_nonblock(&self) -> bool
        ensures { result ≡ (is_some (by_description (holds self.now.history) self.now.event) && is_some_and (λ x. is_nonblock self.now.history x.desc.0) (description self.now.event)) }
    {
        is_nonblock_in(self.row)
    }

    /// The queue that the caller has by the description that the event names.
    pub fn queue(&self) -> Option<&'a Queue>
        ensures { option_copied result ≡ by_description (queue_held self.now.config self.now.history) self.now.event }
    {
        queue_in(self.given)
    }

    /// The semaphore that the caller has by the description that the event names, in a history that is legal.
    pub fn semaphore(&self) -> Option<&'a Sem>
        ensures legal { Legal self.now.config self.now.history }
        ensures found { option_copied result ≡ by_description (semaphore_held self.now.config self.now.history) self.now.event }
    {
        semaphore_in(self.given)
    }

    /// Whether the description's queue has as many messages as it may.
    pub fn is_full(&self) -> bool
        ensures { result ≡ is_some_and (λ x. is_full self.now.config self.now.history x.object) (by_description (holds self.now.history) self.now.event) }
    {
        is_full_queue(self.queue())
    }

    /// Whether the description's queue has no messages.
    pub fn is_empty(&self) -> bool
        ensures { result ≡ is_some_and (λ x. is_empty self.now.config self.now.history x.object) (by_description (holds self.now.history) self.now.event) }
    {
        is_empty_queue(self.queue())
    }

    /// Whether one is registered for the notice of the description's queue.
    pub fn is_registered(&self) -> bool
        ensures { result ≡ is_some_and (λ x. is_some (registered self.now.config self.now.history x.object)) (by_description (holds self.now.history) self.now.event) }
    {
        has_registration(queue_in(self.given))
    }

    /// Which session, by which description, is registered for the notice of the queue that the event's description gives.
    pub fn registration(&self) -> Option<Registration>
        ensures { result ≡ option_and_then (λ x. registered self.now.config self.now.history x.object) (by_description (holds self.now.history) self.now.event) }
    {
        let desc = queue_in(self.given)?.registered()?;
        let session = self.tables.descriptions().holder(desc)?;
        Some(Registration { session, desc })
    }

    /// Whether the value of the description's semaphore is 0.
    pub fn is_zero(&self) -> bool
        ensures { result ≡ is_some_and (λ x. is_zero self.now.config self.now.history x.object) (by_description (holds self.now.history) self.now.event) }
    {
        has_value(semaphore_in(self.given), 0)
    }

    /// Whether the value of the description's semaphore is the greatest.
    pub fn is_greatest(&self) -> bool
        ensures { result ≡ is_some_and (λ x. is_greatest self.now.config self.now.history x.object) (by_description (holds self.now.history) self.now.event) }
    {
        has_value(semaphore_in(self.given), SEM_VALUE_MAX)
    }

    /// The owner, group and mode of the directory itself, or of the object to which the name is bound that the event names.
    pub fn facts_asked(&self, target: &Target) -> Option<Facts>
        ensures { result ≡ facts_asked self.now target.now }
    {
        match target {
            Target::Dir(family) => Some(self.directory(*family)),
            Target::Name(..) => self.facts_bound(),
        }
    }

    /// The owner, group and mode of the family's directory.
    pub fn directory(&self, family: Family) -> Facts
        ensures { result ≡ directory self.now.history family }
    {
        self.tables.names(family).facts()
    }
}
