//! The state of a server: what happened so far, and the tables that say the same.

ghost use Rattle.std.specs.Prelude.{◌≡◌, ◌+◌, ◌^◌, ◌<◌, ◌∷◌, min, length, None, [], IfOk, OnOk, OnErr};
ghost use Rattle.std.specs.Option.{option_map};
ghost use Rattle.ipc_terms.specs.Timed.{plain};
ghost use Rattle.ipc_policy.specs.Decides.Bodies.{due};
ghost use Rattle.ipc_policy.specs.Decides.Rules.{would_park};
ghost use Rattle.ipc_policy.specs.Decides.Sessions.{live};
ghost use Rattle.ipc_policy.specs.Decides.Timed.{now};
ghost use Rattle.ipc_policy.specs.Decides.Verdict.{verdict, Legal};
ghost use Rattle.ipc_state.specs.Ranges.{first_bad};
ghost use Rattle.ipc_state.specs.StateView.{with_event};
ghost use Rattle.ipc_state.specs.Agrees.{IsCore};
ghost use Rattle.ipc_state.specs.Meetings.{by_description, by_name, object_by, object_bound};
ghost use Rattle.ipc_state.specs.NextDeadline.{IsNextDeadline, EndsOncePast};
ghost use Rattle.ipc_state.specs.OnTime.{ended_call, IsOnTime, IsState};

use crate::accept::accept;
use crate::clock::{Clock, due_at, leave, push, session_in, tell, timed_call};
use crate::lookup::Meant;
use crate::rows::is_live_in;
use ipc_containers::TimedCalls;
use ipc_policy::Config;
use ipc_tables::Tables;
use ipc_terms::{Event, NoMemory, Record, Rule, Sid};
use ipc_trail::Trail;
use std::alloc::Global;
use std::marker::Model;

/// The configuration, every event so far with its verdict, and the tables, which say the same so
/// that nobody need look back over the trail.
pub struct State {
    config: Config,
    trail: Trail,
    tables: Tables,
    clock: Clock,
}

// A derived `drop` is written out, and proved anew, at each exit of each function that has a state; this one is called.
impl Drop for State {
    fn drop(self) {
        let State {
            config: _config,
            trail: _trail,
            tables: _tables,
            clock: _clock,
        } = self;
    }
}

impl Model for State {
    ghost use Rattle.ipc_state.specs.StateView.{StateView};

    ghost Value = { StateView };

    ghost use Rattle.ipc_state.specs.OnTime.{IsState};

    ghost view = { λ a. record { config = a.config; history = a.trail.history; first = a.trail.first } };

    ghost invariant = { λ a. IsState a.config a.trail.history a.tables a.clock };
}

impl State {
    /// A state in which nothing has happened. An `Err` drops the configuration.
    pub fn new(alloc: Global, config: Config) -> Result<State, NoMemory>
        requires { first_bad config.limits ≡ None }
        ensures { IfOk result (λ state. state ≡ record { config = config; history = []; first = 0 }) }
    {
        let tables = Tables::new(alloc, &config.users)?;
        Ok(State {
            config,
            trail: Trail::new(alloc),
            tables,
            clock: Clock {
                time: 0,
                calls: TimedCalls::new(alloc),
            },
        })
    }

    /// The trail is legal, and the limits are in their ranges. Does nothing; facts of every state.
    pub fn is_legal(&self)
        ensures legal { Legal self.now.config self.now.history }
        ensures in_range { first_bad self.now.config.limits ≡ None }
    {
        let _config = &self.config;
    }

    /// Every event so far with its verdict, but for the records that were forgotten.
    #[inline(always)]
    pub fn trail(&self) -> &Trail
        ensures history { result.now.history ≡ self.now.history }
        ensures first { result.now.first ≡ self.now.first }
    {
        &self.trail
    }

    /// Forgets the oldest record that it has, if it has one. The history stays what it was, and so does all that
    /// the tables say. Takes no memory.
    #[inline(always)]
    pub fn forget_one(&mut self)
        ensures { self.new ≡ record self.old { first = min (self.old.first + 1) (length self.old.history) } }
    {
        self.trail.forget_one();
    }

    /// The configuration that the state was made with.
    pub fn config(&self) -> &Config
        ensures { result.now ≡ self.now.config }
    {
        &self.config
    }

    /// The tables, which say the same as the history.
    pub fn tables(&self) -> &Tables
        ensures { IsCore self.now.config self.now.history result.now }
    {
        &self.tables
    }

    /// The clock, which says the same as the history.
    pub(crate) fn clock(&self) -> &Clock
        ensures { IsOnTime self.now.config self.now.history result.now }
    {
        &self.clock
    }

    /// The time: the greatest moment of the accepted ticks, and 0 before them.
    pub fn time(&self) -> u64
        ensures { result ≡ now self.now.history }
    {
        self.clock.time
    }

    /// The session whose call a tick of this moment ends, if there is one.
    pub fn due(&self, moment: u64) -> Option<Sid>
        ensures { option_map (λ s. s.0) result ≡ due self.now.config self.now.history moment }
    {
        due_at(&self.clock, moment)
    }

    /// The least deadline of the calls that are parked, if one of them has one. A tick ends a call exactly where it is past.
    pub fn least_deadline(&self) -> Option<u64>
        ensures least { IsNextDeadline self.now.config self.now.history result }
        ensures due { EndsOncePast self.now.config self.now.history result }
    {
        self.clock.calls.least()
    }

    /// Whether the session is live.
    pub fn is_live(&self, sid: Sid) -> bool
        ensures { result ≡ live self.now.history sid.0 }
    {
        is_live_in(self.tables.session(sid))
    }

    /// Records the event with its verdict, and does what is accepted to the objects that it means. An
    /// `Err` changes nothing, and drops the event.
    #[inline(always)]
    pub fn add(
        &mut self,
        alloc: Global,
        event: Event,
        rule: Option<Rule>,
        meant: Meant,
    ) -> Result<(), NoMemory>
        requires verdict { rule ≡ verdict self.old.config self.old.history event }
        requires held { meant.held ≡ by_description (object_by self.old.history) event }
        requires bound { meant.bound ≡ by_name (object_bound self.old.history) event }
        requires ended { verdict self.old.config self.old.history event ≡ None → option_map (λ s. s.0) meant.ended ≡ ended_call self.old.config self.old.history (plain event) }
        requires parks { meant.parks ≡ would_park self.old.config self.old.history (plain event) }
        ensures ok { OnOk result (self.new ≡ with_event event self.old) }
        ensures err { OnErr result (self.new ≡ self.old) }
    {
        self.trail.reserve_one()?;
        step(
            alloc,
            &mut self.tables,
            &mut self.clock,
            &self.config,
            &self.trail,
            &event,
            rule,
            meant,
        )?;
        self.trail.push_reserved(Record { event, rule });
        Ok(())
    }
}

/// Brings the tables and the clock up to date with an event after this past, on which this is the verdict. An `Err`
/// leaves them the history's.
fn step(
    alloc: Global,
    tables: &mut Tables,
    clock: &mut Clock,
    config: &Config,
    past: &Trail,
    event: &Event,
    rule: Option<Rule>,
    meant: Meant,
) -> Result<(), NoMemory>
    requires state { IsState config.now past.now.history tables.old clock.old }
    requires verdict { rule ≡ verdict config.now past.now.history event.now }
    requires held { meant.held ≡ by_description (object_by past.now.history) event.now }
    requires bound { meant.bound ≡ by_name (object_bound past.now.history) event.now }
    requires ended { verdict config.now past.now.history event.now ≡ None → option_map (λ s. s.0) meant.ended ≡ ended_call config.now past.now.history (plain event.now) }
    requires parks { meant.parks ≡ would_park config.now past.now.history (plain event.now) }
    requires room { length past.now.history + 1 < 2 ^ 63 }
    ensures ok { OnOk result (IsState config.now (record { event = event.now; rule = rule } ∷ past.now.history) tables.new clock.new) }
    ensures err { OnErr result (IsState config.now past.now.history tables.new clock.new) }
{
    let call = timed_call(past, event, rule, meant.parks);
    push(clock, alloc, call)?;
    if rule.is_none() {
        if let Err(full) = accept(alloc, tables, config, past, event, meant) {
            leave(clock, session_in(call));
            return Err(full);
        }
        leave(clock, meant.ended);
        tell(clock, event);
    }
    Ok(())
}
