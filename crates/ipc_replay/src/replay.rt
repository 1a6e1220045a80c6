//! A state, and the records that led to it.

ghost use Rattle.std.specs.Prelude.{◌≡◌, ℕ, ◌∷◌, ◌+◌, [], false, None, IfOk, IfErr, OnOk, OnErr, min, length, MatchOption};
ghost use Rattle.ipc_policy.specs.Decides.Sessions.{live};
ghost use Rattle.ipc_policy.specs.Decides.Verdict.{verdict, Legal};
ghost use Rattle.ipc_state.specs.Ranges.{first_bad};
ghost use Rattle.ipc_replay.specs.HangingUp.{all_hung_up, hung_up};
ghost use Rattle.ipc_replay.specs.Replaying.{IsFaultOf};
ghost use Rattle.ipc_replay.specs.declared.fault.ReplayFault.TheVariants.{NoMemory as Refused, BadConfig};

use crate::fault::ReplayFault;
use ipc_policy::Config;
use ipc_rules::decide;
use ipc_state::{Lookup, State, first_bad};
use ipc_terms::{Event, NoMemory, Record, Rule, Sid};
use ipc_trail::Trail;
use std::alloc::Global;
use std::marker::Model;

/// The state to which the records of a trail lead that were stepped so far, from its first on. The rule of each was the
/// policy's verdict on its event. Nobody is answered.
#[derive(Drop)]
pub struct Replay {
    state: State,
}

impl Model for Replay {
    ghost use Rattle.ipc_state.specs.StateView.{StateView};

    ghost Value = { StateView };

    ghost view = { λ r. r.state };
}

impl Replay {
    /// No record so far. Or the first limit that is out of its range, in the order `msg_max`, `msgsize_max`,
    /// `queues_max`. An `Err` drops the configuration.
    pub fn new(alloc: Global, config: Config) -> Result<Replay, ReplayFault>
        ensures ok { IfOk result (λ replay. replay ≡ record { config = config; history = []; first = 0 }) }
        ensures in_range { OnOk result (first_bad config.limits ≡ None) }
        ensures bad { IfErr result (λ fault. MatchOption (first_bad config.limits) (fault ≡ Refused) (λ field. fault ≡ BadConfig field)) }
    {
        if let Some(field) = first_bad(&config.limits) {
            return Err(ReplayFault::BadConfig(field));
        }
        Ok(Replay {
            state: State::new(alloc, config)?,
        })
    }

    /// What was stepped is a legal history. Does nothing; a fact of every replay.
    pub fn is_legal(&self)
        ensures { Legal self.now.config self.now.history }
    {
        self.state.is_legal();
    }

    /// The records that were stepped, but for those that were forgotten.
    pub fn trail(&self) -> &Trail
        ensures history { result.now.history ≡ self.now.history }
        ensures first { result.now.first ≡ self.now.first }
    {
        self.state.trail()
    }

    /// The state to which they lead.
    pub fn state(&self) -> &State
        ensures { result.now ≡ self.now }
    {
        &self.state
    }

    /// The rule of the lowest number that forbids the event, if one does. Takes no memory.
    pub fn decide(&self, event: &Event) -> Option<Rule>
        ensures { result ≡ verdict self.now.config self.now.history event.now }
    {
        decide(&Lookup::new(&self.state, event))
    }

    /// Steps the event of the next record, if the record's rule is the verdict on it. An `Err` changes nothing, and drops the
    /// record.
    pub fn step(&mut self, alloc: Global, next: Record) -> Result<(), ReplayFault>
        ensures ok { OnOk result (self.new ≡ record self.old { history = next ∷ self.old.history }) }
        ensures verdict { OnOk result (next.rule ≡ verdict self.old.config self.old.history next.event) }
        ensures fault { IfErr result (λ fault. IsFaultOf self.old.config self.old.history next fault) }
        ensures err { OnErr result (self.new ≡ self.old) }
    {
        let lookup = Lookup::new(&self.state, &next.event);
        let verdict = decide(&lookup);
        if next.rule != verdict {
            let place = self.state.trail().len() as u64;
            return Err(ReplayFault::Differs(place));
        }
        let meant = lookup.meant();
        self.state.add(alloc, next.event, verdict, meant)?;
        Ok(())
    }

    /// Hangs up each session that is live, in the order of their numbers: no rule forbids that. An `Err` drops all.
    pub fn hang_up_all(self, alloc: Global) -> Result<Replay, NoMemory>
        ensures now { IfOk result (λ replay. replay ≡ record self { history = all_hung_up self.history }) }
        ensures nobody { IfOk result (λ replay. (s : ℕ) → live replay.history s ≡ false) }
    {
        let mut replay = self;
        let started = replay.state.tables().session_count() as u64;
        for number in 0..started {
            replay.hang_up(alloc, Sid(number))?;
        }
        Ok(replay)
    }

    /// Hangs the session up, if it is live. An `Err` changes nothing.
    fn hang_up(&mut self, alloc: Global, sid: Sid) -> Result<(), NoMemory>
        ensures ok { OnOk result (self.new ≡ record self.old { history = hung_up sid.0 (live self.old.history sid.0) self.old.history }) }
        ensures err { OnErr result (self.new ≡ self.old) }
    {
        if !self.state.is_live(sid) {
            return Ok(());
        }
        let event = Event::Hangup { sid };
        let lookup = Lookup::new(&self.state, &event);
        let verdict = decide(&lookup);
        let meant = lookup.meant();
        self.state.add(alloc, event, verdict, meant)?;
        Ok(())
    }

    /// The state to which the records lead, to go on from.
    pub fn into_state(self) -> State
        ensures { result ≡ self }
    {
        let Replay { state } = self;
        state
    }

    /// Forgets the oldest record that it has, if it has one, and changes nothing else: each later verdict is the same. Takes
    /// no memory.
    pub fn forget_one(&mut self)
        ensures { self.new ≡ record self.old { first = min (self.old.first + 1) (length self.old.history) } }
    {
        self.state.forget_one();
    }
}
