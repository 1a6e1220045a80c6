//! What happened so far, by the records that were read.

ghost use Rattle.std.specs.Prelude.{◌≡◌, ℕ, ◌+◌, ◌∷◌, [], false, min, length, IfErr, IfOk, OnErr, OnOk};
ghost use Rattle.std.specs.Io.KnownBytes.{IsAtEnd};
ghost use Rattle.ipc_policy.specs.Decides.Sessions.{live};
ghost use Rattle.ipc_policy.specs.Decides.Verdict.{verdict, Legal};
ghost use Rattle.ipc_replay.specs.HangingUp.{all_hung_up};
ghost use Rattle.ipc_history.specs.Counts.{AreCounts};
ghost use Rattle.ipc_history.specs.Incoming.{IsBounded, Reads, incoming, unread, waiting};
ghost use Rattle.ipc_history.specs.Pasts.{IsFirst, IsNoFirst, GoesOn, GoesNotOn, IsNotStepped, before_all, limits_of};
ghost use Rattle.ipc_history.specs.Replays.{Continues};

use crate::counts::Counts;
use crate::fault::HistoryFault;
use crate::trail_reader::TrailReader;
use crate::user_sums::users_sum;
use ipc_access::Users;
use ipc_log::{Head, Retelling};
use ipc_policy::{Config, Limits};
use ipc_replay::Replay;
use ipc_state::State;
use ipc_terms::{NoMemory, Record};
use std::alloc::Global;
use std::io::Read;
use std::marker::Model;

/// What happened so far: the state to which the records lead that were stepped, and what they count up to. No record is kept.
#[derive(Drop)]
pub struct Past {
    replay: Replay,
    /// The sum of the users.
    users: u64,
    retelling: Retelling,
    counts: Counts,
}

impl Model for Past {
    ghost use Rattle.std.specs.Prelude.{◌≡◌, length};
    ghost use Rattle.ipc_history.specs.Counts.{AreCounts};
    ghost use Rattle.ipc_history.specs.Pasts.{PastView};
    ghost use Rattle.ipc_history.specs.Users.{users_sum};

    ghost Value = { PastView };

    ghost view = { λ a. record { config = a.replay.config; history = a.replay.history; retelling = a.retelling } };

    ghost invariant = { λ a. (a.users ≡ users_sum a.replay.config.users) × (a.replay.first ≡ length a.replay.history) × AreCounts a.counts a.replay.history };
}

impl Past {
    /// Nothing happened yet. The head must be that of a first file, by these users. An `Err` drops them.
    pub fn new(alloc: Global, users: Users, head: &Head) -> Result<Past, HistoryFault>
        ensures ok { IfOk result (λ past. past ≡ before_all users head.now) }
        ensures first { OnOk result (IsFirst users head.now) }
        ensures fault { IfErr result (IsNoFirst users head.now) }
    {
        let sum = users_sum(alloc, &users)?;
        if head.users != sum {
            return Err(HistoryFault::OtherUsers);
        }
        if head.first != 0 {
            return Err(HistoryFault::OtherPlace(head.first));
        }
        let limits = limits_of(head);
        let replay = Replay::new(alloc, Config { users, limits })?;
        Ok(Past {
            replay,
            users: sum,
            retelling: head.retelling,
            counts: Counts::new(),
        })
    }

    /// Whether this is the head of a file that goes on where the records so far end, by the same users and limits, and of the same
    /// retelling.
    pub fn goes_on(&self, head: &Head) -> Result<(), HistoryFault>
        ensures ok { OnOk result (GoesOn self.now head.now) }
        ensures fault { IfErr result (GoesNotOn self.now head.now) }
    {
        if head.users != self.users {
            return Err(HistoryFault::OtherUsers);
        }
        if limits_of(head) != self.replay.state().config().limits {
            return Err(HistoryFault::OtherLimits);
        }
        if head.retelling != self.retelling {
            return Err(HistoryFault::OtherRetelling);
        }
        if head.first != self.place() {
            return Err(HistoryFault::OtherPlace(head.first));
        }
        Ok(())
    }

    /// Steps the next record, if its rule is the verdict on its event. An `Err` changes nothing, and drops the record.
    pub fn step(&mut self, alloc: Global, next: Record) -> Result<(), HistoryFault>
        ensures ok { OnOk result (self.new ≡ record self.old { history = next ∷ self.old.history }) }
        ensures verdict { OnOk result (next.rule ≡ verdict self.old.config self.old.history next.event) }
        ensures err { OnErr result (self.new ≡ self.old) }
        ensures fault { IfErr result (IsNotStepped self.old.config self.old.history next) }
    {
        // No trail is so long that a count would stop.
        let _place = self.replay.trail().len();
        let mut counts = self.counts;
        counts.add(&next);
        step_in(&mut self.replay, alloc, next)?;
        self.counts = counts;
        Ok(())
    }

    /// The place of the next record: how many were stepped.
    pub fn place(&self) -> u64
        ensures { result ≡ length self.now.history }
    {
        self.replay.trail().len() as u64
    }

    /// Which trail the first records retell.
    pub fn retelling(&self) -> Retelling
        ensures { result ≡ self.now.retelling }
    {
        self.retelling
    }

    /// What the records count up to.
    pub fn counts(&self) -> &Counts
        ensures { AreCounts result.now self.now.history }
    {
        &self.counts
    }

    /// The state to which the records lead.
    pub fn state(&self) -> &State
        ensures config { result.now.config ≡ self.now.config }
        ensures history { result.now.history ≡ self.now.history }
    {
        self.replay.state()
    }

    /// The state to go on from: each session that is live hangs up, and of all records it has those alone. An `Err` drops what
    /// happened.
    pub fn resume(self, alloc: Global) -> Result<State, NoMemory>
        ensures config { IfOk result (λ state. state.config ≡ self.config) }
        ensures history { IfOk result (λ state. state.history ≡ all_hung_up self.history) }
        ensures first { IfOk result (λ state. state.first ≡ length self.history) }
        ensures nobody { IfOk result (λ state. (s : ℕ) → live state.history s ≡ false) }
    {
        Ok(self.replay.hang_up_all(alloc)?.into_state())
    }

    /// What was stepped is a legal history. Does nothing; a fact of every past.
    pub fn is_legal(&self)
        ensures { Legal self.now.config self.now.history }
    {
        self.replay.is_legal();
    }

    /// Steps the records that come, up to where they end, or to a fault. What was stepped before the fault stays.
    pub fn read_records<R: Read + Drop>(
        &mut self,
        alloc: Global,
        reader: &mut TrailReader<R>,
    ) -> Result<(), HistoryFault>
        ensures reads { Reads (Continues self.old self.new result) (incoming R.remaining reader.old) (incoming R.remaining reader.new) }
        ensures end { OnOk result (IsAtEnd (unread R.remaining reader.new)) }
        ensures bounded { IsBounded (waiting reader.old) → IsBounded (waiting reader.new) }
    {
        for _ in 0..u64::MAX {
            let Some(next) = reader.next_record(alloc, self.place())? else {
                return Ok(());
            };
            self.step(alloc, next)?;
        }
        // Memory ends long before.
        Err(HistoryFault::NoMemory)
    }
}

fn limits_of(head: &Head) -> Limits
    ensures { result ≡ limits_of head.now }
{
    Limits {
        msg_max: head.msg_max,
        msgsize_max: head.msgsize_max,
        queues_max: head.queues_max,
    }
}

/// Steps a record, and forgets it.
fn step_in(replay: &mut Replay, alloc: Global, next: Record) -> Result<(), HistoryFault>
    ensures ok { OnOk result (replay.new ≡ record replay.old { history = next ∷ replay.old.history; first = min (replay.old.first + 1) (length replay.old.history + 1) }) }
    ensures verdict { OnOk result (next.rule ≡ verdict replay.old.config replay.old.history next.event) }
    ensures err { OnErr result (replay.new ≡ replay.old) }
    ensures fault { IfErr result (IsNotStepped replay.old.config replay.old.history next) }
{
    replay.step(alloc, next)?;
    replay.forget_one();
    Ok(())
}
