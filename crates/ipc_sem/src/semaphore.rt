//! The semaphore.

ghost use Rattle.std.specs.Prelude.{◌≡◌, ◌<◌, ◌≤◌, ◌==◌, not, [], true, length, is_err, OnOk, OnErr, IfOk, IsOk};
ghost use Rattle.std.specs.List.{list_any};
ghost use Rattle.ipc_terms.specs.Events.{is_session};
ghost use Rattle.ipc_terms.specs.Lists.{first};
ghost use Rattle.ipc_terms.specs.declared.object.TheConstants.{SEM_VALUE_MAX};
ghost use Rattle.ipc_sem.specs.Counters.{IsCounter, overflows, posted, wait_outcome, waited, tried, withdrawn};

use ipc_containers::Waiters;
use ipc_terms::{NoMemory, SEM_VALUE_MAX, Sid};
use std::alloc::Global;
use std::marker::Model;

/// A post at the greatest value.
#[derive(Clone, Copy, PartialEq, Eq, Debug)]
pub struct Overflow;

/// What became of a wait.
#[derive(Clone, Copy, PartialEq, Eq)]
pub enum WaitOutcome {
    /// It lowered the value by 1.
    Passed,
    /// The value is 0: the wait waits for a post.
    Parked,
}

/// A semaphore: a value from 0 to `SEM_VALUE_MAX`, and the waits that are parked on it. Of parked waits the
/// longest parked is served first (`sem_overview(7)`).
#[derive(Drop)]
pub struct Sem {
    value: u32,
    waiters: Waiters<Sid>,
}

impl Model for Sem {
    ghost use Rattle.ipc_sem.specs.Counters.{Counter, IsCounter};

    ghost Value = { Counter };

    ghost view = { λ s. record { value = s.value; waiters = s.waiters } };

    ghost invariant = { λ s. IsCounter (record { value = s.value; waiters = s.waiters }) };
}

impl Sem {
    /// A semaphore of this value, at most `SEM_VALUE_MAX`, on which no wait is parked (POSIX.1-2017,
    /// `sem_open`). Takes no memory.
    pub fn new(alloc: Global, value: u32) -> Self
        requires { value ≤ SEM_VALUE_MAX }
        ensures { result ≡ record { value = value; waiters = [] } }
    {
        Sem {
            value,
            waiters: Waiters::new(alloc),
        }
    }

    /// Serves the wait that has been parked longest and names its session; where none is parked, the value
    /// rises by 1 (POSIX.1-2017, `sem_post`). Takes no memory.
    #[tactic(auto, unfolding(crate::specs::Counters::overflows, crate::specs::Counters::posted))]
    pub fn post(&mut self) -> Result<Option<Sid>, Overflow>
        ensures overflow { is_err result ≡ overflows self.old }
        ensures served { IfOk result (λ served. served ≡ first self.old.waiters) }
        ensures ok { OnOk result (self.new ≡ posted self.old) }
        ensures err { OnErr result (self.new ≡ self.old) }
    {
        if let Some(waiter) = self.waiters.serve() {
            return Ok(Some(waiter));
        }
        if self.value == SEM_VALUE_MAX {
            return Err(Overflow);
        }
        self.value += 1;
        Ok(None)
    }

    /// `sid` waits (POSIX.1-2017, `sem_wait`). The value is lowered by 1, which takes no memory; at 0 the wait
    /// parks behind all parked ones. An `Err` leaves the semaphore as it was.
    #[tactic(auto, unfolding(crate::specs::Counters::wait_outcome, crate::specs::Counters::waited))]
    pub fn wait(&mut self, sid: Sid) -> Result<WaitOutcome, NoMemory>
        ensures outcome { IfOk result (λ outcome. outcome ≡ wait_outcome self.old) }
        ensures ok { OnOk result (self.new ≡ waited sid self.old) }
        ensures err { OnErr result (self.new ≡ self.old) }
        ensures without_memory { 0 < self.old.value → IsOk result }
    {
        if self.value == 0 {
            self.waiters.park(sid)?;
            return Ok(WaitOutcome::Parked);
        }
        self.value -= 1;
        Ok(WaitOutcome::Passed)
    }

    /// Lowers the value by 1 and says so; at 0 it does nothing (POSIX.1-2017, `sem_trywait`). Takes no memory.
    #[tactic(auto, unfolding(crate::specs::Counters::tried))]
    pub fn try_wait(&mut self) -> bool
        ensures passed { result ≡ not (self.old.value == 0) }
        ensures rest { self.new ≡ tried self.old }
    {
        if self.value == 0 {
            return false;
        }
        self.value -= 1;
        true
    }

    /// Takes back the longest parked wait of the session, and says whether there was one (POSIX.1-2017,
    /// `sem_wait`, EINTR). The value stays. Takes no memory.
    #[tactic(auto, unfolding(crate::specs::Counters::withdrawn))]
    pub fn withdraw(&mut self, sid: Sid) -> bool
        ensures found { result ≡ list_any (is_session sid) self.old.waiters }
        ensures rest { self.new ≡ withdrawn sid self.old }
    {
        self.waiters.withdraw(sid)
    }

    /// The value, which is 0 while waits are parked (POSIX.1-2017, `sem_getvalue`).
    pub fn value(&self) -> u32
        ensures { result ≡ self.now.value }
    {
        self.value
    }

    /// The session whose wait has been parked longest; `None` where none is parked.
    pub fn waiter(&self) -> Option<Sid>
        ensures { result ≡ first self.now.waiters }
    {
        self.waiters.first().copied()
    }

    /// The value is in its range, and a wait is parked only where it is 0. Does nothing; a fact of every
    /// semaphore.
    pub fn parks_at_zero(&self)
        ensures { IsCounter self.now }
    {
        let _value = self.value;
    }
}
