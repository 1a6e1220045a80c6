//! Calls that wait.

ghost use Rattle.std.specs.Prelude.{◌≡◌, ℕ, [], ◌∷◌, ◌++◌, OnOk, OnErr};
ghost use Rattle.std.specs.List.{list_any};
ghost use Rattle.std.specs.Option.{option_copied, option_to_list};
ghost use Rattle.ipc_terms.specs.Lists.{first, without_first};
ghost use Rattle.ipc_containers.specs.Waiters.{is_call_of};

use crate::buckets::Buckets;
use ipc_terms::{NoMemory, Sid};
use std::alloc::Global;
use std::collections::BTreeMap;
use std::marker::Model;

/// A call that may wait.
pub trait Waiting {
    ghost caller: { Self → ℕ };

    /// The session that made it.
    fn session(&self) -> Sid
        ensures { result.0 ≡ caller self.now };
}

impl Waiting for Sid {
    ghost caller = { λ sid. sid.0 };

    fn session(&self) -> Sid {
        *self
    }
}

/// Calls that wait, the longest waiting first. Each call takes as long as to find an entry of an ordered map.
#[derive(Drop)]
pub struct Waiters<T: Waiting> {
    /// By the number of the arrival.
    calls: BTreeMap<u64, T>,
    /// The numbers of each session's calls.
    numbers: Buckets<u64>,
    /// The number of the next arrival.
    next: u64,
}

impl<T: Waiting> Model for Waiters<T> {
    ghost use Rattle.std.specs.Prelude.{List};
    ghost use Rattle.std.specs.Map.{values_of};
    ghost use Rattle.ipc_containers.specs.Waiters.{InLine};

    ghost Value = { List T };

    ghost view = { λ w. values_of w.calls.entries };

    ghost invariant = { λ w. InLine T.caller w.calls.entries w.numbers w.next };
}

impl<T: Waiting + Drop> Waiters<T> {
    /// No calls. Takes no memory.
    pub fn new(alloc: Global) -> Self
        ensures { result ≡ [] }
    {
        Waiters {
            calls: BTreeMap::new(alloc),
            numbers: Buckets::new(alloc),
            next: 0,
        }
    }

    /// The call waits behind all others. An `Err` leaves all as it was; the 2^64th call finds no memory either.
    pub fn park(&mut self, call: T) -> Result<(), NoMemory>
        ensures ok { OnOk result (self.new ≡ self.old ++ call ∷ []) }
        ensures err { OnErr result (self.new ≡ self.old) }
    {
        let session = call.session();
        let Some(next) = self.next.checked_add(1) else {
            return Err(NoMemory);
        };
        self.calls.insert(self.next, call)?;
        if let Err(refused) = self.numbers.enter(session.0, self.next) {
            self.calls.remove(&self.next);
            return Err(refused);
        }
        self.next = next;
        Ok(())
    }

    /// The longest waiting call waits no longer. Takes no memory.
    pub fn serve(&mut self) -> Option<T>
        ensures first { result ≡ first self.old }
        ensures rest { self.old ≡ option_to_list result ++ self.new }
    {
        let (_, call) = self.calls.pop_first()?;
        self.numbers.leave(call.session().0);
        Some(call)
    }

    /// The longest waiting call of the session waits no longer; says whether there was one. Takes no memory.
    pub fn withdraw(&mut self, session: Sid) -> bool
        ensures found { result ≡ list_any (is_call_of T.caller session) self.old }
        ensures rest { self.new ≡ without_first (is_call_of T.caller session) self.old }
    {
        let Some(number) = self.numbers.first_of(session.0) else {
            return false;
        };
        let number = *number;
        self.numbers.leave(session.0);
        self.calls.remove(&number);
        true
    }

    /// The longest waiting call; `None` where none waits.
    pub fn first(&self) -> Option<&T>
        ensures { option_copied result ≡ first self.now }
    {
        let (_, call) = self.calls.first_key_value()?;
        Some(call)
    }
}
