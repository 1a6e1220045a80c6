//! The rows of sessions.

ghost use Rattle.std.specs.Prelude.{◌≡◌, ◌^◌, ◌<◌, [], ◌∷◌, ◌++◌, false, length, None, option_and_then, OnOk, OnErr};
ghost use Rattle.ipc_terms.specs.Lists.{changed};
ghost use Rattle.ipc_tables.specs.Steps.{first_row, with_mask, with_parked, hung_up};
ghost use Rattle.ipc_tables.specs.TablesView.{live_at, live_session, parked_on_at};

use crate::rows::Session;
use ipc_containers::Numbered;
use ipc_terms::{Mode, NoMemory, Sid, Uid};
use std::alloc::Global;
use std::marker::Model;
use std::snapshot::Snapshot;

/// The mask of a session that has set none: octal 022.
const FIRST_MASK: Mode = Mode(0o22);

/// What became of the sessions. Proofs alone read it; nothing of it is kept at run time.
#[derive(Drop)]
enum Past {
    /// None started yet.
    Nothing,
    /// After all else a session of this user started.
    Started(Snapshot<Uid>, Snapshot<Snapshot<Past>>),
    /// After all else this session got this mask.
    Masked(Snapshot<Sid>, Snapshot<Mode>, Snapshot<Snapshot<Past>>),
    /// After all else the call of this session was parked on this object, or on none.
    Parked(Snapshot<Sid>, Snapshot<Option<u64>>, Snapshot<Snapshot<Past>>),
    /// After all else this session ended.
    Ended(Snapshot<Sid>, Snapshot<Snapshot<Past>>),
}

/// The sessions. Those that are live stand at their numbers; nothing is kept of one that ended but in proofs.
#[derive(Drop)]
pub(crate) struct Sessions {
    rows: Numbered<Session>,
    past: Snapshot<Past>,
}

impl Model for Sessions {
    ghost use Rattle.std.specs.Prelude.{◌≡◌, List, map};
    ghost use Rattle.ipc_tables.specs.declared.rows.Session.{Session};
    ghost use Rattle.ipc_tables.specs.Sessions.{sessions_of, NoneEndedIsParked};
    ghost use Rattle.ipc_tables.specs.TablesView.{live_row};

    ghost Value = { List Session };

    ghost view = { λ a. sessions_of a.past.value };

    ghost invariant = { λ a. (a.rows ≡ map live_row (sessions_of a.past.value)) × NoneEndedIsParked (sessions_of a.past.value) };
}

impl Sessions {
    /// No sessions. Takes no memory.
    pub(crate) fn new(alloc: Global) -> Self
        ensures { result ≡ [] }
    {
        Sessions {
            rows: Numbered::new(alloc),
            past: Snapshot::of(&Past::Nothing),
        }
    }

    /// The session of the number, while it is live. One that ended isn't parked.
    pub(crate) fn get(&self, sid: Sid) -> Option<Session>
        ensures live { result ≡ live_session self.now sid.0 }
        ensures parked { option_and_then (λ row. row.parked_on) result ≡ parked_on_at self.now sid.0 }
    {
        self.rows.get(sid.0 as usize).copied()
    }

    /// How many sessions ever started.
    pub(crate) fn len(&self) -> usize
        ensures { result ≡ length self.now }
    {
        self.rows.next_number()
    }

    /// Starts a session of the user. An `Err` changes nothing.
    pub(crate) fn start(&mut self, user: Uid) -> Result<(), NoMemory>
        ensures ok { OnOk result (self.new ≡ self.old ++ first_row user ∷ []) }
        ensures err { OnErr result (self.new ≡ self.old) }
    {
        self.rows.push(Session {
            user,
            mask: FIRST_MASK,
            is_live: true,
            parked_on: None,
        })?;
        self.past = Snapshot::of(&Past::Started(Snapshot::of(&user), Snapshot::of(&self.past)));
        Ok(())
    }

    /// Gives the session this mask, if there is one.
    pub(crate) fn set_mask(&mut self, sid: Sid, mask: Mode)
        ensures { self.new ≡ changed (with_mask mask) self.old sid.0 }
    {
        if let Some(row) = self.rows.get_mut(sid.0 as usize) {
            row.mask = mask;
        }
        self.past = Snapshot::of(&Past::Masked(
            Snapshot::of(&sid),
            Snapshot::of(&mask),
            Snapshot::of(&self.past),
        ));
    }

    /// The call of the session, which is live, is parked on this object; or that of any is parked on none.
    pub(crate) fn set_parked(&mut self, sid: Sid, object: Option<u64>)
        requires { live_at self.old sid.0 ≡ false → object ≡ None }
        ensures { self.new ≡ changed (with_parked object) self.old sid.0 }
    {
        if let Some(row) = self.rows.get_mut(sid.0 as usize) {
            row.parked_on = object;
        }
        self.past = Snapshot::of(&Past::Parked(
            Snapshot::of(&sid),
            Snapshot::of(&object),
            Snapshot::of(&self.past),
        ));
    }

    /// Ends the session, which isn't parked.
    pub(crate) fn end(&mut self, sid: Sid)
        requires { parked_on_at self.old sid.0 ≡ None }
        ensures { self.new ≡ changed hung_up self.old sid.0 }
    {
        self.rows.take(sid.0 as usize);
        self.past = Snapshot::of(&Past::Ended(Snapshot::of(&sid), Snapshot::of(&self.past)));
    }
}
