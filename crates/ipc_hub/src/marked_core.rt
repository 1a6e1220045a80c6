//! A core, and the marks of whom it answers.

ghost use Rattle.std.specs.Prelude.{◌≡◌, ◌==◌, ◌≤◌, ◌+◌, ◌++◌, ◌∷◌, [], ℕ, Option, true, false, None, Some, is_some, length, min, slice_set, IfOk, IfSome, IfNone, OnOk, OnErr, if◌then◌else◌};
ghost use Rattle.ipc_terms.specs.Lists.{changed};
ghost use Rattle.ipc_terms.specs.declared.record.Event.TheVariants.{Hello, Hangup};
ghost use Rattle.ipc_access.specs.Users.{user_of_key};
ghost use Rattle.ipc_policy.specs.Decides.Sessions.{hellos};
ghost use Rattle.ipc_policy.specs.Decides.Verdict.{verdict, answers};
ghost use Rattle.ipc_core.specs.Boxes.{taken};
ghost use Rattle.ipc_core.specs.Outboxes.{session_at, after_step};
ghost use Rattle.ipc_hub.specs.Hub.{untaken_of};
ghost use Rattle.ipc_hub.specs.Marking.{is_set, owner_of};
ghost use Rattle.ipc_hub.specs.MarkedCore.{is_plain, Follows, MarksAnswered, GainsAtMostTwo};

use crate::marks::Marks;
use ipc_core::{Core, Posted};
use ipc_terms::{Bytes, Event, NoMemory, Sid};
use std::alloc::Global;
use std::marker::Model;

/// A core, the connections of its sessions that are live, but for those that began before, and the connections that were answered.
#[derive(Drop)]
pub struct MarkedCore {
    core: Core,
    marks: Marks,
}

impl Model for MarkedCore {
    ghost use Rattle.ipc_hub.specs.MarkedCore.{MarkedView, AreOwners};

    ghost Value = { MarkedView };

    ghost view = { λ m. record { core = m.core; owners = m.marks.owners; marked = m.marks.marked; flagged = m.marks.flagged } };

    ghost invariant = { λ m. AreOwners m.marks.owners m.core.history };
}

/// Steps an event, and marks the connections of those that it answers. An `Err` changes nothing.
#[inline(always)]
fn post_marked(
    core: &mut Core,
    marks: &mut Marks,
    alloc: Global,
    event: Event,
) -> Result<Posted, NoMemory>
    ensures verdict { IfOk result (λ posted. posted.verdict ≡ verdict core.old.config core.old.history event) }
    ensures caller { IfOk result (λ posted. posted.caller ≡ session_at 0 (answers core.old.config core.old.history event)) }
    ensures ok { OnOk result (core.new ≡ after_step event core.old) }
    ensures marks { OnOk result (MarksAnswered core.old marks.old core.new marks.new) }
    ensures few { OnOk result (GainsAtMostTwo core.old core.new) }
    ensures err { OnErr result (core.new ≡ core.old) }
    ensures same { OnErr result (marks.new ≡ marks.old) }
{
    core.keeps_the_last();
    let posted = core.post(alloc, event)?;
    marks.mark_session(posted.caller);
    marks.mark_session(posted.other);
    Ok(posted)
}

impl MarkedCore {
    /// A core that goes on: no session that it has is a connection's, and there is none. Takes no memory.
    pub fn of_core(alloc: Global, core: Core) -> MarkedCore
        ensures { result ≡ record { core = core; owners = record { before = hellos core.history; list = [] }; marked = []; flagged = [] } }
    {
        let before = core.sessions() as u64;
        MarkedCore {
            core,
            marks: Marks::new(alloc, before),
        }
    }

    #[inline(always)]
    pub fn core(&self) -> &Core
        ensures { result.now ≡ self.now.core }
    {
        &self.core
    }

    /// One more connection, which has no mark. An `Err` changes nothing.
    pub fn push_connection(&mut self) -> Result<(), NoMemory>
        ensures ok { OnOk result (self.new ≡ record self.old { marked = self.old.marked ++ false ∷ []; flagged = self.old.flagged ++ true ∷ [] }) }
        ensures err { OnErr result (self.new ≡ self.old) }
    {
        self.marks.push_connection()
    }

    /// Keeps no flag of the connection, if it has no mark. It can't fail.
    pub fn let_go(&mut self, connection: u64)
        ensures same { self.new ≡ record self.old { flagged = self.new.flagged } }
        ensures count { length self.new.flagged ≡ length self.old.flagged }
        ensures others { (j : ℕ) → (j == connection) ≡ false → is_set self.new.flagged j ≡ is_set self.old.flagged j }
        ensures gone { is_set self.old.marked connection ≡ false → is_set self.new.flagged connection ≡ false }
    {
        self.marks.let_go(connection);
    }

    /// Steps an event that is no hello and no hang-up. An `Err` changes nothing.
    #[inline(always)]
    pub fn post(&mut self, alloc: Global, event: Event) -> Result<(), NoMemory>
        requires { is_plain event ≡ true }
        ensures ok { OnOk result (self.new.core ≡ after_step event self.old.core) }
        ensures marks { OnOk result (Follows self.old self.new) }
        ensures few { OnOk result (GainsAtMostTwo self.old.core self.new.core) }
        ensures err { OnErr result (self.new ≡ self.old) }
    {
        post_marked(&mut self.core, &mut self.marks, alloc, event)?;
        Ok(())
    }

    /// Steps the hello of a connection, which brings this key, and gives the session that starts; none where it is
    /// refused. The connection is marked. An `Err` changes nothing.
    pub fn hello(&mut self, alloc: Global, own: u64, key: &Bytes) -> Result<Option<Sid>, NoMemory>
        requires { is_set self.old.flagged own ≡ true }
        ensures session { IfOk result (λ session. session ≡ (if is_some (verdict self.old.core.config self.old.core.history (Hello (user_of_key self.old.core.config.users key.now))) then None else Some (record { 0 = hellos self.old.core.history }))) }
        ensures ok { OnOk result (self.new.core ≡ after_step (Hello (user_of_key self.old.core.config.users key.now)) self.old.core) }
        ensures marks { OnOk result (Follows self.old self.new) }
        ensures marked { OnOk result (is_set self.new.marked own ≡ true) }
        ensures owner { IfOk result (λ session. (sid : Sid) → session ≡ Some sid → owner_of self.new.owners sid.0 ≡ Some own) }
        ensures few { IfOk result (λ session. length (untaken_of self.new.core session) ≤ 2) }
        ensures err { OnErr result (self.new ≡ self.old) }
    {
        self.core.keeps_the_last();
        self.marks.push_session(own)?;
        let found = self.core.config().users.find(key.as_slice());
        let hello = Event::Hello { found };
        let Ok(posted) = post_marked(&mut self.core, &mut self.marks, alloc, hello) else {
            self.marks.undo_session();
            return Err(NoMemory);
        };
        self.marks.mark(own);
        if posted.verdict.is_some() {
            self.marks.undo_session();
            return Ok(None);
        }
        Ok(posted.caller)
    }

    /// Hangs a session up, and keeps its connection no longer. An `Err` changes nothing.
    pub fn hang_up(&mut self, alloc: Global, sid: Sid) -> Result<(), NoMemory>
        ensures ok { OnOk result (self.new.core ≡ after_step (Hangup sid) self.old.core) }
        ensures marks { OnOk result (Follows self.old self.new) }
        ensures few { OnOk result (GainsAtMostTwo self.old.core self.new.core) }
        ensures err { OnErr result (self.new ≡ self.old) }
    {
        post_marked(
            &mut self.core,
            &mut self.marks,
            alloc,
            Event::Hangup { sid },
        )?;
        self.marks.end_session(sid);
        Ok(())
    }

    /// Leaves no untaken answers of the session. Takes no memory.
    pub fn clear(&mut self, sid: Sid)
        ensures { self.new ≡ record self.old { core = record self.old.core { untaken = changed taken self.old.core.untaken sid.0 } } }
    {
        self.core.clear(sid);
    }

    /// Forgets the oldest record that is kept, if there is one. Takes no memory.
    #[inline(always)]
    pub fn forget_one(&mut self)
        ensures now { self.new ≡ record self.old { core = record self.old.core { first = min (self.old.core.first + 1) (length self.old.core.history) } } }
        ensures later { self.old.core.first ≤ self.new.core.first }
    {
        let _first = self.core.trail().first();
        self.core.forget_one();
    }

    /// A connection that is marked, which is marked no longer. Takes no memory.
    pub fn next_answered(&mut self) -> Option<u64>
        ensures some { IfSome result (λ i. (is_set self.old.marked i ≡ true) × (self.new ≡ record self.old { marked = slice_set self.old.marked i false })) }
        ensures none { IfNone result ((i : ℕ) → is_set self.old.marked i ≡ false) }
        ensures same { IfNone result (self.new ≡ self.old) }
    {
        self.marks.next()
    }
}
