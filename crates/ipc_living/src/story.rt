//! A short legal history, told event by event into a trail's file.

ghost use Rattle.std.specs.Prelude.{◌≡◌, ◌∷◌, [], None, IfOk, OnOk};
ghost use Rattle.ipc_policy.specs.Decides.Verdict.{Legal};
ghost use Rattle.ipc_living.specs.Living.{AreSenders};

use crate::fault::{CompactFault, Subject};
use crate::senders::Senders;
use ipc_log::{Head, TrailWriter};
use ipc_policy::Config;
use ipc_replay::Replay;
use ipc_state::State;
use ipc_terms::{Call, Desc, Event, Mode, Record, Sid, Uid};
use std::alloc::Global;
use std::collections::BTreeMap;
use std::io::Write;
use std::marker::Model;
use std::mem;

/// From how many bytes on they are written.
const PIECE: usize = 65_536;

/// The short history so far: the state to which it leads, who sent its messages, and its bytes. Each of its events is
/// accepted.
#[derive(Drop)]
pub struct Story<W: Write + Drop> {
    alloc: Global,
    replay: Replay,
    senders: Senders,
    writer: TrailWriter,
    out: W,
    /// The session of each user who has one.
    sessions: BTreeMap<u32, Sid>,
    /// Of what the next events tell.
    subject: Subject,
}

impl<W: Write + Drop> Model for Story<W> {
    ghost use Rattle.std.specs.Prelude.{◌≤◌};
    ghost use Rattle.ipc_state.specs.StateView.{StateView};
    ghost use Rattle.ipc_living.specs.Living.{AreSenders};

    ghost Value = { StateView };

    ghost view = { λ a. a.replay };

    ghost invariant = { λ a. AreSenders a.senders a.replay.history × (a.replay.first ≤ a.writer.spelled) };
}

impl<W: Write + Drop> Story<W> {
    /// Nothing is told yet, and the head is spelled.
    pub fn new(alloc: Global, config: Config, head: &Head, out: W) -> Result<Story<W>, CompactFault>
        ensures config { IfOk result (λ story. story.config ≡ config) }
        ensures history { IfOk result (λ story. story.history ≡ []) }
    {
        Ok(Story {
            alloc,
            replay: Replay::new(alloc, config)?,
            senders: Senders::new(alloc),
            writer: TrailWriter::new(alloc, head)?,
            out,
            sessions: BTreeMap::new(alloc),
            subject: Subject::End,
        })
    }

    /// The event happens next, if no rule forbids it.
    pub fn tell(&mut self, event: Event) -> Result<(), CompactFault>
        ensures config { self.new.config ≡ self.old.config }
        ensures ok { OnOk result (self.new.history ≡ record { event = event; rule = None } ∷ self.old.history) }
    {
        if let Some(rule) = self.replay.decide(&event) {
            return Err(CompactFault::Refused(self.take_subject(), rule));
        }
        self.put(event)?;
        if self.writer.len() >= PIECE {
            self.write()?;
        }
        Ok(())
    }

    /// The event is stepped as one that is accepted, and spelled.
    fn put(&mut self, event: Event) -> Result<(), CompactFault>
        ensures config { self.new.config ≡ self.old.config }
        ensures ok { OnOk result (self.new.history ≡ record { event = event; rule = None } ∷ self.old.history) }
    {
        let next = Record { event, rule: None };
        self.replay.step(self.alloc, next)?;
        self.senders.note_newest(self.replay.state())?;
        self.writer.spell(self.replay.trail())?;
        self.replay.forget_one();
        Ok(())
    }

    /// A call of the session.
    pub fn make(&mut self, sid: Sid, call: Call) -> Result<(), CompactFault>
        ensures { self.new.config ≡ self.old.config }
    {
        self.tell(Event::Do { sid, call })
    }

    /// The next events tell of this.
    pub fn tell_of(&mut self, subject: Subject)
        ensures { self.new ≡ self.old }
    {
        self.subject = subject;
    }

    fn take_subject(&mut self) -> Subject
        ensures { self.new ≡ self.old }
    {
        mem::replace(&mut self.subject, Subject::End)
    }

    /// The session of the user, which says hello if it has none yet. Its mask is empty.
    pub fn session_of(&mut self, user: Uid) -> Result<Sid, CompactFault>
        ensures { self.new.config ≡ self.old.config }
    {
        if let Some(sid) = self.sessions.get(&user.0) {
            return Ok(*sid);
        }
        if !self.has_user(user) {
            return Err(CompactFault::NoUser(self.take_subject()));
        }
        let sid = Sid(self.replay.state().tables().session_count() as u64);
        self.tell(Event::Hello { found: Some(user) })?;
        self.make(sid, Call::Umask(Mode(0)))?;
        self.sessions.insert(user.0, sid)?;
        Ok(sid)
    }

    /// Whether there is a user of this number.
    pub fn has_user(&self, user: Uid) -> bool {
        self.state().config().users.cred(user).is_some()
    }

    /// The session of user 0. Without that user, that of the first one, which the rules will refuse what user 0 alone may do.
    pub fn admin(&mut self) -> Result<Sid, CompactFault>
        ensures { self.new.config ≡ self.old.config }
    {
        let first = match self.state().config().users.as_slice().first() {
            Some(user) => user.cred.uid,
            None => Uid(0),
        };
        if self.has_user(Uid(0)) {
            self.session_of(Uid(0))
        } else {
            self.session_of(first)
        }
    }

    /// The number of the description that is opened next.
    pub fn next_desc(&self) -> Desc {
        Desc(self.state().tables().descriptions().opened())
    }

    /// All sessions hang up.
    pub fn hang_up_all(&mut self) -> Result<(), CompactFault>
        ensures { self.new.config ≡ self.old.config }
    {
        let started = self.replay.state().tables().session_count() as u64;
        for number in 0..started {
            if self.replay.state().is_live(Sid(number)) {
                self.tell(Event::Hangup { sid: Sid(number) })?;
            }
        }
        Ok(())
    }

    /// Writes what is spelled.
    pub fn write(&mut self) -> Result<(), CompactFault>
        ensures { self.new ≡ self.old }
    {
        match self.writer.write(&mut self.out) {
            Ok(()) => Ok(()),
            Err(_) => Err(CompactFault::Write),
        }
    }

    /// The state to which it leads.
    pub fn state(&self) -> &State
        ensures { result.now ≡ self.now }
    {
        self.replay.state()
    }

    /// Who sent its messages.
    pub fn senders(&self) -> &Senders
        ensures { AreSenders result.now self.now.history }
    {
        &self.senders
    }

    /// It is legal. Does nothing; a fact of every one.
    pub fn is_legal(&self)
        ensures { Legal self.now.config self.now.history }
    {
        self.replay.is_legal();
    }

    pub fn alloc(&self) -> Global {
        self.alloc
    }

    /// Where it was written.
    pub fn into_out(self) -> W {
        self.out
    }

    /// How many records it has.
    pub fn len(&self) -> u64 {
        self.replay.trail().len() as u64
    }
}
