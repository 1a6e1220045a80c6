//! What a hub keeps of a connection.

ghost use Rattle.std.specs.Prelude.{◌≡◌, ◌+◌, ◌++◌, ◌<◌, ◌≤◌, [], false, true, drop, is_none, is_some, length, None, Some, IsSome, IfOk, OnOk, OnErr, vec_len, vec_capacity};
ghost use Rattle.ipc_core.specs.Outboxes.{after_steps};
ghost use Rattle.ipc_fields.specs.Field.{◌⊕◌};
ghost use Rattle.ipc_wire.specs.Streams.{cut};
ghost use Rattle.ipc_hub.specs.Hub.{new_connection, untaken_of, untaken, spell_answers, hang_up_of, IsOutcome, core_after_take};
ghost use Rattle.ipc_hub.specs.Marking.{is_set};
ghost use Rattle.ipc_hub.specs.MarkedCore.{Follows};
ghost use Rattle.ipc_hub.specs.Connections.{seen};
ghost use Rattle.ipc_hub.specs.Stepping.{StepsFrames, Ends, connection_after};
ghost use Rattle.ipc_hub.specs.declared.fed.Fed.TheVariants.{Over};
ghost use Rattle.ipc_hub.specs.declared.fed.End.TheVariants.{BadKey};

use crate::fed::{End, Fed};
use crate::marked_core::MarkedCore;
use crate::spelling::put_answers;
use crate::stepping::{hang_up, step_frames, untaken_of};
use ipc_core::Core;
use ipc_terms::{Answer, NoMemory, Rule, Sid};
use ipc_wire::remove_front;
use std::alloc::Global;
use std::boxed::Box;
use std::marker::Model;
use std::slice;

/// The most memory that a connection keeps while nothing waits in it: 4 KiB.
const KEPT_ROOM: usize = 4096;

/// So many bytes of room a connection keeps at most for each byte that is left of its stream, where that is more than it keeps anyway.
const MOST_ROOM_OF_A_BYTE: usize = 2;

/// A connection that is not over. A request that is not stepped yet is kept as the bytes of its frame, which is read
/// again.
#[derive(Drop)]
struct Stream {
    kept: Vec<u8>,
    session: Option<Sid>,
}

impl Model for Stream {
    ghost use Rattle.ipc_hub.specs.Stepping.{Stream};

    ghost Value = { Stream };

    ghost view = { λ x. record { kept = x.kept.items; session = x.session } };
}

impl Stream {
    /// Takes a piece, and steps the requests of the frames that are whole now. An `Err` changes nothing.
    fn feed(
        &mut self,
        core: &mut MarkedCore,
        alloc: Global,
        own: u64,
        most: Option<usize>,
        piece: &[u8],
    ) -> Result<Fed, NoMemory>
        requires { is_set core.old.flagged own ≡ true }
        ensures ok { IfOk result (λ fed. StepsFrames fed core.old.core self.old.session (self.old.kept ++ piece.now) core.new.core self.new.session self.new.kept) }
        ensures marks { IfOk result (λ fed. Ends fed own most core.old self.old.session core.new self.new.session) }
        ensures err { OnErr result (self.new ≡ self.old) }
        ensures core { OnErr result (core.new ≡ core.old) }
    {
        if self.kept.is_empty() && piece.len() <= KEPT_ROOM {
            return self.feed_first(core, alloc, own, most, piece);
        }
        self.kept.extend_from_slice(piece)?;
        let (fed, rest) = step_frames(core, alloc, own, most, &mut self.session, &self.kept);
        let stepped = self.kept.len() - rest.len();
        drop_front(alloc, &mut self.kept, stepped);
        Ok(fed)
    }

    /// The same, where nothing is kept: the frames are read where the piece lies, and what was not stepped is copied.
    fn feed_first(
        &mut self,
        core: &mut MarkedCore,
        alloc: Global,
        own: u64,
        most: Option<usize>,
        piece: &[u8],
    ) -> Result<Fed, NoMemory>
        requires flagged { is_set core.old.flagged own ≡ true }
        requires first { self.old.kept ≡ [] }
        ensures ok { IfOk result (λ fed. StepsFrames fed core.old.core self.old.session piece.now core.new.core self.new.session self.new.kept) }
        ensures marks { IfOk result (λ fed. Ends fed own most core.old self.old.session core.new self.new.session) }
        ensures err { OnErr result (self.new ≡ self.old) }
        ensures core { OnErr result (core.new ≡ core.old) }
    {
        self.kept.reserve(piece.len())?;
        let (fed, rest) = step_frames(core, alloc, own, most, &mut self.session, piece);
        put_reserved(&mut self.kept, rest);
        Ok(fed)
    }
}

/// Puts the bytes at the end, where there is room for them.
fn put_reserved(bytes: &mut Vec<u8>, more: &[u8])
    requires { length bytes.old.items + length more.now ≤ vec_capacity bytes.old }
    ensures { bytes.new.items ≡ bytes.old.items ++ more.now }
{
    for byte in more {
        bytes.push_reserved(*byte);
    }
}

/// Takes the first bytes away. A buffer that is large for what is left of it is given back, or shrunk: one byte may stand behind a frame
/// of 16 MiB for as long as the client likes.
fn drop_front(alloc: Global, bytes: &mut Vec<u8>, n: usize)
    requires { n ≤ vec_len bytes.old }
    ensures { bytes.new.items ≡ drop n bytes.old.items }
{
    remove_front(alloc, bytes, n);
    if bytes.is_empty() && bytes.capacity() > KEPT_ROOM {
        *bytes = Vec::new(alloc);
    } else if bytes.capacity() / MOST_ROOM_OF_A_BYTE > bytes.len().max(KEPT_ROOM) {
        bytes.shrink_to(KEPT_ROOM);
    }
}

/// What is kept of a connection.
#[derive(Drop)]
enum Stage {
    Open(Box<Stream>),
    /// Over; its session's answers can be taken.
    Ended(Sid),
    /// Over; its hello was refused, and the refusal was not taken yet.
    Refused,
    /// Over, and nothing can be taken.
    Closed,
}

/// A connection. One that is over keeps no memory of its own.
#[derive(Drop)]
pub struct Connection {
    stage: Stage,
}

impl Model for Connection {
    ghost use Rattle.ipc_hub.specs.Hub.{Connection};
    ghost use Rattle.ipc_hub.specs.Connections.{seen};

    ghost Value = { Connection };

    ghost view = { λ x. seen x.stage };
}

/// What is kept of a connection that is over, and had this session.
fn stage_behind(session: Option<Sid>) -> Stage
    ensures { seen result ≡ record { kept = []; session = session; has_refusal = false; is_over = true } }
{
    match session {
        Some(sid) => Stage::Ended(sid),
        None => Stage::Closed,
    }
}

/// The same at this end.
fn stage_after(end: End, session: Option<Sid>) -> Stage
    ensures { (end ≡ BadKey → session ≡ None) → seen result ≡ connection_after (Over end) (record { kept = []; session = session; has_refusal = false; is_over = false }) }
{
    match end {
        End::BadKey => Stage::Refused,
        End::Wire(_) => stage_behind(session),
    }
}

/// Leaves no untaken answers of the session, if there is one. Takes no memory.
fn clear(core: &mut MarkedCore, session: Option<Sid>)
    ensures { core.new ≡ record core.old { core = core_after_take core.old.core session } }
{
    if let Some(sid) = session {
        core.clear(sid);
    }
}

/// Puts the spellings of the session's untaken answers at the end of a buffer, and leaves none. An `Err` changes nothing,
/// and leaves what stood in the buffer.
fn take_answers(
    core: &mut MarkedCore,
    session: Option<Sid>,
    out: &mut Vec<u8>,
) -> Result<(), NoMemory>
    requires { IsSome (spell_answers (untaken_of core.old.core session)) }
    ensures put { OnOk result ((Some out.old.items ⊕ spell_answers (untaken_of core.old.core session)) ≡ Some out.new.items) }
    ensures core { OnOk result (core.new ≡ record core.old { core = core_after_take core.old.core session }) }
    ensures err { OnErr result (core.new ≡ core.old) }
    ensures kept { OnErr result (out.new.items ≡ out.old.items) }
{
    let Some(sid) = session else {
        put_answers(out, &[])?;
        return Ok(());
    };
    put_answers(out, core.core().answers(sid))?;
    clear(core, session);
    Ok(())
}

impl Connection {
    /// A connection of which nothing has come.
    pub fn new(alloc: Global) -> Result<Connection, NoMemory>
        ensures { IfOk result (λ x. x ≡ new_connection) }
    {
        let stream = Stream {
            kept: Vec::new(alloc),
            session: None,
        };
        let stage = Stage::Open(Box::new(alloc, stream)?);
        Ok(Connection { stage })
    }

    pub fn is_over(&self) -> bool
        ensures { result ≡ self.now.is_over }
    {
        match &self.stage {
            Stage::Open(_) => false,
            Stage::Ended(_) | Stage::Refused | Stage::Closed => true,
        }
    }

    /// Whether its hello was accepted.
    pub fn has_session(&self) -> bool
        ensures { result ≡ is_some self.now.session }
    {
        match &self.stage {
            Stage::Open(stream) => stream.session.is_some(),
            Stage::Ended(_) => true,
            Stage::Refused | Stage::Closed => false,
        }
    }

    /// How many bytes are kept, which were not stepped.
    pub fn kept(&self) -> usize
        ensures { result ≡ length self.now.kept }
    {
        match &self.stage {
            Stage::Open(stream) => stream.kept.len(),
            Stage::Ended(_) | Stage::Refused | Stage::Closed => 0,
        }
    }

    /// How many answers the connection has not taken.
    pub fn untaken(&self, core: &Core) -> usize
        ensures { result ≡ length (untaken core.now self.now) }
    {
        match &self.stage {
            Stage::Open(stream) => untaken_of(core, stream.session),
            Stage::Ended(sid) => core.waiting(*sid),
            Stage::Refused => 1,
            Stage::Closed => 0,
        }
    }

    /// Takes a piece of the stream of the connection with this number, and steps the requests of the frames that are
    /// whole now, as long as fewer answers are untaken than are allowed. An `Err` changes nothing.
    pub fn feed(
        &mut self,
        core: &mut MarkedCore,
        alloc: Global,
        own: u64,
        most: Option<usize>,
        piece: &[u8],
    ) -> Result<Fed, NoMemory>
        requires open { self.old.is_over ≡ false }
        requires own { is_set core.old.flagged own ≡ true }
        ensures ok { IfOk result (λ fed. IsOutcome fed core.old.core self.old (cut (is_none self.old.session) (self.old.kept ++ piece.now)) core.new.core self.new) }
        ensures marks { IfOk result (λ fed. Ends fed own most core.old self.old.session core.new self.new.session) }
        ensures err { OnErr result (self.new ≡ self.old) }
        ensures core { OnErr result (core.new ≡ core.old) }
    {
        let Stage::Open(stream) = &mut self.stage else {
            unreachable!();
        };
        let fed = stream.feed(core, alloc, own, most, piece)?;
        if let Fed::Over(end) = fed {
            let session = stream.session;
            self.stage = stage_after(end, session);
        }
        Ok(fed)
    }

    /// Ends the connection, and hangs its session up, if there is one. What was not stepped is dropped. An
    /// `Err` changes nothing.
    pub fn hang_up(&mut self, core: &mut MarkedCore, alloc: Global) -> Result<(), NoMemory>
        requires { self.old.is_over ≡ false }
        ensures ok { OnOk result (self.new ≡ record self.old { kept = []; is_over = true }) }
        ensures core { OnOk result (core.new.core ≡ after_steps (hang_up_of self.old.session) core.old.core) }
        ensures marks { OnOk result (Follows core.old core.new) }
        ensures err { OnErr result (self.new ≡ self.old) }
        ensures same { OnErr result (core.new ≡ core.old) }
    {
        let Stage::Open(stream) = &self.stage else {
            unreachable!();
        };
        let session = stream.session;
        hang_up(core, alloc, session)?;
        self.stage = stage_behind(session);
        Ok(())
    }

    /// Puts the spellings of what the connection was answered and has not taken at the end of a buffer, and leaves
    /// none. An `Err` changes nothing, and leaves what stood in the buffer.
    pub fn take_into(&mut self, core: &mut MarkedCore, out: &mut Vec<u8>) -> Result<(), NoMemory>
        requires { IsSome (spell_answers (untaken core.old.core self.old)) }
        ensures put { OnOk result ((Some out.old.items ⊕ spell_answers (untaken core.old.core self.old)) ≡ Some out.new.items) }
        ensures ok { OnOk result (self.new ≡ record self.old { has_refusal = false }) }
        ensures core { OnOk result (core.new ≡ record core.old { core = core_after_take core.old.core self.old.session }) }
        ensures err { OnErr result (self.new ≡ self.old) }
        ensures same { OnErr result (core.new ≡ core.old) }
        ensures kept { OnErr result (out.new.items ≡ out.old.items) }
    {
        match &self.stage {
            Stage::Open(stream) => take_answers(core, stream.session, out),
            Stage::Ended(sid) => take_answers(core, Some(*sid), out),
            Stage::Refused => {
                let refusal = Answer::Refused(Rule::BadKey);
                put_answers(out, slice::from_ref(&refusal))?;
                self.stage = Stage::Closed;
                Ok(())
            }
            Stage::Closed => take_answers(core, None, out),
        }
    }

    /// Leaves nothing of what the connection was answered and has not taken. Takes no memory.
    pub fn discard(&mut self, core: &mut MarkedCore)
        ensures ok { self.new ≡ record self.old { has_refusal = false } }
        ensures core { core.new ≡ record core.old { core = core_after_take core.old.core self.old.session } }
    {
        match &self.stage {
            Stage::Open(stream) => clear(core, stream.session),
            Stage::Ended(sid) => clear(core, Some(*sid)),
            Stage::Refused => self.stage = Stage::Closed,
            Stage::Closed => {}
        }
    }
}
