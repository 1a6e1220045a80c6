//! Stepping the requests in front of a connection's bytes.

ghost use Rattle.std.specs.Prelude.{◌≡◌, ◌∷◌, ◌≤◌, ◌<◌, ◌+◌, [], Bool, true, Some, None, is_none, length, IfOk, OnOk, OnErr, if◌then◌else◌};
ghost use Rattle.ipc_core.specs.Outboxes.{after_step, after_steps};
ghost use Rattle.ipc_wire.specs.Requests.{is_hello_request, same};
ghost use Rattle.ipc_hub.specs.Hub.{session_or_next, from_kept, event_of, is_hello_refused, hang_up_of, untaken_of};
ghost use Rattle.ipc_hub.specs.Marking.{is_set};
ghost use Rattle.ipc_hub.specs.MarkedCore.{Follows, GainsAtMostTwo};
ghost use Rattle.ipc_hub.specs.Stepping.{StepsFrames, IsEnd, Starts, Ends, is_full, count_of};

use crate::fed::{End, Fed};
use crate::marked_core::MarkedCore;
use ipc_core::Core;
use ipc_terms::{Call, Event, NoMemory, Sid};
use ipc_wire::{ReadFault, Request, read_request};
use std::alloc::Global;

/// Lets an audit begin at the oldest record that is kept, where it would begin before it.
#[inline(always)]
fn begin_at_kept(first: u64, call: &mut Call)
    ensures { call.new ≡ from_kept first call.old }
{
    if let Call::Audit { start, .. } = call {
        *start = (*start).max(first);
    }
}

/// Steps a request of the connection with this session, and gives the session that it has then; none where its
/// hello is refused. An `Err` changes nothing.
fn step_request(
    core: &mut MarkedCore,
    alloc: Global,
    own: u64,
    session: Option<Sid>,
    request: Request,
) -> Result<Option<Sid>, NoMemory>
    requires order { same (is_hello_request request) (is_none session) ≡ true }
    requires own { is_set core.old.flagged own ≡ true }
    ensures session { IfOk result (λ later. later ≡ (if is_hello_refused core.old.core session (request ∷ []) then None else Some (session_or_next core.old.core session))) }
    ensures ok { OnOk result (core.new.core ≡ after_step (event_of core.old.core (session_or_next core.old.core session) request) core.old.core) }
    ensures marks { OnOk result (Follows core.old core.new) }
    ensures starts { IfOk result (λ later. Starts core.new own session later) }
    ensures refused { IfOk result (λ later. later ≡ None → is_set core.new.marked own ≡ true) }
    ensures few { IfOk result (λ later. count_of core.new later ≤ count_of core.old session + 2) }
    ensures err { OnErr result (core.new ≡ core.old) }
{
    match request {
        Request::Hello(key) => Ok(core.hello(alloc, own, &key)?),
        Request::Do(mut call) => {
            let sid = session.unwrap_or(Sid::NOBODY);
            begin_at_kept(core.core().trail().first(), &mut call);
            core.post(alloc, Event::Do { sid, call })?;
            Ok(Some(sid))
        }
    }
}

/// Hangs the session up, if there is one. An `Err` changes nothing.
pub fn hang_up(core: &mut MarkedCore, alloc: Global, session: Option<Sid>) -> Result<(), NoMemory>
    ensures ok { OnOk result (core.new.core ≡ after_steps (hang_up_of session) core.old.core) }
    ensures marks { OnOk result (Follows core.old core.new) }
    ensures few { OnOk result (GainsAtMostTwo core.old.core core.new.core) }
    ensures err { OnErr result (core.new ≡ core.old) }
{
    if let Some(sid) = session {
        core.hang_up(alloc, sid)?;
    }
    Ok(())
}

/// How many answers the session has not taken; none, where there is no session.
pub fn untaken_of(core: &Core, session: Option<Sid>) -> usize
    ensures { result ≡ length (untaken_of core.now session) }
{
    match session {
        Some(sid) => core.waiting(sid),
        None => 0,
    }
}

/// Whether as many answers of the session are untaken as are allowed.
fn is_full(core: &Core, session: Option<Sid>, most: Option<usize>) -> bool
    ensures { result ≡ is_full most (length (untaken_of core.now session)) }
{
    match most {
        Some(most) => most <= untaken_of(core, session),
        None => false,
    }
}

/// Steps the requests of the whole frames in front, up to a fault, a refused hello, the first step that runs out of
/// memory, or as many untaken answers as are allowed, and gives the bytes that were not stepped. At a fault the
/// session is hung up.
pub fn step_frames<'a>(
    core: &mut MarkedCore,
    alloc: Global,
    own: u64,
    most: Option<usize>,
    session: &mut Option<Sid>,
    bytes: &'a [u8],
) -> (Fed, &'a [u8])
    requires { is_set core.old.flagged own ≡ true }
    ensures steps { StepsFrames result.0 core.old.core session.old bytes.now core.new.core session.new result.1.now }
    ensures rest { IsEnd result.1.now bytes.now }
    ensures marks { Ends result.0 own most core.old session.old core.new session.new }
{
    let mut rest = bytes;
    'frames: loop {
        if is_full(core.core(), *session, most) {
            return (Fed::Full, rest);
        }
        match read_request(alloc, session.is_none(), rest) {
            Ok(Some((request, behind))) => {
                match step_request(core, alloc, own, *session, request) {
                    Ok(Some(sid)) => {
                        *session = Some(sid);
                        rest = behind;
                    }
                    Ok(None) => return (Fed::Over(End::BadKey), rest),
                    Err(NoMemory) => return (Fed::Short, rest),
                }
            }
            Ok(None) => return (Fed::Done, rest),
            Err(ReadFault::Wire(fault)) => {
                return match hang_up(core, alloc, *session) {
                    Ok(()) => (Fed::Over(End::Wire(fault)), rest),
                    Err(NoMemory) => (Fed::Short, rest),
                };
            }
            Err(ReadFault::NoMemory) => return (Fed::Short, rest),
        }
    }
}
