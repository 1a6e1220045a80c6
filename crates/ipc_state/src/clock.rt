//! The clock: the time, and the timed calls that are parked.

ghost use Rattle.std.specs.Prelude.{◌≡◌, ◌&&◌, find, length, max, is_none, Some, OnOk, OnErr};
ghost use Rattle.std.specs.Option.{option_map, IfSome};
ghost use Rattle.ipc_terms.specs.Events.{caller};
ghost use Rattle.ipc_terms.specs.Timed.{deadline};
ghost use Rattle.ipc_containers.specs.Calls.{is_over};
ghost use Rattle.ipc_policy.specs.Decides.Timed.{told};
ghost use Rattle.ipc_policy.specs.Follows.CallLists.{dropped, joined};
ghost use Rattle.ipc_state.specs.OnTime.{MayCome, new_call, session_of, with_calls};

use ipc_containers::{Timed, TimedCalls};
use ipc_terms::{Call, Event, NoMemory, Rule, Sid};
use ipc_trail::Trail;
use std::alloc::Global;

/// The time, which ticks tell, and the parked calls that wait no longer than to their deadlines.
#[derive(Drop)]
pub struct Clock {
    pub(crate) time: u64,
    pub(crate) calls: TimedCalls,
}

/// The session whose call a tick of this moment ends, if there is one.
pub(crate) fn due_at(clock: &Clock, moment: u64) -> Option<Sid>
    ensures { result ≡ option_map (λ t. t.session) (find (is_over (max moment clock.now.time)) clock.now.calls) }
{
    clock.calls.due(moment.max(clock.time))
}

/// The timed call that parks, if the event is one.
pub(crate) fn timed_call(
    past: &Trail,
    event: &Event,
    rule: Option<Rule>,
    parks: bool,
) -> Option<Timed>
    ensures { result ≡ new_call (is_none rule && parks) (deadline event.now) (length past.now.history) (caller event.now) }
{
    if rule.is_some() || !parks {
        return None;
    }
    let deadline = deadline_in(event)?;
    Some(Timed {
        place: past.len() as u64,
        session: event.caller(),
        deadline,
    })
}

/// The deadline of a timed call.
pub(crate) fn deadline_in(event: &Event) -> Option<u64>
    ensures { result ≡ deadline event.now }
{
    let Event::Do { call, .. } = event else {
        return None;
    };
    match call {
        Call::MqTimedSend { deadline, .. } => Some(*deadline),
        Call::MqTimedReceive { deadline, .. } => Some(*deadline),
        Call::SemTimedWait { deadline, .. } => Some(*deadline),
        _ => None,
    }
}

/// The call comes, if there is one. An `Err` changes nothing.
pub(crate) fn push(clock: &mut Clock, alloc: Global, call: Option<Timed>) -> Result<(), NoMemory>
    requires { IfSome call (λ x. MayCome x clock.old.calls) }
    ensures ok { OnOk result (clock.new ≡ with_calls (joined call clock.old.calls) clock.old) }
    ensures err { OnErr result (clock.new ≡ clock.old) }
{
    if let Some(call) = call {
        clock.calls.push(alloc, call)?;
    }
    Ok(())
}

/// The session of the call, if there is one.
pub(crate) fn session_in(call: Option<Timed>) -> Option<Sid>
    ensures { result ≡ option_map (λ x. x.session) call }
{
    match call {
        Some(call) => Some(call.session),
        None => None,
    }
}

/// The session's call goes, if there is one.
pub(crate) fn leave(clock: &mut Clock, gone: Option<Sid>)
    ensures { clock.new ≡ with_calls (dropped session_of (option_map (λ s. s.0) gone) clock.old.calls) clock.old }
{
    if let Some(sid) = gone {
        clock.calls.end(sid);
    }
}

/// A tick tells the time.
pub(crate) fn tell(clock: &mut Clock, event: &Event)
    ensures { clock.new ≡ record clock.old { time = told event.now clock.old.time } }
{
    if let Event::Tick { moment } = event {
        clock.time = (*moment).max(clock.time);
    }
}
