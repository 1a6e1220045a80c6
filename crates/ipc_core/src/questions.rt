//! What answers ask of a lookup.

ghost use Rattle.std.specs.Prelude.{◌≡◌, length, option_and_then, IfOk};
ghost use Rattle.std.specs.Option.{option_map};
ghost use Rattle.ipc_terms.specs.Lists.{first};
ghost use Rattle.ipc_terms.specs.Pages.{page};
ghost use Rattle.ipc_terms.specs.Lines.{lines};
ghost use Rattle.ipc_policy.specs.Decides.Queues.{next};
ghost use Rattle.ipc_state.specs.StateView.{brought, queue_by, semaphore_by, value_by};
ghost use Rattle.ipc_state.specs.Meetings.{by_description};

use crate::message::Message;
use ipc_state::Lookup;
use ipc_terms::{Lines, NoMemory, Sid};
use std::alloc::Global;

/// How many messages the queue has that the caller has by the description of the event.
pub fn messages_held(lookup: &Lookup<'_>) -> Option<u32>
    ensures { result ≡ option_map (λ q. length q.contents) (by_description (queue_by lookup.now.config lookup.now.history) lookup.now.event) }
{
    let queue = lookup.queue()?;
    Some(queue.len() as u32)
}

/// The message that the caller's receive would get at once.
pub fn next_held<'a>(lookup: &Lookup<'a>) -> Option<Message<'a>>
    ensures { result ≡ option_and_then (λ q. option_map brought (next q.contents)) (by_description (queue_by lookup.now.config lookup.now.history) lookup.now.event) }
{
    let queue = lookup.queue()?;
    let next = queue.next_message()?;
    Some(Message {
        priority: next.priority,
        bytes: &next.bytes,
    })
}

/// A page of the audit's lines; no memory where it begins before the oldest record that is left.
pub fn lines_shown(
    lookup: &Lookup<'_>,
    alloc: Global,
    start: u64,
    count: u16,
) -> Result<Lines, NoMemory>
    ensures { IfOk result (λ shown. shown ≡ page start count (lines lookup.now.history)) }
{
    let trail = lookup.trail();
    if start < trail.first() {
        return Err(NoMemory);
    }
    Ok(trail.page(alloc, start, count)?)
}

/// The session whose receive has been parked longest on the queue that the session has by the
/// description.
pub fn receiver_held(lookup: &Lookup<'_>) -> Option<Sid>
    ensures { result ≡ option_and_then (λ q. option_map (λ w. record { 0 = w.session }) (first q.receivers)) (by_description (queue_by lookup.now.config lookup.now.history) lookup.now.event) }
{
    let queue = lookup.queue()?;
    queue.receiver()
}

/// The session whose send has been parked longest on the queue that the session has by the
/// description.
pub fn sender_held(lookup: &Lookup<'_>) -> Option<Sid>
    ensures { result ≡ option_and_then (λ q. option_map (λ m. record { 0 = m.session }) (first q.senders)) (by_description (queue_by lookup.now.config lookup.now.history) lookup.now.event) }
{
    let queue = lookup.queue()?;
    queue.sender()
}

/// The value of the semaphore that the caller has by the description of the event.
pub fn value_held(lookup: &Lookup<'_>) -> Option<u32>
    ensures { result ≡ by_description (value_by lookup.now.config lookup.now.history) lookup.now.event }
{
    let semaphore = lookup.semaphore()?;
    Some(semaphore.value())
}

/// The session whose wait has been parked longest on the semaphore that the session has by the
/// description.
pub fn waiter_held(lookup: &Lookup<'_>) -> Option<Sid>
    ensures { result ≡ option_and_then (λ q. option_map (λ w. record { 0 = w.session }) (first q.waiters)) (by_description (semaphore_by lookup.now.config lookup.now.history) lookup.now.event) }
{
    let semaphore = lookup.semaphore()?;
    semaphore.waiter()
}
