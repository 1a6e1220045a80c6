//! What rows of the tables say.

ghost use Rattle.std.specs.Prelude.{◌≡◌, ◌==◌, length, is_some, option_and_then};
ghost use Rattle.std.specs.Option.{option_map, option_copied};
ghost use Rattle.ipc_terms.specs.Lists.{first};
ghost use Rattle.ipc_queue.specs.Tickets.{is_full_of};
ghost use Rattle.ipc_tables.specs.Objects.{row_at, queue_in, semaphore_in};
ghost use Rattle.ipc_tables.specs.TablesView.{is_live_row};
ghost use Rattle.ipc_policy.specs.Decides.History.{is_some_and};
ghost use Rattle.ipc_state.specs.Agrees.{held_in};
ghost use Rattle.ipc_state.specs.Rows.{user_in, row_meant, number_meant};

use ipc_access::Cred;
use ipc_descr::{Descrs, Row};
use ipc_policy::{Config, Held, description_of, naming_of};
use ipc_queue::Queue;
use ipc_sem::Sem;
use ipc_tables::{Body, ObjectRow, Session, Tables};
use ipc_terms::{Event, Facts, Object, Sid};

/// The user of the session.
pub fn user_in(config: &Config, session: Option<Session>) -> Option<&Cred>
    ensures { option_copied result ≡ user_in config.now session }
{
    config.users.cred(session?.user)
}

/// The row by which the caller holds the description that the event names.
pub fn row_meant<'a>(descriptions: &'a Descrs, event: &Event) -> Option<&'a Row>
    ensures { option_copied result ≡ row_meant descriptions.now event.now }
{
    let Event::Do { sid, call } = event else {
        return None;
    };
    let named = description_of(call)?;
    descriptions.get(*sid, named.desc)
}

/// The object to which the name is bound that the event names.
pub fn number_meant(tables: &Tables, event: &Event) -> Option<u64>
    ensures { result ≡ number_meant tables.now event.now }
{
    let what = naming_of(event)?;
    tables.names(what.family).get(what.name)
}

/// The number of the object that the row gives.
pub fn number_in(row: Option<&Row>) -> Option<u64>
    ensures { result ≡ option_map (λ row. row.object) (option_copied row.entry) }
{
    Some(row?.object)
}

/// The object that the row gives.
pub fn given_by<'a>(tables: &'a Tables, row: Option<&Row>) -> Option<&'a ObjectRow>
    ensures { option_copied result ≡ option_and_then (λ r. row_at tables.now.objects r.object) (option_copied row.entry) }
{
    tables.object(row?.object)
}

/// The object of the number.
pub fn object_at(tables: &Tables, number: Option<u64>) -> Option<&ObjectRow>
    ensures { option_copied result ≡ option_and_then (row_at tables.now.objects) number }
{
    tables.object(number?)
}

pub fn is_live_in(session: Option<Session>) -> bool
    ensures { result ≡ is_live_row session }
{
    match session {
        Some(session) => session.is_live,
        None => false,
    }
}

/// Whether a call of the session is parked.
pub fn is_parked_in(session: Option<Session>) -> bool
    ensures { result ≡ is_some (option_and_then (λ row. row.parked_on) session) }
{
    match session {
        Some(session) => session.parked_on.is_some(),
        None => false,
    }
}

/// What the row gives.
pub fn held_in(row: Option<&Row>) -> Option<Held>
    ensures { result ≡ option_map held_in (option_copied row.entry) }
{
    row.map(|row| Held {
        session: row.session,
        object: row.object,
        access: row.access,
    })
}

pub fn object_in(row: Option<&ObjectRow>) -> Option<Object>
    ensures { result ≡ option_map (λ row. row.object) (option_copied row.entry) }
{
    row.map(|row| row.object)
}

pub fn facts_in(row: Option<&ObjectRow>) -> Option<Facts>
    ensures { result ≡ option_map (λ row. row.facts) (option_copied row.entry) }
{
    row.map(|row| row.facts)
}

/// Whether calls by the description are refused where they would park.
pub fn is_nonblock_in(row: Option<&Row>) -> bool
    ensures { result ≡ is_some_and (λ row. row.nonblock) (option_copied row.entry) }
{
    match row {
        Some(row) => row.nonblock,
        None => false,
    }
}

pub fn queue_in(row: Option<&ObjectRow>) -> Option<&Queue>
    ensures { option_copied result ≡ option_and_then (λ r. queue_in r.body) (option_copied row.entry) }
{
    match &row?.body {
        Body::Queue(queue) => Some(queue),
        Body::Semaphore(_) => None,
    }
}

pub fn semaphore_in(row: Option<&ObjectRow>) -> Option<&Sem>
    ensures { option_copied result ≡ option_and_then (λ r. semaphore_in r.body) (option_copied row.entry) }
{
    match &row?.body {
        Body::Queue(_) => None,
        Body::Semaphore(semaphore) => Some(semaphore),
    }
}

/// Whether there is a queue, and it has as many messages as it may.
pub fn is_full_queue(queue: Option<&Queue>) -> bool
    ensures { result ≡ is_some_and is_full_of (option_copied queue.entry) }
{
    match queue {
        Some(queue) => queue.is_full(),
        None => false,
    }
}

/// Whether there is a queue, and it has no messages.
pub fn is_empty_queue(queue: Option<&Queue>) -> bool
    ensures { result ≡ is_some_and (λ q. length q.tickets == 0) (option_copied queue.entry) }
{
    match queue {
        Some(queue) => queue.len() == 0,
        None => false,
    }
}

/// Whether there is a queue, and a description is registered for its notice.
pub fn has_registration(queue: Option<&Queue>) -> bool
    ensures { result ≡ is_some_and (λ q. is_some q.registered) (option_copied queue.entry) }
{
    match queue {
        Some(queue) => queue.registered().is_some(),
        None => false,
    }
}

/// Whether there is a semaphore, and this is its value.
pub fn has_value(semaphore: Option<&Sem>, value: u32) -> bool
    ensures { result ≡ is_some_and (λ q. q.value == value) (option_copied semaphore.entry) }
{
    match semaphore {
        Some(semaphore) => semaphore.value() == value,
        None => false,
    }
}

/// The session whose receive from the queue has been parked longest.
pub fn receiver_in(queue: Option<&Queue>) -> Option<Sid>
    ensures { result ≡ option_and_then (λ q. first q.receivers) (option_copied queue.entry) }
{
    queue?.receiver()
}

/// The session whose send to the queue has been parked longest.
pub fn sender_in(queue: Option<&Queue>) -> Option<Sid>
    ensures { result ≡ option_and_then (λ q. option_map (λ sender. sender.session) (first q.senders)) (option_copied queue.entry) }
{
    queue?.sender()
}

/// The session whose wait for the semaphore has been parked longest.
pub fn waiter_in(semaphore: Option<&Sem>) -> Option<Sid>
    ensures { result ≡ option_and_then (λ q. first q.waiters) (option_copied semaphore.entry) }
{
    semaphore?.waiter()
}
