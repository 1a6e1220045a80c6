//! Whether the same lives in two states.

ghost use Rattle.std.specs.Prelude.{◌≡◌, ◌<◌, ◌≤◌, ℕ, true, false, Some, None, map, slice_get};
ghost use Rattle.ipc_terms.specs.Objects.{of_queue};
ghost use Rattle.ipc_terms.specs.declared.binding.Binding.{Binding};
ghost use Rattle.ipc_access.specs.declared.users.User.{User};
ghost use Rattle.ipc_terms.specs.declared.ids.Uid.{Uid};
ghost use Rattle.ipc_descr.specs.Charges.{limit_of};
ghost use Rattle.ipc_queue.specs.Contents.{of_priority};
ghost use Rattle.ipc_policy.specs.Decides.History.{History};
ghost use Rattle.ipc_policy.specs.Decides.Sessions.{live};
ghost use Rattle.ipc_living.specs.Living.{SameLiving, AreSenders};
ghost use Rattle.ipc_living.specs.Rows.{letter_kept, letters_kept, limit_carried, SameLetters, SameRow, SameBinding, SameDirectory};

use crate::senders::Senders;
use ipc_access::Users;
use ipc_names::NameDir;
use ipc_queue::{Queue, Ticket};
use ipc_state::State;
use ipc_tables::{Body, ObjectRow, Tables};
use ipc_terms::{Attributes, Family, Kind, Sid, Uid};

/// Whether the same lives in both, each under its configuration, by who sent the messages of each, and nobody in the second. A no
/// says nothing.
pub fn same_living(old: &State, by_old: &Senders, new: &State, by_new: &Senders) -> bool
    requires old { AreSenders by_old.now old.now.history }
    requires new { AreSenders by_new.now new.now.history }
    ensures { result ≡ true → SameLiving old.now.config old.now.history new.now.config new.now.history }
{
    if !is_empty(new) {
        return false;
    }
    if old.time() != new.time() {
        return false;
    }
    let (a, b) = (old.tables(), new.tables());
    if !same_limits(&old.config().users, a, &new.config().users, b) {
        return false;
    }
    if !same_names(a, b, by_old, by_new, Family::Mq) {
        return false;
    }
    same_names(a, b, by_old, by_new, Family::Sem)
}

/// Whether no session is live.
fn is_empty(state: &State) -> bool
    ensures { result ≡ true → (s : ℕ) → live state.now.history s ≡ false }
{
    let started = state.tables().session_count() as u64;
    for number in 0..started {
        if state.is_live(Sid(number)) {
            return false;
        }
    }
    true
}

/// Whether each of the second users has the limit that it takes along from the first tables.
fn same_limits(users: &Users, a: &Tables, others: &Users, b: &Tables) -> bool
    ensures { result ≡ true → (i : ℕ) (user : User) → slice_get others.now i ≡ Some user → limit_carried users.now a.now.charges others.now user.cred.uid ≡ limit_of b.now.charges user.cred.uid.0 }
{
    for user in others.as_slice() {
        let uid = user.cred.uid;
        if carried_limit(users, a, others, uid) != b.charges().limit(uid) {
            return false;
        }
    }
    true
}

/// The limit that a user of other users has from now on: the one that was set, or else its own. 0 if it is none of them.
pub fn carried_limit(users: &Users, tables: &Tables, others: &Users, uid: Uid) -> u64
    ensures { result ≡ limit_carried users.now tables.now.charges others.now uid }
{
    let Some(other) = others.cred(uid) else {
        return 0;
    };
    let Some(first) = users.cred(uid) else {
        return other.limit;
    };
    let now = tables.charges().limit(uid);
    if now == first.limit { other.limit } else { now }
}

/// Whether the same names of the family are bound in the same order, to what is alike, and the directories are alike.
fn same_names(a: &Tables, b: &Tables, by_a: &Senders, by_b: &Senders, family: Family) -> bool
    ensures { (h h' : History) → AreSenders by_a.now h → AreSenders by_b.now h' → result ≡ true → SameDirectory h a.now h' b.now family }
{
    let (names, others) = (a.names(family), b.names(family));
    if !same_facts(names, others) {
        return false;
    }
    if names.len() != others.len() {
        return false;
    }
    for index in 0..names.len() {
        if !same_binding(a, b, by_a, by_b, names, others, index) {
            return false;
        }
    }
    true
}

/// Whether the directories have one owner, group and mode.
fn same_facts(names: &NameDir, others: &NameDir) -> bool
    ensures { result ≡ true → names.now.facts ≡ others.now.facts }
{
    names.facts() == others.facts()
}

/// Whether the bindings of this turn are alike.
fn same_binding(
    a: &Tables,
    b: &Tables,
    by_a: &Senders,
    by_b: &Senders,
    names: &NameDir,
    others: &NameDir,
    index: usize,
) -> bool
    ensures { (h h' : History) (x y : Binding) → AreSenders by_a.now h → AreSenders by_b.now h' → slice_get names.now.bindings index ≡ Some x → slice_get others.now.bindings index ≡ Some y → result ≡ true → SameBinding h a.now x h' b.now y }
{
    let Some((name, object)) = names.binding(index) else {
        return false;
    };
    let Some((other_name, other)) = others.binding(index) else {
        return false;
    };
    if name.as_slice() != other_name.as_slice() {
        return false;
    }
    let Some(row) = a.object(object) else {
        return false;
    };
    let Some(other_row) = b.object(other) else {
        return false;
    };
    same_row(row, other_row, by_a, by_b)
}

/// Whether two objects are alike, by who sent the messages of each.
fn same_row(a: &ObjectRow, b: &ObjectRow, by_a: &Senders, by_b: &Senders) -> bool
    ensures { (h h' : History) → AreSenders by_a.now h → AreSenders by_b.now h' → result ≡ true → SameRow h a.now h' b.now }
{
    if a.object.creator != b.object.creator || a.facts != b.facts {
        return false;
    }
    if attributes_of(a.object.kind) != attributes_of(b.object.kind) {
        return false;
    }
    match (&a.body, &b.body) {
        (Body::Queue(x), Body::Queue(y)) => same_letters(x, y, by_a, by_b),
        (Body::Semaphore(x), Body::Semaphore(y)) => x.value() == y.value(),
        _ => false,
    }
}

/// The attributes of a queue.
fn attributes_of(kind: Kind) -> Option<Attributes>
    ensures { result ≡ of_queue kind }
{
    match kind {
        Kind::Queue(attributes) => Some(attributes),
        Kind::Semaphore(_) => None,
    }
}

/// Whether of each priority the same messages stand in both queues, in the same order, and of the same users.
fn same_letters(a: &Queue, b: &Queue, by_a: &Senders, by_b: &Senders) -> bool
    ensures { (h h' : History) → AreSenders by_a.now h → AreSenders by_b.now h' → result ≡ true → SameLetters h a.now.tickets h' b.now.tickets }
{
    let mut from = 0;
    for _ in 0..u64::MAX {
        let next = a.next_priority(from);
        if next != b.next_priority(from) {
            return false;
        }
        let Some(priority) = next else {
            return true;
        };
        if !same_bucket(a, b, by_a, by_b, priority) {
            return false;
        }
        let Some(after) = priority.checked_add(1) else {
            return false;
        };
        from = after;
    }
    false
}

/// Whether the messages of this priority are alike.
fn same_bucket(a: &Queue, b: &Queue, by_a: &Senders, by_b: &Senders, priority: u64) -> bool
    ensures { (h h' : History) → AreSenders by_a.now h → AreSenders by_b.now h' → result ≡ true → letters_kept h priority a.now.tickets ≡ letters_kept h' priority b.now.tickets }
{
    for index in 0..usize::MAX {
        let Some(ticket) = a.message(priority, index) else {
            return has_ended(b, priority, index);
        };
        let Some(other) = b.message(priority, index) else {
            return false;
        };
        if !same_letter(ticket, other, by_a, by_b) {
            return false;
        }
    }
    false
}

/// Whether the queue has no message of this priority at this index.
fn has_ended(queue: &Queue, priority: u64, index: usize) -> bool
    ensures { result ≡ true → slice_get (of_priority priority queue.now.tickets) index ≡ None }
{
    match queue.message(priority, index) {
        Some(_) => false,
        None => true,
    }
}

/// Whether two messages are alike.
fn same_letter(a: &Ticket, b: &Ticket, by_a: &Senders, by_b: &Senders) -> bool
    ensures { (h h' : History) → AreSenders by_a.now h → AreSenders by_b.now h' → result ≡ true → letter_kept h a.now ≡ letter_kept h' b.now }
{
    if a.priority != b.priority {
        return false;
    }
    if a.bytes.as_slice() != b.bytes.as_slice() {
        return false;
    }
    same_sender(by_a.user(a.place), by_b.user(b.place))
}

/// Whether both senders are known, and one user.
fn same_sender(a: Option<Uid>, b: Option<Uid>) -> bool
    ensures { result ≡ true → (u : Uid) × (a ≡ Some u) × (b ≡ Some u) }
{
    match (a, b) {
        (Some(x), Some(y)) => x == y,
        _ => false,
    }
}
