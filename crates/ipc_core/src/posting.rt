//! What a step answers is put into outboxes.

ghost use Rattle.std.specs.Prelude.{◌≡◌, true, ℕ, ◌||◌, [], ◌∷◌, ◌++◌, filter, OnOk};
ghost use Rattle.std.specs.Option.{option_to_list};
ghost use Rattle.ipc_policy.specs.Decides.Sessions.{live};
ghost use Rattle.ipc_policy.specs.Decides.Verdict.{for_session};
ghost use Rattle.ipc_core.specs.Boxes.{untaken_by};
ghost use Rattle.ipc_core.specs.Outboxes.{HasRooms, told_list, starts};

use crate::answer::Told;
use crate::outboxes::Outboxes;
use ipc_state::Lookup;
use ipc_terms::{Answer, Event, NoMemory, Rule, Sid};

/// How many answers one step gives a session at most.
const MOST: usize = 2;

/// Whether a session starts where this is the verdict on the event.
pub fn starts(rule: Option<Rule>, event: &Event) -> bool
    ensures { result ≡ starts rule event.now }
{
    match rule {
        Some(_) => false,
        None => matches!(event, Event::Hello { .. }),
    }
}

/// The session that is hung up where this is the verdict on the event.
pub fn hung_up(rule: Option<Rule>, event: &Event) -> Option<Sid> {
    match (rule, event) {
        (None, Event::Hangup { sid }) => Some(*sid),
        _ => None,
    }
}

/// What a step answers to sessions that are live, or to the one that starts.
pub fn for_live(told: Told, lookup: &Lookup<'_>, is_new: bool) -> Told
    ensures { told_list result ≡ filter (λ p. is_new || live lookup.now.history p.0.0) (told_list told) }
{
    if are_live(&told, lookup, is_new) {
        return told;
    }
    match told {
        Told::Nothing => Told::Nothing,
        Told::One(answer) => Told::of(if_live(answer, lookup, is_new), None),
        Told::Two(caller, other) => Told::of(
            if_live(caller, lookup, is_new),
            if_live(other, lookup, is_new),
        ),
    }
}

/// Whether each answer is for a session that is live, or for the one that starts.
fn are_live(told: &Told, lookup: &Lookup<'_>, is_new: bool) -> bool
    ensures { result ≡ true → filter (λ p. is_new || live lookup.now.history p.0.0) (told_list told.now) ≡ told_list told.now }
{
    match told {
        Told::Nothing => true,
        Told::One((sid, _)) => is_new || lookup.is_session_live(*sid),
        Told::Two((caller, _), (other, _)) => {
            lookup.is_session_live(*caller) && lookup.is_session_live(*other)
        }
    }
}

/// The answer, if its session is live or starts.
fn if_live(answer: (Sid, Answer), lookup: &Lookup<'_>, is_new: bool) -> Option<(Sid, Answer)>
    ensures { option_to_list result ≡ filter (λ p. is_new || live lookup.now.history p.0.0) (answer ∷ []) }
{
    if is_new || lookup.is_session_live(answer.0) {
        return Some(answer);
    }
    None
}

/// Makes room for what a step answers. An `Err` leaves the answers as they were; the room may differ.
pub fn make_room(outboxes: &mut Outboxes, told: &Told) -> Result<(), NoMemory>
    ensures kept { (s : ℕ) → untaken_by outboxes.new s ≡ untaken_by outboxes.old s }
    ensures room { OnOk result (HasRooms (told_list told.now) outboxes.new) }
{
    match told {
        Told::Nothing => {}
        Told::One((sid, _)) => outboxes.reserve(*sid, MOST)?,
        Told::Two((caller, _), (other, _)) => {
            outboxes.reserve(*caller, MOST)?;
            outboxes.reserve(*other, MOST)?;
        }
    }
    Ok(())
}

/// Puts each answer at the end of its session's outbox, and closes that of the session that was hung up.
/// Takes no memory.
pub fn put_all(outboxes: &mut Outboxes, told: Told, hung_up: Option<Sid>)
    requires { HasRooms (told_list told) outboxes.old }
    ensures { (s : ℕ) → untaken_by outboxes.new s ≡ untaken_by outboxes.old s ++ for_session s (told_list told) }
{
    match told {
        Told::Nothing => {}
        Told::One(answer) => outboxes.put(answer.0, answer.1),
        Told::Two(caller, other) => {
            outboxes.put(caller.0, caller.1);
            outboxes.put(other.0, other.1);
        }
    }
    if let Some(sid) = hung_up {
        outboxes.close(sid);
    }
}
