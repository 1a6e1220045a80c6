//! The rules of the policy, each by its name, and the verdict: the first that forbids.

ghost use Rattle.std.specs.Prelude.{◌≡◌, false, Some};
ghost use Rattle.ipc_terms.specs.Timed.{plain};
ghost use Rattle.ipc_policy.specs.Decides.Names.{creating, opening};
ghost use Rattle.ipc_policy.specs.Decides.Rules.{no_session, in_call, not_in_call, name_form, name_long, not_admin, no_user, bad_descr, not_for_write, not_for_read, dir_search, dir_read, absent, present, mode_denied, dir_write, sticky, not_owner, chown_denied, attr_range, value_range, queue_count, byte_limit, descr_limit, prio_range, message_long, buffer_short, notify_taken, would_block, overflow, bad_key, timed_out, no_taker};
ghost use Rattle.ipc_policy.specs.Decides.Verdict.{verdict};
ghost use Rattle.ipc_rules.specs.Spoken.{first_of, of_messages, of_values, of_descriptions};

use crate::conditions::{
    as_queue, attributes_asked, bits_of, is_above_limit, is_chmod_denied, is_chown_denied,
    is_denied, is_denied_at, is_known, is_not_admin, is_of_family, is_out_of_range, is_read_only,
    is_removal_denied, is_too_great, is_too_long, is_too_short, is_write_only, queue_made,
};
use bitflags::Flags;
use ipc_access::{READ, SEARCH, WRITE};
use ipc_names::{has_form, is_long};
use ipc_policy::{DESCRIPTIONS_MAX, Opening, description_of, naming_of, opening_of, unlinking_of};
use ipc_state::Lookup;
use ipc_terms::{Call, Event, LIMIT_MAX, MQ_PRIO_MAX, OpenFlags, Rule};

/// The first of these rules whose function says that it forbids the event, if there is one.
macro_rules! first_of {
    ($lookup:ident, $($rule:ident => $forbids:ident,)*) => {{
        $(if $forbids($lookup) {
            return Some(Rule::$rule);
        })*
        None
    }};
}

/// The rule of the lowest number that forbids the event, if one does. Of most calls few rules speak, and only those are asked.
pub fn decide(lookup: &Lookup<'_>) -> Option<Rule>
    ensures { result ≡ verdict lookup.now.config lookup.now.history lookup.now.event }
{
    let Event::Do { call, .. } = lookup.event() else {
        return of_all(lookup);
    };
    match call {
        Call::MqSend { .. }
        | Call::MqReceive { .. }
        | Call::MqTimedSend { .. }
        | Call::MqTimedReceive { .. } => of_messages(lookup),
        Call::SemPost(_) | Call::SemWait(_) | Call::SemTryWait(_) | Call::SemTimedWait { .. } => {
            of_values(lookup)
        }
        Call::Umask(_)
        | Call::MqClose(_)
        | Call::MqGetattr(_)
        | Call::MqSetattr { .. }
        | Call::SemClose(_)
        | Call::SemGetvalue(_) => of_descriptions(lookup),
        _ => of_all(lookup),
    }
}

/// Which of the rules that speak of a send or a receive is the first that forbids it. Like all rules they are inlined: calling
/// them costs more than to see that they forbid nothing.
#[tactic(auto, unfolding(ipc_policy::specs::Decides::Rules::forbids))]
fn of_messages(lookup: &Lookup<'_>) -> Option<Rule>
    ensures { result ≡ first_of of_messages lookup.now.config lookup.now.history lookup.now.event }
{
    first_of!(lookup,
        NoSession => no_session,
        InCall => in_call,
        BadDescr => bad_descr,
        NotForWrite => not_for_write,
        NotForRead => not_for_read,
        PrioRange => prio_range,
        MessageLong => message_long,
        BufferShort => buffer_short,
        WouldBlock => would_block,
        TimedOut => timed_out,
    )
}

/// Which of the rules that speak of a post or a wait is the first that forbids it.
#[tactic(auto, unfolding(ipc_policy::specs::Decides::Rules::forbids))]
fn of_values(lookup: &Lookup<'_>) -> Option<Rule>
    ensures { result ≡ first_of of_values lookup.now.config lookup.now.history lookup.now.event }
{
    first_of!(lookup,
        NoSession => no_session,
        InCall => in_call,
        BadDescr => bad_descr,
        WouldBlock => would_block,
        Overflow => overflow,
        TimedOut => timed_out,
    )
}

/// Which of the rules that speak of a call that asks or sets something of a description alone, or of its session, is the first
/// that forbids it.
#[tactic(auto, unfolding(ipc_policy::specs::Decides::Rules::forbids))]
fn of_descriptions(lookup: &Lookup<'_>) -> Option<Rule>
    ensures { result ≡ first_of of_descriptions lookup.now.config lookup.now.history lookup.now.event }
{
    first_of!(lookup,
        NoSession => no_session,
        InCall => in_call,
        BadDescr => bad_descr,
    )
}

/// Which of all rules is the first that forbids the event.
#[tactic(auto, unfolding(ipc_policy::specs::Decides::Verdict::verdict, ipc_policy::specs::Decides::Rules::forbids))]
fn of_all(lookup: &Lookup<'_>) -> Option<Rule>
    ensures { result ≡ verdict lookup.now.config lookup.now.history lookup.now.event }
{
    first_of!(lookup,
        NoSession => no_session,
        InCall => in_call,
        NotInCall => not_in_call,
        NameForm => name_form,
        NameLong => name_long,
        NotAdmin => not_admin,
        NoUser => no_user,
        BadDescr => bad_descr,
        NotForWrite => not_for_write,
        NotForRead => not_for_read,
        DirSearch => dir_search,
        DirRead => dir_read,
        Absent => absent,
        Present => present,
        ModeDenied => mode_denied,
        DirWrite => dir_write,
        Sticky => sticky,
        NotOwner => not_owner,
        ChownDenied => chown_denied,
        AttrRange => attr_range,
        ValueRange => value_range,
        QueueCount => queue_count,
        ByteLimit => byte_limit,
        DescrLimit => descr_limit,
        PrioRange => prio_range,
        MessageLong => message_long,
        BufferShort => buffer_short,
        NotifyTaken => notify_taken,
        WouldBlock => would_block,
        Overflow => overflow,
        BadKey => bad_key,
        TimedOut => timed_out,
        NoTaker => no_taker,
    )
}

/// A call or a hang-up of a session that is not live.
#[inline(always)]
#[tactic(auto, unfolding(ipc_policy::specs::Decides::Rules::no_session))]
fn no_session(lookup: &Lookup<'_>) -> bool
    ensures { result ≡ no_session lookup.now.config lookup.now.history lookup.now.event }
{
    match lookup.event() {
        Event::Hello { .. } | Event::Tick { .. } => false,
        Event::Do { .. } | Event::Hangup { .. } => !lookup.is_live(),
    }
}

/// Any call but an interrupt while the session is parked; a hang-up is no call.
#[inline(always)]
#[tactic(auto, unfolding(ipc_policy::specs::Decides::Rules::in_call))]
fn in_call(lookup: &Lookup<'_>) -> bool
    ensures { result ≡ in_call lookup.now.config lookup.now.history lookup.now.event }
{
    match lookup.event() {
        Event::Do {
            call: Call::Interrupt,
            ..
        } => false,
        Event::Do { .. } => lookup.is_parked(),
        _ => false,
    }
}

/// An interrupt while the session is not parked.
#[inline(always)]
#[tactic(auto, unfolding(ipc_policy::specs::Decides::Rules::not_in_call))]
fn not_in_call(lookup: &Lookup<'_>) -> bool
    ensures { result ≡ not_in_call lookup.now.config lookup.now.history lookup.now.event }
{
    match lookup.event() {
        Event::Do {
            call: Call::Interrupt,
            ..
        } => !lookup.is_parked(),
        _ => false,
    }
}

/// A named call, and the name has not the form of a name.
#[inline(always)]
#[tactic(auto, unfolding(ipc_policy::specs::Decides::Rules::name_form))]
fn name_form(lookup: &Lookup<'_>) -> bool
    ensures { result ≡ name_form lookup.now.config lookup.now.history lookup.now.event }
{
    match naming_of(lookup.event()) {
        Some(what) => !has_form(what.name.as_slice()),
        None => false,
    }
}

/// A named call, and the name has more bytes in all than its family's limit.
#[inline(always)]
#[tactic(auto, unfolding(ipc_policy::specs::Decides::Rules::name_long))]
fn name_long(lookup: &Lookup<'_>) -> bool
    ensures { result ≡ name_long lookup.now.config lookup.now.history lookup.now.event }
{
    match naming_of(lookup.event()) {
        Some(what) => is_long(what.family, what.name.as_slice()),
        None => false,
    }
}

/// A SetLimit or an Audit, by another than user 0.
#[inline(always)]
#[tactic(auto, unfolding(ipc_policy::specs::Decides::Rules::not_admin))]
fn not_admin(lookup: &Lookup<'_>) -> bool
    requires { no_session lookup.now.config lookup.now.history lookup.now.event ≡ false }
    ensures { result ≡ not_admin lookup.now.config lookup.now.history lookup.now.event }
{
    match lookup.event() {
        Event::Do {
            call: Call::SetLimit { .. } | Call::Audit { .. },
            ..
        } => is_not_admin(lookup.cred()),
        _ => false,
    }
}

/// A SetLimit of no user of the file.
#[inline(always)]
#[tactic(auto, unfolding(ipc_policy::specs::Decides::Rules::no_user))]
fn no_user(lookup: &Lookup<'_>) -> bool
    ensures { result ≡ no_user lookup.now.config lookup.now.history lookup.now.event }
{
    match lookup.event() {
        Event::Do {
            call: Call::SetLimit { uid, .. },
            ..
        } => !is_known(lookup.config(), Some(*uid)),
        _ => false,
    }
}

/// A call that names a description, and the session does not hold it, or it gives an object of the
/// other family.
#[inline(always)]
#[tactic(auto, unfolding(ipc_policy::specs::Decides::Rules::bad_descr))]
fn bad_descr(lookup: &Lookup<'_>) -> bool
    ensures { result ≡ bad_descr lookup.now.config lookup.now.history (plain lookup.now.event) }
{
    let Event::Do { call, .. } = lookup.event() else {
        return false;
    };
    match description_of(call) {
        Some(named) => !is_of_family(named.family, lookup.object_held()),
        None => false,
    }
}

/// A send by a description that was opened for reading alone.
#[inline(always)]
#[tactic(auto, unfolding(ipc_policy::specs::Decides::Rules::not_for_write))]
fn not_for_write(lookup: &Lookup<'_>) -> bool
    ensures { result ≡ not_for_write lookup.now.config lookup.now.history (plain lookup.now.event) }
{
    match lookup.event() {
        Event::Do {
            call: Call::MqSend { .. } | Call::MqTimedSend { .. },
            ..
        } => is_read_only(lookup.held()),
        _ => false,
    }
}

/// A receive by a description that was opened for writing alone.
#[inline(always)]
#[tactic(auto, unfolding(ipc_policy::specs::Decides::Rules::not_for_read))]
fn not_for_read(lookup: &Lookup<'_>) -> bool
    ensures { result ≡ not_for_read lookup.now.config lookup.now.history (plain lookup.now.event) }
{
    match lookup.event() {
        Event::Do {
            call: Call::MqReceive { .. } | Call::MqTimedReceive { .. },
            ..
        } => is_write_only(lookup.held()),
        _ => false,
    }
}

/// A named call, and search on the family's directory is not granted.
#[inline(always)]
#[tactic(auto, unfolding(ipc_policy::specs::Decides::Rules::dir_search))]
fn dir_search(lookup: &Lookup<'_>) -> bool
    requires { no_session lookup.now.config lookup.now.history lookup.now.event ≡ false }
    ensures { result ≡ dir_search lookup.now.config lookup.now.history lookup.now.event }
{
    match naming_of(lookup.event()) {
        Some(what) => is_denied(lookup.cred(), lookup.directory(what.family), SEARCH),
        None => false,
    }
}

/// A listing, and read on the directory is not granted.
#[inline(always)]
#[tactic(auto, unfolding(ipc_policy::specs::Decides::Rules::dir_read))]
fn dir_read(lookup: &Lookup<'_>) -> bool
    requires { no_session lookup.now.config lookup.now.history lookup.now.event ≡ false }
    ensures { result ≡ dir_read lookup.now.config lookup.now.history lookup.now.event }
{
    match lookup.event() {
        Event::Do {
            call: Call::ListNames { family, .. },
            ..
        } => { is_denied(lookup.cred(), lookup.directory(*family), READ) }
        _ => false,
    }
}

/// An open without CREAT, or a named call that is no open, and the name is unbound.
#[inline(always)]
#[tactic(auto, unfolding(ipc_policy::specs::Decides::Rules::absent))]
fn absent(lookup: &Lookup<'_>) -> bool
    ensures { result ≡ absent lookup.now.config lookup.now.history lookup.now.event }
{
    if let Some(asked) = opening_of(lookup.event()) {
        return !asked.flags.contains(OpenFlags::CREATE) && !lookup.is_bound();
    }
    naming_of(lookup.event()).is_some() && !lookup.is_bound()
}

/// An open with CREAT and EXCL, and the name is bound.
#[inline(always)]
#[tactic(auto, unfolding(ipc_policy::specs::Decides::Rules::present))]
fn present(lookup: &Lookup<'_>) -> bool
    ensures { result ≡ present lookup.now.config lookup.now.history lookup.now.event }
{
    match opening_of(lookup.event()) {
        Some(asked) => {
            asked.flags.contains(OpenFlags::CREATE)
                && asked.flags.contains(OpenFlags::EXCLUSIVE)
                && lookup.is_bound()
        }
        None => false,
    }
}

/// An open of a bound name, and the object does not grant the wanted access.
#[inline(always)]
#[tactic(auto, unfolding(ipc_policy::specs::Decides::Rules::mode_denied))]
fn mode_denied(lookup: &Lookup<'_>) -> bool
    requires { no_session lookup.now.config lookup.now.history lookup.now.event ≡ false }
    ensures { result ≡ mode_denied lookup.now.config lookup.now.history lookup.now.event }
{
    match opening_of(lookup.event()) {
        Some(asked) => is_denied_at(lookup.cred(), lookup.facts_bound(), bits_of(asked.access)),
        None => false,
    }
}

/// A creating open, or an unlink, and write on the directory is not granted.
#[inline(always)]
#[tactic(auto, unfolding(ipc_policy::specs::Decides::Rules::dir_write))]
fn dir_write(lookup: &Lookup<'_>) -> bool
    requires { no_session lookup.now.config lookup.now.history lookup.now.event ≡ false }
    ensures { result ≡ dir_write lookup.now.config lookup.now.history lookup.now.event }
{
    if let Some(asked) = opening_of(lookup.event()) {
        return is_creating(lookup, &asked)
            && is_denied(lookup.cred(), lookup.directory(asked.family), WRITE);
    }
    match unlinking_of(lookup.event()) {
        Some(what) => is_denied(lookup.cred(), lookup.directory(what.family), WRITE),
        None => false,
    }
}

/// An unlink of a bound name in a sticky directory, by another than user 0, the object's owner
/// and the directory's.
#[inline(always)]
#[tactic(auto, unfolding(ipc_policy::specs::Decides::Rules::sticky))]
fn sticky(lookup: &Lookup<'_>) -> bool
    requires { no_session lookup.now.config lookup.now.history lookup.now.event ≡ false }
    ensures { result ≡ sticky lookup.now.config lookup.now.history lookup.now.event }
{
    match unlinking_of(lookup.event()) {
        Some(what) => is_removal_denied(
            lookup.cred(),
            lookup.directory(what.family),
            lookup.facts_bound(),
        ),
        None => false,
    }
}

/// A chmod, by another than user 0 and the owner of what is meant.
#[inline(always)]
#[tactic(auto, unfolding(ipc_policy::specs::Decides::Rules::not_owner))]
fn not_owner(lookup: &Lookup<'_>) -> bool
    requires { no_session lookup.now.config lookup.now.history lookup.now.event ≡ false }
    ensures { result ≡ not_owner lookup.now.config lookup.now.history lookup.now.event }
{
    match lookup.event() {
        Event::Do {
            call: Call::Chmod { target, .. },
            ..
        } => is_chmod_denied(lookup.cred(), lookup.facts_asked(target)),
        _ => false,
    }
}

/// A chown, by another than user 0 and an owner that stays the owner and keeps the group or takes
/// one of its own.
#[inline(always)]
#[tactic(auto, unfolding(ipc_policy::specs::Decides::Rules::chown_denied))]
fn chown_denied(lookup: &Lookup<'_>) -> bool
    requires { no_session lookup.now.config lookup.now.history lookup.now.event ≡ false }
    ensures { result ≡ chown_denied lookup.now.config lookup.now.history lookup.now.event }
{
    match lookup.event() {
        Event::Do {
            call: Call::Chown {
                owner,
                group,
                target,
            },
            ..
        } => is_chown_denied(lookup.cred(), lookup.facts_asked(target), *owner, *group),
        _ => false,
    }
}

/// A creating open with attributes that are 0 or above the caller's limits.
#[inline(always)]
#[tactic(auto, unfolding(ipc_policy::specs::Decides::Rules::attr_range))]
fn attr_range(lookup: &Lookup<'_>) -> bool
    requires { no_session lookup.now.config lookup.now.history lookup.now.event ≡ false }
    ensures { result ≡ attr_range lookup.now.config lookup.now.history lookup.now.event }
{
    match opening_of(lookup.event()) {
        Some(asked) => {
            let given = attributes_asked(asked.kind);
            is_creating(lookup, &asked) && is_out_of_range(lookup.config(), lookup.cred(), given)
        }
        None => false,
    }
}

/// A creating open of a semaphore with a first value above 2,147,483,647, or a SetLimit above
/// 1,000,000,000,000,000.
#[inline(always)]
#[tactic(auto, unfolding(ipc_policy::specs::Decides::Rules::value_range))]
fn value_range(lookup: &Lookup<'_>) -> bool
    ensures { result ≡ value_range lookup.now.config lookup.now.history lookup.now.event }
{
    if let Event::Do {
        call: Call::SetLimit { bytes, .. },
        ..
    } = lookup.event()
    {
        return *bytes > LIMIT_MAX;
    }
    match opening_of(lookup.event()) {
        Some(asked) => is_creating(lookup, &asked) && is_too_great(asked.kind),
        None => false,
    }
}

/// A creating open of a queue, by another than user 0, while `queues_max` queues or more are alive.
#[inline(always)]
#[tactic(auto, unfolding(ipc_policy::specs::Decides::Rules::queue_count))]
fn queue_count(lookup: &Lookup<'_>) -> bool
    requires { no_session lookup.now.config lookup.now.history lookup.now.event ≡ false }
    ensures { result ≡ queue_count lookup.now.config lookup.now.history lookup.now.event }
{
    let Some(asked) = opening_of(lookup.event()) else {
        return false;
    };
    is_creating(lookup, &asked)
        && queue_made(lookup.config(), asked.kind).is_some()
        && is_not_admin(lookup.cred())
        && lookup.config().limits.queues_max as usize <= lookup.queues_alive()
}

/// A creating open of a queue, and the caller's queues and the new one take more bytes together than
/// the caller's limit.
#[inline(always)]
#[tactic(auto, unfolding(ipc_policy::specs::Decides::Rules::byte_limit))]
fn byte_limit(lookup: &Lookup<'_>) -> bool
    requires { no_session lookup.now.config lookup.now.history lookup.now.event ≡ false }
    ensures { result ≡ byte_limit lookup.now.config lookup.now.history lookup.now.event }
{
    let Some(asked) = opening_of(lookup.event()) else {
        return false;
    };
    is_creating(lookup, &asked)
        && is_above_limit(
            lookup,
            lookup.cred(),
            queue_made(lookup.config(), asked.kind),
        )
}

/// An open while the session holds 1,024 descriptions, or a give while its taker does.
#[inline(always)]
#[tactic(auto, unfolding(ipc_policy::specs::Decides::Rules::descr_limit))]
fn descr_limit(lookup: &Lookup<'_>) -> bool
    ensures { result ≡ descr_limit lookup.now.config lookup.now.history lookup.now.event }
{
    if let Event::Do {
        call: Call::MqGive { taker, .. },
        ..
    } = lookup.event()
    {
        return lookup.held_count(*taker) >= DESCRIPTIONS_MAX;
    }
    match opening_of(lookup.event()) {
        Some(asked) => lookup.held_count(asked.session) >= DESCRIPTIONS_MAX,
        None => false,
    }
}

/// A send with a priority of 32,768 or more.
#[inline(always)]
#[tactic(auto, unfolding(ipc_policy::specs::Decides::Rules::prio_range))]
fn prio_range(lookup: &Lookup<'_>) -> bool
    ensures { result ≡ prio_range lookup.now.config lookup.now.history (plain lookup.now.event) }
{
    match lookup.event() {
        Event::Do {
            call: Call::MqSend { priority, .. } | Call::MqTimedSend { priority, .. },
            ..
        } => *priority >= MQ_PRIO_MAX,
        _ => false,
    }
}

/// A send that is longer than the queue's message size.
#[inline(always)]
#[tactic(auto, unfolding(ipc_policy::specs::Decides::Rules::message_long))]
fn message_long(lookup: &Lookup<'_>) -> bool
    ensures { result ≡ message_long lookup.now.config lookup.now.history (plain lookup.now.event) }
{
    match lookup.event() {
        Event::Do {
            call: Call::MqSend { bytes, .. } | Call::MqTimedSend { bytes, .. },
            ..
        } => { is_too_long(as_queue(lookup.object_held()), bytes.as_slice().len()) }
        _ => false,
    }
}

/// A receive with a length below the queue's message size.
#[inline(always)]
#[tactic(auto, unfolding(ipc_policy::specs::Decides::Rules::buffer_short))]
fn buffer_short(lookup: &Lookup<'_>) -> bool
    ensures { result ≡ buffer_short lookup.now.config lookup.now.history (plain lookup.now.event) }
{
    match lookup.event() {
        Event::Do {
            call: Call::MqReceive { length, .. } | Call::MqTimedReceive { length, .. },
            ..
        } => { is_too_short(as_queue(lookup.object_held()), *length) }
        _ => false,
    }
}

/// A notify on, and the queue has a registration.
#[inline(always)]
#[tactic(auto, unfolding(ipc_policy::specs::Decides::Rules::notify_taken))]
fn notify_taken(lookup: &Lookup<'_>) -> bool
    ensures { result ≡ notify_taken lookup.now.config lookup.now.history lookup.now.event }
{
    match lookup.event() {
        Event::Do {
            call: Call::MqNotify { on, .. },
            ..
        } => *on && lookup.is_registered(),
        _ => false,
    }
}

/// A send to a full queue, or a receive from an empty one, by a description with NONBLOCK; a trywait
/// at 0.
#[inline(always)]
#[tactic(auto, unfolding(ipc_policy::specs::Decides::Rules::would_block))]
fn would_block(lookup: &Lookup<'_>) -> bool
    ensures { result ≡ would_block lookup.now.config lookup.now.history (plain lookup.now.event) }
{
    let Event::Do { call, .. } = lookup.event() else {
        return false;
    };
    match call {
        Call::MqSend { .. } | Call::MqTimedSend { .. } => lookup.is_nonblock() && lookup.is_full(),
        Call::MqReceive { .. } | Call::MqTimedReceive { .. } => {
            lookup.is_nonblock() && lookup.is_empty()
        }
        Call::SemTryWait(_) => lookup.is_zero(),
        _ => false,
    }
}

/// A post at 2,147,483,647.
#[inline(always)]
#[tactic(auto, unfolding(ipc_policy::specs::Decides::Rules::overflow))]
fn overflow(lookup: &Lookup<'_>) -> bool
    ensures { result ≡ overflow lookup.now.config lookup.now.history lookup.now.event }
{
    match lookup.event() {
        Event::Do {
            call: Call::SemPost(_),
            ..
        } => lookup.is_greatest(),
        _ => false,
    }
}

/// A hello for no user of the file.
#[inline(always)]
#[tactic(auto, unfolding(ipc_policy::specs::Decides::Rules::bad_key))]
fn bad_key(lookup: &Lookup<'_>) -> bool
    ensures { result ≡ bad_key lookup.now.config lookup.now.history lookup.now.event }
{
    match lookup.event() {
        Event::Hello { found } => !is_known(lookup.config(), *found),
        _ => false,
    }
}

/// A timed call that would park, and whose deadline is past.
#[inline(always)]
#[tactic(auto, unfolding(ipc_policy::specs::Decides::Rules::timed_out))]
fn timed_out(lookup: &Lookup<'_>) -> bool
    ensures { result ≡ timed_out lookup.now.config lookup.now.history lookup.now.event }
{
    lookup.is_past() && lookup.would_park()
}

/// A give to a session that is not live, or to the session itself.
#[inline(always)]
#[tactic(auto, unfolding(ipc_policy::specs::Decides::Rules::no_taker))]
fn no_taker(lookup: &Lookup<'_>) -> bool
    ensures { result ≡ no_taker lookup.now.config lookup.now.history lookup.now.event }
{
    match lookup.event() {
        Event::Do {
            sid,
            call: Call::MqGive { taker, .. },
        } => !lookup.is_session_live(*taker) || taker.0 == sid.0,
        _ => false,
    }
}

/// Whether the open creates an object.
#[tactic(auto, unfolding(ipc_policy::specs::Decides::Names::creating))]
fn is_creating(lookup: &Lookup<'_>, asked: &Opening) -> bool
    requires { opening lookup.now.event ≡ Some asked.now }
    ensures { result ≡ creating lookup.now.history asked.now }
{
    asked.flags.contains(OpenFlags::CREATE) && !lookup.is_bound()
}
