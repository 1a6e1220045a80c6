//! The conditions under which rules forbid.

ghost use Rattle.std.specs.Prelude.{◌≡◌, ◌+◌, nat_lt, is_some, option_and_then};
ghost use Rattle.std.specs.Option.{option_copied};
ghost use Rattle.ipc_access.specs.Users.{cred_of};
ghost use Rattle.ipc_access.specs.Ownership.{lets_chmod, lets_chown};
ghost use Rattle.ipc_terms.specs.Objects.{as_queue, of_queue, attributes_asked, value_asked};
ghost use Rattle.ipc_policy.specs.Decides.Objects.{kind_of};
ghost use Rattle.ipc_policy.specs.Decides.Charges.{bytes_of};
ghost use Rattle.ipc_terms.specs.declared.object.TheConstants.{SEM_VALUE_MAX};
ghost use Rattle.ipc_policy.specs.Decides.Rules.{is_some_and, is_not_admin, above_limit, is_of_family, denied, denied_at, removal_denied, change_denied, reads_only, writes_only, bits_wanted, out_of_range};

use ipc_access::{Cred, READ, WRITE, grants, may_chmod, may_chown, may_remove};
use ipc_descr::checked_bytes_of;
use ipc_policy::{Config, HARD_MSG_MAX, HARD_MSGSIZE_MAX, Held, kind_of};
use ipc_state::Lookup;
use ipc_terms::{Access, Asked, Attributes, Facts, Family, Gid, Kind, Object, SEM_VALUE_MAX, Uid};

pub fn is_known(config: &Config, found: Option<Uid>) -> bool
    ensures { result ≡ is_some (option_and_then (cred_of config.now.users) found) }
{
    match found {
        Some(uid) => config.users.cred(uid).is_some(),
        None => false,
    }
}

pub fn is_read_only(held: Option<Held>) -> bool
    ensures { result ≡ is_some_and (λ x. reads_only x.access) held }
{
    match held {
        Some(held) => matches!(held.access, Access::Read),
        None => false,
    }
}

pub fn is_write_only(held: Option<Held>) -> bool
    ensures { result ≡ is_some_and (λ x. writes_only x.access) held }
{
    match held {
        Some(held) => matches!(held.access, Access::Write),
        None => false,
    }
}

pub fn as_queue(object: Option<Object>) -> Option<Attributes>
    ensures { result ≡ as_queue object }
{
    match object?.kind {
        Kind::Queue(attributes) => Some(attributes),
        Kind::Semaphore(_) => None,
    }
}

/// The attributes of the queue that an open makes, where it asks for a queue.
pub fn queue_made(config: &Config, asked: Asked) -> Option<Attributes>
    ensures { result ≡ of_queue (kind_of config.now asked) }
{
    match kind_of(config, asked) {
        Kind::Queue(attributes) => Some(attributes),
        Kind::Semaphore(_) => None,
    }
}

/// The attributes that an open asks for, if it gives any.
pub fn attributes_asked(kind: Asked) -> Option<Attributes>
    ensures { result ≡ attributes_asked kind }
{
    match kind {
        Asked::Queue(given) => given,
        Asked::Semaphore(_) => None,
    }
}

/// Whether an open asks for a first value above the greatest.
pub fn is_too_great(kind: Asked) -> bool
    ensures { result ≡ is_some_and (nat_lt SEM_VALUE_MAX) (value_asked kind) }
{
    match kind {
        Asked::Queue(_) => false,
        Asked::Semaphore(value) => SEM_VALUE_MAX < value,
    }
}

pub fn is_too_long(queue: Option<Attributes>, length: usize) -> bool
    ensures { result ≡ is_some_and (λ x. nat_lt x.msgsize length) queue }
{
    match queue {
        Some(attributes) => (attributes.msgsize as usize) < length,
        None => false,
    }
}

pub fn is_too_short(queue: Option<Attributes>, length: u32) -> bool
    ensures { result ≡ is_some_and (λ x. nat_lt length x.msgsize) queue }
{
    match queue {
        Some(attributes) => length < attributes.msgsize,
        None => false,
    }
}

pub fn bits_of(access: Access) -> u8
    ensures { result ≡ bits_wanted access }
{
    match access {
        Access::Read => READ,
        Access::Write => WRITE,
        Access::Both => READ | WRITE,
    }
}

pub fn is_denied(who: Option<&Cred>, at: Facts, wanted: u8) -> bool
    ensures { result ≡ denied (option_copied who.entry) at wanted }
{
    match who {
        Some(who) => !grants(who, at.owner, at.group, at.mode, wanted),
        None => false,
    }
}

pub fn is_denied_at(who: Option<&Cred>, at: Option<Facts>, wanted: u8) -> bool
    ensures { result ≡ denied_at (option_copied who.entry) at wanted }
{
    match at {
        Some(at) => is_denied(who, at, wanted),
        None => false,
    }
}

pub fn is_removal_denied(who: Option<&Cred>, directory: Facts, at: Option<Facts>) -> bool
    ensures { result ≡ removal_denied (option_copied who.entry) directory at }
{
    let (Some(who), Some(at)) = (who, at) else {
        return false;
    };
    !may_remove(who, &directory, at.owner)
}

/// Whether the user may not change the mode of what has these facts.
pub fn is_chmod_denied(who: Option<&Cred>, at: Option<Facts>) -> bool
    ensures { result ≡ change_denied lets_chmod (option_copied who.entry) at }
{
    let (Some(who), Some(at)) = (who, at) else {
        return false;
    };
    !may_chmod(who, at.owner)
}

/// Whether the user may not give what has these facts to the owner and the group.
pub fn is_chown_denied(
    who: Option<&Cred>,
    at: Option<Facts>,
    owner: Option<Uid>,
    group: Option<Gid>,
) -> bool
    ensures { result ≡ change_denied (λ who of. lets_chown who of owner group) (option_copied who.entry) at }
{
    let (Some(who), Some(at)) = (who, at) else {
        return false;
    };
    !may_chown(who, at.owner, owner, group)
}

pub fn is_out_of_range(config: &Config, who: Option<&Cred>, given: Option<Attributes>) -> bool
    ensures { result ≡ out_of_range config.now (option_copied who.entry) given }
{
    let (Some(who), Some(given)) = (who, given) else {
        return false;
    };
    let (most, longest) = if who.is_root() {
        (HARD_MSG_MAX, HARD_MSGSIZE_MAX)
    } else {
        (config.limits.msg_max, config.limits.msgsize_max)
    };
    given.maxmsg == 0 || given.msgsize == 0 || most < given.maxmsg || longest < given.msgsize
}

pub fn is_of_family(family: Family, object: Option<Object>) -> bool
    ensures { result ≡ is_of_family family object }
{
    match object {
        Some(object) => object.kind.family() == family,
        None => false,
    }
}

/// Whether there is a user, and it is another than user 0.
pub fn is_not_admin(who: Option<&Cred>) -> bool
    ensures { result ≡ is_not_admin (option_copied who.entry) }
{
    match who {
        Some(who) => !who.is_root(),
        None => false,
    }
}

/// Whether the user's queues and one more of these attributes take more bytes than the user's may.
pub fn is_above_limit(lookup: &Lookup<'_>, who: Option<&Cred>, given: Option<Attributes>) -> bool
    ensures { result ≡ is_some_and (λ given. is_some_and (above_limit lookup.now.config lookup.now.history given) (option_copied who.entry)) given }
{
    let (Some(who), Some(given)) = (who, given) else {
        return false;
    };
    match lookup.limit(who.uid) {
        Some(most) => takes_more(most, lookup.charged(who.uid), given),
        None => false,
    }
}

/// Whether so many bytes and those of a queue of these attributes are together more than `most`.
fn takes_more(most: u64, used: u64, given: Attributes) -> bool
    ensures { result ≡ nat_lt most (used + bytes_of given) }
{
    let Some(bytes) = checked_bytes_of(given.maxmsg, given.msgsize) else {
        return true;
    };
    match used.checked_add(bytes) {
        Some(all) => most < all,
        None => true,
    }
}
