//! Who may change the mode, the owner and the group of what there is.

ghost use Rattle.std.specs.Prelude.{◌≡◌};
ghost use Rattle.ipc_access.specs.Ownership.{lets_chmod, takes_itself, takes_own_group, lets_chown};

use crate::class::Cred;
use ipc_terms::{Gid, Uid};

/// Whether the user may change the mode of what has this owner: user 0 and the owner may (POSIX.1-2017, `chmod`).
pub fn may_chmod(cred: &Cred, owner: Uid) -> bool
    ensures { result ≡ lets_chmod cred.now owner }
{
    cred.is_root() || cred.uid.0 == owner.0
}

/// Whether the user may give what has this owner to the user `uid` and the group `gid`, where `None` keeps
/// what there is. User 0 may; the owner may where it stays the owner and the group is its own or a
/// supplementary one. Another user may not, even where both are kept (POSIX.1-2017, `chown`,
/// `_POSIX_CHOWN_RESTRICTED`).
pub fn may_chown(cred: &Cred, owner: Uid, uid: Option<Uid>, gid: Option<Gid>) -> bool
    ensures { result ≡ lets_chown cred.now owner uid gid }
{
    cred.is_root()
        || cred.uid.0 == owner.0 && takes_for_itself(cred, uid) && takes_for_its_group(cred, gid)
}

fn takes_for_itself(cred: &Cred, uid: Option<Uid>) -> bool
    ensures { result ≡ takes_itself cred.now uid }
{
    match uid {
        None => true,
        Some(uid) => cred.uid.0 == uid.0,
    }
}

fn takes_for_its_group(cred: &Cred, gid: Option<Gid>) -> bool
    ensures { result ≡ takes_own_group cred.now gid }
{
    match gid {
        None => true,
        Some(gid) => cred.is_in(gid),
    }
}
