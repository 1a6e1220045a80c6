//! The class of a user at an object, and what its mode grants to that class.

ghost use Rattle.std.specs.Prelude.{◌≡◌, ◌==◌};
ghost use Rattle.std.specs.List.{list_any};
ghost use Rattle.ipc_access.specs.Class.{class, class_bits, granted, belongs_to};

use ipc_terms::{Gid, Items, Mode, Uid};

/// Search of a directory, as a bit of a class.
pub const SEARCH: u8 = 0o1;

/// Write, as a bit of a class.
pub const WRITE: u8 = 0o2;

/// Read, as a bit of a class.
pub const READ: u8 = 0o4;

/// The supplementary groups of a user, in the order of the user file.
pub type Groups = Items<Gid>;

/// Whether the group is one of them.
fn is_among(ids: &[Gid], group: Gid) -> bool
    ensures { result ≡ list_any (λ g. g.0 == group.0) ids.now }
{
    ids.iter().any(|g| g.0 == group.0)
}

/// The credentials of a user: its user ID, its group ID and its supplementary groups.
#[derive(Drop)]
pub struct Cred {
    pub uid: Uid,
    pub gid: Gid,
    pub groups: Groups,
    /// How many bytes the user's queues may take in all (`getrlimit(2)`, `RLIMIT_MSGQUEUE`).
    pub limit: u64,
}

impl Cred {
    /// Whether the group is the user's, or a supplementary one.
    pub fn is_in(&self, group: Gid) -> bool
        ensures { result ≡ belongs_to self.now group }
    {
        self.gid.0 == group.0 || is_among(self.groups.as_slice(), group)
    }

    /// User 0 passes every rule on modes.
    pub fn is_root(&self) -> bool
        ensures { result ≡ (self.now.uid.0 == 0) }
    {
        self.uid.0 == 0
    }
}

/// One of the three classes of users at an object (POSIX.1-2017, XBD 4.5, File Access Permissions).
#[derive(Clone, Copy, PartialEq, Eq)]
pub enum Class {
    Owner,
    Group,
    Other,
}

/// The one class that decides what the user may do with an object of this owner and group. User 0
/// has a class as any other.
pub fn class_of(cred: &Cred, owner: Uid, group: Gid) -> Class
    ensures { result ≡ class cred.now owner group }
{
    if cred.uid.0 == owner.0 {
        Class::Owner
    } else if cred.is_in(group) {
        Class::Group
    } else {
        Class::Other
    }
}

/// The three bits of the mode that belong to the class.
fn bits_of(class: Class, mode: Mode) -> u8
    ensures { result ≡ class_bits class mode }
{
    match class {
        Class::Owner => (mode.0 / 0o100 % 0o10) as u8,
        Class::Group => (mode.0 / 0o10 % 0o10) as u8,
        Class::Other => (mode.0 % 0o10) as u8,
    }
}

/// Whether the user is granted all that is wanted, of `READ`, `WRITE` and `SEARCH` (POSIX.1-2017, XBD
/// 4.5). To user 0 everything is granted.
pub fn grants(cred: &Cred, owner: Uid, group: Gid, mode: Mode, wanted: u8) -> bool
    ensures { result ≡ granted cred.now owner group mode wanted }
{
    cred.is_root() || bits_of(class_of(cred, owner, group), mode) & wanted == wanted
}
