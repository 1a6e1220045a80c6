//! Who acts, and on what.

use crate::name::Name;

/// A session, by the number of hellos that were accepted before its own. No number is used twice.
#[derive(Clone, Copy, PartialEq, Eq)]
pub struct Sid(pub u64);

impl Sid {
    /// No session: to it a refused hello is answered, and as it a caller without a session acts.
    pub const NOBODY: Sid = Sid(u64::MAX);
}

/// An open description, by the number of opens that were accepted before its own, over the whole
/// server. No number is used twice.
#[derive(Clone, Copy, PartialEq, Eq)]
pub struct Desc(pub u64);

/// A user ID. User 0 passes every rule on modes, ownership and administration.
#[derive(Clone, Copy, PartialEq, Eq)]
pub struct Uid(pub u32);

/// A group ID.
#[derive(Clone, Copy, PartialEq, Eq)]
pub struct Gid(pub u32);

/// Permission bits of an object or a directory, or those that a mask takes away
/// (POSIX.1-2017, XBD 4.5 and `umask`): read 4, write 2 and search 1, for the owner, the group and
/// others; octal 1000 makes a directory sticky.
#[derive(Clone, Copy, PartialEq, Eq)]
pub struct Mode(pub u16);

/// The two families of objects. Each has names and a directory of its own.
#[derive(Clone, Copy, PartialEq, Eq)]
pub enum Family {
    /// Message queues (`mq_overview(7)`).
    Mq,
    /// Named semaphores (`sem_overview(7)`).
    Sem,
}

/// What a call on names means: the directory of a family itself, or a name in it.
#[derive(Clone, Drop)]
pub enum Target {
    Dir(Family),
    Name(Family, Name),
}
