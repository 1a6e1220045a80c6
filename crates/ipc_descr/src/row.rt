//! A description that is held.

use ipc_terms::{Access, Desc, Sid};

/// A description that a session holds (POSIX.1-2017, `mq_open`, "open message queue description"): the
/// number of the object that it gives, what its calls may do with it, and whether they are refused
/// where they would wait (`O_NONBLOCK`).
#[derive(Clone, Copy, PartialEq, Eq)]
pub struct Row {
    pub desc: Desc,
    pub session: Sid,
    pub object: u64,
    pub access: Access,
    pub nonblock: bool,
}
