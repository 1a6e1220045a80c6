//! Timed calls.

use ipc_terms::Sid;

/// A parked call that waits no longer than to its deadline: its place in the trail, and its session.
#[derive(Clone, Copy)]
pub struct Timed {
    pub place: u64,
    pub session: Sid,
    pub deadline: u64,
}
