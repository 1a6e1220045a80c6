//! What the policy speaks of, beside events and records.

use ipc_access::Users;
use ipc_terms::{Access, Desc, Sid};

/// The descriptions that a session may hold at a time.
pub const DESCRIPTIONS_MAX: usize = 1024;

/// The greatest `msg_max`, and the messages that a queue of user 0 may have (`HARD_MSGMAX`).
pub const HARD_MSG_MAX: u32 = 65_536;

/// The greatest `msgsize_max`, and the bytes that a message of a queue of user 0 may have (`HARD_MSGSIZEMAX`).
pub const HARD_MSGSIZE_MAX: u32 = 16_777_216;

/// The greatest `queues_max`.
pub const HARD_QUEUES_MAX: u32 = 65_536;

/// Limits that are given at the start (`mq_overview(7)`): `msg_max`, from 1 to `HARD_MSG_MAX`, bounds
/// the messages of a queue; `msgsize_max`, from 1 to `HARD_MSGSIZE_MAX`, the bytes of a message;
/// `queues_max`, from 0 to `HARD_QUEUES_MAX`, the queues that are alive. User 0 has limits of its own.
#[derive(Clone, Copy, PartialEq, Eq)]
pub struct Limits {
    pub msg_max: u32,
    pub msgsize_max: u32,
    pub queues_max: u32,
}

impl Limits {
    /// The limits where none are given.
    pub const STANDARD: Limits = Limits {
        msg_max: 10,
        msgsize_max: 8192,
        queues_max: 256,
    };
}

/// What is fixed for the life of a server.
#[derive(Drop)]
pub struct Config {
    pub users: Users,
    pub limits: Limits,
}

/// Which session gets the notice of a queue, and by which description it asked.
#[derive(Clone, Copy)]
pub struct Registration {
    pub session: Sid,
    pub desc: Desc,
}

/// What a description gives, and to which session.
#[derive(Clone, Copy, PartialEq, Eq)]
pub struct Held {
    pub session: Sid,
    pub object: u64,
    pub access: Access,
}
