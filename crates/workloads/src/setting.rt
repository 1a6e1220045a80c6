//! What workloads have in common.

use anyhow::Result;
use ipc_access::Users;
use ipc_core::{Config, Limits};
use ipc_terms::{Access, Attributes, Call, Mode, Name, OpenFlags, QueueOpen, SemaphoreOpen};
use std::alloc::Global;
use std::hash::{FoldHasher, Hasher};

/// How much a life of a server has to do.
#[derive(Clone, Copy)]
pub enum Size {
    Small,
    Full,
}

impl Size {
    pub fn choose(self, small: u32, full: u32) -> u32 {
        match self {
            Size::Small => small,
            Size::Full => full,
        }
    }
}

/// A digest of all answers.
#[derive(Drop)]
pub struct Digest {
    pub hasher: FoldHasher,
}

impl Digest {
    pub fn add(&mut self, bytes: &[u8]) {
        self.hasher.write(bytes);
    }
}

/// Users of two groups, and user 0. Each may have many queues.
pub const USERS: &str = "\
root:k0:0:0::1000000000000000
ann:k1:1001:100:200:1000000000000000
bob:k2:1002:100:200,300:1000000000000000
cy:k3:1003:100::1000000000000000
dan:k4:1004:200:100:1000000000000000
eve:k5:1005:200:300:1000000000000000
fay:k6:1006:300::1000000000000000
gus:k7:1007:300:100,200:1000000000000000
";

/// The keys of the users, each one byte behind a `k`.
pub fn key_of(number: usize) -> [u8; 2] {
    [b'k', b'0' + (number % 8) as u8]
}

/// These users, and limits wide enough for all that workloads do.
pub fn config(alloc: Global) -> Result<Config> {
    let users = Users::read(alloc, USERS.as_bytes())?;
    let limits = Limits {
        msg_max: 65_536,
        msgsize_max: 16_384,
        queues_max: 1_024,
    };
    Ok(Config { users, limits })
}

/// The open of a queue, to read and write.
pub fn queue_open(name: Name, flags: OpenFlags, attributes: Attributes) -> Call {
    Call::MqOpen(QueueOpen {
        name,
        access: Access::Both,
        flags,
        mode: Mode(0o666),
        attributes: Some(attributes),
    })
}

/// The open of a semaphore, which creates it where it isn't there.
pub fn semaphore_open(name: Name, value: u32) -> Call {
    Call::SemOpen(SemaphoreOpen {
        name,
        flags: OpenFlags::CREATE,
        mode: Mode(0o666),
        value,
    })
}
