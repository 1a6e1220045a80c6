//! Limits that no option changes.

/// How many priorities there are, from 0 on (POSIX.1-2017, `MQ_PRIO_MAX`).
pub const MQ_PRIO_MAX: u32 = 32_768;

/// The greatest limit of the bytes that a user's queues may take in all.
pub const LIMIT_MAX: u64 = 1_000_000_000_000_000;
