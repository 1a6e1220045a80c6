//! What can be wrong with a user file.

ghost use Rattle.std.specs.Prelude.{◌≡◌};

use std::alloc::{AllocError, AllocFailed};
use thiserror::Error;

/// The first fault of a user file. Lines are counted from 1.
#[derive(Clone, Copy, PartialEq, Eq, Debug, Drop, Error)]
pub enum UserFault {
    /// There is a line beyond the 4,096 that a file may have.
    #[error("users TooMany")]
    TooMany,
    /// The line does not spell a user.
    #[error("users BadLine {0}")]
    BadLine(u64),
    /// The line's name is that of an earlier line.
    #[error("users DuplicateName {0}")]
    DuplicateName(u64),
    /// The line's key is that of an earlier line.
    #[error("users DuplicateKey {0}")]
    DuplicateKey(u64),
    /// The line's user ID is that of an earlier line.
    #[error("users DuplicateUid {0}")]
    DuplicateUid(u64),
    /// A growth was refused; it says nothing about the file.
    #[error("memory")]
    NoMemory,
}

impl From<AllocError> for UserFault {
    ghost use Rattle.ipc_access.specs.declared.fault.UserFault.TheVariants.{NoMemory};

    ghost from_gives = { λ _ fault. fault ≡ NoMemory };

    fn from(_error: AllocError) -> Self {
        UserFault::NoMemory
    }
}

impl<T: Drop> From<AllocFailed<T>> for UserFault {
    ghost use Rattle.ipc_access.specs.declared.fault.UserFault.TheVariants.{NoMemory};

    ghost from_gives = { λ _ fault. fault ≡ NoMemory };

    fn from(_failed: AllocFailed<T>) -> Self {
        UserFault::NoMemory
    }
}
