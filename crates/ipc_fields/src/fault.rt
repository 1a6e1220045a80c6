//! Why bytes could not be read or written.

ghost use Rattle.std.specs.Prelude.{◌≡◌};
ghost use Rattle.ipc_fields.specs.declared.fault.ReadFault.TheVariants as reading;
ghost use Rattle.ipc_fields.specs.declared.fault.WriteFault.TheVariants as writing;

use std::alloc::{AllocError, AllocFailed};
use thiserror::Error;

/// What is wrong with a frame.
#[derive(Clone, Copy, Debug, PartialEq, Eq, Drop, Error)]
pub enum WireFault {
    /// The body is to have more than 16,777,300 bytes.
    #[error("frame too long")]
    TooLong,
    /// The body has no byte.
    #[error("empty frame")]
    Empty,
    /// No body that may stand here begins with this byte.
    #[error("opcode not allowed here")]
    BadOpcode,
    /// A field goes past the body's end, or has a value that is not allowed.
    #[error("bad field")]
    BadField,
    /// Bytes stand after the last field.
    #[error("bytes after the last field")]
    Trailing,
}

/// Why bytes were not read.
#[derive(Clone, Copy, Debug, Drop, Error)]
pub enum ReadFault {
    /// The frame in front is at fault.
    #[error("{0}")]
    Wire(WireFault),
    /// A growth was refused.
    #[error("memory")]
    NoMemory,
}

/// Why a message was not written.
#[derive(Clone, Copy, Debug, Drop, Error)]
pub enum WriteFault {
    /// A text, a list or the body is too long for its length to be spelled.
    #[error("message too long")]
    TooLong,
    /// A growth was refused.
    #[error("memory")]
    NoMemory,
}

impl From<AllocError> for ReadFault {
    ghost from_gives = { λ _ e. e ≡ reading.NoMemory };

    fn from(_error: AllocError) -> ReadFault {
        ReadFault::NoMemory
    }
}

impl<T: Drop> From<AllocFailed<T>> for ReadFault {
    ghost from_gives = { λ _ e. e ≡ reading.NoMemory };

    fn from(_error: AllocFailed<T>) -> ReadFault {
        ReadFault::NoMemory
    }
}

impl From<AllocError> for WriteFault {
    ghost from_gives = { λ _ e. e ≡ writing.NoMemory };

    fn from(_error: AllocError) -> WriteFault {
        WriteFault::NoMemory
    }
}

impl<T: Drop> From<AllocFailed<T>> for WriteFault {
    ghost from_gives = { λ _ e. e ≡ writing.NoMemory };

    fn from(_error: AllocFailed<T>) -> WriteFault {
        WriteFault::NoMemory
    }
}
