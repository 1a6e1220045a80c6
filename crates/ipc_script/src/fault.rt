//! Why a script ends before its end.

ghost use Rattle.std.specs.Prelude.{◌≡◌};
ghost use Rattle.ipc_script.specs.declared.fault.ScriptFault.TheVariants.{Memory};
ghost use Rattle.ipc_script.specs.Faults.{status_of, of_users, of_core, of_line};

use ipc_access::UserFault;
use ipc_core::{CoreFault, Field};
use ipc_lines::LineFault;
use ipc_terms::NoMemory;
use std::alloc::{AllocError, AllocFailed};
use thiserror::Error;

/// Why a script ends before its end. `Display` gives the words for standard error.
#[derive(Clone, Copy, PartialEq, Eq, Debug, Drop, Error)]
pub enum ScriptFault {
    /// The user file is at fault. Want of memory is `Memory`.
    #[error(transparent)]
    Users(UserFault),
    /// A limit is out of its range.
    #[error("config {0:?}")]
    Config(Field),
    /// The reader failed, or was read too often.
    #[error("read")]
    Read,
    /// The writer failed.
    #[error("write")]
    Write,
    /// A growth was refused.
    #[error("memory")]
    Memory,
    /// The line of this number, counted from 1 over the whole input, is too long or not UTF-8, or
    /// stands where the line `.` is missing.
    #[error("line {0}")]
    Line(u64),
}

impl ScriptFault {
    /// The exit status of a program that ends by this fault.
    pub fn status(&self) -> u8
        ensures { result ≡ status_of self.now }
    {
        match self {
            ScriptFault::Users(_) | ScriptFault::Config(_) => 3,
            ScriptFault::Read | ScriptFault::Write => 4,
            ScriptFault::Memory => 5,
            ScriptFault::Line(_) => 6,
        }
    }
}

impl From<UserFault> for ScriptFault {
    ghost from_gives = { λ fault result. result ≡ of_users fault };

    fn from(fault: UserFault) -> Self {
        match fault {
            UserFault::NoMemory => ScriptFault::Memory,
            _ => ScriptFault::Users(fault),
        }
    }
}

impl From<CoreFault> for ScriptFault {
    ghost from_gives = { λ fault result. result ≡ of_core fault };

    fn from(fault: CoreFault) -> Self {
        match fault {
            CoreFault::BadConfig(field) => ScriptFault::Config(field),
            CoreFault::NoMemory => ScriptFault::Memory,
        }
    }
}

impl From<LineFault> for ScriptFault {
    ghost from_gives = { λ fault result. result ≡ of_line fault };

    fn from(fault: LineFault) -> Self {
        match fault {
            LineFault::Read => ScriptFault::Read,
            LineFault::Write => ScriptFault::Write,
            LineFault::Memory => ScriptFault::Memory,
            LineFault::Bad(number) => ScriptFault::Line(number),
        }
    }
}

impl From<NoMemory> for ScriptFault {
    ghost from_gives = { λ _ result. result ≡ Memory };

    fn from(_fault: NoMemory) -> Self {
        ScriptFault::Memory
    }
}

impl From<AllocError> for ScriptFault {
    ghost from_gives = { λ _ result. result ≡ Memory };

    fn from(_fault: AllocError) -> Self {
        ScriptFault::Memory
    }
}

impl<T: Drop> From<AllocFailed<T>> for ScriptFault {
    ghost from_gives = { λ _ result. result ≡ Memory };

    fn from(_fault: AllocFailed<T>) -> Self {
        ScriptFault::Memory
    }
}
