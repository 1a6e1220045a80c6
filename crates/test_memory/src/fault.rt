//! Why a step does not go as it must.

use ipc_access::UserFault;
use ipc_book::StepFault;
use ipc_core::CoreFault;
use ipc_hub::HubFault;
use ipc_terms::NoMemory;
use ipc_wire::{ReadFault, WriteFault};
use ipc_words::WordFault;
use std::alloc::{AllocError, AllocFailed};
use thiserror::Error;

/// Why a step does not go as it must.
#[derive(Clone, Copy, PartialEq, Debug, Drop, Error)]
pub enum Fault {
    /// A call was refused memory, and is to have changed nothing.
    #[error("is refused memory each time")]
    Refused,
    /// The case was refused memory for its own work, behind a call that was made. It is to begin anew.
    #[error("finds no memory for what it compares")]
    Anew,
    #[error("gives something else")]
    Otherwise,
    #[error("is refused memory, and something has changed")]
    Changed,
}

impl Fault {
    /// The same of what a case does for itself.
    pub fn of_case(self) -> Fault {
        match self {
            Fault::Refused => Fault::Anew,
            fault => fault,
        }
    }
}

impl From<NoMemory> for Fault {
    fn from(_fault: NoMemory) -> Self {
        Fault::Refused
    }
}

impl From<AllocError> for Fault {
    fn from(_error: AllocError) -> Self {
        Fault::Refused
    }
}

impl<T: Drop> From<AllocFailed<T>> for Fault {
    fn from(_error: AllocFailed<T>) -> Self {
        Fault::Refused
    }
}

impl From<UserFault> for Fault {
    fn from(fault: UserFault) -> Self {
        match fault {
            UserFault::NoMemory => Fault::Refused,
            _ => Fault::Otherwise,
        }
    }
}

impl From<CoreFault> for Fault {
    fn from(fault: CoreFault) -> Self {
        match fault {
            CoreFault::NoMemory => Fault::Refused,
            CoreFault::BadConfig(_) => Fault::Otherwise,
        }
    }
}

impl From<WordFault> for Fault {
    fn from(fault: WordFault) -> Self {
        match fault {
            WordFault::NoMemory => Fault::Refused,
            WordFault::Usage | WordFault::BadValue(_) => Fault::Otherwise,
        }
    }
}

impl From<ReadFault> for Fault {
    fn from(fault: ReadFault) -> Self {
        match fault {
            ReadFault::NoMemory => Fault::Refused,
            ReadFault::Wire(_) => Fault::Otherwise,
        }
    }
}

impl From<WriteFault> for Fault {
    fn from(fault: WriteFault) -> Self {
        match fault {
            WriteFault::NoMemory => Fault::Refused,
            WriteFault::TooLong => Fault::Otherwise,
        }
    }
}

impl From<HubFault> for Fault {
    fn from(fault: HubFault) -> Self {
        match fault {
            HubFault::NoMemory => Fault::Refused,
            HubFault::NoSuchConn | HubFault::Ended => Fault::Otherwise,
        }
    }
}

impl From<StepFault> for Fault {
    fn from(fault: StepFault) -> Self {
        match fault {
            StepFault::NoMemory => Fault::Refused,
            StepFault::Stale { .. } => Fault::Otherwise,
        }
    }
}
