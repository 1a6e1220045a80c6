//! Why a trail isn't replayed.

ghost use Rattle.std.specs.Prelude.{◌≡◌};
ghost use Rattle.ipc_history.specs.Faults.{of_replay};
ghost use Rattle.ipc_history.specs.declared.fault.HistoryFault.TheVariants.{NoMemory as Refused};

use ipc_log::TrailFault;
use ipc_replay::ReplayFault;
use ipc_state::Field;
use ipc_terms::NoMemory;
use std::alloc::AllocError;
use thiserror::Error;

/// Why a trail isn't replayed, or no further. Places count from 0.
#[derive(Clone, Copy, Debug, PartialEq, Eq, Drop, Error)]
pub enum HistoryFault {
    /// The file ends before its head is whole.
    #[error("no head")]
    NoHead,
    /// What is wrong with the head.
    #[error("head: {0}")]
    Head(TrailFault),
    /// The limit in the head is out of its range.
    #[error("head: config {0}")]
    BadConfig(Field),
    /// The head is of other users.
    #[error("head: other users")]
    OtherUsers,
    /// The head has other limits than that of the first file.
    #[error("head: other limits")]
    OtherLimits,
    /// The head tells of another retelling than that of the first file.
    #[error("head: other retelling")]
    OtherRetelling,
    /// The file begins at this place, and not where the records before it end.
    #[error("head: begins at {0}")]
    OtherPlace(u64),
    /// What is wrong with the record at this place.
    #[error("record {place}: {fault}")]
    Record { place: u64, fault: TrailFault },
    /// The rule of the record at this place is not the verdict on its event.
    #[error("record {0}: other verdict")]
    Differs(u64),
    /// A read failed, or there were too many.
    #[error("read")]
    Read,
    /// A growth was refused.
    #[error("memory")]
    NoMemory,
}

impl From<AllocError> for HistoryFault {
    ghost from_gives = { λ _ made. made ≡ Refused };

    fn from(_fault: AllocError) -> Self {
        HistoryFault::NoMemory
    }
}

impl From<NoMemory> for HistoryFault {
    ghost from_gives = { λ _ made. made ≡ Refused };

    fn from(_fault: NoMemory) -> Self {
        HistoryFault::NoMemory
    }
}

impl From<ReplayFault> for HistoryFault {
    ghost from_gives = { λ fault made. made ≡ of_replay fault };

    fn from(fault: ReplayFault) -> Self {
        match fault {
            ReplayFault::BadConfig(field) => HistoryFault::BadConfig(field),
            ReplayFault::Differs(place) => HistoryFault::Differs(place),
            ReplayFault::NoMemory => HistoryFault::NoMemory,
        }
    }
}
