//! Why a record isn't stepped.

ghost use Rattle.std.specs.Prelude.{◌≡◌};
ghost use Rattle.ipc_replay.specs.declared.fault.ReplayFault.TheVariants.{NoMemory as Refused};

use ipc_state::Field;
use ipc_terms::NoMemory;
use thiserror::Error;

/// Why a record isn't stepped, or why nothing is replayed at all.
#[derive(Clone, Copy, PartialEq, Eq, Debug, Drop, Error)]
pub enum ReplayFault {
    /// The limit is out of its range.
    #[error("config {0}")]
    BadConfig(Field),
    /// The rule of the record at this place is not the verdict on its event. Places count from 0.
    #[error("record {0}")]
    Differs(u64),
    /// A growth was refused.
    #[error("memory")]
    NoMemory,
}

impl From<NoMemory> for ReplayFault {
    ghost from_gives = { λ _ result. result ≡ Refused };

    fn from(_fault: NoMemory) -> Self {
        ReplayFault::NoMemory
    }
}
