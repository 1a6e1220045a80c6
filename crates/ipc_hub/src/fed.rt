//! What a hub answers.

ghost use Rattle.std.specs.Prelude.{◌≡◌};
ghost use Rattle.ipc_hub.specs.declared.fed.HubFault.TheVariants.{NoMemory as Refused};

use ipc_terms::NoMemory;
use ipc_wire::WireFault;
use std::alloc::{AllocError, AllocFailed};
use thiserror::Error;

/// What became of a piece of a stream that was taken.
#[derive(Clone, Copy, PartialEq, Eq, Debug)]
pub enum Fed {
    /// The requests of all whole frames were stepped.
    Done,
    /// A step ran out of memory. A later feed, also of nothing, goes on with that step.
    Short,
    /// As many answers of the connection as were allowed are untaken, or more. A later feed, also of nothing, goes
    /// on with the next step.
    Full,
    /// The connection is over.
    Over(End),
}

/// Why a connection is over.
#[derive(Clone, Copy, PartialEq, Eq, Debug)]
pub enum End {
    /// A frame is at fault. The requests before it were stepped, and the session was hung up.
    Wire(WireFault),
    /// The hello was refused. What came behind it is ignored.
    BadKey,
}

/// Why a call of a hub did nothing. Of two reasons the first in this order is given.
#[derive(Clone, Copy, PartialEq, Eq, Debug, Drop, Error)]
pub enum HubFault {
    /// No connection has this number.
    #[error("no such connection")]
    NoSuchConn,
    /// The connection is over.
    #[error("ended")]
    Ended,
    /// Out of memory.
    #[error("memory")]
    NoMemory,
}

impl From<NoMemory> for HubFault {
    ghost from_gives = { λ _ result. result ≡ Refused };

    fn from(_fault: NoMemory) -> Self {
        HubFault::NoMemory
    }
}

impl From<AllocError> for HubFault {
    ghost from_gives = { λ _ result. result ≡ Refused };

    fn from(_error: AllocError) -> Self {
        HubFault::NoMemory
    }
}

impl<T: Drop> From<AllocFailed<T>> for HubFault {
    ghost from_gives = { λ _ result. result ≡ Refused };

    fn from(_error: AllocFailed<T>) -> Self {
        HubFault::NoMemory
    }
}
