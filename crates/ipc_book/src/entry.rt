//! What a seat keeps of an event, and how a step or a close may fail.

ghost use Rattle.std.specs.Prelude.{◌≡◌};

use ipc_terms::Event;
use ipc_trail::Receipt;

/// A receipt with its event.
#[derive(Drop)]
pub struct Entry {
    pub receipt: Receipt,
    pub event: Event,
}

/// Why an event of a seat was not stepped. Nothing changed.
#[derive(Clone, Copy, PartialEq, Eq)]
pub enum StepFault {
    /// The trail has not `seen`, the seat's last receipt, at its place, but what was found there, if
    /// anything. A book whose trail only grows gives no cause for it.
    Stale {
        seen: Receipt,
        found: Option<Receipt>,
    },
    /// A growth was refused.
    NoMemory,
}

/// An event that was not stepped, and why.
#[derive(Drop)]
pub(crate) struct Unstepped {
    pub(crate) fault: StepFault,
    pub(crate) event: Event,
}

impl From<Unstepped> for StepFault {
    ghost from_gives = { λ unstepped fault. fault ≡ unstepped.fault };

    fn from(unstepped: Unstepped) -> Self {
        unstepped.fault
    }
}

/// Why a call that was offered was not stepped. Nothing changed, and the call is given back.
#[derive(Clone, Copy, PartialEq, Eq)]
pub enum OfferFault {
    /// The seat's session has not taken its answers yet: there are as many as there may be.
    Full,
    /// As a step's fault.
    Fault(StepFault),
}

/// Why a book was not closed.
#[derive(Clone, Copy, PartialEq, Eq)]
pub enum CloseFault {
    /// So many seats that the book made were not given back; seats that an earlier close took count.
    SeatOut(u64),
    /// The first place of the trail whose receipt and event stand together in no seat's list, or more
    /// than once; the trail's length, where there is no such place but something else is in a list.
    Missing(u64),
    /// A growth was refused.
    NoMemory,
}
