//! How a connection ends.

use ipc_book::Seat;
use ipc_wire::WireFault;
use std::sync::ledger::Ledger;

/// Why a connection is served no longer.
#[derive(Clone, Copy, PartialEq, Eq)]
pub enum Ending {
    /// The stream ended.
    Closed,
    /// A read failed.
    ReadFailed,
    /// A write failed.
    WriteFailed,
    /// The stream is at fault.
    Wire(WireFault),
    /// The hello was refused.
    BadKey,
    /// A growth was refused: of a buffer, of the thread, or of each of 100 tries of a step.
    NoMemory,
    /// No try of the hang-up succeeded, so the session is still live; or the seat is stale.
    StillLive,
}

/// A seat that is given back, and how its connection ended.
#[derive(Drop)]
pub struct Served<L: Ledger> {
    pub seat: Seat<L>,
    pub ending: Ending,
}
