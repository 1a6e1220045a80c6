//! How a connection ends.

use ipc_wire::WireFault;

/// Why a link is closed.
#[derive(Clone, Copy, PartialEq, Eq)]
pub enum Ending {
    /// The stream ended.
    Closed,
    /// A read failed.
    ReadFailed,
    /// A write failed.
    WriteFailed,
    /// The stream is at fault.
    Wire(WireFault),
    /// The hello was refused.
    BadKey,
    /// A growth was refused: of the port, of a piece that was read, of each of 100 tries of a step, or of answers.
    NoMemory,
    /// Its unfinished frame was the largest when all unfinished frames together had too many bytes. Or it was longer than a
    /// key's before the hello was accepted.
    TooMuchUnfinished,
}
