//! Why there is no next line, or a line isn't written.

ghost use Rattle.std.specs.Prelude.{◌≡◌};
ghost use Rattle.ipc_lines.specs.declared.fault.LineFault.TheVariants.{Memory};

use std::alloc::AllocError;

/// Why there is no next line, or a line isn't written.
#[derive(Clone, Copy, PartialEq, Eq, Debug, Drop)]
pub enum LineFault {
    /// The reader failed, or was read too often.
    Read,
    /// The writer failed.
    Write,
    /// A growth was refused.
    Memory,
    /// The line of this number, counted from 1, is too long or not UTF-8.
    Bad(u64),
}

impl From<AllocError> for LineFault {
    ghost from_gives = { λ _ made. made ≡ Memory };

    fn from(_fault: AllocError) -> Self {
        LineFault::Memory
    }
}
