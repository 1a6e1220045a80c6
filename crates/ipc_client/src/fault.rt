//! Why the client ends before its end.

ghost use Rattle.std.specs.Prelude.{◌≡◌};
ghost use Rattle.ipc_client.specs.Faults.{of_line, status_of, status_of_program};
ghost use Rattle.ipc_client.specs.declared.fault.ClientFault.TheVariants.{Memory};
ghost use Rattle.ipc_client.specs.declared.fault.ProgramFault.TheVariants.{Client};

use ipc_lines::LineFault;
use ipc_terms::NoMemory;
use std::alloc::AllocError;
use thiserror::Error;

/// Why the client ends before its input does. `Display` gives the words for standard error.
#[derive(Clone, Copy, PartialEq, Eq, Debug, Drop, Error)]
pub enum ClientFault {
    /// The reader failed, or was read too often.
    #[error("read")]
    Read,
    /// The writer failed.
    #[error("write")]
    Write,
    /// The connection failed, ended before an answer, or gave what is no answer.
    #[error("net")]
    Net,
    /// A growth was refused.
    #[error("memory")]
    Memory,
    /// The line of this number, counted from 1, is too long or not UTF-8.
    #[error("line {0}")]
    Line(u64),
}

impl ClientFault {
    /// The exit status of a program that ends by this fault.
    pub fn status(&self) -> u8
        ensures { result ≡ status_of self.now }
    {
        match self {
            ClientFault::Read | ClientFault::Write | ClientFault::Net => 4,
            ClientFault::Memory => 5,
            ClientFault::Line(_) => 6,
        }
    }
}

impl From<LineFault> for ClientFault {
    ghost from_gives = { λ fault made. made ≡ of_line fault };

    fn from(fault: LineFault) -> Self {
        match fault {
            LineFault::Read => ClientFault::Read,
            LineFault::Write => ClientFault::Write,
            LineFault::Memory => ClientFault::Memory,
            LineFault::Bad(number) => ClientFault::Line(number),
        }
    }
}

impl From<NoMemory> for ClientFault {
    ghost from_gives = { λ _ made. made ≡ Memory };

    fn from(_fault: NoMemory) -> Self {
        ClientFault::Memory
    }
}

impl From<AllocError> for ClientFault {
    ghost from_gives = { λ _ made. made ≡ Memory };

    fn from(_fault: AllocError) -> Self {
        ClientFault::Memory
    }
}

/// Why the program `mqctl` ends before its input does, or takes none. `Display` gives the words for standard
/// error.
#[derive(Clone, Copy, PartialEq, Eq, Debug, Drop, Error)]
pub enum ProgramFault {
    /// The arguments ask for nothing that there is.
    #[error("arguments")]
    Arguments,
    #[error(transparent)]
    Client(ClientFault),
}

impl ProgramFault {
    /// The status to exit with.
    pub fn status(&self) -> u8
        ensures { result ≡ status_of_program self.now }
    {
        match self {
            ProgramFault::Arguments => 2,
            ProgramFault::Client(fault) => fault.status(),
        }
    }
}

impl From<ClientFault> for ProgramFault {
    ghost from_gives = { λ fault made. made ≡ Client fault };

    fn from(fault: ClientFault) -> Self {
        ProgramFault::Client(fault)
    }
}
