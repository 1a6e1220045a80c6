//! Why a program that runs a script or serves connections ends.

ghost use Rattle.std.specs.Prelude.{◌≡◌};
ghost use Rattle.std.specs.IoError.{error_kind};
ghost use Rattle.clap.specs.Words.{kind_of};
ghost use Rattle.ipc_script.specs.declared.fault.ScriptFault.TheVariants.{Memory};
ghost use Rattle.ipc_program.specs.declared.fault.ProgramFault.TheVariants.{Script};
ghost use Rattle.ipc_program.specs.Faults.{of_address, of_arguments, of_compact, of_file, of_history, of_output, of_reading, of_trail_file, or_memory};
ghost use Rattle.ipc_program.specs.Statuses.{status_of_arguments, status_of_fault, status_of_trail};

use clap::error::ErrorKind;
use ipc_history::HistoryFault;
use ipc_living::CompactFault;
use ipc_script::ScriptFault;
use std::alloc::AllocError;
use std::{fmt, io};

/// Why a program ends before the end of its task, or without one.
#[derive(Debug, Drop)]
pub enum ProgramFault {
    /// The arguments ask for nothing that there is, or for help.
    Arguments(clap::Error),
    /// An argument isn't UTF-8.
    NotUtf8,
    /// A script's fault, and a server's of the same kind: of its users or limits, of reading, writing or memory.
    Script(ScriptFault),
    /// The address can't be bound, or no connection can be accepted any more.
    Net,
    /// The file that the trail is to go into can't be made, or where it is there can't be had or changed.
    NoTrail,
    /// A trail is at fault, or isn't legal. A read that failed and want of memory are the script's.
    Trail(HistoryFault),
    /// A file of a trail ends within the record of this place, counted from 0, and isn't the last one.
    CutOff(u64),
    /// A trail isn't retold, or not by this file. A write that failed is `NoTrail`, and limits out of their ranges and want of
    /// memory are the script's.
    Retelling(CompactFault),
}

impl ProgramFault {
    /// The status to exit with.
    pub fn status(&self) -> u8
        ensures { result ≡ status_of_fault self.now }
    {
        match self {
            ProgramFault::Arguments(error) => status_of_arguments(error.kind()),
            ProgramFault::NotUtf8 => 2,
            ProgramFault::Script(fault) => fault.status(),
            ProgramFault::Net | ProgramFault::NoTrail => 4,
            ProgramFault::Trail(fault) => status_of_trail(*fault),
            ProgramFault::CutOff(_) => 6,
            ProgramFault::Retelling(_) => 7,
        }
    }

    /// Of reading a file.
    pub fn of_file(error: &io::Error) -> Self
        ensures { result ≡ of_file (error_kind error.now) }
    {
        or_memory(error, ProgramFault::Script(ScriptFault::Read))
    }

    /// Of writing to standard output.
    pub fn of_output(error: &io::Error) -> Self
        ensures { result ≡ of_output (error_kind error.now) }
    {
        or_memory(error, ProgramFault::Script(ScriptFault::Write))
    }

    /// Of binding an address.
    pub fn of_address(error: &io::Error) -> Self
        ensures { result ≡ of_address (error_kind error.now) }
    {
        or_memory(error, ProgramFault::Net)
    }

    /// Of making the file of a trail, or of one that is there.
    pub fn of_trail_file(error: &io::Error) -> Self
        ensures { result ≡ of_trail_file (error_kind error.now) }
    {
        or_memory(error, ProgramFault::NoTrail)
    }

    /// Says why: help and the version on standard output, all else on standard error. One that can't
    /// be written to is passed over.
    pub fn print(&self, rt: &(impl Print + Eprint)) {
        let _ = match self.status() {
            0 => rt.print(self),
            _ => rt.eprint(self),
        };
    }
}

/// The text for a person, with its line ends.
impl fmt::Display for ProgramFault {
    fn fmt<W: fmt::Write>(&self, f: &mut fmt::Formatter<W>) -> fmt::Result {
        match self {
            ProgramFault::Arguments(error) => write!(f, "{error}"),
            ProgramFault::NotUtf8 => f.write_str("error: an argument is not UTF-8\n"),
            ProgramFault::Script(fault) => writeln!(f, "mqserve: {fault}"),
            ProgramFault::Net => f.write_str("mqserve: net\n"),
            ProgramFault::NoTrail => f.write_str("mqserve: trail\n"),
            ProgramFault::Trail(fault) => writeln!(f, "mqserve: trail {fault}"),
            ProgramFault::CutOff(place) => writeln!(f, "mqserve: trail record {place}: cut off"),
            ProgramFault::Retelling(fault) => writeln!(f, "mqserve: retelling: {fault}"),
        }
    }
}

fn status_of_arguments(kind: ErrorKind) -> u8
    ensures { result ≡ status_of_arguments kind }
{
    match kind {
        ErrorKind::DisplayHelp | ErrorKind::DisplayVersion => 0,
        _ => 2,
    }
}

fn status_of_trail(fault: HistoryFault) -> u8
    ensures { result ≡ status_of_trail fault }
{
    match fault {
        HistoryFault::BadConfig(_) | HistoryFault::OtherUsers | HistoryFault::OtherLimits => 3,
        HistoryFault::Read => 4,
        HistoryFault::NoMemory => 5,
        _ => 6,
    }
}

/// The fault, or want of memory where the error says so.
fn or_memory(error: &io::Error, fault: ProgramFault) -> ProgramFault
    ensures { result ≡ or_memory (error_kind error.now) fault }
{
    match error.kind() {
        io::ErrorKind::OutOfMemory => ProgramFault::Script(ScriptFault::Memory),
        _ => fault,
    }
}

impl From<AllocError> for ProgramFault {
    ghost from_gives = { λ _ made. made ≡ Script Memory };

    fn from(_error: AllocError) -> Self {
        ProgramFault::Script(ScriptFault::Memory)
    }
}

impl From<clap::Error> for ProgramFault {
    ghost from_gives = { λ error made. made ≡ of_arguments error (kind_of error) };

    fn from(error: clap::Error) -> Self {
        match error.kind() {
            ErrorKind::OutOfMemory => ProgramFault::Script(ScriptFault::Memory),
            _ => ProgramFault::Arguments(error),
        }
    }
}

/// Of reading the arguments.
impl From<io::Error> for ProgramFault {
    ghost from_gives = { λ error made. made ≡ of_reading (error_kind error) };

    fn from(error: io::Error) -> Self {
        match error.kind() {
            io::ErrorKind::OutOfMemory => ProgramFault::Script(ScriptFault::Memory),
            _ => ProgramFault::NotUtf8,
        }
    }
}

impl From<ScriptFault> for ProgramFault {
    ghost from_gives = { λ fault made. made ≡ Script fault };

    fn from(fault: ScriptFault) -> Self {
        ProgramFault::Script(fault)
    }
}

impl From<HistoryFault> for ProgramFault {
    ghost from_gives = { λ fault made. made ≡ of_history fault };

    fn from(fault: HistoryFault) -> Self {
        match fault {
            HistoryFault::Read => ProgramFault::Script(ScriptFault::Read),
            HistoryFault::NoMemory => ProgramFault::Script(ScriptFault::Memory),
            _ => ProgramFault::Trail(fault),
        }
    }
}

impl From<CompactFault> for ProgramFault {
    ghost from_gives = { λ fault made. made ≡ of_compact fault };

    fn from(fault: CompactFault) -> Self {
        match fault {
            CompactFault::Write => ProgramFault::NoTrail,
            CompactFault::NoMemory => ProgramFault::Script(ScriptFault::Memory),
            CompactFault::Config(field) => ProgramFault::Script(ScriptFault::Config(field)),
            _ => ProgramFault::Retelling(fault),
        }
    }
}
