//! What an object is.

ghost use Rattle.std.specs.Prelude.{◌≡◌};
ghost use Rattle.ipc_terms.specs.Objects.{family_of};

use crate::call::Attributes;
use crate::ids::{Family, Uid};

/// The greatest value of a semaphore (POSIX.1-2017, `SEM_VALUE_MAX`).
pub const SEM_VALUE_MAX: u32 = 2_147_483_647;

/// What an object keeps from its creation on.
#[derive(Clone, Copy, PartialEq, Eq)]
pub struct Object {
    pub creator: Uid,
    pub kind: Kind,
}

/// What an object is, with what its family alone has.
#[derive(Clone, Copy, PartialEq, Eq)]
pub enum Kind {
    /// A queue with these attributes (`mq_overview(7)`).
    Queue(Attributes),
    /// A semaphore with this first value (`sem_overview(7)`).
    Semaphore(u32),
}

impl Kind {
    pub fn family(self) -> Family
        ensures { result ≡ family_of self }
    {
        match self {
            Kind::Queue(_) => Family::Mq,
            Kind::Semaphore(_) => Family::Sem,
        }
    }
}

/// What an open asks of the object that it may create.
#[derive(Clone, Copy)]
pub enum Asked {
    /// A queue with these attributes; with none, those that hold where none are given.
    Queue(Option<Attributes>),
    /// A semaphore with this first value.
    Semaphore(u32),
}
