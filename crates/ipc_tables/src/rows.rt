//! The rows of the tables.

ghost use Rattle.std.specs.Prelude.{◌≡◌};
ghost use Rattle.std.specs.Option.{option_copied, option_copied_mut};
ghost use Rattle.ipc_tables.specs.Objects.{queue_in, semaphore_in, without_call, new_body, HasRoom};

use ipc_queue::Queue;
use ipc_sem::Sem;
use ipc_terms::{Facts, Kind, Mode, Object, Sid, Uid};
use std::alloc::Global;

/// A session's user, its present mask, whether it is live, and the object on which its call is
/// parked. One that hung up keeps its user and its mask, but in proofs alone.
#[derive(Clone, Copy)]
pub struct Session {
    pub user: Uid,
    pub mask: Mode,
    pub is_live: bool,
    pub parked_on: Option<u64>,
}

/// What stands in an object.
#[derive(Drop)]
pub enum Body {
    Queue(Queue),
    Semaphore(Sem),
}

impl Body {
    ghost use Rattle.std.specs.Borrow.{LendsIf, sem};
    ghost use Rattle.ipc_queue.specs.contracts.queue.Queue.{the_row as queue_row};
    ghost use Rattle.ipc_sem.specs.contracts.semaphore.Sem.{the_row as semaphore_row};
    ghost use Rattle.ipc_tables.specs.contracts.rows.Body.{the_row};
    ghost use Rattle.ipc_tables.specs.declared.rows.Body.TheVariants.{Queue as QueueBody, Semaphore as SemaphoreBody};

    /// What stands in a new object of the kind: nothing. Takes no memory.
    pub(crate) fn new(alloc: Global, kind: Kind) -> Self
        requires { HasRoom kind }
        ensures { result ≡ new_body kind }
    {
        match kind {
            Kind::Queue(attributes) => {
                Body::Queue(Queue::new(alloc, attributes.maxmsg, attributes.msgsize))
            }
            Kind::Semaphore(value) => Body::Semaphore(Sem::new(alloc, value)),
        }
    }

    /// The queue, if it is one.
    pub(crate) fn queue(&self) -> Option<&Queue>
        ensures { option_copied result ≡ queue_in self.now }
    {
        match self {
            Body::Queue(queue) => Some(queue),
            Body::Semaphore(_) => None,
        }
    }

    /// The semaphore, if it is one.
    pub(crate) fn semaphore(&self) -> Option<&Sem>
        ensures { option_copied result ≡ semaphore_in self.now }
    {
        match self {
            Body::Queue(_) => None,
            Body::Semaphore(semaphore) => Some(semaphore),
        }
    }

    /// The queue, if it is one, to be changed.
    pub(crate) fn queue_mut(&mut self) -> Option<&mut Queue>
        ensures* writes_back { sem 𝓛 (LendsIf the_row queue_row self.entry result QueueBody self.old) }
        ensures value { option_copied_mut result ≡ queue_in self.old }
    {
        match self {
            Body::Queue(queue) => Some(queue),
            Body::Semaphore(_) => None,
        }
    }

    /// The semaphore, if it is one, to be changed.
    pub(crate) fn semaphore_mut(&mut self) -> Option<&mut Sem>
        ensures* writes_back { sem 𝓛 (LendsIf the_row semaphore_row self.entry result SemaphoreBody self.old) }
        ensures value { option_copied_mut result ≡ semaphore_in self.old }
    {
        match self {
            Body::Queue(_) => None,
            Body::Semaphore(semaphore) => Some(semaphore),
        }
    }

    /// Withdraws the session's parked call.
    pub(crate) fn withdraw(&mut self, who: Sid)
        ensures { self.new ≡ without_call who self.old }
    {
        match self {
            Body::Queue(queue) => {
                queue.withdraw(who);
            }
            Body::Semaphore(semaphore) => {
                semaphore.withdraw(who);
            }
        }
    }
}

/// An object by its number, with its present owner, group and mode, the bytes that it takes of its
/// creator's, and what stands in it.
#[derive(Drop)]
pub struct ObjectRow {
    pub number: u64,
    pub object: Object,
    pub facts: Facts,
    pub bytes: u64,
    pub body: Body,
}
