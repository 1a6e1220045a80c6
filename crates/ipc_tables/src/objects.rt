//! The objects that are alive, and which of them a call ends.

ghost use Rattle.std.specs.Prelude.{◌≡◌, map, filter, length};
ghost use Rattle.std.specs.Option.{option_copied_mut};
ghost use Rattle.ipc_tables.specs.Objects.{HasRoom, bytes_taken, queue_at, semaphore_at, with_held, counts_of};
ghost use Rattle.ipc_tables.specs.TablesView.{is_alive, is_kept};
ghost use Rattle.ipc_tables.specs.Charging.{Covered, settled};
ghost use Rattle.ipc_tables.specs.Standing.{rows_in, IsCounted, OthersKept, OthersHeld};

use crate::counts::Counts;
use crate::rows::ObjectRow;
use ipc_containers::NumberedBoxes;
use ipc_descr::{Charges, Descrs, bytes_of};
use ipc_names::NameDir;
use ipc_queue::Queue;
use ipc_sem::Sem;
use ipc_terms::Kind;

/// The objects that are alive, by their numbers, and what their creators are charged with.
#[derive(Drop)]
pub struct Objects {
    pub rows: NumberedBoxes<ObjectRow>,
    /// How many of those that are alive are queues.
    pub queue_count: usize,
    /// How many bytes each user's queues take, and how many they may.
    pub charges: Charges,
}

impl Objects {
    ghost use Rattle.std.specs.Borrow.{sem};
    ghost use Rattle.ipc_tables.specs.Lending.{LendsQueue, LendsSemaphore};

    /// How many were ever created: the number of the next.
    pub fn created(&self) -> u64
        ensures { result ≡ length self.now.rows }
    {
        self.rows.next_number() as u64
    }

    /// The queue that the object is, while it is alive, to be changed.
    pub fn queue_mut(&mut self, object: u64) -> Option<&mut Queue>
        requires { IsCounted self.old }
        ensures* writes_back { sem 𝓛 (LendsQueue self.entry object result) }
        ensures value { option_copied_mut result ≡ queue_at (rows_in self.old) object }
    {
        self.rows.get_mut(object as usize)?.body.queue_mut()
    }

    /// The semaphore that the object is, while it is alive, to be changed.
    pub fn semaphore_mut(&mut self, object: u64) -> Option<&mut Sem>
        requires { IsCounted self.old }
        ensures* writes_back { sem 𝓛 (LendsSemaphore self.entry object result) }
        ensures value { option_copied_mut result ≡ semaphore_at (rows_in self.old) object }
    {
        self.rows.get_mut(object as usize)?.body.semaphore_mut()
    }

    /// How many queues, semaphores and messages there are, and how many bytes the messages have. Goes from each object that is
    /// alive to the next, and looks at each message.
    pub fn counts(&self) -> Counts
        ensures { result ≡ counts_of (rows_in self.now) }
    {
        let end = self.rows.next_number();
        let mut counts = Counts {
            queues: 0,
            semaphores: 0,
            messages: 0,
            bytes: 0,
        };
        let mut next = 0;
        while let Some(number) = self.rows.next_from(next) {
            let Some(row) = self.rows.get(number) else {
                unreachable!();
            };
            counts.add(&row.body);
            next = number + 1;
        }
        counts
    }

    /// Removes the object that was touched if nothing keeps it, and gives its creator back what it took.
    pub fn remove_dead(
        &mut self,
        queues: &NameDir,
        semaphores: &NameDir,
        descriptions: &Descrs,
        touched: Option<u64>,
    )
        requires counted { IsCounted self.old }
        requires others { OthersKept touched (is_kept queues.now semaphores.now descriptions.now.rows) (rows_in self.old) }
        requires covered { Covered self.old.charges (rows_in self.old) }
        ensures counted { IsCounted self.new }
        ensures rows { rows_in self.new ≡ filter (is_kept queues.now semaphores.now descriptions.now.rows) (rows_in self.old) }
        ensures charges { self.new.charges ≡ settled (is_kept queues.now semaphores.now descriptions.now.rows) (rows_in self.old) self.old.charges }
        ensures created { length self.new.rows ≡ length self.old.rows }
    {
        let Some(object) = touched else {
            return;
        };
        if is_alive(queues, semaphores, descriptions, object) {
            return;
        }
        let Some(row) = self.rows.take(object as usize) else {
            return;
        };
        self.queue_count -= usize::from(row.body.queue().is_some());
        self.charges.give_back(row.object.creator, row.bytes);
    }

    /// Takes the registration of the object that was touched back if its description is held no longer.
    pub fn release(&mut self, descriptions: &Descrs, touched: Option<u64>)
        requires counted { IsCounted self.old }
        requires others { OthersHeld touched descriptions.now.rows (rows_in self.old) }
        ensures counted { IsCounted self.new }
        ensures rows { rows_in self.new ≡ map (with_held descriptions.now.rows) (rows_in self.old) }
        ensures charges { self.new.charges ≡ self.old.charges }
        ensures created { length self.new.rows ≡ length self.old.rows }
    {
        let Some(object) = touched else {
            return;
        };
        if let Some(row) = self.rows.get_mut(object as usize) {
            release_row(row, descriptions);
        }
    }
}

/// Takes the registration back if its description is held no longer.
fn release_row(row: &mut ObjectRow, descriptions: &Descrs)
    ensures { row.new ≡ with_held descriptions.now.rows row.old }
{
    let Some(queue) = row.body.queue_mut() else {
        return;
    };
    let Some(desc) = queue.registered() else {
        return;
    };
    if descriptions.holder(desc).is_none() {
        queue.unregister(desc);
    }
}

/// Whether the object has a name, or a description gives it.
fn is_alive(queues: &NameDir, semaphores: &NameDir, descriptions: &Descrs, object: u64) -> bool
    ensures { result ≡ is_alive queues.now semaphores.now descriptions.now.rows object }
{
    queues.names_object(object) || semaphores.names_object(object) || descriptions.uses(object) > 0
}

/// How many bytes an object of the kind takes of its creator's.
pub fn bytes_taken(kind: Kind) -> u64
    requires { HasRoom kind }
    ensures { result ≡ bytes_taken kind }
{
    match kind {
        Kind::Queue(attributes) => bytes_of(attributes.maxmsg, attributes.msgsize),
        Kind::Semaphore(_) => 0,
    }
}
