//! How much is kept.

ghost use Rattle.std.specs.Prelude.{◌≡◌, ◌+◌, ◌-◌, ◌^◌, ◌<◌, min, is_some, if◌then◌else◌};
ghost use Rattle.ipc_tables.specs.Objects.{queue_in, semaphore_in, messages_in, bytes_of_messages};

use crate::rows::Body;

/// How many queues and semaphores are alive, and how many messages stand in the queues, with how many bytes: 2^64 - 1 where
/// there are more.
#[derive(Clone, Copy)]
pub struct Counts {
    pub queues: u64,
    pub semaphores: u64,
    pub messages: u64,
    pub bytes: u64,
}

impl Counts {
    /// Counts one object more, with what stands in it.
    pub(crate) fn add(&mut self, body: &Body)
        requires queues { self.old.queues + (if is_some (queue_in body.now) then 1 else 0) < 2 ^ 64 }
        requires semaphores { self.old.semaphores + (if is_some (semaphore_in body.now) then 1 else 0) < 2 ^ 64 }
        ensures queues { self.new.queues ≡ self.old.queues + (if is_some (queue_in body.now) then 1 else 0) }
        ensures semaphores { self.new.semaphores ≡ self.old.semaphores + (if is_some (semaphore_in body.now) then 1 else 0) }
        ensures messages { self.new.messages ≡ min (self.old.messages + messages_in body.now) (2 ^ 64 - 1) }
        ensures bytes { self.new.bytes ≡ min (self.old.bytes + bytes_of_messages body.now) (2 ^ 64 - 1) }
    {
        match body {
            Body::Queue(queue) => {
                self.queues += 1;
                self.messages = self.messages.saturating_add(queue.len() as u64);
                self.bytes = self.bytes.saturating_add(queue.bytes());
            }
            Body::Semaphore(_) => self.semaphores += 1,
        }
    }
}
