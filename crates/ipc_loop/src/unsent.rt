//! Bytes that a link has not taken yet.

ghost use Rattle.std.specs.Prelude.{◌≡◌, ◌++◌, [], ◌≤◌, ◌==◌, ℕ, List, length, drop, OnErr, OnOk};
ghost use Rattle.ipc_hub.specs.Hub.{Takes};

use ipc_hub::{Conn, Hub};
use ipc_terms::NoMemory;
use std::alloc::Global;
use std::marker::Model;
use std::mem;

/// What was taken from the hub and is not written yet: these bytes from `sent` on. They stand in a buffer that was lent, and
/// between two turns in one of their own, of their size.
#[derive(Drop)]
pub struct Unsent {
    bytes: Vec<u8>,
    sent: usize,
}

impl Model for Unsent {
    ghost use Rattle.std.specs.Prelude.{ℕ, ◌≤◌, List, drop, length};

    ghost Value = { List ℕ };

    ghost view = { λ u. drop u.sent u.bytes.items };

    ghost invariant = { λ u. u.sent ≤ length u.bytes.items };
}

impl Unsent {
    pub fn new(alloc: Global) -> Unsent
        ensures { result ≡ [] }
    {
        Unsent {
            bytes: Vec::new(alloc),
            sent: 0,
        }
    }

    /// How many bytes are not sent.
    pub fn len(&self) -> usize
        ensures { result ≡ length self.now }
    {
        self.bytes.len() - self.sent
    }

    pub fn is_empty(&self) -> bool
        ensures { result ≡ (length self.now == 0) }
    {
        self.bytes.len() == self.sent
    }

    pub fn as_slice(&self) -> &[u8]
        ensures { result.now ≡ self.now }
    {
        &self.bytes[self.sent..]
    }

    /// The first of the bytes are sent.
    pub fn advance(&mut self, count: usize)
        requires { count ≤ length self.old }
        ensures { self.new ≡ drop count self.old }
    {
        self.sent += count;
        if self.sent == self.bytes.len() {
            self.bytes.clear();
            self.sent = 0;
        }
    }

    /// Lends a buffer, where all before is sent.
    pub fn lend(&mut self, buffer: &mut Vec<u8>)
        requires { self.old ≡ [] }
        ensures { self.new ≡ [] }
    {
        mem::swap(&mut self.bytes, buffer);
        self.bytes.clear();
        self.sent = 0;
    }

    /// Takes what a connection was answered, behind what is not sent. An `Err` changes nothing.
    pub fn take(&mut self, hub: &mut Hub, number: u64) -> Result<(), NoMemory>
        ensures ok { OnOk result ((bytes : List ℕ) × (self.new ≡ self.old ++ bytes) × Takes hub.old number bytes hub.new) }
        ensures err { OnErr result (self.new ≡ self.old) }
        ensures hub { OnErr result (hub.new ≡ hub.old) }
    {
        let Ok(()) = hub.take_into(Conn(number), &mut self.bytes) else {
            return Err(NoMemory);
        };
        Ok(())
    }

    /// Gives the buffer back that was lent, and keeps what is not sent in one of its own; where there is no memory for it, in
    /// the one that was lent.
    pub fn give_back(&mut self, alloc: Global, buffer: &mut Vec<u8>)
        ensures { self.new ≡ self.old }
    {
        let mut own = Vec::new(alloc);
        let Ok(_) = own.extend_from_slice(self.as_slice()) else {
            return;
        };
        *buffer = mem::replace(&mut self.bytes, own);
        self.sent = 0;
    }
}
