//! What the loop keeps of a link.

ghost use Rattle.std.specs.Prelude.{◌≡◌, ◌||◌};
ghost use Rattle.ipc_loop.specs.Ports.{new_port, is_ending, has_work};

use crate::ending::Ending;
use crate::unsent::Unsent;
use ipc_terms::Uid;
use std::alloc::Global;
use std::marker::Model;

/// A link whose connection isn't closed.
#[derive(Drop)]
pub struct Port {
    pub unsent: Unsent,
    /// The link takes nothing any more.
    pub is_cut: bool,
    pub ending: Option<Ending>,
    pub is_over: bool,
    pub may_read: bool,
    pub may_write: bool,
    pub is_full: bool,
    /// How often its requests were tried in vain for want of memory.
    pub tries: u32,
    /// How many of its requests were stepped.
    pub requests: u64,
    /// Whose hello was accepted, until the host is told.
    pub newcomer: Option<Uid>,
}

impl Model for Port {
    ghost use Rattle.std.specs.Prelude.{◌≡◌, ◌==◌, ◌||◌, not, true, length, Some, None, if◌then◌else◌};
    ghost use Rattle.ipc_loop.specs.Ports.{Port};

    ghost Value = { Port };

    ghost view = { λ p. record { left = if p.is_cut then None else Some p.unsent; ending = p.ending; is_over = p.is_over; may_read = p.may_read; may_write = p.may_write; is_full = p.is_full; requests = p.requests } };

    // Where all that was taken is written, more may be.
    ghost invariant = { λ p. (p.is_cut || (not (length p.unsent == 0) || p.may_write)) ≡ true };
}

impl Port {
    /// A link that was accepted now. It is told of once it can be read.
    pub fn new(alloc: Global) -> Port
        ensures { result ≡ new_port }
    {
        Port {
            unsent: Unsent::new(alloc),
            is_cut: false,
            ending: None,
            is_over: false,
            may_read: false,
            may_write: true,
            is_full: false,
            tries: 0,
            requests: 0,
            newcomer: None,
        }
    }

    /// How many of its requests were stepped.
    pub fn requests(&self) -> u64
        ensures { result ≡ self.now.requests }
    {
        self.requests
    }

    /// Why the link isn't read any more.
    pub fn why(&self) -> Option<Ending>
        ensures { result ≡ self.now.ending }
    {
        self.ending
    }

    /// Whether its connection is to be hung up.
    pub fn is_ending(&self) -> bool
        ensures { result ≡ is_ending self.now }
    {
        self.ending.is_some() && !self.is_over
    }

    /// Whether a turn would do something.
    pub fn has_work(&self) -> bool
        ensures { result ≡ has_work self.now }
    {
        if self.is_cut {
            return true;
        }
        if !self.unsent.is_empty() {
            return self.may_write || self.is_ending();
        }
        self.may_read || self.is_full || self.ending.is_some()
    }

    /// What became ready. The end of a stream can be read too.
    pub fn note(&mut self, is_readable: bool, is_writable: bool, has_ended: bool)
        ensures { self.new ≡ record self.old { may_read = self.old.may_read || is_readable || has_ended; may_write = self.old.may_write || is_writable } }
    {
        self.may_read |= is_readable;
        self.may_read |= has_ended;
        self.may_write |= is_writable;
    }
}
