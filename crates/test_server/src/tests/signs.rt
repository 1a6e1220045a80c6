//! Signs that threads give one another.

use std::sync::atomic::{AtomicBool, Ordering};
use std::thread::sleep;
use std::time::{Clock, Duration};

/// For how many turns a thread waits for a sign before it goes on without it.
pub(crate) const MOST_TURNS: u32 = 1_000;

/// Lets 10 milliseconds pass.
pub(crate) fn wait_a_turn<R: Clock>(clock: &R) {
    sleep(clock, Duration::from_millis(10));
}

/// What one thread gives and others look for.
#[derive(Drop)]
pub(crate) struct Sign {
    is_given: AtomicBool,
}

impl Sign {
    /// A sign that is not given yet.
    pub(crate) fn new() -> Sign {
        Sign {
            is_given: AtomicBool::new(false),
        }
    }

    pub(crate) fn give(&self) {
        self.is_given.store(true, Ordering::SeqCst);
    }

    pub(crate) fn is_given(&self) -> bool {
        self.is_given.load(Ordering::SeqCst)
    }

    /// Waits for it. False, where it is not given in time.
    pub(crate) fn comes<R: Clock>(&self, clock: &R) -> bool {
        for _ in 0..MOST_TURNS {
            if self.is_given() {
                return true;
            }
            wait_a_turn(clock);
        }
        false
    }
}
