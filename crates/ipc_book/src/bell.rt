//! A bell for a thread that waits for its session's answers.

use ipc_terms::{NoMemory, Sid};
use std::alloc::Global;
use std::collections::BTreeMap;
use std::sync::atomic::{AtomicU64, Ordering};
use std::sync::{Arc, Wait};
use std::thread::{Parker, yield_now};

/// For how many turns a thread that waits stays awake: what it waits for mostly comes soon.
pub(crate) const AWAKE_TURNS: u32 = 200;

/// What anybody may ring, and one thread waits for. It carries no fact.
#[derive(Drop)]
pub struct Bell {
    rings: AtomicU64,
    sleeper: Parker,
}

impl Bell {
    /// A bell that was not rung.
    pub fn new() -> Bell {
        Bell {
            rings: AtomicU64::new(0),
            sleeper: Parker::new(),
        }
    }

    /// Rings, and wakes who waits.
    pub fn ring(&self) {
        self.rings.fetch_add(1, Ordering::SeqCst);
        self.sleeper.unpark();
    }

    /// How often it was rung.
    pub fn rings(&self) -> u64 {
        self.rings.load(Ordering::SeqCst)
    }

    /// Waits until it was rung more often than `seen`: awake for some turns, then asleep. May return
    /// early.
    pub fn await_ring<R: Wait>(&self, rt: &R, seen: u64) {
        for _ in 0..AWAKE_TURNS {
            if self.rings() != seen {
                return;
            }
            yield_now();
        }
        self.sleeper.park(rt);
    }
}

/// The bells of those who wait for answers, by their sessions' numbers.
#[derive(Drop)]
pub(crate) struct Bells {
    bells: BTreeMap<u64, Arc<Bell, Global>>,
}

impl Bells {
    /// No bells. Takes no memory.
    pub(crate) fn new(alloc: Global) -> Bells {
        Bells {
            bells: BTreeMap::new(alloc),
        }
    }

    pub(crate) fn add(&mut self, session: Sid, bell: Arc<Bell, Global>) -> Result<(), NoMemory> {
        self.bells.insert(session.0, bell)?;
        Ok(())
    }

    pub(crate) fn remove(&mut self, session: Sid) {
        self.bells.remove(&session.0);
    }

    pub(crate) fn ring(&self, session: Sid) {
        if let Some(bell) = self.bells.get(&session.0) {
            bell.ring();
        }
    }
}
