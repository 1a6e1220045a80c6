//! What the reader and the writer of one connection share.

use crate::ending::Ending;
use crate::held::{Held, Origin};
use ipc_book::{Bell, Shared};
use ipc_terms::Answer;
use std::alloc::Global;
use std::sync::ledger::Ledger;
use std::sync::{Arc, Condvar, Mutex, Wait};

/// What stands behind the connection's own lock, which is taken before the book's.
#[derive(Drop)]
pub(crate) struct Place<L: Ledger, B: Origin> {
    pub(crate) held: Held<L, B>,
    /// What a connection without a session is told last.
    pub(crate) last: Option<Answer>,
    /// The reader steps nothing more.
    pub(crate) is_over: bool,
    /// Why nothing more is written.
    pub(crate) failure: Option<Ending>,
}

#[derive(Drop)]
pub(crate) struct Chair<L: Ledger, B: Origin> {
    pub(crate) place: Mutex<Place<L, B>>,
    /// The reader waits on it for the writer to take answers.
    pub(crate) has_room: Condvar,
}

#[derive(Drop)]
pub(crate) struct Desk<'a, L: Ledger, B: Origin, G, J> {
    pub(crate) shared: &'a Shared<L>,
    pub(crate) chair: &'a Chair<L, B>,
    pub(crate) bell: &'a Arc<Bell, Global>,
    pub(crate) gate: &'a G,
    pub(crate) journal: &'a J,
    pub(crate) conn: u64,
    pub(crate) alloc: Global,
}

impl<L: Ledger, B: Origin, G, J> Desk<'_, L, B, G, J> {
    /// Tells the writer that nothing more is stepped.
    pub(crate) fn finish<R: Wait>(&self, rt: &R) {
        self.chair.place.lock(rt).is_over = true;
        self.bell.ring();
    }

    /// Nothing more is written. Wakes the reader.
    pub(crate) fn fail<R: Wait>(&self, rt: &R, failure: Ending) {
        self.chair.place.lock(rt).failure = Some(failure);
        self.chair.has_room.notify_one();
    }
}
