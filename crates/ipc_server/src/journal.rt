//! What is told of each connection.

use crate::ending::Ending;
use std::net::SocketAddr;

/// Is told what becomes of each connection, by the thread that serves it, with no lock held: what takes long here holds up this
/// connection alone. A connection is numbered as it was accepted, from 0 on. What a journal isn't interested in does nothing.
pub trait Journal {
    /// A worker has taken the connection. Its peer, where that is known.
    fn begun(&self, _conn: u64, _peer: Option<SocketAddr>) {}

    /// Its hello was accepted. The key says whose it is; it is a secret, and not to be written down.
    fn greeted(&self, _conn: u64, _key: &[u8]) {}

    /// Its worker is done with it. So many of its requests were stepped, the hello among them.
    fn ended(&self, _conn: u64, _requests: usize, _ending: Ending) {}
}

/// Notes nothing.
#[derive(Clone, Copy)]
pub struct NoJournal;

impl Journal for NoJournal {}
