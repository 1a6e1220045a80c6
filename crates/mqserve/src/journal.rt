//! What workers tell the log.

use crate::log::{Log, words_of_fault};
use ipc_access::Users;
use ipc_server::{Ending, Journal};
use std::net::SocketAddr;
use std::sync::Wait;
use std::time::Clock;

/// Writes what workers tell into a log.
#[derive(Drop)]
pub struct LogOfWorkers<'a, R> {
    pub log: &'a Log<'a, R>,
    /// Whose key is whose.
    pub users: Users,
}

impl<R: Print + Eprint + Wait + Clock> Journal for LogOfWorkers<'_, R> {
    fn begun(&self, conn: u64, peer: Option<SocketAddr>) {
        self.log.begun(conn, peer);
    }

    fn greeted(&self, conn: u64, key: &[u8]) {
        if let Some(user) = self.users.find(key) {
            self.log.greeted(conn, user.0);
        }
    }

    fn ended(&self, conn: u64, requests: usize, ending: Ending) {
        let ending = words_of(ending);
        self.log
            .ended(conn, format_args!("requests={requests} ending={ending}"));
    }
}

/// The ending's word, and what else is to be said of it.
fn words_of(ending: Ending) -> &'static str {
    match ending {
        Ending::Closed => "Closed",
        Ending::ReadFailed => "ReadFailed",
        Ending::WriteFailed => "WriteFailed",
        Ending::Wire(fault) => words_of_fault(fault),
        Ending::BadKey => "BadKey rule=31",
        Ending::NoMemory => "NoMemory",
        Ending::StillLive => "StillLive",
    }
}
