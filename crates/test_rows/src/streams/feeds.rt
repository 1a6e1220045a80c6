//! Feeding a connection piece by piece.

use ipc_hub::{Conn, Fed, Hub, HubFault};
use std::alloc::{AllocError, Global};

/// What the feeds of a connection come to: `Done` as long as each is, and then an end, behind which each feed
/// answers `Ended`. An answer that is none of these is odd.
#[derive(Clone, Copy)]
pub struct Feeds {
    pub conn: Conn,
    fed: Fed,
    odd: Option<Result<Fed, HubFault>>,
}

impl Feeds {
    pub fn new(conn: Conn) -> Feeds {
        Feeds {
            conn,
            fed: Fed::Done,
            odd: None,
        }
    }

    pub fn feed(&mut self, hub: &mut Hub, alloc: Global, piece: &[u8]) {
        match (self.fed, hub.feed(alloc, self.conn, piece)) {
            (Fed::Done, Ok(fed)) => self.fed = fed,
            (Fed::Over(_), Err(HubFault::Ended)) => {}
            (_, answer) => self.odd = Some(answer),
        }
    }

    pub fn line(self, alloc: Global) -> Result<String, AllocError> {
        match self.odd {
            None => format!(in alloc; "fed {:?}\n", self.fed),
            Some(odd) => format!(in alloc; "fed {:?} and then {odd:?}\n", self.fed),
        }
    }
}
