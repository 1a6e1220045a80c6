//! Rounds of a server until its links have nothing more to do.

use crate::recorder::Recorder;
use ipc_loop::Server;
use std::io;

/// How many rounds there are at most.
const MOST_ROUNDS: u32 = 100_000;

/// How many rounds without a move show that none would have one. A round that finds no memory for a hang-up, a tick or a
/// link makes none of them; the next tries again.
const QUIET_ROUNDS: u32 = 3;

/// Has the server make rounds until its host is at rest and nothing moves any more. Says whether it came to that.
pub fn settle(server: &mut Server, host: &mut Recorder) -> io::Result<bool> {
    let mut moves = host.moves().len();
    let mut quiet = 0u32;
    for _ in 0..MOST_ROUNDS {
        server.round(host)?;
        quiet = if host.moves().len() == moves && host.is_at_rest() {
            quiet.saturating_add(1)
        } else {
            0
        };
        if quiet == QUIET_ROUNDS {
            return Ok(true);
        }
        moves = host.moves().len();
    }
    Ok(false)
}
