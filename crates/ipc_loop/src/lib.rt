//! A server on one thread: an event loop that serves many connections in turns, over one hub.
#![tactic(auto)]

mod accepting;
mod ending;
mod keeping;
pub mod laws;
mod links;
mod pausing;
mod port;
mod ports;
mod server;
mod serving;
mod shortage;
mod ticking;
mod turns;
mod unsent;

pub use ending::Ending;
pub use keeping::Keeping;
pub use links::{Host, Ready};
pub use server::Server;
