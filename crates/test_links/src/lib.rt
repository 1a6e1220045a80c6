//! Links in memory, over which tests of more than one crate run the loop.
#![tactic(auto)]

mod chance;
mod peers;
mod recorder;
mod settling;

pub use peers::Cut;
pub use recorder::{Entry, Recorder};
pub use settling::settle;
