//! A server's trail in a file: made, gone on with, and stepped again.
#![tactic(auto)]

mod comparing;
mod digests;
mod files;
mod heads;
mod open_trail;
mod reading;
mod replaying;
mod resuming;
mod retelling;
mod shortening;
mod showing;
mod stepped;

pub use comparing::compare_trails;
pub use heads::head_of;
pub use open_trail::OpenTrail;
pub use replaying::replay_trail;
pub use resuming::{FoundTrail, OldTrail, find_old, replay_old};
pub use retelling::compact_trail;
pub use shortening::shorten;
