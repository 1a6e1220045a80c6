//! What lives in a server once every session is gone, as by a restart; and a short legal history in which the same lives.
#![tactic(auto)]

mod compacting;
mod comparing;
mod fault;
mod living;
mod senders;
mod stepping;
mod story;

pub use fault::{CompactFault, Subject};
pub use living::Living;
pub use senders::Senders;
pub use stepping::step_noting;
pub use story::Story;
