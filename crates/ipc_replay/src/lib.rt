//! A trail that is stepped again: whether each record's rule is the policy's verdict on its event, and the state that
//! they lead to.
#![tactic(auto)]

mod fault;
mod replay;

pub use fault::ReplayFault;
pub use replay::Replay;
