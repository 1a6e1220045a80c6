//! The trail: every event with the rule that refused it, in order. The oldest records may be forgotten.
#![tactic(auto)]

mod audit;
mod message;
mod sizes;
mod trail;

pub use audit::Receipt;
pub use trail::Trail;
