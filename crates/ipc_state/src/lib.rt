//! The state of a server: the tables are what the policy makes of all that happened. It looks up what an event meets,
//! answers the policy's questions about it in the policy's words, and does and records an event.
#![tactic(auto)]

mod accept;
mod changing;
mod clock;
mod limits;
mod lookup;
mod questions;
mod rows;
mod states;

pub use limits::{Field, first_bad};
pub use lookup::{Lookup, Meant};
pub use states::State;
