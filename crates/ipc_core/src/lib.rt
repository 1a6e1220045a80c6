//! The core: it decides on each event by what came before, does what is accepted, keeps the record of all, and
//! answers.
#![tactic(auto)]

mod answer;
mod core_state;
mod fault;
pub mod laws;
mod message;
mod outboxes;
mod posting;
mod questions;

pub use answer::Posted;
pub use core_state::{Core, answers_of};
pub use fault::CoreFault;
pub use ipc_policy::{Config, Held, Limits};
pub use ipc_state::Field;
pub use ipc_terms::{Kind, Object};
pub use ipc_trail::Trail;
