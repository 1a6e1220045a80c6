//! A hub: many connections over one core, on one thread and over memory. Bytes of requests go in, and bytes of answers
//! come out.
#![tactic(auto)]

mod connection;
mod fed;
mod hub;
pub mod laws;
mod marked_core;
mod marks;
mod spelling;
mod stepping;

pub use fed::{End, Fed, HubFault};
pub use hub::{Conn, Hub};
