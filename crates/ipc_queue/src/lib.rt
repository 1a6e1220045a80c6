//! A queue: which messages stand in it, which comes out next, and which calls are parked on it.
//! Messages are known by tickets: the places of their sends in the trail, with a share of their bytes.
#![tactic(auto)]

mod contents;
mod queue;

pub use queue::{ParkedSend, Queue, ReceiveOutcome, SendOutcome, Ticket};
