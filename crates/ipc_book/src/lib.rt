//! The shared book: threads share one core behind one lock, and each has a seat, which keeps the receipts of its
//! events.
#![tactic(auto)]

mod bell;
mod book;
mod close;
mod entry;
mod events;
mod seat;
mod shared;
mod stepping;

pub use bell::Bell;
pub use book::Book;
pub use entry::{CloseFault, Entry, OfferFault, StepFault};
pub use seat::Seat;
pub use shared::Shared;
