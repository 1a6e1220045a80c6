//! Containers that are seen as plain lists: values at the numbers that they were given in turn, what waits in order of arrival,
//! and parked calls that wait no longer than to their deadlines. They know no rule.
#![tactic(auto)]

mod boxes;
mod bucket;
mod buckets;
mod deadlines;
mod measured;
mod numbered;
mod recent;
mod timed;
mod timed_calls;
mod tree;
mod waiters;

pub use boxes::NumberedBoxes;
pub use buckets::Buckets;
pub use deadlines::Deadlines;
pub use measured::Measured;
pub use numbered::Numbered;
pub use timed::Timed;
pub use timed_calls::TimedCalls;
pub use waiters::{Waiters, Waiting};
