//! A semaphore: its value, and which sessions wait for it.
#![tactic(auto)]

mod semaphore;

pub use semaphore::{Overflow, Sem, WaitOutcome};
