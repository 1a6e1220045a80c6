//! The rules: each is one function with the name of its definition, and the verdict is the first that forbids.
#![tactic(auto)]

mod conditions;
mod rules;

pub use rules::decide;
