//! The tests of calls of the core, and of frames: tables of steps with what each is to give.
#![tactic(auto)]

#[cfg(test)]
mod core_tests;
#[cfg(test)]
mod cores;
#[cfg(test)]
mod plain_lists_tests;
#[cfg(test)]
mod wire_bodies_tests;
#[cfg(test)]
mod wire_made_tests;
#[cfg(test)]
mod wire_tests;
