//! The tests of a client's sessions: servers and commands from memory, and what is sent and printed.
#![tactic(auto)]

#[cfg(test)]
mod by_name_tests;
#[cfg(test)]
mod fault_tests;
#[cfg(test)]
mod made;
#[cfg(test)]
mod session_tests;
