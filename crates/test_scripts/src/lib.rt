//! The tests of scripts, of what a program is asked to do, and of the texts of faults: tables of steps with what each is to give.
#![tactic(auto)]

#[cfg(test)]
mod client_tests;
#[cfg(test)]
mod fault_tests;
#[cfg(test)]
mod script_tests;
#[cfg(test)]
mod serving_tests;
#[cfg(test)]
mod shown;
