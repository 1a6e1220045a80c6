//! The tests of calls of the crates below the core: tables of steps with what each is to give.
#![tactic(auto)]

#[cfg(test)]
mod access_tests;
#[cfg(test)]
mod charges_tests;
#[cfg(test)]
mod deadlines_tests;
#[cfg(test)]
mod descriptions_tests;
#[cfg(test)]
mod names_tests;
#[cfg(test)]
mod numbered_tests;
#[cfg(test)]
mod queue_tests;
#[cfg(test)]
mod sem_tests;
#[cfg(test)]
mod terms_tests;
#[cfg(test)]
mod trail_tests;
