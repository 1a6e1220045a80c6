//! The tests of a trail in a file: its sums, what is spelled of heads and records, files that are cut or
//! changed, and what is written into one.
#![tactic(auto)]

#[cfg(test)]
mod checksum_tests;
#[cfg(test)]
mod fault_tests;
#[cfg(test)]
mod file_tests;
#[cfg(test)]
mod made;
#[cfg(test)]
mod record_tests;
#[cfg(test)]
mod writer_tests;
