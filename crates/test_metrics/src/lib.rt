//! The tests of the page of numbers, of what requests ask for and what they are answered, and of texts of /proc.
#![tactic(auto)]

#[cfg(test)]
mod page_tests;
#[cfg(test)]
mod process_tests;
#[cfg(test)]
mod request_tests;
