//! The tests of words, and of lines of an input: tables of steps with what each is to give.
#![tactic(auto)]

#[cfg(test)]
mod input_tests;
#[cfg(test)]
mod lines_tests;
#[cfg(test)]
mod words_tests;
