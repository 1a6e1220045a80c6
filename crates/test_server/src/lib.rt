//! The tests of the server and of the shared book: seats on threads, connections over memory and over loopback, and what
//! they leave in the book.
#![tactic(auto)]

#[cfg(test)]
mod tests;
