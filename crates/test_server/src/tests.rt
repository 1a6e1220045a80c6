//! The tests, and the books, streams and signs that they share.

mod books;
mod fault_tests;
mod hold_tests;
mod journal_tests;
mod loopback_tests;
mod memory_tests;
mod pairs;
mod seat_tests;
mod signs;
mod streams;
mod ticker_tests;
