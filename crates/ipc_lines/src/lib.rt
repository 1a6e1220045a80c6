//! The lines that programs read and write: read one by one over a bounded number of reads, split into words, and
//! written in blocks.
#![tactic(auto)]

mod fault;
mod lines;
mod output;
mod words;

pub use fault::LineFault;
pub use lines::Lines;
pub use output::Output;
pub use words::words_of;
