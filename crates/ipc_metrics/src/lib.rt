//! The server's numbers as a page in Prometheus' text format 0.0.4, what a request over HTTP asks for, and its whole response.
//! A page shows no name and no byte of a message.
#![tactic(auto)]

mod asked;
mod families;
mod numbers;
mod pages;
mod process;
mod responses;

pub use asked::{Asked, MOST_HEAD, asked_by};
pub use numbers::Numbers;
pub use pages::page;
pub use process::{processor_ticks, resident_pages};
pub use responses::response;
