//! The server: connections that are served side by side over one shared book.
#![tactic(auto)]

mod desk;
mod ending;
mod gate;
mod held;
mod journal;
mod links;
mod reading;
mod serve;
mod ticker;
mod workers;
mod writing;

pub use ending::{Ending, Served};
pub use gate::{Gate, OpenGate};
pub use journal::{Journal, NoJournal};
pub use links::{Link, Listen};
pub use serve::serve_connection;
pub use ticker::{Clock, run_ticker};
pub use workers::{WorkersFault, run_workers, run_workers_with_journal};
