//! The client's work: commands as request frames, and sessions over a connection.
#![tactic(auto)]

mod acts;
mod connection;
mod encode;
mod fault;
mod frame;
mod key;
mod listing;
mod session;
mod without_front;

pub use encode::encode_lines;
pub use fault::{ClientFault, ProgramFault};
pub use frame::frame_of_words;
pub use key::key_in;
pub use session::{LONGEST_KEY, client_session};
pub use without_front::WithoutFront;
