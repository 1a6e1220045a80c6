//! Requests and answers as frames of bytes, and streams of them.
#![tactic(auto)]

mod answer_reading;
mod answer_writing;
mod frames;
mod framing;
pub mod laws;
mod opcodes;
mod request;
mod request_reading;
mod request_writing;

pub use answer_reading::read_answer;
pub use answer_writing::{put_answer, write_answer};
pub use frames::{Frames, KEPT_ROOM, read_request, remove_front};
pub use ipc_fields::{MAX_BODY, ReadFault, WireFault, WriteFault};
pub use request::Request;
pub use request_writing::{put_request, write_request};
