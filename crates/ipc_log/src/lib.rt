//! A trail in a file: a head, and then records. How they are written, and how they are read back.
#![tactic(auto)]

mod checksum;
mod fault;
mod head;
pub mod laws;
mod record_reading;
mod record_writing;
mod remainders;
mod retelling;
mod summed;
mod trail_writer;

pub use checksum::crc32c;
pub use fault::{LogFault, TrailFault};
pub use head::{HEAD_LEN, Head, put_head, read_head};
pub use ipc_fields::WriteFault;
pub use record_reading::read_record;
pub use record_writing::put_record;
pub use retelling::{NO_RETELLING, Retelling, TrailDigest};
pub use summed::MAX_RECORD;
pub use trail_writer::TrailWriter;
