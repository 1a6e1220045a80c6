//! Fields of bytes, one after another, those of the words that every part of the server shares among them,
//! and the frames that hold them.
#![tactic(auto)]

mod fault;
mod framing;
mod reading;
mod term_reading;
mod term_writing;
mod writing;

pub use fault::{ReadFault, WireFault, WriteFault};
pub use framing::{MAX_BODY, body_of, close_frame};
pub use reading::{alone, bool_at, text_at, u8_at, u16_at, u32_at, u64_at};
pub use term_reading::{
    access_at, attributes_at, family_at, flags_at, name_of, optional_attributes_at,
    optional_gid_at, optional_uid_at, target_at,
};
pub use term_writing::{
    put_access, put_attributes, put_family, put_flags, put_optional_attributes, put_optional_gid,
    put_optional_uid, put_target,
};
pub use writing::{put_bool, put_bytes, put_text, put_u8, put_u16, put_u32, put_u64};
