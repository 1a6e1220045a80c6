//! What a server keeps so that it need not look back over all that happened: sessions, names, objects with
//! what stands in them, and descriptions. Of the user file it knows each user's limit alone, and no rule.
#![tactic(auto)]

mod counts;
mod objects;
mod rows;
mod sessions;
mod tables;

pub use counts::Counts;
pub use rows::{Body, ObjectRow, Session};
pub use tables::{Grant, Owned, Tables};
