//! Names of objects, and the directory of a family.
#![tactic(auto)]

mod directory;
mod form;
mod hashing;
mod listing;

pub use directory::NameDir;
pub use form::{check, has_form, is_long};
pub use hashing::NameHashing;
