//! The open descriptions: which session holds which, what each gives, and the counts of both; and the
//! bytes that each user is charged with.
#![tactic(auto)]

mod charges;
mod descriptions;
mod row;
mod sets;
mod table;
mod tallies;

pub use charges::{Charges, bytes_of, checked_bytes_of};
pub use descriptions::Descrs;
pub use row::Row;
