//! Why a trail could not be read.

use thiserror::Error;

/// What is wrong with the bytes of a trail.
#[derive(Clone, Copy, Debug, PartialEq, Eq, Drop, Error)]
pub enum TrailFault {
    /// The file doesn't begin as trails of this version do.
    #[error("not a trail of this version")]
    BadMagic,
    /// A record is to be longer than the longest that is written.
    #[error("record too long")]
    BadLength,
    /// Bytes and their sum don't agree.
    #[error("sum of other bytes")]
    BadSum,
    /// A field goes past the end, or has a value that is not allowed.
    #[error("bad field")]
    BadFields,
    /// The record is of another place.
    #[error("record of another place")]
    BadPlace,
}

/// Why a head or a record was not read.
#[derive(Clone, Copy, Debug, Drop, Error)]
pub enum LogFault {
    /// The bytes in front are at fault.
    #[error("{0}")]
    Trail(TrailFault),
    /// A growth was refused.
    #[error("memory")]
    NoMemory,
}
