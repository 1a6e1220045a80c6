//! Owner, group and mode.

use crate::ids::{Gid, Mode, Uid};

/// What decides who may do what with an object or a directory (POSIX.1-2017, XBD 4.5).
#[derive(Clone, Copy, PartialEq, Eq)]
pub struct Facts {
    pub owner: Uid,
    pub group: Gid,
    pub mode: Mode,
}
