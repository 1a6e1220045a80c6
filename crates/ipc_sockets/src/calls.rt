//! Calls of the system that the kit's `std` hasn't.

use std::io;

/// What a call says by 0, or -1 where it failed.
pub fn done(status: i32) -> io::Result<()> {
    if status < 0 {
        return Err(io::Error::other("a call on a socket failed"));
    }
    Ok(())
}
