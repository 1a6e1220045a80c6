//! A key that a file holds.

ghost use Rattle.std.specs.Prelude.{◌≡◌, IfErr, false};
ghost use Rattle.ipc_client.specs.Faults.{is_net};

use crate::fault::ClientFault;
use ipc_lines::Lines;
use std::alloc::Global;
use std::io::Read;

/// The first line of a reader, without its line feed, is a key; of an empty one the empty key.
///
/// # Errors
///
/// The fault of the reader or of the line: one of more than 1,048,576 bytes, or that is not UTF-8.
pub fn key_in<R: Read + Drop>(alloc: Global, reader: R) -> Result<String, ClientFault>
    ensures { IfErr result (λ fault. is_net fault ≡ false) }
{
    let mut lines = Lines::new(alloc, reader)?;
    let mut key = String::new(alloc);
    if let Some(line) = lines.next_line()? {
        key.push_str(line)?;
    }
    Ok(key)
}
