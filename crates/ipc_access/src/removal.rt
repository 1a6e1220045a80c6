//! Who may remove a name from a directory.

ghost use Rattle.std.specs.Prelude.{◌≡◌, ◌==◌};
ghost use Rattle.ipc_access.specs.Sticky.{is_sticky, lets_remove};

use crate::DirFacts;
use crate::class::Cred;
use ipc_terms::{Mode, Uid};

/// Whether a name whose object has this owner may be removed from the directory, as far as the
/// directory's restricted deletion flag decides (POSIX.1-2017, XBD 4.3, Directory Protection, and
/// `unlink`: `S_ISVTX`). That the directory may be searched and written is for `grants` to say.
pub fn may_remove(cred: &Cred, directory: &DirFacts, owner: Uid) -> bool
    ensures { result ≡ lets_remove cred.now directory.now owner }
{
    !has_sticky_bit(directory.mode)
        || cred.is_root()
        || cred.uid.0 == owner.0
        || cred.uid.0 == directory.owner.0
}

fn has_sticky_bit(mode: Mode) -> bool
    ensures { result ≡ is_sticky mode }
{
    mode.0 & 0o1000 == 0o1000
}
