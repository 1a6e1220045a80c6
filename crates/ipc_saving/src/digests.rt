//! A digest of a trail's files.

ghost use Rattle.std.specs.Prelude.{◌+◌, ◌≤◌};

use ipc_log::TrailDigest;
use sha2::{Digest, Sha256};
use std::alloc::Global;
use std::fs::File;
use std::io;
use std::io::{Read, Seek, SeekFrom};

/// How many bytes are read at a time.
const PIECE: usize = 65_536;

/// Adds so many bytes of the file, from its first on.
pub fn add_file(alloc: Global, hasher: &mut Sha256, mut file: &File, whole: u64) -> io::Result<()> {
    let mut piece = Vec::from_elem(alloc, 0u8, PIECE)?;
    file.seek(SeekFrom::Start(0))?;
    let pieces = whole / PIECE as u64;
    for _ in 0..pieces {
        file.read_exact(&mut piece)?;
        hasher.update(piece.as_slice());
    }
    let mut rest = Vec::from_elem(alloc, 0u8, (whole % PIECE as u64) as usize)?;
    file.read_exact(&mut rest)?;
    hasher.update(rest.as_slice());
    Ok(())
}

/// The digest of all that was added.
pub fn digest_of(hasher: Sha256) -> TrailDigest {
    let digest = hasher.finalize();
    TrailDigest(
        number_at(&digest, 0),
        number_at(&digest, 8),
        number_at(&digest, 16),
        number_at(&digest, 24),
    )
}

/// The eight bytes from this one on, the highest first.
fn number_at(digest: &[u8; 32], at: usize) -> u64
    requires { at + 8 ≤ 32 }
{
    u64::from_be_bytes([
        digest[at],
        digest[at + 1],
        digest[at + 2],
        digest[at + 3],
        digest[at + 4],
        digest[at + 5],
        digest[at + 6],
        digest[at + 7],
    ])
}
