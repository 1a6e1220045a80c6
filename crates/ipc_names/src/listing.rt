//! Names in a row.

ghost use Rattle.std.specs.Prelude.{◌≡◌, IfOk};

use ipc_terms::{Name, NoMemory};
use std::alloc::Global;

/// These names, which share their bytes.
pub(crate) fn names_of(alloc: Global, keys: &[Name]) -> Result<Vec<Name>, NoMemory>
    ensures { IfOk result (λ names. names.items ≡ keys.now) }
{
    let mut names = Vec::with_capacity(alloc, keys.len())?;
    for key in keys {
        names.push(key.clone()?)?;
    }
    Ok(names)
}
