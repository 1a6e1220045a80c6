//! The texts of faults.

use std::alloc::Global;
use std::fmt::Display;
use std::test::Fail;

/// Whether the value is shown as this text.
pub(crate) fn shows<T: Display>(alloc: Global, value: &T, text: &str) -> Result<(), Fail> {
    let shown = format!(in alloc; "{value}")?;
    if shown.as_str() == text {
        Ok(())
    } else {
        Err(Fail::new(format_args!("{shown} in place of {text}")))
    }
}
