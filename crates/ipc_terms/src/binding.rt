//! Bindings.

use crate::name::Name;

/// A name, and the number of the object to which it is bound.
#[derive(Drop)]
pub struct Binding {
    pub name: Name,
    pub object: u64,
}
