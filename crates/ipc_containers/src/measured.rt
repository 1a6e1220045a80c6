//! How large an item is.

ghost use Rattle.std.specs.Prelude.{◌≡◌, ℕ};

/// An item that has a size.
pub trait Measured {
    ghost size: { Self → ℕ };

    /// In units of the item's own.
    fn size(&self) -> u64
        ensures { result ≡ size self.now };
}
