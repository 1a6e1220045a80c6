//! A writer that leaves out what the other end has already.

ghost use Rattle.std.specs.Prelude.{◌≡◌, ◌-◌, ◌<◌, min, length, Ok};
ghost use Rattle.std.specs.Io.{WritesAtMost};
ghost use Rattle.std.specs.Io.KnownBytes.{WriteAppends};

use std::io;
use std::io::Write;

/// Takes everything, and passes on all but so many bytes in front.
#[derive(Drop)]
pub struct WithoutFront<W> {
    pub writer: W,
    /// How many bytes are still left out.
    pub left_out: usize,
}

impl<W: Write> Write for WithoutFront<W> {
    fn write(&mut self, bytes: &[u8]) -> io::Result<usize>
        ensures bound { WritesAtMost result bytes.now }
        ensures front { 0 < min self.old.left_out (length bytes.now) → (result ≡ Ok (min self.old.left_out (length bytes.now))) × (self.new ≡ record self.old { left_out = self.old.left_out - length bytes.now }) }
        ensures behind { min self.old.left_out (length bytes.now) ≡ 0 → (self.new.left_out ≡ self.old.left_out) × WriteAppends (W.contents self.old.writer) (W.contents self.new.writer) result bytes.now }
    {
        let count = self.left_out.min(bytes.len());
        if count == 0 {
            return self.writer.write(bytes);
        }
        self.left_out = self.left_out.saturating_sub(count);
        Ok(count)
    }

    fn flush(&mut self) -> io::Result<()> {
        self.writer.flush()
    }
}
