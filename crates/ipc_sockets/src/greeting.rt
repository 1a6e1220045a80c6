//! Bytes that a link gives before what its socket gives.

ghost use Rattle.std.specs.Prelude.{◌≡◌, ◌++◌, drop, take};
ghost use Rattle.ipc_sockets.specs.Greetings.{given};

use ipc_terms::Bytes;
use std::marker::Model;

/// Bytes of which some may have been given; seen as those that are left.
#[derive(Drop)]
pub struct Greeting {
    bytes: Bytes,
    given: usize,
}

impl Model for Greeting {
    ghost use Rattle.std.specs.Prelude.{◌≤◌, ℕ, List, drop, length};

    ghost Value = { List ℕ };

    ghost view = { λ g. drop g.given g.bytes };

    ghost invariant = { λ g. g.given ≤ length g.bytes };
}

impl Greeting {
    /// These bytes, of which none was given.
    pub fn new(bytes: Bytes) -> Greeting
        ensures { result ≡ bytes }
    {
        Greeting { bytes, given: 0 }
    }

    /// Gives as many of the bytes that are left as the buffer has room for, in order, and says how many: 0 once none is left. The
    /// buffer behind them stays as it is.
    pub fn read(&mut self, buffer: &mut [u8]) -> usize
        ensures count { result ≡ given self.old buffer.old }
        ensures gives { buffer.new ≡ take result self.old ++ drop result buffer.old }
        ensures left { self.new ≡ drop result self.old }
    {
        let bytes = self.bytes.as_slice();
        let _fits = bytes.len();
        let (_, left) = bytes.split_at(self.given);
        let count = left.len().min(buffer.len());
        let (front, _) = left.split_at(count);
        buffer[..count].copy_from_slice(front);
        self.given += count;
        count
    }
}
