//! Links that never wait, and what tells which of them are ready.

ghost use Rattle.std.specs.Prelude.{◌≡◌};
ghost use Rattle.std.specs.Io.{ReadsAtMost, WritesAtMost};
ghost use Rattle.std.specs.Prelude.{◌∷◌, []};
ghost use Rattle.ipc_loop.specs.Moves.{Opens, Gives, Takes, GoOn, LinkClosed};
ghost use Rattle.ipc_loop.specs.Hearing.{Tells};

use crate::ending::Ending;
use ipc_terms::Uid;
use ipc_trail::Trail;
use std::io;
use std::time::Duration;

/// What became ready. It is told once, and of a link again only after a read or a write met `WouldBlock`. A read that
/// gives less than was asked for doesn't say that nothing more is there.
#[derive(Clone, Copy)]
pub enum Ready {
    /// Somebody connects.
    Listener,
    /// The link of this number.
    Link {
        number: u64,
        is_readable: bool,
        is_writable: bool,
        /// The peer sends no more than what can be read already.
        has_ended: bool,
    },
}

/// Links by their numbers, what waits for them, and a clock. Reads, writes and accepts answer `WouldBlock` where they
/// would wait. Real sockets leave `moves` and `told` as they are, unknown; a host that records them knows them.
pub trait Host {
    ghost use Rattle.std.specs.Prelude.{ℕ, Option, None, List};
    ghost use Rattle.ipc_loop.specs.Moves.{Moved};
    ghost use Rattle.ipc_loop.specs.declared.links.Ready.{Ready};

    // What links did and what was told of them so far, in order, also what they were asked for in vain, where that is known.
    ghost moves: { Self → Option (List Moved) } = { λ _. None };

    // What was told to be ready so far, in order, where that is known.
    ghost told: { Self → Option (List Ready) } = { λ _. None };

    // How many records of the trail, from the first on, may be forgotten.
    ghost spare: { Self → ℕ };

    /// Accepts the next connection. Its link gets this number, which no link had before. An `Err` accepts nobody, or
    /// drops the one that was accepted.
    fn accept(&mut self, number: u64) -> io::Result<()>
        ensures moved { Opens (moves self.old) (moves self.new) number result }
        ensures silent { told self.new ≡ told self.old };

    /// How many bytes the link gave, and 0 at the end of its stream. `NotFound` where there is no such link.
    fn read(&mut self, number: u64, buffer: &mut [u8]) -> io::Result<usize>
        ensures bound { ReadsAtMost result buffer.new }
        ensures moved { Gives (moves self.old) (moves self.new) number result buffer.new }
        ensures silent { told self.new ≡ told self.old };

    /// How many of the bytes the link took. `NotFound` where there is no such link.
    fn write(&mut self, number: u64, bytes: &[u8]) -> io::Result<usize>
        ensures bound { WritesAtMost result bytes.now }
        ensures moved { Takes (moves self.old) (moves self.new) number result bytes.now }
        ensures silent { told self.new ≡ told self.old };

    /// The connection's hello was accepted: it is this user's from now on. It is told once, before its answer is written.
    fn greeted(&mut self, number: u64, user: Uid)
        ensures moved { moves self.new ≡ moves self.old }
        ensures silent { told self.new ≡ told self.old };

    /// What is recorded so far: where it is told of a link, all that this link was answered, which is written next; and at the end
    /// of each round. A host that puts records into a file takes no bytes of a link (`WouldBlock`) before the file has what they
    /// answer, and then tells that it is ready.
    fn save(&mut self, trail: &Trail, link: Option<u64>)
        ensures moved { moves self.new ≡ moves self.old }
        ensures silent { told self.new ≡ told self.old };

    /// How many records of the trail, from the first on, may be forgotten: those that the host has put elsewhere, or any number where
    /// it puts none.
    fn spare(&self) -> u64
        ensures { result ≡ spare self.now };

    /// Closes the link, if there is one: how many requests of its connection were stepped, and why it ends. The hello is one
    /// of them, also one that was refused, and so is a call that a rule refused; the hang-up is none.
    fn close(&mut self, number: u64, requests: u64, ending: Ending)
        ensures moved { GoOn (moves self.old) (moves self.new) (LinkClosed number ending ∷ []) }
        ensures silent { told self.new ≡ told self.old };

    /// Waits until something is ready, or the pause is over; without a pause, until something is ready.
    fn wait(&mut self, pause: Option<Duration>) -> io::Result<()>
        ensures moved { moves self.new ≡ moves self.old }
        ensures silent { told self.new ≡ told self.old };

    /// One more of what the last wait found ready.
    fn next_ready(&mut self) -> Option<Ready>
        ensures moved { moves self.new ≡ moves self.old }
        ensures tells { Tells (told self.old) (told self.new) result };

    /// Milliseconds since 1970, or 0 where the clock can't be read.
    fn moment(&mut self) -> u64
        ensures moved { moves self.new ≡ moves self.old }
        ensures silent { told self.new ≡ told self.old };
}
