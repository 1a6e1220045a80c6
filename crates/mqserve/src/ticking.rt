//! The server's clock, and the thread of its ticker.

ghost use Rattle.std.specs.Prelude.{◌≡◌, None};

use ipc_book::{Seat, Shared};
use ipc_server::{Clock, run_ticker};
use ipc_sockets::moment;
use std::alloc::Global;
use std::sync::Wait;
use std::sync::atomic::{AtomicBool, Ordering};
use std::sync::ledger::Ledger;
use std::thread::{JoinHandle, Scope, sleep};
use std::time;
use std::time::Duration;

/// How long a pause is, in milliseconds.
const PAUSE: u64 = 10;

/// The system's clock, which goes until it is stopped.
#[derive(Drop)]
pub struct ServerClock<'a, R> {
    rt: &'a R,
    alloc: Global,
    is_stopped: AtomicBool,
}

impl<'a, R> ServerClock<'a, R> {
    pub fn new(rt: &'a R, alloc: Global) -> Self {
        ServerClock {
            rt,
            alloc,
            is_stopped: AtomicBool::new(false),
        }
    }

    /// Ends the ticker at its next pause.
    pub fn stop(&self) {
        self.is_stopped.store(true, Ordering::SeqCst);
    }
}

impl<R: time::Clock> Clock for ServerClock<'_, R> {
    fn moment(&self) -> u64 {
        moment(self.rt)
    }

    fn pause(&self) -> bool {
        sleep(self.rt, Duration::from_millis(PAUSE));
        !self.is_stopped.load(Ordering::SeqCst)
    }
}

impl<R: Wait + time::Clock> ServerClock<'_, R> {
    /// Makes ticks until the clock is stopped, and gives the seat back.
    fn run<L: Ledger>(&self, shared: &Shared<L>, seat: Seat<L>) -> Seat<L>
        requires { seat.sid ≡ None }
    {
        run_ticker(self.rt, self.alloc, shared, seat, self)
    }
}

/// Starts a ticker on a thread of its own. None, where there is no thread for it.
pub fn start_ticker<'s, E: 's, L: Ledger + Send + Sync, R: Wait + time::Clock + Sync>(
    scope: &'s Scope<'s, E>,
    clock: &'s ServerClock<'s, R>,
    shared: &'s Shared<L>,
    seat: Seat<L>,
) -> Option<JoinHandle<Seat<L>>>
    requires { seat.sid ≡ None }
{
    scope.spawn(move || clock.run(shared, seat)).ok()
}
