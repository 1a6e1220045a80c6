//! The ticker: ends parked calls whose deadline is past.

ghost use Rattle.std.specs.Prelude.{◌≡◌, None};
ghost use Rattle.ipc_server.specs.Begun.{GoesOnByTicks};

use ipc_book::{Seat, Shared, StepFault};
use std::alloc::Global;
use std::sync::Wait;
use std::sync::ledger::Ledger;

/// What a ticker goes by.
pub trait Clock {
    ghost use Rattle.std.specs.Prelude.{ℕ, ⊤};

    // Which moments it may show, where that is known.
    ghost may_show: { Self → ℕ → Type 0 } = { λ _ _. ⊤ };

    /// The moment that it is, in milliseconds.
    fn moment(&self) -> u64
        ensures { may_show self.now result };

    /// Lets some time pass. False where the ticker is to end.
    fn pause(&self) -> bool;
}

/// Makes ticks through a seat that has no session: at each turn one, if it ends a call, else a pause. A tick that wants
/// memory is followed by a pause too. Ends where a pause says so, or the seat is stale. The seat comes back without a
/// session. Its receipts go on from those that it came with, by ticks of moments that the clock showed.
pub fn run_ticker<L: Ledger, R: Wait, C: Clock>(
    rt: &R,
    alloc: Global,
    shared: &Shared<L>,
    seat: Seat<L>,
    clock: &C,
) -> Seat<L>
    requires { seat.sid ≡ None }
    ensures none { result.sid ≡ None }
    ensures ticks { GoesOnByTicks (C.may_show clock.now) seat.list result.list }
{
    let mut seat = seat;
    for _ in rt.forever() {
        let goes_on = match shared.tick_if_due(rt, alloc, &mut seat, clock.moment()) {
            Ok(Some(_)) => true,
            Ok(None) | Err(StepFault::NoMemory) => clock.pause(),
            Err(StepFault::Stale { .. }) => false,
        };
        if !goes_on {
            return seat;
        }
    }
    unreachable!()
}
