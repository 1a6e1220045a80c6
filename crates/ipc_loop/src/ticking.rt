//! Ticks, and when the next is due.

ghost use Rattle.std.specs.Prelude.{◌≡◌, ◌⊎◌, false, ℕ, List, Option, IfSome, IfNone, OnOk};
ghost use Rattle.ipc_hub.specs.Hub.{Hub, would_end};
ghost use Rattle.ipc_loop.specs.Moves.{Moved};
ghost use Rattle.ipc_loop.specs.Ports.{Port};
ghost use Rattle.ipc_loop.specs.NextTick.{IsNextTick, NoTick, MakesTicks};
ghost use Rattle.ipc_loop.specs.Serving.{Serves, KeepsUpToDate};

use ipc_hub::Hub;
use ipc_terms::NoMemory;
use std::alloc::Global;

/// How many ticks a round makes at most.
const MOST_TICKS: u32 = 1_024;

/// Ends the parked calls whose deadlines are past at this moment, one tick each: all of them, or as many as a round makes at
/// most. At an `Err` a tick found no memory.
pub fn make_ticks(hub: &mut Hub, alloc: Global, moment: u64) -> Result<(), NoMemory>
    ensures due { (count : ℕ) × MakesTicks count moment hub.old hub.new }
    ensures all { OnOk result ((would_end hub.new moment ≡ false) ⊎ MakesTicks 1024 moment hub.old hub.new) }
    ensures serves { (moves : Option (List Moved)) (ports : ℕ → Option Port) → Serves hub.old moves ports hub.new moves ports }
    ensures marks { (ports : ℕ → Option Port) → KeepsUpToDate hub.old ports hub.new ports }
{
    let mut made = 0;
    while made < MOST_TICKS {
        if !hub.due(moment) {
            return Ok(());
        }
        let Ok(()) = hub.tick(alloc, moment) else {
            return Err(NoMemory);
        };
        made += 1;
    }
    Ok(())
}

/// The least moment from `now` on at which a tick would end a call, if there is one.
pub fn next_deadline(hub: &Hub, now: u64) -> Option<u64>
    ensures some { IfSome result (IsNextTick hub.now now) }
    ensures none { IfNone result (NoTick hub.now) }
{
    if hub.due(now) {
        return Some(now);
    }
    hub.least_deadline()
}
