//! Which records are kept.

ghost use Rattle.std.specs.Prelude.{◌≡◌, ◌<◌, ◌≤◌, max, true, ℕ, List, Option};
ghost use Rattle.ipc_loop.specs.Keeping.{AreWithin};
ghost use Rattle.ipc_loop.specs.Moves.{Moved};
ghost use Rattle.ipc_loop.specs.Ports.{Port};
ghost use Rattle.ipc_loop.specs.Serving.{Serves, KeepsUpToDate};

use crate::links::Host;
use ipc_hub::Hub;

/// How many records are forgotten at most for each that was made, or for as many bytes as the smallest record takes.
const FORGOTTEN_FOR_ONE: usize = 2;

/// About how many bytes a record takes that has no message and no name.
const SMALLEST_RECORD: u64 = 128;

/// How many of the smallest records take as many bytes as were made since there were so many. A record with a large message so pays for
/// as many small ones as it displaces.
pub fn displaced(hub: &Hub, bytes_before: u64) -> usize {
    (hub.record_bytes().saturating_sub(bytes_before) / SMALLEST_RECORD) as usize
}

/// How many records are kept. Where more are, the oldest are forgotten, a few in each round.
#[derive(Clone, Copy, PartialEq, Eq)]
pub struct Keeping {
    /// So many of the newest, if there is a bound.
    pub records: Option<u64>,
    /// As many of the newest as take about so many bytes, if there is a bound: 128 each, and the messages and names in them.
    pub bytes: Option<u64>,
}

impl Keeping {
    /// All records are kept.
    pub const ALL: Keeping = Keeping {
        records: None,
        bytes: None,
    };

    /// Whether more records are kept than are to be.
    fn is_exceeded(&self, hub: &Hub) -> bool
        ensures { result ≡ true → (place : ℕ) → AreWithin self.now place hub.now.core.history → hub.now.core.first < place }
    {
        let recorded = hub.recorded() as u64;
        let kept = recorded - hub.first_kept();
        let too_many = match self.records {
            Some(most) => most < kept,
            None => false,
        };
        let too_large = match self.bytes {
            Some(most) => most < hub.record_bytes(),
            None => false,
        };
        too_many || too_large
    }
}

/// Forgets the oldest records while more are kept than are to be and the host can spare them, at most two for each of so many that
/// were made: so no round pauses longer for it than for what made them.
pub fn forget_old<H: Host>(hub: &mut Hub, host: &H, keeping: Keeping, made: usize)
    ensures newest { (place : ℕ) → AreWithin keeping place hub.old.core.history → hub.new.core.first ≤ max hub.old.core.first place }
    ensures spare { hub.new.core.first ≤ max hub.old.core.first (H.spare host.now) }
    ensures serves { (moves : Option (List Moved)) (ports : ℕ → Option Port) → Serves hub.old moves ports hub.new moves ports }
    ensures marks { (ports : ℕ → Option Port) → KeepsUpToDate hub.old ports hub.new ports }
{
    let spare = host.spare();
    let mut left = made.saturating_mul(FORGOTTEN_FOR_ONE);
    while left > 0 && hub.first_kept() < spare && keeping.is_exceeded(hub) {
        hub.forget_one();
        left -= 1;
    }
}
