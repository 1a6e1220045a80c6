//! How long a round waits.

ghost use Rattle.std.specs.Prelude.{◌≡◌, None, Some, true, false, min, is_some, option_map};
ghost use Rattle.ipc_loop.specs.Pausing.{IsAtMost};

/// How long nobody is accepted where accepting failed, as with too many open files, if nothing happens before.
const MILLISECONDS_WITHOUT_ACCEPTING: u64 = 100;

/// How long it takes until what found no memory is tried again, if nothing happens before.
const MILLISECONDS_WITHOUT_MEMORY: u64 = 10;

/// How long it takes at most until the clock is asked whether a parked call is due. A wait is measured by another clock,
/// which stands while the machine sleeps, and which nobody sets.
const MILLISECONDS_BY_ANOTHER_CLOCK: u64 = 1_000;

/// Why a round may not wait until something is ready.
#[derive(Clone, Copy)]
pub struct Reasons {
    /// What has to be recorded found no memory.
    pub is_short: bool,
    /// Somebody gets a turn, or may be accepted.
    pub is_busy: bool,
    /// Accepting failed.
    pub is_pausing: bool,
    /// In how many milliseconds a parked call is due.
    pub until_due: Option<u64>,
}

impl Reasons {
    /// How many milliseconds a round waits, if nothing is ready before; without a number, until something is.
    pub fn pause(self) -> Option<u64>
        ensures short { self.is_short ≡ true → result ≡ Some 10 }
        ensures busy { self.is_short ≡ false → self.is_busy ≡ true → result ≡ Some 0 }
        ensures due { self.is_short ≡ false → self.is_busy ≡ false → self.is_pausing ≡ false → result ≡ option_map (λ left. min left 1000) self.until_due }
        ensures timed { is_some self.until_due ≡ true → IsAtMost 1000 result }
        ensures pausing { self.is_short ≡ false → self.is_busy ≡ false → self.is_pausing ≡ true → self.until_due ≡ None → result ≡ Some 100 }
    {
        if self.is_short {
            return Some(MILLISECONDS_WITHOUT_MEMORY);
        }
        if self.is_busy {
            return Some(0);
        }
        let most = if self.is_pausing {
            MILLISECONDS_WITHOUT_ACCEPTING
        } else {
            MILLISECONDS_BY_ANOTHER_CLOCK
        };
        match self.until_due {
            Some(milliseconds) => Some(milliseconds.min(most)),
            None if self.is_pausing => Some(MILLISECONDS_WITHOUT_ACCEPTING),
            None => None,
        }
    }
}
