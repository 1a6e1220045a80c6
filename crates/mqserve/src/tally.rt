//! What the records of a server count up to, as they come.

ghost use Rattle.std.specs.Prelude.{◌≡◌};

use ipc_history::Counts;
use ipc_trail::Trail;

/// Counts records. None may be forgotten before it is counted.
#[derive(Drop)]
pub struct Tally {
    counts: Counts,
    /// The place of the next record to be counted.
    counted: u64,
}

impl Tally {
    /// Counts the records from this place on.
    pub fn new(first: u64) -> Tally {
        Tally {
            counts: Counts::new(),
            counted: first,
        }
    }

    /// The place of the next record to be counted.
    pub fn counted(&self) -> u64
        ensures { result ≡ self.now.counted }
    {
        self.counted
    }

    /// What was counted.
    pub fn counts(&self) -> &Counts {
        &self.counts
    }

    /// Counts the records that came since.
    pub fn go_on(&mut self, trail: &Trail) {
        let end = trail.len() as u64;
        for place in self.counted..end {
            if let Some(added) = trail.get(place as usize) {
                self.counts.add(added);
            }
        }
        self.counted = end;
    }
}
