//! Numbers that are drawn from a seed.

ghost use Rattle.std.specs.Prelude.{◌<◌};

use rand_core::utils::NextWord;
use rand_pcg::Pcg32;

/// A source of numbers, the same for each seed.
#[derive(Drop)]
pub struct Chance {
    generator: Pcg32,
}

impl Chance {
    pub fn new(seed: u64) -> Chance {
        Chance {
            generator: Pcg32::new(seed, 54),
        }
    }

    /// A number below `count`.
    pub fn below(&mut self, count: u32) -> u32
        requires { 0 < count }
        ensures { result < count }
    {
        self.generator.next_word() % count
    }

    /// Whether one chance in so many came true.
    pub fn one_in(&mut self, count: u32) -> bool
        requires { 0 < count }
    {
        self.below(count) == 0
    }
}
