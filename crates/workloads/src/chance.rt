//! Numbers, names and messages that are drawn from a seed.

ghost use Rattle.std.specs.Prelude.{◌<◌};

use anyhow::Result;
use ipc_terms::{Bytes, Name};
use rand_core::utils::NextWord;
use rand_pcg::Pcg32;
use std::alloc::Global;

/// A source of numbers, the same for each seed.
#[derive(Drop)]
pub struct Chance {
    generator: Pcg32,
}

impl Chance {
    pub fn new(seed: u64) -> Chance {
        Chance {
            generator: Pcg32::new(seed, 54),
        }
    }

    /// A number below `count`.
    pub fn below(&mut self, count: u32) -> u32
        requires { 0 < count }
        ensures { result < count }
    {
        self.generator.next_word() % count
    }

    /// Whether one chance in so many came true.
    pub fn one_in(&mut self, count: u32) -> bool
        requires { 0 < count }
    {
        self.below(count) == 0
    }

    /// A message of fewer than so many bytes.
    pub fn message(&mut self, alloc: Global, below: u32) -> Result<Bytes>
        requires { 0 < below }
    {
        let length = self.below(below) as usize;
        let byte = self.below(256) as u8;
        let bytes = vec![in alloc; byte; length]?;
        Ok(Bytes::from_vec(bytes)?)
    }
}

/// The name of this kind and number.
pub fn name_of(alloc: Global, kind: &str, number: u32) -> Result<Name> {
    let text = format!(in alloc; "/{kind}{number}")?;
    Ok(Name::new(Bytes::from_slice(alloc, text.as_bytes())?))
}
