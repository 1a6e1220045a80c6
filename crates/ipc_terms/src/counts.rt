//! Counts at keys.

ghost use Rattle.std.specs.Prelude.{◌≡◌, ℕ, ◌+◌, ◌-◌, ◌^◌, ◌<◌, ◌==◌, OnOk, OnErr, if◌then◌else◌};
ghost use Rattle.ipc_terms.specs.Counting.{count_of};

use crate::errors::NoMemory;
use std::collections::BTreeMap;

/// The count at the key; none there is 0.
pub fn count(counts: &BTreeMap<u64, usize>, key: u64) -> usize
    ensures { result ≡ count_of counts.now key }
{
    match counts.get(&key) {
        Some(count) => *count,
        None => 0,
    }
}

/// Counts one more at the key. An `Err` changes no count.
pub fn raise(counts: &mut BTreeMap<u64, usize>, key: u64) -> Result<(), NoMemory>
    requires { count_of counts.old key + 1 < 2 ^ 64 }
    ensures ok { OnOk result ((q : ℕ) → count_of counts.new q ≡ (if key == q then count_of counts.old q + 1 else count_of counts.old q)) }
    ensures err { OnErr result ((q : ℕ) → count_of counts.new q ≡ count_of counts.old q) }
{
    let raised = count(counts, key) + 1;
    counts.insert(key, raised)?;
    Ok(())
}

/// Counts one less at the key.
pub fn lower(counts: &mut BTreeMap<u64, usize>, key: u64)
    ensures { (q : ℕ) → count_of counts.new q ≡ (if key == q then count_of counts.old q - 1 else count_of counts.old q) }
{
    let before = count(counts, key);
    if before <= 1 {
        counts.remove(&key);
    } else if let Some(count) = counts.get_mut(&key) {
        *count = before - 1;
    }
}
