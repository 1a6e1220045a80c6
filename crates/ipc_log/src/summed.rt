//! Bytes with their sum behind them.

ghost use Rattle.std.specs.Prelude.{◌≡◌, ◌+◌, ◌≤◌, length, take, drop, vec_len, Some, option_map, IfOk, IfSome};
ghost use Rattle.ipc_fields.specs.Given.{Begins, Puts};
ghost use Rattle.ipc_log.specs.Summed.{summed, summed_at};
ghost use Rattle.ipc_log.specs.Given.{Finds};

use crate::checksum::crc32c;
use crate::fault::{LogFault, TrailFault};
use ipc_fields::{WriteFault, put_u32};

/// How many bytes a sum has.
pub(crate) const SUM_LEN: usize = 4;

/// How many bytes stand in front of a record's body: its length, and the length's sum.
pub(crate) const PREFIX_LEN: usize = 4 + SUM_LEN;

/// The longest body of a record: a place, a verdict, a kind, a session, and a call by the longest frame.
pub(crate) const MAX_BODY: usize = 8 + 1 + 1 + 8 + 4 + ipc_fields::MAX_BODY;

/// The most bytes that a record takes.
pub const MAX_RECORD: usize = PREFIX_LEN + MAX_BODY + SUM_LEN;

/// Puts the sum of the bytes from `start` on behind them.
pub(crate) fn put_sum(out: &mut Vec<u8>, start: usize) -> Result<(), WriteFault>
    requires { start ≤ vec_len out.old }
    ensures puts { Puts (take start out.old.items) out.new.items result (Some (summed (drop start out.old.items))) }
    ensures begins { Begins out.old.items out.new.items }
{
    let (_before, text) = out.split_at(start);
    let sum = crc32c(text);
    put_u32(out, sum)
}

/// The first `n` bytes, where their sum stands behind them; none as long as they and their sum are not whole.
#[tactic(auto, unfolding(crate::specs::Summed::summed_at))]
pub(crate) fn summed_at(n: usize, bytes: &[u8]) -> Result<Option<&[u8]>, LogFault>
    ensures finds { Finds (option_map (λ x. x.now)) result (summed_at n bytes.now) }
    ensures some { IfOk result (λ found. IfSome found (λ text. (length text.now ≡ n) × (n + 4 ≤ length bytes.now))) }
{
    if bytes.len() < SUM_LEN || bytes.len() - SUM_LEN < n {
        return Ok(None);
    }
    let (text, rest) = bytes.split_at(n);
    let sum = crc32c(text).to_be_bytes();
    if rest[..SUM_LEN] == sum[..] {
        Ok(Some(text))
    } else {
        Err(LogFault::Trail(TrailFault::BadSum))
    }
}
