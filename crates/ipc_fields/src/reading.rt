//! Reading fields, from left to right.

ghost use Rattle.std.specs.Prelude.{◌≡◌, List, length};
ghost use Rattle.ipc_fields.specs.Field.{split, byte, u16, u32, u64, text, boolean, alone};
ghost use Rattle.ipc_fields.specs.Given.{Gives};

use crate::fault::{ReadFault, WireFault};

fn split(n: usize, bytes: &[u8]) -> Result<(&[u8], &[u8]), ReadFault>
    ensures { Gives (λ x. (x.0.now, x.1.now)) result (split n bytes.now) }
{
    if bytes.len() < n {
        return Err(ReadFault::Wire(WireFault::BadField));
    }
    Ok(bytes.split_at(n))
}

/// One byte, and what follows it.
pub fn u8_at(bytes: &[u8]) -> Result<(u8, &[u8]), ReadFault>
    ensures { Gives (λ x. (x.0, x.1.now)) result (byte.read bytes.now) }
{
    match bytes {
        [byte, rest @ ..] => Ok((*byte, rest)),
        [] => Err(ReadFault::Wire(WireFault::BadField)),
    }
}

/// Two bytes, the highest first, and what follows them.
pub fn u16_at(bytes: &[u8]) -> Result<(u16, &[u8]), ReadFault>
    ensures { Gives (λ x. (x.0, x.1.now)) result (u16.read bytes.now) }
{
    let (b, rest) = split(2, bytes)?;
    Ok((u16::from_be_bytes([b[0], b[1]]), rest))
}

/// Four bytes, the highest first, and what follows them.
pub fn u32_at(bytes: &[u8]) -> Result<(u32, &[u8]), ReadFault>
    ensures { Gives (λ x. (x.0, x.1.now)) result (u32.read bytes.now) }
{
    let (b, rest) = split(4, bytes)?;
    Ok((u32::from_be_bytes([b[0], b[1], b[2], b[3]]), rest))
}

/// Eight bytes, the highest first, and what follows them.
pub fn u64_at(bytes: &[u8]) -> Result<(u64, &[u8]), ReadFault>
    ensures { Gives (λ x. (x.0, x.1.now)) result (u64.read bytes.now) }
{
    let (b, rest) = split(8, bytes)?;
    let number = u64::from_be_bytes([b[0], b[1], b[2], b[3], b[4], b[5], b[6], b[7]]);
    Ok((number, rest))
}

/// Two bytes of length and so many bytes, and what follows them.
#[tactic(auto, unfolding(crate::specs::Field::text))]
pub fn text_at(bytes: &[u8]) -> Result<(&[u8], &[u8]), ReadFault>
    ensures { Gives (λ x. (x.0.now, x.1.now)) result (text.read bytes.now) }
{
    let (len, rest) = u16_at(bytes)?;
    split(len as usize, rest)
}

/// A byte 0 or 1, and what follows it.
#[tactic(auto, unfolding(crate::specs::Field::boolean))]
pub fn bool_at(bytes: &[u8]) -> Result<(bool, &[u8]), ReadFault>
    ensures { Gives (λ x. (x.0, x.1.now)) result (boolean.read bytes.now) }
{
    match bytes {
        [0, rest @ ..] => Ok((false, rest)),
        [1, rest @ ..] => Ok((true, rest)),
        _ => Err(ReadFault::Wire(WireFault::BadField)),
    }
}

/// The value, where nothing follows its last field.
pub fn alone<T: Drop>(value: T, rest: &[u8]) -> Result<T, ReadFault>
    ensures { Gives (λ x. x) result (alone value rest.now) }
{
    if rest.is_empty() {
        Ok(value)
    } else {
        Err(ReadFault::Wire(WireFault::Trailing))
    }
}
