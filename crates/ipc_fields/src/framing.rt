//! Frames: four bytes of length, the highest first, and the body.

ghost use Rattle.std.specs.Prelude.{◌≡◌, ℕ, ◌+◌, ◌≤◌, ◌++◌, length, take, drop, vec_len, Some, option_map, OnErr};
ghost use Rattle.std.specs.Int.{w32, to_be_bytes};
ghost use Rattle.ipc_fields.specs.Frame.{body_at, framed};
ghost use Rattle.ipc_fields.specs.Given.{Begins, Gives, Puts};

use crate::fault::{ReadFault, WireFault, WriteFault};

/// The longest body that a frame may have.
pub const MAX_BODY: usize = 16_777_300;

/// The body of the frame in front and what follows it; none as long as the body is not whole. What is
/// wrong with a length is said as soon as its four bytes are there.
#[tactic(auto, unfolding(crate::specs::Frame::body_at))]
pub fn body_of(bytes: &[u8]) -> Result<Option<(&[u8], &[u8])>, ReadFault>
    ensures { Gives (option_map (λ x. (x.0.now, x.1.now))) result (body_at bytes.now) }
{
    if bytes.len() < 4 {
        return Ok(None);
    }
    let (header, rest) = bytes.split_at(4);
    let len = u32::from_be_bytes([header[0], header[1], header[2], header[3]]) as usize;
    if len == 0 {
        return Err(ReadFault::Wire(WireFault::Empty));
    }
    if len > MAX_BODY {
        return Err(ReadFault::Wire(WireFault::TooLong));
    }
    if rest.len() < len {
        return Ok(None);
    }
    Ok(Some(rest.split_at(len)))
}

fn set_length(bytes: &mut [u8], start: usize, len: u32)
    requires { start + 4 ≤ length bytes.old }
    ensures { bytes.new ≡ take start bytes.old ++ to_be_bytes w32 len ++ drop (start + 4) bytes.old }
{
    bytes[start..start + 4].copy_from_slice(&len.to_be_bytes());
}

/// Sets the length of the frame that began at `start`: four bytes of any value and the body stand there. `TooLong`
/// where the body has more than `MAX_BODY` bytes.
#[tactic(auto, using(crate::proofs::Joins::joins), unfolding(crate::specs::Frame::framed))]
pub fn close_frame(out: &mut Vec<u8>, start: usize) -> Result<(), WriteFault>
    requires { start + 4 ≤ vec_len out.old }
    ensures puts { Puts (take start out.old.items) out.new.items result (framed (Some (drop (start + 4) out.old.items))) }
    ensures begins { Begins (take start out.old.items) out.new.items }
    ensures err { OnErr result (out.new.items ≡ out.old.items) }
{
    let body_len = out.len() - start - 4;
    if body_len > MAX_BODY {
        return Err(WriteFault::TooLong);
    }
    set_length(out, start, body_len as u32);
    Ok(())
}
