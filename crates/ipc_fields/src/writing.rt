//! Writing fields at the end of a buffer, from left to right. Whatever comes of it, what stood in the buffer stays.

ghost use Rattle.std.specs.Prelude.{◌≡◌, List, Some, length};
ghost use Rattle.ipc_fields.specs.Field.{byte, u16, u32, u64, text, boolean};
ghost use Rattle.ipc_fields.specs.Given.{Begins, Puts};

use crate::fault::WriteFault;

/// The longest text.
const MAX_TEXT: usize = 65_535;

/// One byte.
pub fn put_u8(out: &mut Vec<u8>, number: u8) -> Result<(), WriteFault>
    ensures puts { Puts out.old.items out.new.items result (byte.spell number) }
    ensures begins { Begins out.old.items out.new.items }
{
    out.push(number)?;
    Ok(())
}

/// The bytes as they are.
pub fn put_bytes(out: &mut Vec<u8>, bytes: &[u8]) -> Result<(), WriteFault>
    ensures puts { Puts out.old.items out.new.items result (Some bytes.now) }
    ensures begins { Begins out.old.items out.new.items }
{
    out.extend_from_slice(bytes)?;
    Ok(())
}

/// Two bytes, the highest first.
pub fn put_u16(out: &mut Vec<u8>, number: u16) -> Result<(), WriteFault>
    ensures puts { Puts out.old.items out.new.items result (u16.spell number) }
    ensures begins { Begins out.old.items out.new.items }
{
    put_bytes(out, &number.to_be_bytes())
}

/// Four bytes, the highest first.
pub fn put_u32(out: &mut Vec<u8>, number: u32) -> Result<(), WriteFault>
    ensures puts { Puts out.old.items out.new.items result (u32.spell number) }
    ensures begins { Begins out.old.items out.new.items }
{
    put_bytes(out, &number.to_be_bytes())
}

/// Eight bytes, the highest first.
pub fn put_u64(out: &mut Vec<u8>, number: u64) -> Result<(), WriteFault>
    ensures puts { Puts out.old.items out.new.items result (u64.spell number) }
    ensures begins { Begins out.old.items out.new.items }
{
    put_bytes(out, &number.to_be_bytes())
}

/// Two bytes of length, and the bytes.
#[tactic(auto, using(crate::proofs::Joins::joins), unfolding(crate::specs::Field::text))]
pub fn put_text(out: &mut Vec<u8>, bytes: &[u8]) -> Result<(), WriteFault>
    ensures puts { Puts out.old.items out.new.items result (text.spell bytes.now) }
    ensures begins { Begins out.old.items out.new.items }
{
    if bytes.len() > MAX_TEXT {
        return Err(WriteFault::TooLong);
    }
    put_u16(out, bytes.len() as u16)?;
    put_bytes(out, bytes)
}

/// A byte 0 or 1.
#[tactic(auto, unfolding(crate::specs::Field::boolean))]
pub fn put_bool(out: &mut Vec<u8>, flag: bool) -> Result<(), WriteFault>
    ensures puts { Puts out.old.items out.new.items result (boolean.spell flag) }
    ensures begins { Begins out.old.items out.new.items }
{
    put_u8(out, flag as u8)
}
