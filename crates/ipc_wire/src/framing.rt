//! Writing the frame of a message.

ghost use Rattle.std.specs.Prelude.{◌≡◌, ℕ, List, Option, Some, None, IfOk, IsErrOf, OnOk, OnErr};
ghost use Rattle.ipc_fields.specs.Field.{◌⊕◌};
ghost use Rattle.ipc_fields.specs.Frame.{framed};
ghost use Rattle.ipc_fields.specs.Given.{Begins, Puts};

use ipc_fields::{WriteFault, close_frame, put_u32};
use std::alloc::Global;

/// Room for most frames.
const USUAL_FRAME: usize = 128;

/// What the body of a frame spells.
pub trait Message {
    ghost body_of: { Self → Option (List ℕ) };

    /// Puts the opcode and the fields behind what stands in the buffer.
    fn put_body(&self, out: &mut Vec<u8>) -> Result<(), WriteFault>
        ensures puts { Puts out.old.items out.new.items result (body_of self.now) }
        ensures begins { Begins out.old.items out.new.items };
}

fn put_frame<M: Message>(out: &mut Vec<u8>, message: &M) -> Result<(), WriteFault>
    ensures puts { Puts out.old.items out.new.items result (framed (M.body_of message.now)) }
    ensures begins { Begins out.old.items out.new.items }
{
    let start = out.len();
    put_u32(out, 0)?;
    message.put_body(out)?;
    close_frame(out, start)
}

/// Puts the one frame of a message behind what stands in the buffer. An `Err` leaves the bytes as they were.
pub fn put_message<M: Message>(out: &mut Vec<u8>, message: &M) -> Result<(), WriteFault>
    ensures put { OnOk result ((Some out.old.items ⊕ framed (M.body_of message.now)) ≡ Some out.new.items) }
    ensures too_long { IsErrOf result WriteFault.TooLong → framed (M.body_of message.now) ≡ None }
    ensures err { OnErr result (out.new.items ≡ out.old.items) }
{
    let before = out.len();
    match put_frame(out, message) {
        Ok(()) => Ok(()),
        Err(fault) => {
            out.truncate(before);
            Err(fault)
        }
    }
}

/// The one frame of a message.
pub fn write_message<M: Message>(alloc: Global, message: &M) -> Result<Vec<u8>, WriteFault>
    ensures spelled { IfOk result (λ bytes. framed (M.body_of message.now) ≡ Some bytes.items) }
    ensures too_long { IsErrOf result WriteFault.TooLong → framed (M.body_of message.now) ≡ None }
{
    let mut frame = Vec::with_capacity(alloc, USUAL_FRAME)?;
    put_message(&mut frame, message)?;
    Ok(frame)
}
