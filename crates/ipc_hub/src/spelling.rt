//! The spellings of answers, one after another.

ghost use Rattle.std.specs.Prelude.{◌≡◌, Some, None, IsErrOf, IsSome, OnOk, OnErr};
ghost use Rattle.ipc_fields.specs.Field.{◌⊕◌};
ghost use Rattle.ipc_fields.specs.Given.{Begins};
ghost use Rattle.ipc_hub.specs.Hub.{spell_answers};

use ipc_terms::{Answer, NoMemory};
use ipc_wire::{WriteFault, put_answer};

/// The bytes of a frame for which room is made at first, beside those of a message; most answers have fewer.
const USUAL_FRAME: usize = 32;

/// Room for the frames of the answers; lists may outgrow it.
fn usual_room(answers: &[Answer]) -> usize {
    let mut room = answers.len().saturating_mul(USUAL_FRAME);
    for answer in answers {
        if let Answer::Received { bytes, .. } = answer {
            room = room.saturating_add(bytes.as_slice().len());
        }
    }
    room
}

/// Puts the spellings of the answers at the end of a buffer. `TooLong` where one has none. An `Err` leaves some.
fn write_answers(out: &mut Vec<u8>, answers: &[Answer]) -> Result<(), WriteFault>
    ensures put { OnOk result ((Some out.old.items ⊕ spell_answers answers.now) ≡ Some out.new.items) }
    ensures too_long { IsErrOf result WriteFault.TooLong → spell_answers answers.now ≡ None }
    ensures begins { Begins out.old.items out.new.items }
{
    out.reserve(usual_room(answers))?;
    for answer in answers {
        put_answer(out, answer)?;
    }
    Ok(())
}

/// Puts the spellings of answers that each have one at the end of a buffer. An `Err` leaves what stood there.
pub fn put_answers(out: &mut Vec<u8>, answers: &[Answer]) -> Result<(), NoMemory>
    requires { IsSome (spell_answers answers.now) }
    ensures put { OnOk result ((Some out.old.items ⊕ spell_answers answers.now) ≡ Some out.new.items) }
    ensures err { OnErr result (out.new.items ≡ out.old.items) }
{
    let before = out.len();
    match write_answers(out, answers) {
        Ok(()) => Ok(()),
        Err(WriteFault::NoMemory) => {
            out.truncate(before);
            Err(NoMemory)
        }
        Err(WriteFault::TooLong) => unreachable!(),
    }
}
