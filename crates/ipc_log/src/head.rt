//! What stands in front of a trail.

ghost use Rattle.std.specs.Prelude.{◌≡◌, ◌+◌, ◌≤◌, length, Some, IsErrOf, IfOk, IfSome, OnOk, OnErr, None};
ghost use Rattle.ipc_fields.specs.Field.{◌⊕◌, only};
ghost use Rattle.ipc_fields.specs.Given.{Begins, Puts, Gives};
ghost use Rattle.ipc_log.specs.Fields.{head_field};
ghost use Rattle.ipc_log.specs.Trail.{head_len, spell_head, head_read, head_front};
ghost use Rattle.ipc_log.specs.Given.{Finds};

use crate::fault::{LogFault, TrailFault};
use crate::retelling::{Retelling, put_retelling, retelling_at};
use crate::summed::{SUM_LEN, put_sum, summed_at};
use ipc_fields::{ReadFault, WriteFault, alone, put_bytes, put_u32, put_u64, u32_at, u64_at};

/// What a trail of this version begins with.
const MAGIC: [u8; 8] = *b"MQTRAIL2";

/// How many bytes stand in front of a head's sum.
const SUMMED_LEN: usize = 92;

/// How many bytes a head has.
pub const HEAD_LEN: usize = SUMMED_LEN + SUM_LEN;

/// What stands in front of a trail.
#[derive(Clone, Copy, PartialEq, Eq)]
pub struct Head {
    /// The place of the first record.
    pub first: u64,
    /// The limits that the server was started with (`mq_overview(7)`, `/proc/sys/fs/mqueue`).
    pub msg_max: u32,
    pub msgsize_max: u32,
    pub queues_max: u32,
    /// A sum of the user file, by which another one is known. This crate doesn't read it.
    pub users: u64,
    pub retelling: Retelling,
}

#[tactic(auto, using(ipc_fields::proofs::Joins::joins), unfolding(crate::specs::Fields::head_field))]
fn put_fields(out: &mut Vec<u8>, head: &Head) -> Result<(), WriteFault>
    ensures puts { Puts out.old.items out.new.items result (head_field.spell head.now) }
    ensures begins { Begins out.old.items out.new.items }
{
    put_u64(out, head.first)?;
    put_u32(out, head.msg_max)?;
    put_u32(out, head.msgsize_max)?;
    put_u32(out, head.queues_max)?;
    put_u64(out, head.users)?;
    put_retelling(out, head.retelling)
}

fn put_summed(out: &mut Vec<u8>, head: &Head) -> Result<(), WriteFault>
    ensures puts { Puts out.old.items out.new.items result (spell_head head.now) }
    ensures begins { Begins out.old.items out.new.items }
{
    let start = out.len();
    put_bytes(out, &MAGIC)?;
    put_fields(out, head)?;
    put_sum(out, start)
}

/// Puts a head behind what stands in the buffer. `NoMemory` alone can come of it, since each head has a spelling. An `Err`
/// leaves the bytes as they were.
pub fn put_head(out: &mut Vec<u8>, head: &Head) -> Result<(), WriteFault>
    ensures put { OnOk result ((Some out.old.items ⊕ spell_head head.now) ≡ Some out.new.items) }
    ensures too_long { IsErrOf result WriteFault.TooLong → spell_head head.now ≡ None }
    ensures err { OnErr result (out.new.items ≡ out.old.items) }
{
    let before = out.len();
    match put_summed(out, head) {
        Ok(()) => Ok(()),
        Err(fault) => {
            out.truncate(before);
            Err(fault)
        }
    }
}

#[tactic(auto, unfolding(crate::specs::Fields::head_field))]
fn fields_of(bytes: &[u8]) -> Result<Head, ReadFault>
    ensures { Gives (λ x. x) result ((only head_field).read bytes.now) }
{
    let (first, rest) = u64_at(bytes)?;
    let (msg_max, rest) = u32_at(rest)?;
    let (msgsize_max, rest) = u32_at(rest)?;
    let (queues_max, rest) = u32_at(rest)?;
    let (users, rest) = u64_at(rest)?;
    let (retelling, rest) = retelling_at(rest)?;
    let head = Head {
        first,
        msg_max,
        msgsize_max,
        queues_max,
        users,
        retelling,
    };
    alone(head, rest)
}

/// The head of these fields, and how many bytes it takes.
fn head_of(fields: &[u8]) -> Result<Option<(Head, usize)>, LogFault>
    ensures finds { Finds (λ x. x) result (head_read ((only head_field).read fields.now)) }
    ensures size { IfOk result (λ found. IfSome found (λ x. x.1 ≡ head_len + 4)) }
{
    match fields_of(fields) {
        Ok(head) => Ok(Some((head, HEAD_LEN))),
        Err(ReadFault::Wire(_)) => Err(LogFault::Trail(TrailFault::BadFields)),
        Err(ReadFault::NoMemory) => Err(LogFault::NoMemory),
    }
}

/// The head in front and how many bytes it takes; none as long as it is not whole. `BadMagic` is said as soon as eight bytes
/// are there, before the sum is looked at: a file of another kind is told from a trail that was spoiled.
#[tactic(auto, unfolding(crate::specs::Trail::head_front))]
pub fn read_head(bytes: &[u8]) -> Result<Option<(Head, usize)>, LogFault>
    ensures finds { Finds (λ x. x) result (head_front bytes.now) }
    ensures within { IfOk result (λ found. IfSome found (λ x. x.1 ≤ length bytes.now)) }
{
    if bytes.len() < MAGIC.len() {
        return Ok(None);
    }
    if bytes[..MAGIC.len()] != MAGIC[..] {
        return Err(LogFault::Trail(TrailFault::BadMagic));
    }
    let Some(text) = summed_at(SUMMED_LEN, bytes)? else {
        return Ok(None);
    };
    head_of(&text[MAGIC.len()..])
}
