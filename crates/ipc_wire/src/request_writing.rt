//! Writing requests.

ghost use Rattle.std.specs.Prelude.{◌≡◌, List, length, Some, None, IfOk, IsErrOf, OnOk, OnErr};
ghost use Rattle.ipc_fields.specs.Field.{◌⊕◌, ◌⊗◌, u16, u32, u64, boolean, optional, only, then_rest};
ghost use Rattle.ipc_fields.specs.Given.{Begins, Puts};
ghost use Rattle.ipc_fields.specs.Terms.{sid_field, desc_field, family_field, mode_field, uid_field, gid_field, target_field};
ghost use Rattle.ipc_wire.specs.Requests.{queue_open_field, semaphore_open_field, request_fields, request_body};
ghost use Rattle.ipc_wire.specs.Streams.{spell};

use crate::framing::{Message, put_message, write_message};
use crate::request::Request;
use crate::request_reading::{QUEUE_FLAGS, SEMAPHORE_FLAGS};
use ipc_fields::{
    WriteFault, put_access, put_bool, put_bytes, put_family, put_flags, put_optional_attributes,
    put_optional_gid, put_optional_uid, put_target, put_text, put_u8, put_u16, put_u32, put_u64,
};
use ipc_terms::{Bytes, Call, Desc, Family, Gid, Mode, QueueOpen, SemaphoreOpen, Sid, Target, Uid};
use std::alloc::Global;

#[tactic(auto, using(ipc_fields::proofs::Joins::joins), unfolding(crate::specs::Requests::queue_open_field))]
fn put_queue_open(out: &mut Vec<u8>, asked: &QueueOpen) -> Result<(), WriteFault>
    ensures puts { Puts out.old.items out.new.items result (queue_open_field.spell asked.now) }
    ensures begins { Begins out.old.items out.new.items }
{
    put_text(out, asked.name.as_slice())?;
    put_access(out, asked.access)?;
    put_flags(out, QUEUE_FLAGS, asked.flags)?;
    put_u16(out, asked.mode.0)?;
    put_optional_attributes(out, asked.attributes)
}

#[tactic(auto, using(ipc_fields::proofs::Joins::joins), unfolding(crate::specs::Requests::semaphore_open_field))]
fn put_semaphore_open(out: &mut Vec<u8>, asked: &SemaphoreOpen) -> Result<(), WriteFault>
    ensures puts { Puts out.old.items out.new.items result (semaphore_open_field.spell asked.now) }
    ensures begins { Begins out.old.items out.new.items }
{
    put_text(out, asked.name.as_slice())?;
    put_flags(out, SEMAPHORE_FLAGS, asked.flags)?;
    put_u16(out, asked.mode.0)?;
    put_u32(out, asked.value)
}

#[tactic(auto, using(ipc_fields::proofs::Joins::joins))]
fn put_send(out: &mut Vec<u8>, desc: Desc, priority: u32, bytes: &Bytes) -> Result<(), WriteFault>
    ensures puts { Puts out.old.items out.new.items result ((then_rest (desc_field ⊗ u32)).spell ((desc, priority), bytes.now)) }
    ensures begins { Begins out.old.items out.new.items }
{
    put_u64(out, desc.0)?;
    put_u32(out, priority)?;
    put_bytes(out, bytes.as_slice())
}

#[tactic(auto, using(ipc_fields::proofs::Joins::joins))]
fn put_receive(out: &mut Vec<u8>, desc: Desc, length: u32) -> Result<(), WriteFault>
    ensures puts { Puts out.old.items out.new.items result ((only (desc_field ⊗ u32)).spell (desc, length)) }
    ensures begins { Begins out.old.items out.new.items }
{
    put_u64(out, desc.0)?;
    put_u32(out, length)
}

#[tactic(auto, using(ipc_fields::proofs::Joins::joins))]
fn put_described_flag(out: &mut Vec<u8>, desc: Desc, flag: bool) -> Result<(), WriteFault>
    ensures puts { Puts out.old.items out.new.items result ((only (desc_field ⊗ boolean)).spell (desc, flag)) }
    ensures begins { Begins out.old.items out.new.items }
{
    put_u64(out, desc.0)?;
    put_bool(out, flag)
}

#[tactic(auto, using(ipc_fields::proofs::Joins::joins))]
fn put_listing(out: &mut Vec<u8>, family: Family, start: u32, count: u16) -> Result<(), WriteFault>
    ensures puts { Puts out.old.items out.new.items result ((only (family_field ⊗ u32 ⊗ u16)).spell (family, (start, count))) }
    ensures begins { Begins out.old.items out.new.items }
{
    put_family(out, family)?;
    put_u32(out, start)?;
    put_u16(out, count)
}

#[tactic(auto, using(ipc_fields::proofs::Joins::joins))]
fn put_chmod(out: &mut Vec<u8>, mode: Mode, target: &Target) -> Result<(), WriteFault>
    ensures puts { Puts out.old.items out.new.items result ((only (mode_field ⊗ target_field)).spell (mode, target.now)) }
    ensures begins { Begins out.old.items out.new.items }
{
    put_u16(out, mode.0)?;
    put_target(out, target)
}

#[tactic(auto, using(ipc_fields::proofs::Joins::joins))]
fn put_chown(
    out: &mut Vec<u8>,
    owner: Option<Uid>,
    group: Option<Gid>,
    target: &Target,
) -> Result<(), WriteFault>
    ensures puts { Puts out.old.items out.new.items result ((only (optional uid_field ⊗ optional gid_field ⊗ target_field)).spell (owner, (group, target.now))) }
    ensures begins { Begins out.old.items out.new.items }
{
    put_optional_uid(out, owner)?;
    put_optional_gid(out, group)?;
    put_target(out, target)
}

#[tactic(auto, using(ipc_fields::proofs::Joins::joins))]
fn put_give(out: &mut Vec<u8>, desc: Desc, taker: Sid) -> Result<(), WriteFault>
    ensures puts { Puts out.old.items out.new.items result ((only (desc_field ⊗ sid_field)).spell (desc, taker)) }
    ensures begins { Begins out.old.items out.new.items }
{
    put_u64(out, desc.0)?;
    put_u64(out, taker.0)
}

#[tactic(auto, using(ipc_fields::proofs::Joins::joins))]
fn put_set_limit(out: &mut Vec<u8>, uid: Uid, limit: u64) -> Result<(), WriteFault>
    ensures puts { Puts out.old.items out.new.items result ((only (uid_field ⊗ u64)).spell (uid, limit)) }
    ensures begins { Begins out.old.items out.new.items }
{
    put_u32(out, uid.0)?;
    put_u64(out, limit)
}

#[tactic(auto, using(ipc_fields::proofs::Joins::joins))]
fn put_audit(out: &mut Vec<u8>, start: u64, count: u16) -> Result<(), WriteFault>
    ensures puts { Puts out.old.items out.new.items result ((only (u64 ⊗ u16)).spell (start, count)) }
    ensures begins { Begins out.old.items out.new.items }
{
    put_u64(out, start)?;
    put_u16(out, count)
}

/// A description, a priority or a length, and a deadline: what a timed send and a timed receive begin with.
#[tactic(auto, using(ipc_fields::proofs::Joins::joins))]
fn put_timed(out: &mut Vec<u8>, desc: Desc, number: u32, deadline: u64) -> Result<(), WriteFault>
    ensures puts { Puts out.old.items out.new.items result ((desc_field ⊗ u32 ⊗ u64).spell (desc, (number, deadline))) }
    ensures begins { Begins out.old.items out.new.items }
{
    put_u64(out, desc.0)?;
    put_u32(out, number)?;
    put_u64(out, deadline)
}

#[tactic(auto, using(ipc_fields::proofs::Joins::joins))]
fn put_timed_send(
    out: &mut Vec<u8>,
    desc: Desc,
    priority: u32,
    deadline: u64,
    bytes: &Bytes,
) -> Result<(), WriteFault>
    ensures puts { Puts out.old.items out.new.items result ((then_rest (desc_field ⊗ u32 ⊗ u64)).spell ((desc, (priority, deadline)), bytes.now)) }
    ensures begins { Begins out.old.items out.new.items }
{
    put_timed(out, desc, priority, deadline)?;
    put_bytes(out, bytes.as_slice())
}

#[tactic(auto, using(ipc_fields::proofs::Joins::joins))]
fn put_timed_wait(out: &mut Vec<u8>, desc: Desc, deadline: u64) -> Result<(), WriteFault>
    ensures puts { Puts out.old.items out.new.items result ((only (desc_field ⊗ u64)).spell (desc, deadline)) }
    ensures begins { Begins out.old.items out.new.items }
{
    put_u64(out, desc.0)?;
    put_u64(out, deadline)
}

#[tactic(auto, using(ipc_fields::proofs::Joins::joins), unfolding(crate::specs::Requests::request_with))]
fn put_fields(out: &mut Vec<u8>, request: &Request) -> Result<(), WriteFault>
    ensures puts { Puts out.old.items out.new.items result (request_fields request.now) }
    ensures begins { Begins out.old.items out.new.items }
{
    let call = match request {
        Request::Hello(key) => return put_text(out, key.as_slice()),
        Request::Do(call) => call,
    };
    match call {
        Call::Umask(mask) => put_u16(out, mask.0),
        Call::MqOpen(asked) => put_queue_open(out, asked),
        Call::MqUnlink(name) | Call::SemUnlink(name) => put_text(out, name.as_slice()),
        Call::MqClose(desc)
        | Call::MqGetattr(desc)
        | Call::SemClose(desc)
        | Call::SemPost(desc)
        | Call::SemWait(desc)
        | Call::SemTryWait(desc)
        | Call::SemGetvalue(desc) => put_u64(out, desc.0),
        Call::MqSend {
            desc,
            priority,
            bytes,
        } => put_send(out, *desc, *priority, bytes),
        Call::MqReceive { desc, length } => put_receive(out, *desc, *length),
        Call::MqSetattr { desc, nonblock } => put_described_flag(out, *desc, *nonblock),
        Call::MqNotify { desc, on } => put_described_flag(out, *desc, *on),
        Call::MqGive { desc, taker } => put_give(out, *desc, *taker),
        Call::SemOpen(asked) => put_semaphore_open(out, asked),
        Call::ListNames {
            family,
            start,
            count,
        } => put_listing(out, *family, *start, *count),
        Call::StatName(target) => put_target(out, target),
        Call::Chmod { mode, target } => put_chmod(out, *mode, target),
        Call::Chown {
            owner,
            group,
            target,
        } => put_chown(out, *owner, *group, target),
        Call::SetLimit { uid, bytes } => put_set_limit(out, *uid, *bytes),
        Call::Interrupt => Ok(()),
        Call::Audit { start, count } => put_audit(out, *start, *count),
        Call::MqTimedSend {
            desc,
            priority,
            deadline,
            bytes,
        } => put_timed_send(out, *desc, *priority, *deadline, bytes),
        Call::MqTimedReceive {
            desc,
            length,
            deadline,
        } => put_timed(out, *desc, *length, *deadline),
        Call::SemTimedWait { desc, deadline } => put_timed_wait(out, *desc, *deadline),
    }
}

impl Message for Request {
    ghost body_of = { request_body };

    #[tactic(auto, using(ipc_fields::proofs::Joins::joins), unfolding(crate::specs::Requests::request_body))]
    fn put_body(&self, out: &mut Vec<u8>) -> Result<(), WriteFault> {
        put_u8(out, self.op().byte())?;
        put_fields(out, self)
    }
}

/// Puts the one frame of a request behind what stands in the buffer. Flags that mean nothing to the call
/// are left out. `TooLong` where a text has more than 65,535 bytes, or the body more than `MAX_BODY`. An
/// `Err` leaves the bytes as they were.
pub fn put_request(out: &mut Vec<u8>, request: &Request) -> Result<(), WriteFault>
    ensures put { OnOk result ((Some out.old.items ⊕ spell request.now) ≡ Some out.new.items) }
    ensures too_long { IsErrOf result WriteFault.TooLong → spell request.now ≡ None }
    ensures err { OnErr result (out.new.items ≡ out.old.items) }
{
    put_message(out, request)
}

/// The one frame of a request, as `put_request` puts it.
pub fn write_request(alloc: Global, request: &Request) -> Result<Vec<u8>, WriteFault>
    ensures spelled { IfOk result (λ bytes. spell request.now ≡ Some bytes.items) }
    ensures too_long { IsErrOf result WriteFault.TooLong → spell request.now ≡ None }
{
    write_message(alloc, request)
}
