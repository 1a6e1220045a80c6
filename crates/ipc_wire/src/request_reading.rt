//! Reading requests.

ghost use Rattle.std.specs.Prelude.{◌≡◌, List, length};
ghost use Rattle.ipc_fields.specs.Field.{◌⊗◌, u32, u64, text, only};
ghost use Rattle.ipc_fields.specs.Given.{Gives};
ghost use Rattle.ipc_fields.specs.Terms.{desc_field, target_field};
ghost use Rattle.ipc_wire.specs.Requests.{queue_open_field, semaphore_open_field, fields_at, opcode_at, request_at};
ghost use Rattle.ipc_terms.specs.declared.op.CallOp.TheVariants as asks;
ghost use Rattle.ipc_wire.specs.declared.opcodes.RequestOp.TheVariants as op;

use crate::opcodes::RequestOp;
use crate::request::Request;
use ipc_fields::{
    ReadFault, WireFault, access_at, alone, bool_at, family_at, flags_at, name_of,
    optional_attributes_at, optional_gid_at, optional_uid_at, target_at, text_at, u16_at, u32_at,
    u64_at,
};
use ipc_terms::{
    Bytes, Call, CallOp, Desc, Mode, Name, QueueOpen, SemaphoreOpen, Sid, Target, Uid,
};
use std::alloc::Global;

/// The flags of a queue's open: `CREATE`, `EXCLUSIVE` and `NONBLOCK`.
pub(crate) const QUEUE_FLAGS: u8 = 7;

/// The flags of a semaphore's open: `CREATE` and `EXCLUSIVE`.
pub(crate) const SEMAPHORE_FLAGS: u8 = 3;

fn only_text(alloc: Global, bytes: &[u8]) -> Result<Bytes, ReadFault>
    ensures { Gives (λ x. x) result ((only text).read bytes.now) }
{
    let (text, rest) = text_at(bytes)?;
    alone(Bytes::from_slice(alloc, text)?, rest)
}

pub(crate) fn only_description(bytes: &[u8]) -> Result<Desc, ReadFault>
    ensures { Gives (λ x. x) result ((only desc_field).read bytes.now) }
{
    let (number, rest) = u64_at(bytes)?;
    alone(Desc(number), rest)
}

fn only_name(alloc: Global, bytes: &[u8]) -> Result<Name, ReadFault>
    ensures { Gives (λ x. x) result ((only text).read bytes.now) }
{
    Ok(Name::new(only_text(alloc, bytes)?))
}

fn only_target(alloc: Global, bytes: &[u8]) -> Result<Target, ReadFault>
    ensures { Gives (λ x. x) result ((only target_field).read bytes.now) }
{
    let (target, rest) = target_at(alloc, bytes)?;
    alone(target, rest)
}

#[tactic(auto, unfolding(crate::specs::Requests::fields_at))]
fn umask_at(bytes: &[u8]) -> Result<Request, ReadFault>
    ensures { Gives (λ x. x) result (fields_at (op.Call asks.Umask) bytes.now) }
{
    let (mask, rest) = u16_at(bytes)?;
    alone(Request::Do(Call::Umask(Mode(mask))), rest)
}

#[tactic(auto, unfolding(crate::specs::Requests::queue_open_field))]
fn queue_open_at(alloc: Global, bytes: &[u8]) -> Result<QueueOpen, ReadFault>
    ensures { Gives (λ x. x) result ((only queue_open_field).read bytes.now) }
{
    let (name, rest) = text_at(bytes)?;
    let (access, rest) = access_at(rest)?;
    let (flags, rest) = flags_at(QUEUE_FLAGS, rest)?;
    let (mode, rest) = u16_at(rest)?;
    let (attributes, rest) = optional_attributes_at(rest)?;
    let asked = QueueOpen {
        name: name_of(alloc, name)?,
        access,
        flags,
        mode: Mode(mode),
        attributes,
    };
    alone(asked, rest)
}

#[tactic(auto, unfolding(crate::specs::Requests::semaphore_open_field))]
fn semaphore_open_at(alloc: Global, bytes: &[u8]) -> Result<SemaphoreOpen, ReadFault>
    ensures { Gives (λ x. x) result ((only semaphore_open_field).read bytes.now) }
{
    let (name, rest) = text_at(bytes)?;
    let (flags, rest) = flags_at(SEMAPHORE_FLAGS, rest)?;
    let (mode, rest) = u16_at(rest)?;
    let (value, rest) = u32_at(rest)?;
    let asked = SemaphoreOpen {
        name: name_of(alloc, name)?,
        flags,
        mode: Mode(mode),
        value,
    };
    alone(asked, rest)
}

#[tactic(auto, unfolding(crate::specs::Requests::fields_at))]
fn send_at(alloc: Global, bytes: &[u8]) -> Result<Request, ReadFault>
    ensures { Gives (λ x. x) result (fields_at (op.Call asks.MqSend) bytes.now) }
{
    let (desc, rest) = u64_at(bytes)?;
    let (priority, rest) = u32_at(rest)?;
    Ok(Request::Do(Call::MqSend {
        desc: Desc(desc),
        priority,
        bytes: Bytes::from_slice(alloc, rest)?,
    }))
}

#[tactic(auto, unfolding(crate::specs::Requests::fields_at))]
fn receive_at(bytes: &[u8]) -> Result<Request, ReadFault>
    ensures { Gives (λ x. x) result (fields_at (op.Call asks.MqReceive) bytes.now) }
{
    let (desc, rest) = u64_at(bytes)?;
    let (length, rest) = u32_at(rest)?;
    let call = Call::MqReceive {
        desc: Desc(desc),
        length,
    };
    alone(Request::Do(call), rest)
}

#[tactic(auto, unfolding(crate::specs::Requests::fields_at))]
fn setattr_at(bytes: &[u8]) -> Result<Request, ReadFault>
    ensures { Gives (λ x. x) result (fields_at (op.Call asks.MqSetattr) bytes.now) }
{
    let (desc, rest) = u64_at(bytes)?;
    let (nonblock, rest) = bool_at(rest)?;
    let call = Call::MqSetattr {
        desc: Desc(desc),
        nonblock,
    };
    alone(Request::Do(call), rest)
}

#[tactic(auto, unfolding(crate::specs::Requests::fields_at))]
fn notify_at(bytes: &[u8]) -> Result<Request, ReadFault>
    ensures { Gives (λ x. x) result (fields_at (op.Call asks.MqNotify) bytes.now) }
{
    let (desc, rest) = u64_at(bytes)?;
    let (on, rest) = bool_at(rest)?;
    let call = Call::MqNotify {
        desc: Desc(desc),
        on,
    };
    alone(Request::Do(call), rest)
}

#[tactic(auto, unfolding(crate::specs::Requests::fields_at))]
fn give_at(bytes: &[u8]) -> Result<Request, ReadFault>
    ensures { Gives (λ x. x) result (fields_at (op.Call asks.MqGive) bytes.now) }
{
    let (desc, rest) = u64_at(bytes)?;
    let (taker, rest) = u64_at(rest)?;
    let call = Call::MqGive {
        desc: Desc(desc),
        taker: Sid(taker),
    };
    alone(Request::Do(call), rest)
}

#[tactic(auto, unfolding(crate::specs::Requests::fields_at))]
fn list_names_at(bytes: &[u8]) -> Result<Request, ReadFault>
    ensures { Gives (λ x. x) result (fields_at (op.Call asks.ListNames) bytes.now) }
{
    let (family, rest) = family_at(bytes)?;
    let (start, rest) = u32_at(rest)?;
    let (count, rest) = u16_at(rest)?;
    let call = Call::ListNames {
        family,
        start,
        count,
    };
    alone(Request::Do(call), rest)
}

#[tactic(auto, unfolding(crate::specs::Requests::fields_at))]
fn chmod_at(alloc: Global, bytes: &[u8]) -> Result<Request, ReadFault>
    ensures { Gives (λ x. x) result (fields_at (op.Call asks.Chmod) bytes.now) }
{
    let (mode, rest) = u16_at(bytes)?;
    let target = only_target(alloc, rest)?;
    Ok(Request::Do(Call::Chmod {
        mode: Mode(mode),
        target,
    }))
}

#[tactic(auto, unfolding(crate::specs::Requests::fields_at))]
fn chown_at(alloc: Global, bytes: &[u8]) -> Result<Request, ReadFault>
    ensures { Gives (λ x. x) result (fields_at (op.Call asks.Chown) bytes.now) }
{
    let (owner, rest) = optional_uid_at(bytes)?;
    let (group, rest) = optional_gid_at(rest)?;
    let target = only_target(alloc, rest)?;
    Ok(Request::Do(Call::Chown {
        owner,
        group,
        target,
    }))
}

#[tactic(auto, unfolding(crate::specs::Requests::fields_at))]
fn set_limit_at(bytes: &[u8]) -> Result<Request, ReadFault>
    ensures { Gives (λ x. x) result (fields_at (op.Call asks.SetLimit) bytes.now) }
{
    let (uid, rest) = u32_at(bytes)?;
    let (limit, rest) = u64_at(rest)?;
    let call = Call::SetLimit {
        uid: Uid(uid),
        bytes: limit,
    };
    alone(Request::Do(call), rest)
}

#[tactic(auto, unfolding(crate::specs::Requests::fields_at))]
fn interrupt_at(bytes: &[u8]) -> Result<Request, ReadFault>
    ensures { Gives (λ x. x) result (fields_at (op.Call asks.Interrupt) bytes.now) }
{
    alone(Request::Do(Call::Interrupt), bytes)
}

#[tactic(auto, unfolding(crate::specs::Requests::fields_at))]
fn audit_at(bytes: &[u8]) -> Result<Request, ReadFault>
    ensures { Gives (λ x. x) result (fields_at (op.Call asks.Audit) bytes.now) }
{
    let (start, rest) = u64_at(bytes)?;
    let (count, rest) = u16_at(rest)?;
    let call = Call::Audit { start, count };
    alone(Request::Do(call), rest)
}

/// A description, a priority or a length, and a deadline: what a timed send and a timed receive begin with.
fn timed_at(bytes: &[u8]) -> Result<((Desc, (u32, u64)), &[u8]), ReadFault>
    ensures { Gives (λ x. (x.0, x.1.now)) result ((desc_field ⊗ u32 ⊗ u64).read bytes.now) }
{
    let (desc, rest) = u64_at(bytes)?;
    let (number, rest) = u32_at(rest)?;
    let (deadline, rest) = u64_at(rest)?;
    Ok(((Desc(desc), (number, deadline)), rest))
}

#[tactic(auto, unfolding(crate::specs::Requests::fields_at))]
fn timed_send_at(alloc: Global, bytes: &[u8]) -> Result<Request, ReadFault>
    ensures { Gives (λ x. x) result (fields_at (op.Call asks.MqTimedSend) bytes.now) }
{
    let ((desc, (priority, deadline)), rest) = timed_at(bytes)?;
    Ok(Request::Do(Call::MqTimedSend {
        desc,
        priority,
        deadline,
        bytes: Bytes::from_slice(alloc, rest)?,
    }))
}

#[tactic(auto, unfolding(crate::specs::Requests::fields_at))]
fn timed_receive_at(bytes: &[u8]) -> Result<Request, ReadFault>
    ensures { Gives (λ x. x) result (fields_at (op.Call asks.MqTimedReceive) bytes.now) }
{
    let ((desc, (length, deadline)), rest) = timed_at(bytes)?;
    let call = Call::MqTimedReceive {
        desc,
        length,
        deadline,
    };
    alone(Request::Do(call), rest)
}

#[tactic(auto, unfolding(crate::specs::Requests::fields_at))]
fn timed_wait_at(bytes: &[u8]) -> Result<Request, ReadFault>
    ensures { Gives (λ x. x) result (fields_at (op.Call asks.SemTimedWait) bytes.now) }
{
    let (desc, rest) = u64_at(bytes)?;
    let (deadline, rest) = u64_at(rest)?;
    let call = Call::SemTimedWait {
        desc: Desc(desc),
        deadline,
    };
    alone(Request::Do(call), rest)
}

/// What follows the opcode.
#[tactic(auto, unfolding(crate::specs::Requests::fields_at))]
fn fields_of(alloc: Global, op: RequestOp, bytes: &[u8]) -> Result<Request, ReadFault>
    ensures { Gives (λ x. x) result (fields_at op bytes.now) }
{
    let asked = match op {
        RequestOp::Hello => return Ok(Request::Hello(only_text(alloc, bytes)?)),
        RequestOp::Call(asked) => asked,
    };
    match asked {
        CallOp::Umask => umask_at(bytes),
        CallOp::MqOpen => Ok(Request::Do(Call::MqOpen(queue_open_at(alloc, bytes)?))),
        CallOp::MqClose => Ok(Request::Do(Call::MqClose(only_description(bytes)?))),
        CallOp::MqUnlink => Ok(Request::Do(Call::MqUnlink(only_name(alloc, bytes)?))),
        CallOp::MqSend => send_at(alloc, bytes),
        CallOp::MqReceive => receive_at(bytes),
        CallOp::MqGetattr => Ok(Request::Do(Call::MqGetattr(only_description(bytes)?))),
        CallOp::MqSetattr => setattr_at(bytes),
        CallOp::MqNotify => notify_at(bytes),
        CallOp::MqGive => give_at(bytes),
        CallOp::SemOpen => Ok(Request::Do(Call::SemOpen(semaphore_open_at(alloc, bytes)?))),
        CallOp::SemClose => Ok(Request::Do(Call::SemClose(only_description(bytes)?))),
        CallOp::SemUnlink => Ok(Request::Do(Call::SemUnlink(only_name(alloc, bytes)?))),
        CallOp::SemPost => Ok(Request::Do(Call::SemPost(only_description(bytes)?))),
        CallOp::SemWait => Ok(Request::Do(Call::SemWait(only_description(bytes)?))),
        CallOp::SemTryWait => Ok(Request::Do(Call::SemTryWait(only_description(bytes)?))),
        CallOp::SemGetvalue => Ok(Request::Do(Call::SemGetvalue(only_description(bytes)?))),
        CallOp::ListNames => list_names_at(bytes),
        CallOp::StatName => Ok(Request::Do(Call::StatName(only_target(alloc, bytes)?))),
        CallOp::Chmod => chmod_at(alloc, bytes),
        CallOp::Chown => chown_at(alloc, bytes),
        CallOp::SetLimit => set_limit_at(bytes),
        CallOp::Interrupt => interrupt_at(bytes),
        CallOp::Audit => audit_at(bytes),
        CallOp::MqTimedSend => timed_send_at(alloc, bytes),
        CallOp::MqTimedReceive => timed_receive_at(bytes),
        CallOp::SemTimedWait => timed_wait_at(bytes),
    }
}

/// Which opcode stands here. The first frame is a hello, and no other is.
fn opcode_of(first: bool, byte: u8) -> Result<RequestOp, ReadFault>
    ensures { Gives (λ x. x) result (opcode_at first byte) }
{
    match RequestOp::from_byte(byte) {
        Some(op) if op.is_hello() == first => Ok(op),
        _ => Err(ReadFault::Wire(WireFault::BadOpcode)),
    }
}

/// The request of a whole body.
#[tactic(auto, unfolding(crate::specs::Requests::request_at))]
pub(crate) fn request_of(alloc: Global, first: bool, body: &[u8]) -> Result<Request, ReadFault>
    ensures { Gives (λ x. x) result (request_at first body.now) }
{
    match body {
        [] => Err(ReadFault::Wire(WireFault::Empty)),
        [byte, rest @ ..] => {
            let op = opcode_of(first, *byte)?;
            fields_of(alloc, op, rest)
        }
    }
}
