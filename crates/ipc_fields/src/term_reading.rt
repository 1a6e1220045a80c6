//! Reading the fields that name what every part of the server shares.

ghost use Rattle.std.specs.Prelude.{◌≡◌, List, length, Ok};
ghost use Rattle.ipc_fields.specs.Field.{optional};
ghost use Rattle.ipc_fields.specs.Given.{Gives};
ghost use Rattle.ipc_fields.specs.Terms.{access_field, family_field, flags_field, attributes_field, target_field, uid_field, gid_field};

use crate::fault::{ReadFault, WireFault};
use crate::reading::{text_at, u32_at};
use bitflags::Flags;
use ipc_terms::{Access, Attributes, Bytes, Family, Gid, Name, OpenFlags, Target, Uid};
use std::alloc::Global;

/// A name of these bytes.
pub fn name_of(alloc: Global, text: &[u8]) -> Result<Name, ReadFault>
    ensures { Gives (λ x. x) result (Ok text.now) }
{
    Ok(Name::new(Bytes::from_slice(alloc, text)?))
}

/// One byte: 1 for reading, 2 for writing, 3 for both; and what follows it.
#[tactic(auto, unfolding(crate::specs::Terms::access_field))]
pub fn access_at(bytes: &[u8]) -> Result<(Access, &[u8]), ReadFault>
    ensures { Gives (λ x. (x.0, x.1.now)) result (access_field.read bytes.now) }
{
    match bytes {
        [1, rest @ ..] => Ok((Access::Read, rest)),
        [2, rest @ ..] => Ok((Access::Write, rest)),
        [3, rest @ ..] => Ok((Access::Both, rest)),
        _ => Err(ReadFault::Wire(WireFault::BadField)),
    }
}

/// One byte, in which only bits of the mask may be set, and what follows it.
#[tactic(auto, unfolding(crate::specs::Terms::flags_field))]
pub fn flags_at(mask: u8, bytes: &[u8]) -> Result<(OpenFlags, &[u8]), ReadFault>
    ensures { Gives (λ x. (x.0, x.1.now)) result ((flags_field mask).read bytes.now) }
{
    match bytes {
        [bits, rest @ ..] if bits & mask == *bits => Ok((OpenFlags::from_bits_retain(*bits), rest)),
        _ => Err(ReadFault::Wire(WireFault::BadField)),
    }
}

/// `mq_maxmsg` and `mq_msgsize`, four bytes each, and what follows them.
#[tactic(auto, unfolding(crate::specs::Terms::attributes_field))]
pub fn attributes_at(bytes: &[u8]) -> Result<(Attributes, &[u8]), ReadFault>
    ensures { Gives (λ x. (x.0, x.1.now)) result (attributes_field.read bytes.now) }
{
    let (maxmsg, rest) = u32_at(bytes)?;
    let (msgsize, rest) = u32_at(rest)?;
    Ok((Attributes { maxmsg, msgsize }, rest))
}

/// A byte 0, or a byte 1 and attributes, and what follows them.
pub fn optional_attributes_at(bytes: &[u8]) -> Result<(Option<Attributes>, &[u8]), ReadFault>
    ensures { Gives (λ x. (x.0, x.1.now)) result ((optional attributes_field).read bytes.now) }
{
    match bytes {
        [0, rest @ ..] => Ok((None, rest)),
        [1, rest @ ..] => {
            let (attributes, rest) = attributes_at(rest)?;
            Ok((Some(attributes), rest))
        }
        _ => Err(ReadFault::Wire(WireFault::BadField)),
    }
}

/// A byte 0, or a byte 1 and four bytes, and what follows them.
pub fn optional_uid_at(bytes: &[u8]) -> Result<(Option<Uid>, &[u8]), ReadFault>
    ensures { Gives (λ x. (x.0, x.1.now)) result ((optional uid_field).read bytes.now) }
{
    match bytes {
        [0, rest @ ..] => Ok((None, rest)),
        [1, rest @ ..] => {
            let (uid, rest) = u32_at(rest)?;
            Ok((Some(Uid(uid)), rest))
        }
        _ => Err(ReadFault::Wire(WireFault::BadField)),
    }
}

/// A byte 0, or a byte 1 and four bytes, and what follows them.
pub fn optional_gid_at(bytes: &[u8]) -> Result<(Option<Gid>, &[u8]), ReadFault>
    ensures { Gives (λ x. (x.0, x.1.now)) result ((optional gid_field).read bytes.now) }
{
    match bytes {
        [0, rest @ ..] => Ok((None, rest)),
        [1, rest @ ..] => {
            let (gid, rest) = u32_at(rest)?;
            Ok((Some(Gid(gid)), rest))
        }
        _ => Err(ReadFault::Wire(WireFault::BadField)),
    }
}

/// One byte: 1 for queues, 2 for semaphores; and what follows it.
#[tactic(auto, unfolding(crate::specs::Terms::family_field))]
pub fn family_at(bytes: &[u8]) -> Result<(Family, &[u8]), ReadFault>
    ensures { Gives (λ x. (x.0, x.1.now)) result (family_field.read bytes.now) }
{
    match bytes {
        [1, rest @ ..] => Ok((Family::Mq, rest)),
        [2, rest @ ..] => Ok((Family::Sem, rest)),
        _ => Err(ReadFault::Wire(WireFault::BadField)),
    }
}

/// A family, then a byte 0 for its directory, or a byte 1 and a text for a name in it; and what follows them.
#[tactic(auto, unfolding(crate::specs::Terms::target_field))]
pub fn target_at(alloc: Global, bytes: &[u8]) -> Result<(Target, &[u8]), ReadFault>
    ensures { Gives (λ x. (x.0, x.1.now)) result (target_field.read bytes.now) }
{
    let (family, rest) = family_at(bytes)?;
    match rest {
        [0, rest @ ..] => Ok((Target::Dir(family), rest)),
        [1, rest @ ..] => {
            let (name, rest) = text_at(rest)?;
            Ok((Target::Name(family, name_of(alloc, name)?), rest))
        }
        _ => Err(ReadFault::Wire(WireFault::BadField)),
    }
}
