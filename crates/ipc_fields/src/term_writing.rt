//! Writing the fields that name what every part of the server shares.

ghost use Rattle.std.specs.Prelude.{◌≡◌, List, length};
ghost use Rattle.ipc_fields.specs.Field.{optional};
ghost use Rattle.ipc_fields.specs.Given.{Begins, Puts};
ghost use Rattle.ipc_fields.specs.Terms.{access_field, family_field, flags_field, attributes_field, target_field, uid_field, gid_field};

use crate::fault::WriteFault;
use crate::writing::{put_text, put_u8, put_u32};
use bitflags::Flags;
use ipc_terms::{Access, Attributes, Family, Gid, OpenFlags, Target, Uid};

/// One byte: 1 for reading, 2 for writing, 3 for both.
#[tactic(auto, unfolding(crate::specs::Terms::access_field))]
pub fn put_access(out: &mut Vec<u8>, access: Access) -> Result<(), WriteFault>
    ensures puts { Puts out.old.items out.new.items result (access_field.spell access) }
    ensures begins { Begins out.old.items out.new.items }
{
    let code = match access {
        Access::Read => 1,
        Access::Write => 2,
        Access::Both => 3,
    };
    put_u8(out, code)
}

/// One byte, of which only the bits of the mask are written.
#[tactic(auto, unfolding(crate::specs::Terms::flags_field))]
pub fn put_flags(out: &mut Vec<u8>, mask: u8, flags: OpenFlags) -> Result<(), WriteFault>
    ensures puts { Puts out.old.items out.new.items result ((flags_field mask).spell flags) }
    ensures begins { Begins out.old.items out.new.items }
{
    put_u8(out, flags.bits() & mask)
}

/// `mq_maxmsg` and `mq_msgsize`, four bytes each.
#[tactic(auto, using(crate::proofs::Joins::joins), unfolding(crate::specs::Terms::attributes_field))]
pub fn put_attributes(out: &mut Vec<u8>, attributes: Attributes) -> Result<(), WriteFault>
    ensures puts { Puts out.old.items out.new.items result (attributes_field.spell attributes) }
    ensures begins { Begins out.old.items out.new.items }
{
    put_u32(out, attributes.maxmsg)?;
    put_u32(out, attributes.msgsize)
}

/// A byte 0, or a byte 1 and attributes.
#[tactic(auto, using(crate::proofs::Joins::joins))]
pub fn put_optional_attributes(
    out: &mut Vec<u8>,
    attributes: Option<Attributes>,
) -> Result<(), WriteFault>
    ensures puts { Puts out.old.items out.new.items result ((optional attributes_field).spell attributes) }
    ensures begins { Begins out.old.items out.new.items }
{
    match attributes {
        None => put_u8(out, 0),
        Some(attributes) => {
            put_u8(out, 1)?;
            put_attributes(out, attributes)
        }
    }
}

/// A byte 0, or a byte 1 and four bytes.
#[tactic(auto, using(crate::proofs::Joins::joins))]
pub fn put_optional_uid(out: &mut Vec<u8>, uid: Option<Uid>) -> Result<(), WriteFault>
    ensures puts { Puts out.old.items out.new.items result ((optional uid_field).spell uid) }
    ensures begins { Begins out.old.items out.new.items }
{
    match uid {
        None => put_u8(out, 0),
        Some(uid) => {
            put_u8(out, 1)?;
            put_u32(out, uid.0)
        }
    }
}

/// A byte 0, or a byte 1 and four bytes.
#[tactic(auto, using(crate::proofs::Joins::joins))]
pub fn put_optional_gid(out: &mut Vec<u8>, gid: Option<Gid>) -> Result<(), WriteFault>
    ensures puts { Puts out.old.items out.new.items result ((optional gid_field).spell gid) }
    ensures begins { Begins out.old.items out.new.items }
{
    match gid {
        None => put_u8(out, 0),
        Some(gid) => {
            put_u8(out, 1)?;
            put_u32(out, gid.0)
        }
    }
}

/// One byte: 1 for queues, 2 for semaphores.
#[tactic(auto, unfolding(crate::specs::Terms::family_field))]
pub fn put_family(out: &mut Vec<u8>, family: Family) -> Result<(), WriteFault>
    ensures puts { Puts out.old.items out.new.items result (family_field.spell family) }
    ensures begins { Begins out.old.items out.new.items }
{
    let code = match family {
        Family::Mq => 1,
        Family::Sem => 2,
    };
    put_u8(out, code)
}

/// A family, then a byte 0 for its directory, or a byte 1 and a text for a name in it.
#[tactic(auto, using(crate::proofs::Joins::joins), unfolding(crate::specs::Terms::target_field))]
pub fn put_target(out: &mut Vec<u8>, target: &Target) -> Result<(), WriteFault>
    ensures puts { Puts out.old.items out.new.items result (target_field.spell target.now) }
    ensures begins { Begins out.old.items out.new.items }
{
    match target {
        Target::Dir(family) => {
            put_family(out, *family)?;
            put_u8(out, 0)
        }
        Target::Name(family, name) => {
            put_family(out, *family)?;
            put_u8(out, 1)?;
            put_text(out, name.as_slice())
        }
    }
}
