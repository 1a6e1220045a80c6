//! What a head says of the trail that its first records retell.

ghost use Rattle.ipc_fields.specs.Given.{Begins, Puts, Gives};
ghost use Rattle.ipc_log.specs.Fields.{digest_field, retelling_field};

use ipc_fields::{ReadFault, WriteFault, put_u64, u64_at};

/// A digest of 32 bytes (SHA-256, FIPS 180-4), eight bytes to a number, the highest first.
#[derive(Clone, Copy, PartialEq, Eq)]
pub struct TrailDigest(pub u64, pub u64, pub u64, pub u64);

/// Which trail is told anew by the records in front. They were allowed, and nobody made them.
#[derive(Clone, Copy, PartialEq, Eq)]
pub struct Retelling {
    /// How often the trail was retold; 0 if a server began it. Then all the others are 0.
    pub generation: u64,
    /// How many records are retold, from place 0 on.
    pub records: u64,
    /// How many records the old trail had.
    pub old_records: u64,
    /// That of the old trail's files, one after another, each without what follows its last whole record.
    pub old_digest: TrailDigest,
}

/// The trail was never retold.
pub const NO_RETELLING: Retelling = Retelling {
    generation: 0,
    records: 0,
    old_records: 0,
    old_digest: TrailDigest(0, 0, 0, 0),
};

#[tactic(auto, using(ipc_fields::proofs::Joins::joins), unfolding(crate::specs::Fields::digest_field))]
fn put_digest(out: &mut Vec<u8>, digest: TrailDigest) -> Result<(), WriteFault>
    ensures puts { Puts out.old.items out.new.items result (digest_field.spell digest) }
    ensures begins { Begins out.old.items out.new.items }
{
    put_u64(out, digest.0)?;
    put_u64(out, digest.1)?;
    put_u64(out, digest.2)?;
    put_u64(out, digest.3)
}

#[tactic(auto, using(ipc_fields::proofs::Joins::joins), unfolding(crate::specs::Fields::retelling_field))]
pub fn put_retelling(out: &mut Vec<u8>, retelling: Retelling) -> Result<(), WriteFault>
    ensures puts { Puts out.old.items out.new.items result (retelling_field.spell retelling) }
    ensures begins { Begins out.old.items out.new.items }
{
    put_u64(out, retelling.generation)?;
    put_u64(out, retelling.records)?;
    put_u64(out, retelling.old_records)?;
    put_digest(out, retelling.old_digest)
}

#[tactic(auto, unfolding(crate::specs::Fields::digest_field))]
fn digest_at(bytes: &[u8]) -> Result<(TrailDigest, &[u8]), ReadFault>
    ensures { Gives (λ x. (x.0, x.1.now)) result (digest_field.read bytes.now) }
{
    let (first, rest) = u64_at(bytes)?;
    let (second, rest) = u64_at(rest)?;
    let (third, rest) = u64_at(rest)?;
    let (fourth, rest) = u64_at(rest)?;
    Ok((TrailDigest(first, second, third, fourth), rest))
}

#[tactic(auto, unfolding(crate::specs::Fields::retelling_field))]
pub fn retelling_at(bytes: &[u8]) -> Result<(Retelling, &[u8]), ReadFault>
    ensures { Gives (λ x. (x.0, x.1.now)) result (retelling_field.read bytes.now) }
{
    let (generation, rest) = u64_at(bytes)?;
    let (records, rest) = u64_at(rest)?;
    let (old_records, rest) = u64_at(rest)?;
    let (old_digest, rest) = digest_at(rest)?;
    let retelling = Retelling {
        generation,
        records,
        old_records,
        old_digest,
    };
    Ok((retelling, rest))
}
