//! The grammar of a line of the user file: `name:key:uid:gid:groups:limit`.

ghost use Rattle.std.specs.Prelude.{◌≡◌, ◌==◌, IfOk, map};
ghost use Rattle.std.specs.List.{slice_split, list_all};
ghost use Rattle.std.specs.Char.{is_ascii_digit, is_ascii_alphanumeric};
ghost use Rattle.std.specs.Option.{option_map};
ghost use Rattle.ipc_access.specs.UserLine.{is_name_byte, is_name, is_key, is_number, number_up_to, id_of, gid_of, each_of, groups_of, limit_of, credentials_of, user_of_fields, user_of};

use crate::class::{Cred, Groups};
use crate::users::User;
use ipc_terms::{Bytes, Gid, LIMIT_MAX, Uid};
use std::alloc::{AllocError, Global};
use std::str;

/// A line has six fields.
const FIELDS: usize = 6;

/// How many bytes a user's queues may take in all where the line does not say.
const DEFAULT_LIMIT: u64 = 819_200;

/// The most supplementary groups that a line may give.
const MOST_GROUPS: usize = 64;

fn is_name_byte(byte: u8) -> bool
    ensures { result ≡ is_name_byte byte }
{
    byte.is_ascii_lowercase() || byte.is_ascii_digit() || byte == b'_' || byte == b'-'
}

fn has_name_bytes(text: &[u8]) -> bool
    ensures { result ≡ list_all is_name_byte text.now }
{
    text.iter().all(|byte| is_name_byte(*byte))
}

fn is_name(text: &[u8]) -> bool
    ensures { result ≡ is_name text.now }
{
    !text.is_empty() && text.len() <= 32 && has_name_bytes(text)
}

fn has_key_bytes(text: &[u8]) -> bool
    ensures { result ≡ list_all is_ascii_alphanumeric text.now }
{
    text.iter().all(|byte| byte.is_ascii_alphanumeric())
}

fn is_key(text: &[u8]) -> bool
    ensures { result ≡ is_key text.now }
{
    !text.is_empty() && text.len() <= 64 && has_key_bytes(text)
}

fn has_digits(text: &[u8]) -> bool
    ensures { result ≡ list_all is_ascii_digit text.now }
{
    text.iter().all(|byte| byte.is_ascii_digit())
}

/// Whether the text is a decimal number without leading zeros.
fn is_number(text: &[u8]) -> bool
    ensures { result ≡ is_number text.now }
{
    !text.is_empty() && has_digits(text) && (text.len() == 1 || text[0] != b'0')
}

fn number_up_to(most: u64, text: &[u8]) -> Option<u64>
    ensures { result ≡ number_up_to most text.now }
{
    if !is_number(text) {
        return None;
    }
    let number = str::from_utf8(text).ok()?.parse::<u64>().ok()?;
    (number <= most).then_some(number)
}

fn id_of(text: &[u8]) -> Option<u32>
    ensures { result ≡ id_of text.now }
{
    let id = number_up_to(u64::from(u32::MAX), text)?;
    u32::try_from(id).ok()
}

fn limit_of(text: &[u8]) -> Option<u64>
    ensures { result ≡ limit_of text.now }
{
    if text.is_empty() {
        Some(DEFAULT_LIMIT)
    } else {
        number_up_to(LIMIT_MAX, text)
    }
}

/// The parts of the text between the separators.
pub(crate) fn parts_of(alloc: Global, separator: u8, text: &[u8]) -> Result<Vec<&[u8]>, AllocError>
    ensures { IfOk result (λ parts. map (λ part. part.now) parts.items ≡ slice_split (λ b. b == separator) text.now) }
{
    text.split(|byte| *byte == separator).collect(alloc)
}

/// The groups that the texts spell, if each spells one.
fn each_group(alloc: Global, texts: &[&[u8]]) -> Result<Option<Vec<Gid>>, AllocError>
    ensures { IfOk result (λ groups. option_map (λ ids. ids.items) groups ≡ each_of gid_of (map (λ text. text.now) texts.now)) }
{
    let mut groups = Vec::new(alloc);
    for text in texts {
        let Some(id) = id_of(text) else {
            return Ok(None);
        };
        groups.push(Gid(id))?;
    }
    Ok(Some(groups))
}

fn groups_of(alloc: Global, text: &[u8]) -> Result<Option<Groups>, AllocError>
    ensures { IfOk result (λ groups. groups ≡ groups_of text.now) }
{
    if text.is_empty() {
        return Ok(Some(Groups::new(Vec::new(alloc))));
    }
    let texts = parts_of(alloc, b',', text)?;
    if texts.len() > MOST_GROUPS {
        return Ok(None);
    }
    Ok(each_group(alloc, &texts)?.map(Groups::new))
}

fn credentials_of(
    alloc: Global,
    uid: &[u8],
    gid: &[u8],
    groups: &[u8],
    limit: &[u8],
) -> Result<Option<Cred>, AllocError>
    ensures { IfOk result (λ cred. cred ≡ credentials_of uid.now gid.now groups.now limit.now) }
{
    let (Some(uid), Some(gid), Some(limit)) = (id_of(uid), id_of(gid), limit_of(limit)) else {
        return Ok(None);
    };
    let Some(groups) = groups_of(alloc, groups)? else {
        return Ok(None);
    };
    Ok(Some(Cred {
        uid: Uid(uid),
        gid: Gid(gid),
        groups,
        limit,
    }))
}

fn user_of_fields(alloc: Global, fields: &[&[u8]]) -> Result<Option<User>, AllocError>
    ensures { IfOk result (λ user. user ≡ user_of_fields (map (λ field. field.now) fields.now)) }
{
    if fields.len() != FIELDS {
        return Ok(None);
    }
    let (name, key) = (fields[0], fields[1]);
    if !is_name(name) || !is_key(key) {
        return Ok(None);
    }
    let Some(cred) = credentials_of(alloc, fields[2], fields[3], fields[4], fields[5])? else {
        return Ok(None);
    };
    Ok(Some(User {
        name: Bytes::from_slice(alloc, name)?,
        key: Bytes::from_slice(alloc, key)?,
        cred,
    }))
}

/// The one user that the line spells, or none.
#[tactic(auto, unfolding(crate::specs::UserLine::user_of))]
pub(crate) fn user_of(alloc: Global, line: &[u8]) -> Result<Option<User>, AllocError>
    ensures { IfOk result (λ user. user ≡ user_of line.now) }
{
    let fields = parts_of(alloc, b':', line)?;
    user_of_fields(alloc, &fields)
}
