//! What the arguments say of trails in files.

ghost use Rattle.std.specs.Prelude.{◌≡◌, IfErr, IfOk, Ok, codes, map, option_map, string_bytes};
ghost use Rattle.clap.specs.Walk.{all_of, rows_of};
ghost use Rattle.clap.specs.Words.{found_of};
ghost use Rattle.ipc_words.specs.Readings.{IsFaultOf, Reads};
ghost use Rattle.ipc_program.specs.Tasks.{answers_given, audit_given, compact_given, is_one_thread, new_limits_given, no_trail, places_given, replaying_given, retold_given, segment_given, trail_given, words_at};

use crate::arguments::{copied_word, is_flag_given, is_option_given};
use crate::tasks::{NewLimits, Places, Replaying, Retold, Threading, TrailFile};
use clap::ArgMatches;
use ipc_words::{WordFault, optional_count, optional_number, optional_word};
use std::alloc::{AllocError, Global};

/// After how many bytes another file may be begun: less would be a file for a few records.
const SMALLEST_SEGMENT: u64 = 4_096;

/// Where a server on these threads writes its trail to, if it writes one. Workers write none.
pub fn trail_of(
    alloc: Global,
    options: &ArgMatches,
    threading: Threading,
) -> Result<Option<TrailFile>, WordFault>
    ensures { Reads (trail_given threading (rows_of (found_of options.now))) result }
{
    let Some(path) = optional_word(options, "trail-file") else {
        return no_trail(options);
    };
    if !is_one_thread(threading) {
        return Err(WordFault::BadValue("trail-file"));
    }
    let segment = segment_of(options)?;
    let compact = compact_of(options)?;
    Ok(Some(TrailFile {
        path: String::from_str(alloc, path)?,
        is_synced: is_flag_given(options, "trail-sync"),
        segment,
        compact,
        is_kept: is_flag_given(options, "trail-keep"),
    }))
}

/// No trail is written, so nothing may be told of its files.
fn no_trail(options: &ArgMatches) -> Result<Option<TrailFile>, WordFault>
    ensures { Reads (no_trail (rows_of (found_of options.now))) result }
{
    if is_flag_given(options, "trail-sync") {
        return Err(WordFault::BadValue("trail-sync"));
    }
    if is_option_given(options, "trail-segment") {
        return Err(WordFault::BadValue("trail-segment"));
    }
    if is_option_given(options, "trail-compact") {
        return Err(WordFault::BadValue("trail-compact"));
    }
    if is_flag_given(options, "trail-keep") {
        return Err(WordFault::BadValue("trail-keep"));
    }
    Ok(None)
}

/// After how many bytes another file is begun, if one is.
fn segment_of(options: &ArgMatches) -> Result<Option<u64>, WordFault>
    ensures { Reads (segment_given (rows_of (found_of options.now))) result }
{
    let segment = optional_number(options, "trail-segment")?;
    match segment {
        Some(bytes) if bytes < SMALLEST_SEGMENT => Err(WordFault::BadValue("trail-segment")),
        _ => Ok(segment),
    }
}

/// From how many bytes on a start retells the trail, if one does. Old files are kept with that alone.
fn compact_of(options: &ArgMatches) -> Result<Option<u64>, WordFault>
    ensures { Reads (compact_given (rows_of (found_of options.now))) result }
{
    let compact = optional_number(options, "trail-compact")?;
    if is_flag_given(options, "trail-keep") && compact.is_none() {
        return Err(WordFault::BadValue("trail-keep"));
    }
    Ok(compact)
}

pub(crate) fn is_one_thread(threading: Threading) -> bool
    ensures { result ≡ is_one_thread threading }
{
    match threading {
        Threading::OneThread(..) => true,
        Threading::Workers(_) => false,
    }
}

/// Which trail is replayed.
pub fn replaying_of(alloc: Global, options: &ArgMatches) -> Result<Replaying, WordFault>
    ensures { Reads (replaying_given (rows_of (found_of options.now))) result }
{
    let Some(users) = optional_word(options, "users") else {
        return Err(WordFault::BadValue("users"));
    };
    let audit = audit_of(options)?;
    let answers = answers_of(options)?;
    let files = files_of(alloc, options)?;
    Ok(Replaying {
        users: String::from_str(alloc, users)?,
        files,
        audit,
        answers,
    })
}

/// Which trail is retold, where, and under which configuration.
pub fn retold_of(alloc: Global, options: &ArgMatches) -> Result<Retold, WordFault>
    ensures { Reads (retold_given (rows_of (found_of options.now))) result }
{
    let Some(users) = optional_word(options, "users") else {
        return Err(WordFault::BadValue("users"));
    };
    let Some(new) = optional_word(options, "new") else {
        return Err(WordFault::BadValue("new"));
    };
    let limits = new_limits_of(options)?;
    let old = files_of(alloc, options)?;
    let to = copied_word(alloc, options, "to")?;
    Ok(Retold {
        users: String::from_str(alloc, users)?,
        new: String::from_str(alloc, new)?,
        old,
        to,
        limits,
    })
}

/// The limits that are given.
fn new_limits_of(options: &ArgMatches) -> Result<NewLimits, WordFault>
    ensures { Reads (new_limits_given (rows_of (found_of options.now))) result }
{
    Ok(NewLimits {
        msg_max: optional_count(options, "msg-max")?,
        msgsize_max: optional_count(options, "msgsize-max")?,
        queues_max: optional_count(options, "queues-max")?,
    })
}

/// The paths of a trail's files.
fn files_of(alloc: Global, options: &ArgMatches) -> Result<Vec<String>, WordFault>
    ensures ok { IfOk result (λ files. words_at (codes "files") (rows_of (found_of options.now)) ≡ Ok (map string_bytes files.items)) }
    ensures fault { IfErr result (IsFaultOf (words_at (codes "files") (rows_of (found_of options.now)))) }
{
    match words_of(options, "files") {
        Some(words) => Ok(copied(alloc, words)?),
        None => Err(WordFault::BadValue("files")),
    }
}

/// The words of an argument, which may have more than one.
fn words_of<'m, 'a>(options: &'m ArgMatches<'a>, argument: &str) -> Option<&'m [&'a str]>
    ensures { option_map (λ words. map (λ word. word.now) words.now) result ≡ all_of argument.now (rows_of (found_of options.now)) }
{
    options.get_raw(argument)
}

fn copied(alloc: Global, words: &[&str]) -> Result<Vec<String>, AllocError>
    ensures { IfOk result (λ copies. map string_bytes copies.items ≡ map (λ word. word.now) words.now) }
{
    let mut copies = Vec::with_capacity(alloc, words.len())?;
    for word in words {
        copies.push(String::from_str(alloc, word)?)?;
    }
    Ok(copies)
}

/// Of which records a line is printed, if of any. Their places are told with `--audit` alone.
fn audit_of(options: &ArgMatches) -> Result<Option<Places>, WordFault>
    ensures { Reads (audit_given (rows_of (found_of options.now))) result }
{
    if is_flag_given(options, "audit") {
        return Ok(Some(places_of(options)?));
    }
    if is_option_given(options, "from") {
        return Err(WordFault::BadValue("from"));
    }
    if is_option_given(options, "to") {
        return Err(WordFault::BadValue("to"));
    }
    Ok(None)
}

/// The session of whose answers a line is printed, if of any. None is with `--audit`.
fn answers_of(options: &ArgMatches) -> Result<Option<u64>, WordFault>
    ensures { Reads (answers_given (rows_of (found_of options.now))) result }
{
    let answers = optional_number(options, "answers")?;
    if answers.is_some() && is_flag_given(options, "audit") {
        return Err(WordFault::BadValue("answers"));
    }
    Ok(answers)
}

/// From which place to which, and where they aren't told all.
fn places_of(options: &ArgMatches) -> Result<Places, WordFault>
    ensures { Reads (places_given (rows_of (found_of options.now))) result }
{
    Ok(Places {
        first: optional_number(options, "from")?.unwrap_or(0),
        last: optional_number(options, "to")?.unwrap_or(u64::MAX),
    })
}
