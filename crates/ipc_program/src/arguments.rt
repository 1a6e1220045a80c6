//! The program's arguments.

ghost use Rattle.std.specs.Prelude.{◌≡◌, ◌≤◌, IfOk, codes, false, map, option_map, string_bytes};
ghost use Rattle.clap.specs.Simple.{app_of, subcommand_rows_of};
ghost use Rattle.clap.specs.Walk.{first_of, rule_of, rows_of};
ghost use Rattle.clap.specs.Words.{found_of};
ghost use Rattle.ipc_words.specs.Grammar.{flag};
ghost use Rattle.ipc_words.specs.Readings.{Reads, is_given};
ghost use Rattle.ipc_program.specs.Options.{Adds, IsSubcommand, app_of_program, limit_options, line_options, metrics_options, place, places, replay_shape, retold_shape, retold_words, script_shape, serve_shape, server_options, thread_options, trail_options, value_option};
ghost use Rattle.ipc_program.specs.Servers.{IsEnough, IsWithin};
ghost use Rattle.ipc_program.specs.Tasks.{connections_given, crew_given, has, kept_given, limits_given, newest_given, serves, threading_at, threading_given, serving_given, socket_mode_given, task_asked, task_given, task_of, workers_given};

use crate::addresses::{is_unix, is_unix_users, read_mode};
use crate::fault::ProgramFault;
use crate::metrics::{metrics_of, stats_of};
use crate::tasks::{Kept, Serving, Task, Threading};
use crate::trails::{replaying_of, retold_of, trail_of};
use clap::error::ErrorKind;
use clap::{Arg, ArgAction, ArgMatches, Command};
use ipc_core::Limits;
use ipc_script::ScriptFault;
use ipc_words::{WordFault, optional_count, optional_number, optional_word};
use std::alloc::{AllocError, Global};
use std::convert::AsStr;

const USAGE: &str = "\
mqserve [script [--msg-max <N>] [--msgsize-max <N>] [--queues-max <N>]]
       mqserve serve <USERS> <ADDRESS> [--one-thread [--connections <N>] | --workers <N>]
                     [--keep-records <N>] [--keep-bytes <N>] [--keep-all]
                     [--stop-after <N>] [--socket-mode <OCTAL>]
                     [--log <FILE> [--stats <SECONDS>]] [--metrics <ADDRESS>]
                     [--trail-file <FILE> [--trail-sync] [--trail-segment <N>]
                     [--trail-compact <N> [--trail-keep]]]
                     [--msg-max <N>] [--msgsize-max <N>] [--queues-max <N>]
       mqserve replay <USERS> <FILE>.. [--audit [--from <N>] [--to <N>] | --answers <SID>]
       mqserve compact <USERS> <NEW> <OLD>.. [--to <USERS>]
                       [--msg-max <N>] [--msgsize-max <N>] [--queues-max <N>]
       mqserve same <USERS> <NEW> <OLD>.. [--to <USERS>]
                    [--msg-max <N>] [--msgsize-max <N>] [--queues-max <N>]";

const USERS_HELP: &str = "The user file";

const ADDRESS_HELP: &str =
    "Where to listen, as 127.0.0.1:7000, unix:/run/mqserve/socket or unix-users:/run/mqserve";

const ONE_THREAD_HELP: &str = "Serve all connections on one thread, without workers";

const CONNECTIONS_HELP: &str = "With --one-thread: connections at a time [default: 10000]";

const KEEP_RECORDS_HELP: &str =
    "With --one-thread: newest records that are kept, 1000 or more [default: 1000000]";

const KEEP_BYTES_HELP: &str =
    "With --one-thread: bytes of records that are kept, about [default: 268435456]";

const KEEP_ALL_HELP: &str = "With --one-thread: keep all records";

const WORKERS_HELP: &str = "Connections that are served side by side, 1 to 64 [default: 4]";

const STOP_AFTER_HELP: &str = "End after so many connections [default: never]";

const LOG_HELP: &str =
    "Where a line of each connection goes, - is standard output [default: nowhere]";

const SOCKET_MODE_HELP: &str = "Permission bits of the file of unix:PATH [default: 0600]";

const METRICS_HELP: &str =
    "With --one-thread: where its numbers are read, as 127.0.0.1:9100 or unix:/run/mqserve/metrics [default: nowhere]";

const STATS_HELP: &str =
    "With --one-thread and --log: seconds between two lines of its numbers, 1 or more [default: 60]";

const TRAIL_FILE_HELP: &str =
    "With --one-thread: where records are written before they are answered [default: nowhere]";

const TRAIL_SYNC_HELP: &str = "With --trail-file: records are on the disk before they are answered";

const TRAIL_SEGMENT_HELP: &str =
    "With --trail-file: bytes after which another file is begun, 4096 or more [default: never]";

const TRAIL_COMPACT_HELP: &str =
    "With --trail-file: bytes from which on a start retells the trail as a short one [default: never]";

const TRAIL_KEEP_HELP: &str =
    "With --trail-compact: keep the old files as FILE~0, FILE~1 and so on";

const NEW_HELP: &str = "The file that retells";

const OLD_HELP: &str = "The files of the trail that is retold, in their order";

const NEW_USERS_HELP: &str = "The user file under which it is retold [default: the first one]";

const FILES_HELP: &str = "The files of a trail, in their order";

const AUDIT_HELP: &str = "Print a line of each record";

const FROM_HELP: &str = "With --audit: the place of the first line [default: 0]";

const TO_HELP: &str = "With --audit: the place of the last line [default: the end]";

const ANSWERS_HELP: &str = "Print a line of each answer to the session of this number";

const MSG_MAX_HELP: &str = "Messages that a queue may have, 1 to 65536 [default: 10]";

const MSGSIZE_MAX_HELP: &str = "Bytes that a message may have, 1 to 16777216 [default: 8192]";

const QUEUES_MAX_HELP: &str = "Queues that there may be, 0 to 65536 [default: 256]";

const NEW_MSG_MAX_HELP: &str =
    "Messages that a queue may have from now on [default: the trail's own]";

const NEW_MSGSIZE_MAX_HELP: &str =
    "Bytes that a message may have from now on [default: the trail's own]";

const NEW_QUEUES_MAX_HELP: &str = "Queues that there may be from now on [default: the trail's own]";

/// The workers of a server that isn't told how many.
const STANDARD_WORKERS: u32 = 4;

const MOST_WORKERS: u32 = 64;

/// How many connections one thread serves that isn't told how many.
const STANDARD_CONNECTIONS: u32 = 10_000;

/// How many of the newest records one thread keeps that isn't told how many, and how many at least.
const STANDARD_RECORDS: u64 = 1_000_000;

const FEWEST_RECORDS: u64 = 1_000;

/// About how many bytes of records one thread keeps that isn't told how many: 256 MiB.
const STANDARD_BYTES: u64 = 268_435_456;

/// The permission bits of a socket's file: its owner alone may connect.
const STANDARD_MODE: u32 = 0o600;

/// The task that the program's words ask for, of which the first is its name: `mqserve` alone, `mqserve script`, or
/// `mqserve serve USERS ADDRESS`, with `--one-thread [--connections N] [--keep-records N] [--keep-bytes N] [--keep-all]` or
/// `[--workers N]`, and with `[--stop-after N] [--log FILE] [--socket-mode OCTAL]` and
/// `[--trail-file FILE [--trail-sync] [--trail-segment N] [--trail-compact N [--trail-keep]]]`; behind the
/// last two the limits, `[--msg-max N] [--msgsize-max N] [--queues-max N]`. Or `mqserve replay USERS FILE..`, with
/// `[--audit [--from N] [--to N]]`, or `mqserve compact USERS NEW OLD..` or `mqserve same USERS NEW OLD..`, with `[--to USERS]` and limits. A limit that isn't given is the standard one, and none is tested against its range. `help`
/// stands at the end of the help text.
///
/// # Errors
///
/// `Arguments` where the words are anything else, an N isn't decimal without sign and leading zeros, at most
/// 4,294,967,295, or of `--stop-after`, the two of records, `--trail-segment`, `--trail-compact` and places 18,446,744,073,709,551,615, that of `--workers` isn't 1 to 64,
/// that of `--connections` is 0, that of `--keep-records` is below 1,000, that of `--trail-segment` below 4,096, or OCTAL isn't a zero and three octal digits; where
/// `--workers` stands beside `--one-thread`, `--connections`, what tells of records or `--trail-file` without it, `--keep-all`
/// beside the other two, `--trail-sync`, `--trail-segment` or `--trail-compact` without `--trail-file`, `--trail-keep` without `--trail-compact`, `--socket-mode` at an address that isn't `unix:PATH`,
/// `unix-users:DIR` without `--one-thread`, or `--from` or `--to` without `--audit`; and where they ask for help or the version.
pub fn task_of_words<'a, S: AsStr>(
    alloc: Global,
    help: &'a str,
    words: &'a [S],
) -> Result<Task, ProgramFault>
    ensures { IfOk result (λ task. task_asked (map S.text words.now) ≡ Ok task) }
{
    let mut program = program(alloc, help)?;
    task_read(alloc, &mut program, words)
}

/// The task that the words ask for, as the program reads them.
fn task_read<'a, S: AsStr>(
    alloc: Global,
    program: &mut Command<'a>,
    words: &'a [S],
) -> Result<Task, ProgramFault>
    requires { app_of program.now ≡ app_of_program }
    ensures { IfOk result (λ task. task_asked (map S.text words.entry.now) ≡ Ok task) }
{
    let found = program.try_get_matches_from_mut(words)?;
    match task_found(alloc, &found) {
        Ok(task) => Ok(task),
        Err(WordFault::NoMemory) => Err(ScriptFault::Memory.into()),
        Err(fault) => {
            let text = format!(in alloc; "invalid {fault}: {}", what_is_wanted(fault))?;
            let error = program.error(ErrorKind::ValueValidation, text.as_str())?;
            Err(error.into())
        }
    }
}

/// What the value of an option must be.
fn what_is_wanted(fault: WordFault) -> &'static str {
    match fault {
        WordFault::BadValue("workers") => "N is 1 to 64, decimal, without sign and leading zeros",
        WordFault::BadValue("one-thread") => "it has no workers",
        WordFault::BadValue("address") => "unix-users:DIR stands with --one-thread",
        WordFault::BadValue("connections") =>
            "N is 1 to 4294967295, decimal, without sign and leading zeros, and stands with --one-thread",
        WordFault::BadValue("keep-records") =>
            "N is 1000 or more, decimal, without sign and leading zeros, and stands with --one-thread",
        WordFault::BadValue("keep-bytes") =>
            "N is decimal, without sign and leading zeros, and stands with --one-thread",
        WordFault::BadValue("keep-all") =>
            "it stands with --one-thread, without --keep-records and --keep-bytes",
        WordFault::BadValue("socket-mode") =>
            "OCTAL is a zero and three octal digits, and ADDRESS is unix:PATH",
        WordFault::BadValue("stop-after") =>
            "N is decimal, without sign and leading zeros, at most 18446744073709551615",
        WordFault::BadValue("metrics") =>
            "ADDRESS is HOST:PORT or unix:PATH, and stands with --one-thread",
        WordFault::BadValue("stats") =>
            "SECONDS is 1 or more, decimal, without sign and leading zeros, and stands with --one-thread and --log",
        WordFault::BadValue("trail-file") => "it stands with --one-thread",
        WordFault::BadValue("trail-sync") => "it stands with --trail-file",
        WordFault::BadValue("trail-segment") =>
            "N is 4096 or more, decimal, without sign and leading zeros, and stands with --trail-file",
        WordFault::BadValue("trail-compact") =>
            "N is decimal, without sign and leading zeros, at most 18446744073709551615, and stands with --trail-file",
        WordFault::BadValue("trail-keep") => "it stands with --trail-compact",
        WordFault::BadValue("from" | "to") =>
            "N is decimal, without sign and leading zeros, at most 18446744073709551615, and stands with --audit",
        WordFault::BadValue("answers") =>
            "SID is decimal, without sign and leading zeros, at most 18446744073709551615, and stands without --audit",
        _ => "N is decimal, without sign and leading zeros, at most 4294967295",
    }
}

fn program<'a>(alloc: Global, help: &'a str) -> Result<Command<'a>, AllocError>
    ensures { IfOk result (λ command. app_of command ≡ app_of_program) }
{
    let script = script(alloc, help)?;
    let serve = serve(alloc, help)?;
    let replay = replay(alloc, help)?;
    let compact = compact(alloc, help)?;
    let same = same(alloc, help)?;
    Command::new(alloc, "mqserve")
        .version("0.1.0")
        .about("Serves POSIX message queues and named semaphores")
        .override_usage(USAGE)
        .after_help(help)
        .subcommand(script)?
        .subcommand(serve)?
        .subcommand(replay)?
        .subcommand(compact)?
        .subcommand(same)
}

fn script<'a>(alloc: Global, help: &'a str) -> Result<Command<'a>, AllocError>
    ensures { IfOk result (λ command. IsSubcommand script_shape command) }
{
    let script = Command::new(alloc, "script")
        .about("Run a script from standard input")
        .after_help(help);
    with_limits(alloc, script)
}

fn serve<'a>(alloc: Global, help: &'a str) -> Result<Command<'a>, AllocError>
    ensures { IfOk result (λ command. IsSubcommand serve_shape command) }
{
    let serve = Command::new(alloc, "serve")
        .about("Serve connections over TCP or a Unix socket")
        .after_help(help)
        .arg(place(alloc, "users", "USERS", USERS_HELP))?
        .arg(place(alloc, "address", "ADDRESS", ADDRESS_HELP))?;
    let serve = with_server_options(alloc, serve)?;
    let serve = with_metrics_options(alloc, serve)?;
    let serve = with_trail_options(alloc, serve)?;
    with_limits(alloc, serve)
}

fn replay<'a>(alloc: Global, help: &'a str) -> Result<Command<'a>, AllocError>
    ensures { IfOk result (λ command. IsSubcommand replay_shape command) }
{
    let replay = Command::new(alloc, "replay")
        .about("Step the records of a trail again, and compare each verdict")
        .after_help(help)
        .arg(place(alloc, "users", "USERS", USERS_HELP))?
        .arg(places(alloc, "files", "FILE", FILES_HELP))?;
    with_line_options(alloc, replay)
}

fn compact<'a>(alloc: Global, help: &'a str) -> Result<Command<'a>, AllocError>
    ensures { IfOk result (λ command. IsSubcommand (retold_shape (codes "compact")) command) }
{
    let compact = Command::new(alloc, "compact")
        .about("Retell a trail as a short one in which the same lives")
        .after_help(help);
    with_retold_words(alloc, compact)
}

fn same<'a>(alloc: Global, help: &'a str) -> Result<Command<'a>, AllocError>
    ensures { IfOk result (λ command. IsSubcommand (retold_shape (codes "same")) command) }
{
    let same = Command::new(alloc, "same")
        .about("Compare a trail with the one that it retells")
        .after_help(help);
    with_retold_words(alloc, same)
}

/// Adds the words that tell which trail is retold, and where.
fn with_retold_words<'a>(alloc: Global, command: Command<'a>) -> Result<Command<'a>, AllocError>
    ensures { IfOk result (λ added. Adds retold_words command.entry added) }
{
    let command = command
        .arg(place(alloc, "users", "USERS", USERS_HELP))?
        .arg(place(alloc, "new", "NEW", NEW_HELP))?
        .arg(places(alloc, "files", "OLD", OLD_HELP))?
        .arg(value(alloc, "to", "USERS", NEW_USERS_HELP))?;
    with_new_limits(alloc, command)
}

/// Adds what one thread is told.
fn with_thread_options<'a>(alloc: Global, command: Command<'a>) -> Result<Command<'a>, AllocError>
    ensures { IfOk result (λ added. Adds thread_options command.entry added) }
{
    let command = command
        .arg(flag(alloc, "one-thread", ONE_THREAD_HELP))?
        .arg(value(alloc, "connections", "N", CONNECTIONS_HELP))?
        .arg(value(alloc, "keep-records", "N", KEEP_RECORDS_HELP))?
        .arg(value(alloc, "keep-bytes", "N", KEEP_BYTES_HELP))?
        .arg(flag(alloc, "keep-all", KEEP_ALL_HELP))?;
    Ok(command)
}

/// Adds the options of a server.
fn with_server_options<'a>(alloc: Global, command: Command<'a>) -> Result<Command<'a>, AllocError>
    ensures { IfOk result (λ added. Adds server_options command.entry added) }
{
    let command = with_thread_options(alloc, command)?
        .arg(value(alloc, "workers", "N", WORKERS_HELP))?
        .arg(value(alloc, "stop-after", "N", STOP_AFTER_HELP))?
        .arg(value(alloc, "log", "FILE", LOG_HELP))?
        .arg(value(alloc, "socket-mode", "OCTAL", SOCKET_MODE_HELP))?;
    Ok(command)
}

/// Adds what a server is told of its counts.
fn with_metrics_options<'a>(alloc: Global, command: Command<'a>) -> Result<Command<'a>, AllocError>
    ensures { IfOk result (λ added. Adds metrics_options command.entry added) }
{
    let command = command
        .arg(value(alloc, "metrics", "ADDRESS", METRICS_HELP))?
        .arg(value(alloc, "stats", "SECONDS", STATS_HELP))?;
    Ok(command)
}

/// Adds what a server is told of a trail in a file.
fn with_trail_options<'a>(alloc: Global, command: Command<'a>) -> Result<Command<'a>, AllocError>
    ensures { IfOk result (λ added. Adds trail_options command.entry added) }
{
    let command = command
        .arg(value(alloc, "trail-file", "FILE", TRAIL_FILE_HELP))?
        .arg(flag(alloc, "trail-sync", TRAIL_SYNC_HELP))?
        .arg(value(alloc, "trail-segment", "N", TRAIL_SEGMENT_HELP))?
        .arg(value(alloc, "trail-compact", "N", TRAIL_COMPACT_HELP))?
        .arg(flag(alloc, "trail-keep", TRAIL_KEEP_HELP))?;
    Ok(command)
}

/// Adds what tells of which records a line is printed, or of which answers.
fn with_line_options<'a>(alloc: Global, command: Command<'a>) -> Result<Command<'a>, AllocError>
    ensures { IfOk result (λ added. Adds line_options command.entry added) }
{
    let command = command
        .arg(flag(alloc, "audit", AUDIT_HELP))?
        .arg(value(alloc, "from", "N", FROM_HELP))?
        .arg(value(alloc, "to", "N", TO_HELP))?
        .arg(value(alloc, "answers", "SID", ANSWERS_HELP))?;
    Ok(command)
}

/// Adds the options for the limits.
fn with_limits<'a>(alloc: Global, command: Command<'a>) -> Result<Command<'a>, AllocError>
    ensures { IfOk result (λ added. Adds limit_options command.entry added) }
{
    let command = command
        .arg(value(alloc, "msg-max", "N", MSG_MAX_HELP))?
        .arg(value(alloc, "msgsize-max", "N", MSGSIZE_MAX_HELP))?
        .arg(value(alloc, "queues-max", "N", QUEUES_MAX_HELP))?;
    Ok(command)
}

/// Adds the options for the limits of a trail that is retold.
fn with_new_limits<'a>(alloc: Global, command: Command<'a>) -> Result<Command<'a>, AllocError>
    ensures { IfOk result (λ added. Adds limit_options command.entry added) }
{
    let command = command
        .arg(value(alloc, "msg-max", "N", NEW_MSG_MAX_HELP))?
        .arg(value(alloc, "msgsize-max", "N", NEW_MSGSIZE_MAX_HELP))?
        .arg(value(alloc, "queues-max", "N", NEW_QUEUES_MAX_HELP))?;
    Ok(command)
}

/// A word that must be given.
fn place<'a>(alloc: Global, name: &'a str, value_name: &'a str, help: &'a str) -> Arg<'a>
    ensures rule { rule_of result ≡ place name.entry.now }
    ensures local { result.global ≡ false }
{
    Arg::new(alloc, name)
        .required(true)
        .action(ArgAction::Set)
        .value_name(value_name)
        .help(help)
}

/// A word that must be given, and more behind it.
fn places<'a>(alloc: Global, name: &'a str, value_name: &'a str, help: &'a str) -> Arg<'a>
    ensures rule { rule_of result ≡ places name.entry.now }
    ensures local { result.global ≡ false }
{
    Arg::new(alloc, name)
        .required(true)
        .action(ArgAction::Append)
        .value_name(value_name)
        .help(help)
}

/// `--NAME VALUE`
fn value<'a>(alloc: Global, name: &'a str, value_name: &'a str, help: &'a str) -> Arg<'a>
    ensures rule { rule_of result ≡ value_option name.entry.now }
    ensures local { result.global ≡ false }
{
    Arg::new(alloc, name)
        .long(name)
        .action(ArgAction::Set)
        .value_name(value_name)
        .help(help)
}

/// `--NAME`
fn flag<'a>(alloc: Global, name: &'a str, help: &'a str) -> Arg<'a>
    ensures rule { rule_of result ≡ flag name.entry.now }
    ensures local { result.global ≡ false }
{
    Arg::new(alloc, name)
        .long(name)
        .action(ArgAction::SetTrue)
        .help(help)
}

/// The task of the subcommand that was found, if one was.
fn task_found(alloc: Global, found: &ArgMatches) -> Result<Task, WordFault>
    ensures { Reads (task_given (subcommand_rows_of found.now)) result }
{
    match found.subcommand() {
        Some((name, options)) => task_named(alloc, name, options),
        None => Ok(Task::Script(Limits::STANDARD)),
    }
}

/// The task of the subcommand of this name.
fn task_named(alloc: Global, name: &str, options: &ArgMatches) -> Result<Task, WordFault>
    ensures { Reads (task_of (name.now, rows_of (found_of options.now))) result }
{
    if name == "serve" {
        return Ok(Task::Serve(serving_of(alloc, options)?));
    }
    if name == "replay" {
        return Ok(Task::Replay(replaying_of(alloc, options)?));
    }
    if name == "compact" {
        return Ok(Task::Compact(retold_of(alloc, options)?));
    }
    if name == "same" {
        return Ok(Task::Compare(retold_of(alloc, options)?));
    }
    Ok(Task::Script(limits_of(options)?))
}

/// What a server is told.
fn serving_of(alloc: Global, options: &ArgMatches) -> Result<Serving, WordFault>
    ensures { Reads (serving_given (rows_of (found_of options.now))) result }
{
    let Some(users) = optional_word(options, "users") else {
        return Err(WordFault::BadValue("users"));
    };
    let Some(address) = optional_word(options, "address") else {
        return Err(WordFault::BadValue("address"));
    };
    let threading = threading_at(options, address)?;
    let stop_after = optional_number(options, "stop-after")?;
    let stats = stats_of(options, threading)?;
    let log = copied_word(alloc, options, "log")?;
    let metrics = metrics_of(alloc, options, threading)?;
    let trail = trail_of(alloc, options, threading)?;
    let socket_mode = socket_mode_of(options, address)?;
    let limits = limits_of(options)?;
    Ok(Serving {
        users: String::from_str(alloc, users)?,
        address: String::from_str(alloc, address)?,
        socket_mode,
        threading,
        stop_after,
        log,
        metrics,
        stats,
        trail,
        limits,
    })
}

/// The word of an argument, if it is given.
pub fn copied_word(
    alloc: Global,
    options: &ArgMatches,
    argument: &str,
) -> Result<Option<String>, AllocError>
    ensures { IfOk result (λ word. option_map string_bytes word ≡ first_of argument.now (rows_of (found_of options.now))) }
{
    let Some(word) = optional_word(options, argument) else {
        return Ok(None);
    };
    Ok(Some(String::from_str(alloc, word)?))
}

/// On what threads this address is served. Users' sockets are served by one thread.
fn threading_at(options: &ArgMatches, address: &str) -> Result<Threading, WordFault>
    ensures reads { Reads (threading_at address.now (rows_of (found_of options.now))) result }
    ensures in_range { IfOk result IsWithin }
{
    let threading = threading_of(options)?;
    if !serves(address, threading) {
        return Err(WordFault::BadValue("address"));
    }
    Ok(threading)
}

fn serves(address: &str, threading: Threading) -> bool
    ensures { result ≡ serves address.now threading }
{
    match threading {
        Threading::OneThread(..) => true,
        Threading::Workers(_) => !is_unix_users(address),
    }
}

/// One thread, where its flag is given, and else workers. An option of the other is refused.
fn threading_of(options: &ArgMatches) -> Result<Threading, WordFault>
    ensures reads { Reads (threading_given (rows_of (found_of options.now))) result }
    ensures in_range { IfOk result IsWithin }
{
    if is_flag_given(options, "one-thread") {
        if is_option_given(options, "workers") {
            return Err(WordFault::BadValue("one-thread"));
        }
        let connections = connections_of(options)?;
        return Ok(Threading::OneThread(connections, kept_of(options)?));
    }
    crew_of(options)
}

/// Workers. What one thread alone is told is refused.
fn crew_of(options: &ArgMatches) -> Result<Threading, WordFault>
    ensures reads { Reads (crew_given (rows_of (found_of options.now))) result }
    ensures in_range { IfOk result IsWithin }
{
    if is_option_given(options, "connections") {
        return Err(WordFault::BadValue("connections"));
    }
    if is_option_given(options, "keep-records") {
        return Err(WordFault::BadValue("keep-records"));
    }
    if is_option_given(options, "keep-bytes") {
        return Err(WordFault::BadValue("keep-bytes"));
    }
    if is_flag_given(options, "keep-all") {
        return Err(WordFault::BadValue("keep-all"));
    }
    Ok(Threading::Workers(workers_of(options)?))
}

/// How many records one thread keeps.
fn kept_of(options: &ArgMatches) -> Result<Kept, WordFault>
    ensures reads { Reads (kept_given (rows_of (found_of options.now))) result }
    ensures in_range { IfOk result IsEnough }
{
    if !is_flag_given(options, "keep-all") {
        return newest_of(options);
    }
    if is_option_given(options, "keep-records") || is_option_given(options, "keep-bytes") {
        return Err(WordFault::BadValue("keep-all"));
    }
    Ok(Kept {
        records: None,
        bytes: None,
    })
}

/// How many of the newest records one thread keeps, and about how many bytes of them.
fn newest_of(options: &ArgMatches) -> Result<Kept, WordFault>
    ensures reads { Reads (newest_given (rows_of (found_of options.now))) result }
    ensures in_range { IfOk result IsEnough }
{
    let records = optional_number(options, "keep-records")?.unwrap_or(STANDARD_RECORDS);
    if records < FEWEST_RECORDS {
        return Err(WordFault::BadValue("keep-records"));
    }
    let bytes = optional_number(options, "keep-bytes")?.unwrap_or(STANDARD_BYTES);
    Ok(Kept {
        records: Some(records),
        bytes: Some(bytes),
    })
}

/// Whether a flag was given. Its value is the text `true` or `false`.
pub(crate) fn is_flag_given(options: &ArgMatches, name: &str) -> bool
    ensures { result ≡ is_given name.now (rows_of (found_of options.now)) }
{
    match optional_word(options, name) {
        Some(word) => word == "true",
        None => false,
    }
}

pub(crate) fn is_option_given(options: &ArgMatches, name: &str) -> bool
    ensures { result ≡ has name.now (rows_of (found_of options.now)) }
{
    optional_word(options, name).is_some()
}

fn connections_of(options: &ArgMatches) -> Result<usize, WordFault>
    ensures reads { Reads (connections_given (rows_of (found_of options.now))) result }
    ensures in_range { IfOk result (λ connections. 1 ≤ connections) }
{
    let connections = optional_count(options, "connections")?.unwrap_or(STANDARD_CONNECTIONS);
    if connections < 1 {
        return Err(WordFault::BadValue("connections"));
    }
    Ok(connections as usize)
}

/// The permission bits of the file that the server listens at. They may be given where its address is such a file.
fn socket_mode_of(options: &ArgMatches, address: &str) -> Result<u32, WordFault>
    ensures { Reads (socket_mode_given address.now (rows_of (found_of options.now))) result }
{
    let Some(word) = optional_word(options, "socket-mode") else {
        return Ok(STANDARD_MODE);
    };
    match read_mode(word) {
        Some(mode) if is_unix(address) => Ok(mode),
        _ => Err(WordFault::BadValue("socket-mode")),
    }
}

fn workers_of(options: &ArgMatches) -> Result<usize, WordFault>
    ensures reads { Reads (workers_given (rows_of (found_of options.now))) result }
    ensures in_range { IfOk result (λ workers. (1 ≤ workers) × (workers ≤ 64)) }
{
    let workers = optional_count(options, "workers")?.unwrap_or(STANDARD_WORKERS);
    if workers < 1 || MOST_WORKERS < workers {
        return Err(WordFault::BadValue("workers"));
    }
    Ok(workers as usize)
}

/// The limits that options give, and the standard one for each that isn't given.
fn limits_of(options: &ArgMatches) -> Result<Limits, WordFault>
    ensures { Reads (limits_given (rows_of (found_of options.now))) result }
{
    let standard = Limits::STANDARD;
    Ok(Limits {
        msg_max: optional_count(options, "msg-max")?.unwrap_or(standard.msg_max),
        msgsize_max: optional_count(options, "msgsize-max")?.unwrap_or(standard.msgsize_max),
        queues_max: optional_count(options, "queues-max")?.unwrap_or(standard.queues_max),
    })
}
