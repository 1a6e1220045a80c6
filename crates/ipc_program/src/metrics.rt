//! What the arguments say of a server's counts.

ghost use Rattle.std.specs.Prelude.{◌≡◌, IfErr, IfOk, Ok, option_map, string_bytes};
ghost use Rattle.clap.specs.Walk.{rows_of};
ghost use Rattle.clap.specs.Words.{found_of};
ghost use Rattle.ipc_words.specs.Readings.{IsFaultOf, Reads};
ghost use Rattle.ipc_program.specs.Tasks.{metrics_given, stats_given, tells_counts};

use crate::addresses::is_endpoint;
use crate::arguments::is_option_given;
use crate::tasks::Threading;
use crate::trails::is_one_thread;
use clap::ArgMatches;
use ipc_words::{WordFault, optional_number, optional_word};
use std::alloc::Global;

/// At which address the numbers of a server on these threads are read, if they are. Workers show none.
pub fn metrics_of(
    alloc: Global,
    options: &ArgMatches,
    threading: Threading,
) -> Result<Option<String>, WordFault>
    ensures ok { IfOk result (λ metrics. metrics_given threading (rows_of (found_of options.now)) ≡ Ok (option_map string_bytes metrics)) }
    ensures fault { IfErr result (IsFaultOf (metrics_given threading (rows_of (found_of options.now)))) }
{
    let Some(address) = optional_word(options, "metrics") else {
        return Ok(None);
    };
    if !is_one_thread(threading) || !is_endpoint(address) {
        return Err(WordFault::BadValue("metrics"));
    }
    Ok(Some(String::from_str(alloc, address)?))
}

/// How many seconds pass between two lines of numbers in the log of a server on these threads, if that is told.
pub fn stats_of(options: &ArgMatches, threading: Threading) -> Result<Option<u64>, WordFault>
    ensures { Reads (stats_given threading (rows_of (found_of options.now))) result }
{
    let stats = optional_number(options, "stats")?;
    match stats {
        Some(seconds) if !tells_counts(options, threading, seconds) => {
            Err(WordFault::BadValue("stats"))
        }
        _ => Ok(stats),
    }
}

/// Whether numbers are logged so often: by one thread, into a log.
fn tells_counts(options: &ArgMatches, threading: Threading, seconds: u64) -> bool
    ensures { result ≡ tells_counts threading (rows_of (found_of options.now)) seconds }
{
    is_one_thread(threading) && is_option_given(options, "log") && seconds >= 1
}
