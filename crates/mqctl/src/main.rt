//! The client's program. `mqctl` without arguments reads commands from standard input, one a line, and writes the
//! frames of their requests to standard output. `mqctl ADDRESS KEY` does what they ask for at a server, and writes its
//! answers; words behind the key are the only command. `mqctl --key-file FILE ADDRESS` reads the key from a file, and `mqctl
//! unix-user:PATH` needs none.
#![tactic(auto)]

mod calls;
mod connection;
mod guidance;
mod keys;
mod own_socket;

use calls::{talk, talk_as_owner};
use guidance::help_text;
use ipc_client::{ClientFault, ProgramFault, encode_lines};
use keys::{key_in_environment, key_in_file};
use own_socket::own_place;
use std::env;
use std::io::ErrorKind;
use std::process::ExitCode;

fn main(rt: HostRuntime) -> ExitCode {
    match run(&rt) {
        Ok(true) => ExitCode::SUCCESS,
        Ok(false) => ExitCode::from(1),
        Err(fault) => {
            // A standard error that can't be written to is passed over.
            let _ = eprintln!(rt; "mqctl: {fault}");
            ExitCode::from(fault.status())
        }
    }
}

/// `true` where no command was at fault or refused.
fn run(rt: &HostRuntime) -> Result<bool, ProgramFault> {
    let words = words_given(rt)?;
    match words.as_slice() {
        [] | [_] => Ok(encode_lines(rt.alloc(), rt.stdin(), rt.stdout())?),
        [_, word] if word.as_str() == "--help" => show_help(rt),
        [_, option, rest @ ..] if option.as_str() == "--key-file" => talk_by_file(rt, rest),
        [_, address, rest @ ..] => talk_at(rt, address.as_str(), rest),
    }
}

/// Speaks to the server at the address, by the words behind it: a key, where one is wanted, and a command.
fn talk_at(rt: &HostRuntime, address: &str, words: &[String]) -> Result<bool, ProgramFault> {
    if let Some(place) = own_place(address) {
        return talk_as_owner(rt, place, words);
    }
    match words {
        [key, command @ ..] if key.as_str() == "-" => {
            let key = key_in_environment(rt)?;
            talk(rt, address, key.as_str(), command)
        }
        [key, command @ ..] => talk(rt, address, key.as_str(), command),
        [] => Err(ProgramFault::Arguments),
    }
}

/// Speaks with the key of a file, by the words behind `--key-file`.
fn talk_by_file(rt: &HostRuntime, words: &[String]) -> Result<bool, ProgramFault> {
    match words {
        [file, address, command @ ..] if own_place(address.as_str()).is_none() => {
            let key = key_in_file(rt, file.as_str())?;
            talk(rt, address.as_str(), key.as_str(), command)
        }
        _ => Err(ProgramFault::Arguments),
    }
}

/// The program's words, of which the first is its name.
fn words_given(rt: &HostRuntime) -> Result<Vec<String>, ProgramFault> {
    match env::args(rt) {
        Ok(words) => match words.collect(rt.alloc()) {
            Ok(words) => Ok(words),
            Err(_) => Err(ClientFault::Memory.into()),
        },
        Err(error) if error.kind() == ErrorKind::OutOfMemory => Err(ClientFault::Memory.into()),
        Err(_) => Err(ProgramFault::Arguments),
    }
}

fn show_help(rt: &HostRuntime) -> Result<bool, ProgramFault> {
    let Ok(help) = help_text(rt.alloc()) else {
        return Err(ClientFault::Memory.into());
    };
    match println!(rt; "{help}") {
        Ok(()) => Ok(true),
        Err(_) => Err(ClientFault::Write.into()),
    }
}
