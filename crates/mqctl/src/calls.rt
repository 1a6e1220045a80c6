//! Commands to a server.

ghost use Rattle.std.specs.Prelude.{◌≤◌, length};

use crate::connection::{connect_over_tcp, connect_to_file};
use crate::own_socket::connect_as_owner;
use ipc_client::{ClientFault, LONGEST_KEY, ProgramFault, WithoutFront, client_session};
use std::alloc::{AllocError, Global};
use std::io::{Read, Write};

/// How many bytes the frame of a hello with an empty key has.
const EMPTY_HELLO: usize = 7;

/// Speaks to the server at the address: the command that these words are, or each line of standard input.
pub fn talk(
    rt: &HostRuntime,
    address: &str,
    key: &str,
    command: &[String],
) -> Result<bool, ProgramFault> {
    if key.len() > LONGEST_KEY || !is_one_line(command) {
        return Err(ProgramFault::Arguments);
    }
    Ok(talk_as(rt, address, key.as_bytes(), command)?)
}

/// Speaks at the socket of a user's own, which is at this path or in this folder. The server has said the hello.
pub fn talk_as_owner(
    rt: &HostRuntime,
    place: &str,
    command: &[String],
) -> Result<bool, ProgramFault> {
    if !is_one_line(command) {
        return Err(ProgramFault::Arguments);
    }
    let stream = connect_as_owner(rt, place)?;
    let writer = WithoutFront {
        writer: &stream,
        left_out: EMPTY_HELLO,
    };
    Ok(talk_over(rt, &stream, writer, b"", command)?)
}

/// A line feed in a word would part the command into two.
fn is_one_line(command: &[String]) -> bool {
    !command.iter().any(|word| word.contains('\n'))
}

/// Speaks as the user with this key, to `HOST:PORT` or `unix:PATH`.
fn talk_as(
    rt: &HostRuntime,
    address: &str,
    key: &[u8],
    command: &[String],
) -> Result<bool, ClientFault>
    requires short_key { length key.now ≤ 65535 }
{
    if let Some(path) = address.strip_prefix("unix:") {
        let stream = connect_to_file(rt, path)?;
        return talk_over(rt, &stream, &stream, key, command);
    }
    let stream = connect_over_tcp(rt, address)?;
    talk_over(rt, &stream, &stream, key, command)
}

/// Speaks over the two ends of a connection.
fn talk_over<R: Read + Drop, W: Write + Drop>(
    rt: &HostRuntime,
    reader: R,
    mut writer: W,
    key: &[u8],
    command: &[String],
) -> Result<bool, ClientFault>
    requires short_key { length key.now ≤ 65535 }
{
    if command.is_empty() {
        return client_session(
            rt.alloc(),
            key,
            reader,
            &mut writer,
            rt.stdin(),
            rt.stdout(),
        );
    }
    let line = line_of(rt.alloc(), command)?;
    let commands = line.as_str().as_bytes();
    client_session(rt.alloc(), key, reader, &mut writer, commands, rt.stdout())
}

/// The words as one line, parted by single spaces.
fn line_of(alloc: Global, words: &[String]) -> Result<String, AllocError> {
    let mut line = words.join(alloc, " ")?;
    line.push('\n')?;
    Ok(line)
}
