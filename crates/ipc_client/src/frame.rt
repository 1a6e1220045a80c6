//! The frame of a command.

ghost use Rattle.std.specs.Prelude.{◌≡◌, IfErr, IfOk, Some, decimal, map};
ghost use Rattle.std.specs.String.{string_bytes};
ghost use Rattle.ipc_client.specs.Dialogues.{IsCommandFrame, IsFrameOf, bytes_of, lacks_description, with_last};
ghost use Rattle.ipc_client.specs.Frames.{AreSpelled, Asks, FailsBy};

use ipc_terms::{Call, Desc};
use ipc_wire::{Request, WriteFault, write_request};
use ipc_words::{WordFault, call_of_words};
use std::alloc::{AllocError, Global};

/// The frame of the request that a command's words mean.
///
/// # Errors
///
/// The fault of the words; `BadValue` of `name` where the request has no frame, since a name has more than
/// 65,535 bytes.
pub fn frame_of_words(alloc: Global, words: &[&str]) -> Result<Vec<u8>, WordFault>
    ensures spelled { IfOk result (λ frame. AreSpelled (map (λ w. w.now) words.now) (Some frame.items)) }
    ensures fault { IfErr result (FailsBy (map (λ w. w.now) words.now)) }
{
    let call = asked(alloc, words)?;
    match write_request(alloc, &Request::Do(call)) {
        Ok(frame) => Ok(frame),
        Err(WriteFault::TooLong) => Err(WordFault::BadValue("name")),
        Err(WriteFault::NoMemory) => Err(WordFault::NoMemory),
    }
}

/// The call that a command's words mean.
fn asked(alloc: Global, words: &[&str]) -> Result<Call, WordFault>
    ensures { Asks (map (λ w. w.now) words.now) result }
{
    call_of_words(alloc, words)
}

/// As `frame_of_words`, but where the words are at fault for their description, `last` stands for the one that was
/// opened last, if one was.
pub(crate) fn frame_of_command(
    alloc: Global,
    last: Option<Desc>,
    words: &[&str],
) -> Result<Vec<u8>, WordFault>
    ensures { IsCommandFrame last (map (λ w. w.now) words.now) (bytes_of result) }
{
    let frame = frame_of_words(alloc, words);
    if lacks_description(&frame) {
        return frame_by_last(alloc, last, words);
    }
    frame
}

fn lacks_description(frame: &Result<Vec<u8>, WordFault>) -> bool
    ensures { result ≡ lacks_description (bytes_of frame.now) }
{
    match frame {
        Err(WordFault::BadValue(argument)) => *argument == "d",
        _ => false,
    }
}

/// The frame of the words with the number of the description opened last in place of `last`.
fn frame_by_last(alloc: Global, last: Option<Desc>, words: &[&str]) -> Result<Vec<u8>, WordFault>
    ensures { IsFrameOf (with_last last (map (λ w. w.now) words.now)) (bytes_of result) }
{
    match (last, words) {
        (Some(desc), [command, word, arguments @ ..]) => {
            let number = decimal_of(alloc, desc.0)?;
            let desc = if *word == "last" {
                number.as_str()
            } else {
                word
            };
            let mut meant = Vec::from_slice(alloc, &[*command, desc])?;
            meant.extend_from_slice(arguments)?;
            frame_of_words(alloc, &meant)
        }
        _ => frame_of_words(alloc, words),
    }
}

/// A number as a word.
pub(crate) fn decimal_of(alloc: Global, number: u64) -> Result<String, AllocError>
    ensures { IfOk result (λ word. string_bytes word ≡ decimal number) }
{
    format!(in alloc; "{number}")
}
