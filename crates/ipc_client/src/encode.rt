//! Commands as lines of request frames.

ghost use Rattle.std.specs.Prelude.{◌≡◌, ◌++◌, IfErr, IfOk, OnOk, codes, false, map};
ghost use Rattle.std.specs.String.{string_bytes};
ghost use Rattle.hex.specs.Hex.{encode_lower};
ghost use Rattle.ipc_client.specs.Faults.{is_net};
ghost use Rattle.ipc_client.specs.Frames.{IsEncoded};
ghost use Rattle.ipc_words.specs.FaultLines.{fault_line};

use crate::fault::ClientFault;
use crate::frame::frame_of_words;
use ipc_lines::{Lines, Output, words_of};
use ipc_terms::NoMemory;
use ipc_words::{WordFault, put_fault};
use std::alloc::Global;
use std::io::{Read, Write};

/// Writes for each line of the input, a command's words parted by spaces and tabs, the frame of its request as
/// pairs of lower-case hexadecimal digits, or its fault: `fault usage`, or `fault value` and the argument. Empty
/// lines and lines that begin with `#` are commands too, and at fault. `true` where no line was.
///
/// Lines are written in blocks, and flushed before more input is waited for.
///
/// # Errors
///
/// The first fault of a line, of the reader or of the writer ends it; what was encoded before is written. A line is
/// at fault that has more than 1,048,576 bytes without its line feed, or that is not UTF-8. An interrupted read is
/// made again; 1,000,000,000 reads are made at most.
pub fn encode_lines<R: Read + Drop, W: Write + Drop>(
    alloc: Global,
    reader: R,
    writer: W,
) -> Result<bool, ClientFault>
    ensures { IfErr result (λ fault. is_net fault ≡ false) }
{
    let mut lines = Lines::new(alloc, reader)?;
    let mut output = Output::new(alloc, writer)?;
    let outcome = encode_each(alloc, &mut lines, &mut output);
    output.flush()?;
    outcome
}

/// Puts the line of each command into the output. `true` where no command was at fault.
fn encode_each<R: Read + Drop, W: Write + Drop>(
    alloc: Global,
    lines: &mut Lines<R>,
    output: &mut Output<W>,
) -> Result<bool, ClientFault>
    ensures { IfErr result (λ fault. is_net fault ≡ false) }
{
    let mut line = String::new(alloc);
    let mut is_faultless = true;
    for _ in 0..u64::MAX {
        let Some(command) = lines.next_line_after(output)? else {
            break;
        };
        is_faultless &= lay_encoded(alloc, &mut line, &words_of(alloc, command)?)?;
        output.put(line.as_str())?;
    }
    Ok(is_faultless)
}

/// Lays out the line of a command's words. `false` where they are at fault.
fn lay_encoded(alloc: Global, line: &mut String, words: &[&str]) -> Result<bool, NoMemory>
    ensures { IfOk result (IsEncoded (map (λ w. w.now) words.now) (string_bytes line.new)) }
{
    match frame_of_words(alloc, words) {
        Ok(frame) => {
            lay_frame(alloc, line, &frame)?;
            Ok(true)
        }
        Err(WordFault::NoMemory) => Err(NoMemory),
        Err(fault) => {
            put_fault_line(line, &fault)?;
            Ok(false)
        }
    }
}

fn lay_frame(alloc: Global, line: &mut String, frame: &[u8]) -> Result<(), NoMemory>
    ensures { OnOk result (string_bytes line.new ≡ encode_lower frame.now ++ codes "\n") }
{
    line.clear();
    line.push_str(hex::encode(alloc, frame)?.as_str())?;
    line.push_str("\n")?;
    Ok(())
}

pub(crate) fn put_fault_line(line: &mut String, fault: &WordFault) -> Result<(), NoMemory>
    ensures { OnOk result (string_bytes line.new ≡ fault_line fault.now ++ codes "\n") }
{
    line.clear();
    put_fault(line, fault)?;
    line.push_str("\n")?;
    Ok(())
}
