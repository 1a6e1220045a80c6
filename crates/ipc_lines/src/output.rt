//! Lines that are written in blocks.

ghost use Rattle.std.specs.Prelude.{◌≡◌, [], IfErr, IfOk, OnOk};
ghost use Rattle.std.specs.Io.KnownBytes.{Appends, Keeps};
ghost use Rattle.std.specs.IoError.{error_kind};
ghost use Rattle.ipc_lines.specs.Faults.{IsOfWriter, of_writer};
ghost use Rattle.ipc_lines.specs.Lines.{waiting, written};

use crate::fault::LineFault;
use std::alloc::Global;
use std::io;
use std::io::{BufWriter, ErrorKind, Write};

/// A writer of lines, in blocks of 8,192 bytes: a line may wait for the block to fill, or for `flush`.
#[derive(Drop)]
pub struct Output<W: Write + Drop> {
    writer: BufWriter<W>,
}

impl<W: Write + Drop> Output<W> {
    /// Takes a block's memory, and writes nothing yet.
    pub fn new(alloc: Global, writer: W) -> Result<Output<W>, LineFault>
        ensures nothing { IfOk result (λ output. Appends (W.contents writer) (written W.contents output) []) }
        ensures fault { IfErr result IsOfWriter }
    {
        match BufWriter::new(alloc, writer) {
            Ok(writer) => Ok(Output { writer }),
            Err(error) => Err(fault_of_writer(error)),
        }
    }

    /// Puts a line, with its line end, into the block; a full block is written.
    pub fn put(&mut self, line: &str) -> Result<(), LineFault>
        ensures put { OnOk result (Appends (written W.contents self.old) (written W.contents self.new) line.now) }
        ensures fault { IfErr result IsOfWriter }
    {
        self.writer
            .write_all(line.as_bytes())
            .map_err(fault_of_writer)
    }

    /// Writes what was put, so that whoever reads it has each line.
    pub fn flush(&mut self) -> Result<(), LineFault>
        ensures kept { Keeps (written W.contents self.old) (written W.contents self.new) }
        ensures emptied { OnOk result (waiting self.new ≡ []) }
        ensures fault { IfErr result IsOfWriter }
    {
        self.writer.flush().map_err(fault_of_writer)
    }

    /// Writes what was put, and gives the writer back. Where that fails, what is left is tried once more, as where a
    /// `BufWriter` is dropped.
    pub fn finish(self) -> (W, Result<(), LineFault>)
        ensures kept { OnOk result.1 (Keeps (written W.contents self) (W.contents result.0)) }
        ensures fault { IfErr result.1 IsOfWriter }
    {
        let mut output = self;
        let outcome = output.flush();
        if outcome.is_err() {
            return (after_one_more_try(output.writer), outcome);
        }
        let (writer, _none) = output.writer.into_parts();
        (writer, outcome)
    }
}

/// Tries to write what a failed write left, and gives the writer back however that ends.
fn after_one_more_try<W: Write + Drop>(writer: BufWriter<W>) -> W {
    match writer.into_inner() {
        Ok(writer) => writer,
        Err(unwritten) => {
            let (writer, _unwritten) = unwritten.into_inner().into_parts();
            writer
        }
    }
}

/// Want of memory is `Memory`, and every other error of the writer `Write`.
fn fault_of_writer(error: io::Error) -> LineFault
    ensures { result ≡ of_writer (error_kind error) }
{
    match error.kind() {
        ErrorKind::OutOfMemory => LineFault::Memory,
        _ => LineFault::Write,
    }
}
