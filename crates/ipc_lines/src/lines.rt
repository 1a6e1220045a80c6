//! The lines of an input, over a bounded number of reads.

ghost use Rattle.std.specs.Prelude.{◌≡◌, ◌+◌, ◌-◌, ◌^◌, ◌≤◌, min, Some, None, OnOk, IfErr, IfOk, IfSome, IsErr, if◌then◌else◌, true, length};
ghost use Rattle.std.specs.Io.KnownBytes.{Keeps};
ghost use Rattle.ipc_lines.specs.Faults.{BlamesOnly};
ghost use Rattle.ipc_lines.specs.Lines.{last_line, lines_read, reads_left, unread, unread_input, written};
ghost use Rattle.ipc_lines.specs.Reading.{IsNextLine, ReadsLine, ReadsPiece};

use crate::fault::LineFault;
use crate::output::Output;
use memchr::memchr;
use std::alloc::Global;
use std::io::{BufRead, BufReader, ErrorKind, Read, Write};
use std::{io, str};

/// The longest line that is read, in bytes without its line feed.
const LONGEST_LINE: usize = 1_048_576;

/// How many reads of its reader a run makes at most.
const MOST_READS: u64 = 1_000_000_000;

/// A reader of which at most `left` more reads are made; those that are interrupted count too.
#[derive(Drop)]
pub struct Counted<R> {
    reader: R,
    left: u64,
}

impl<R> Counted<R> {
    /// Takes one read off what is left, and fails where nothing is.
    fn spend(&mut self) -> io::Result<()>
        ensures kept { self.new.reader ≡ self.old.reader }
        ensures spent { OnOk result (self.old.left ≡ self.new.left + 1) }
        ensures none_left { self.old.left ≡ 0 → IsErr result }
    {
        match self.left.checked_sub(1) {
            Some(left) => {
                self.left = left;
                Ok(())
            }
            None => Err(io::Error::from(ErrorKind::Other)),
        }
    }
}

impl<R: Read> Read for Counted<R> {
    ghost remaining = { λ counted. R.remaining counted.reader };

    fn read(&mut self, buffer: &mut [u8]) -> io::Result<usize> {
        self.spend()?;
        self.reader.read(buffer)
    }
}

/// The lines of an input, without their line feeds. A last line may have none.
#[derive(Drop)]
pub struct Lines<R: Read + Drop> {
    input: BufReader<Counted<R>>,
    /// The bytes of the line that was read last.
    line: Vec<u8>,
    /// How many lines were read.
    count: u64,
    is_over: bool,
}

/// How a piece of a line ends.
#[derive(Clone, Copy)]
pub enum Piece {
    /// With the line feed.
    Fed,
    /// In the line.
    Open,
    /// It is empty, and so is the rest of the input; or the line is too long.
    Last,
}

impl<R: Read + Drop> Lines<R> {
    /// The lines of the reader, of which at most 1,000,000,000 reads are made. Takes 8,192 bytes, and reads
    /// nothing yet.
    pub fn new(alloc: Global, reader: R) -> Result<Lines<R>, LineFault>
        ensures bounded { IfOk result (λ lines. reads_left lines ≡ 1000000000) }
        ensures none_read { IfOk result (λ lines. lines_read lines ≡ 0) }
        ensures unread { IfOk result (λ lines. Keeps (R.remaining reader) (unread R.remaining lines)) }
        ensures memory { IfErr result (λ fault. fault ≡ LineFault.Memory) }
    {
        let counted = Counted {
            reader,
            left: MOST_READS,
        };
        match BufReader::new(alloc, counted) {
            Ok(input) => Ok(Lines {
                input,
                line: Vec::new(alloc),
                count: 0,
                is_over: false,
            }),
            Err(_) => Err(LineFault::Memory),
        }
    }

    /// The number of the next line, counted from 1.
    pub fn next_number(&self) -> u64
        ensures { result ≡ min (lines_read self.now + 1) (2 ^ 64 - 1) }
    {
        self.count.saturating_add(1)
    }

    /// Whether the next line was read in whole together with an earlier one, so that nothing is
    /// waited for.
    pub fn is_at_hand(&self) -> bool {
        memchr(b'\n', self.input.buffer()).is_some()
    }

    /// The next line, and `None` at the input's end. A line has at most 1,048,576 bytes without its line
    /// feed. No further line is to be asked for after an `Err`.
    pub fn next_line(&mut self) -> Result<Option<&str>, LineFault>
        ensures fits { IfOk result (λ found. IfSome found (λ line. length line.now ≤ 1048576)) }
        ensures blamed { IfErr result (BlamesOnly (lines_read self.old + 1)) }
    {
        if !self.read_next()? {
            return Ok(None);
        }
        Ok(Some(self.line()?))
    }

    /// The next line, as `next_line` gives it. Where it must be waited for, what was put into the output is
    /// written first.
    pub fn next_line_after<W: Write + Drop>(
        &mut self,
        output: &mut Output<W>,
    ) -> Result<Option<&str>, LineFault>
        ensures fits { IfOk result (λ found. IfSome found (λ line. length line.now ≤ 1048576)) }
        ensures blamed { IfErr result (BlamesOnly (lines_read self.old + 1)) }
    {
        if !self.is_at_hand() {
            output.flush()?;
        }
        self.next_line()
    }

    /// Reads the next line, which `line` then gives. `false` at the input's end. No further line is to be asked for
    /// after an `Err`.
    pub fn read_next(&mut self) -> Result<bool, LineFault>
        ensures next { IfOk result (λ is_there. IsNextLine (if is_there then Some (last_line self.new) else None) (unread R.remaining self.old) (unread R.remaining self.new)) }
        ensures counted { IfOk result (λ is_there. lines_read self.new ≡ (if is_there then lines_read self.old + 1 else lines_read self.old)) }
        ensures fits { IfOk result (λ is_there. is_there ≡ true → length (last_line self.new) ≤ 1048576) }
        ensures blamed { IfErr result (BlamesOnly (lines_read self.old + 1)) }
    {
        if self.is_over {
            return Ok(false);
        }
        // The reads end long before so many lines were read.
        if self.count == u64::MAX {
            return Err(LineFault::Read);
        }
        let is_fed = self.read_bytes()?;
        self.is_over = !is_fed;
        if self.is_over && self.line.is_empty() {
            return Ok(false);
        }
        self.count += 1;
        if self.line.len() > LONGEST_LINE {
            return Err(LineFault::Bad(self.count));
        }
        Ok(true)
    }

    /// Reads the next line, as `read_next` does. Where it must be waited for, what was put into the output is written
    /// first.
    pub fn read_next_after<W: Write + Drop>(
        &mut self,
        output: &mut Output<W>,
    ) -> Result<bool, LineFault>
        ensures next { IfOk result (λ is_there. IsNextLine (if is_there then Some (last_line self.new) else None) (unread R.remaining self.old) (unread R.remaining self.new)) }
        ensures counted { IfOk result (λ is_there. lines_read self.new ≡ (if is_there then lines_read self.old + 1 else lines_read self.old)) }
        ensures kept { Keeps (written W.contents output.old) (written W.contents output.new) }
        ensures blamed { IfErr result (BlamesOnly (lines_read self.old + 1)) }
    {
        if !self.is_at_hand() {
            output.flush()?;
        }
        let is_there = self.read_next()?;
        Ok(is_there)
    }

    /// The line that was read last. `Bad` where it is not UTF-8.
    pub fn line(&self) -> Result<&str, LineFault>
        ensures text { IfOk result (λ line. line.now ≡ last_line self.now) }
        ensures blamed { IfErr result (λ fault. fault ≡ LineFault.Bad (lines_read self.now)) }
    {
        match str::from_utf8(&self.line) {
            Ok(line) => Ok(line),
            Err(_) => Err(LineFault::Bad(self.count)),
        }
    }

    /// Reads the next line's bytes, and says whether a line feed stood behind them. Without one the input ends there,
    /// or the line is too long; then one byte more than the longest has is read.
    fn read_bytes(&mut self) -> Result<bool, LineFault>
        ensures counted { self.new.count ≡ self.old.count }
        ensures read { IfOk result (λ is_fed. ReadsLine is_fed self.new.line.items (unread_input R.remaining self.old) (unread_input R.remaining self.new)) }
        ensures blamed { IfErr result (BlamesOnly (self.old.count + 1)) }
    {
        self.line.clear();
        // Each turn but the first makes a read.
        for _ in 0..=MOST_READS {
            match self.read_piece()? {
                Piece::Open => {}
                Piece::Fed => return Ok(true),
                Piece::Last => return Ok(false),
            }
        }
        Err(LineFault::Read)
    }

    /// Adds the bytes that are at hand to the line, up to a line feed, which is read too; reads some where none are and
    /// the line isn't too long yet.
    fn read_piece(&mut self) -> Result<Piece, LineFault>
        ensures counted { self.new.count ≡ self.old.count }
        ensures read { IfOk result (λ piece. ReadsPiece piece self.old.line.items self.new.line.items (unread_input R.remaining self.old) (unread_input R.remaining self.new)) }
        ensures blamed { IfErr result (BlamesOnly (self.old.count + 1)) }
    {
        let room = (LONGEST_LINE + 1).saturating_sub(self.line.len());
        if room == 0 {
            return Ok(Piece::Last);
        }
        let shown = match self.input.fill_buf() {
            Ok(shown) => shown,
            Err(e) if e.kind() == ErrorKind::Interrupted => return Ok(Piece::Open),
            Err(_) => return Err(LineFault::Read),
        };
        let found = &shown[..shown.len().min(room)];
        let (end, read, piece) = match memchr(b'\n', found) {
            Some(place) => (place, place + 1, Piece::Fed),
            None if found.is_empty() => (0, 0, Piece::Last),
            None => (found.len(), found.len(), Piece::Open),
        };
        self.line.extend_from_slice(&found[..end])?;
        self.input.consume(read);
        Ok(piece)
    }
}
