//! A file of a trail, as it is read.

use ipc_history::{HistoryFault, TrailReader};
use ipc_program::ProgramFault;
use std::alloc::Global;
use std::fs::File;
use std::io::{BufReader, Seek, SeekFrom};

/// How many bytes are read at a time.
const PIECE: usize = 65_536;

pub fn reader_of<'a>(
    alloc: Global,
    file: &'a File,
) -> Result<TrailReader<BufReader<&'a File>>, ProgramFault> {
    match BufReader::with_capacity(alloc, PIECE, file) {
        Ok(reader) => Ok(TrailReader::new(alloc, reader)),
        Err(error) => Err(ProgramFault::of_file(&error)),
    }
}

/// How long the file is without so many bytes at its end, where it was read up to there.
pub fn whole_length(mut file: &File, rest: usize) -> Result<u64, ProgramFault> {
    let end = match file.seek(SeekFrom::Current(0)) {
        Ok(end) => end,
        Err(error) => return Err(ProgramFault::of_file(&error)),
    };
    match end.checked_sub(rest as u64) {
        Some(whole) => Ok(whole),
        None => Err(HistoryFault::Read.into()),
    }
}
