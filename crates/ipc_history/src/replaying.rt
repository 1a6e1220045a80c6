//! Whole files, one after another.

ghost use Rattle.std.specs.Prelude.{IfErr, IfOk, OnOk};
ghost use Rattle.std.specs.Io.KnownBytes.{IsAtEnd};
ghost use Rattle.ipc_history.specs.Incoming.{IsBounded, Reads, incoming, unread, waiting};
ghost use Rattle.ipc_history.specs.Replays.{IsFile, IsFileFault, IsNextFile, IsNextFileFault};

use crate::fault::HistoryFault;
use crate::past::Past;
use crate::trail_reader::TrailReader;
use ipc_access::Users;
use std::alloc::Global;
use std::io::Read;

/// Replays a first file, with a trail from place 0 on, by these users: what happened by its records, each of whose rules was the
/// verdict on its event. A last record that is cut off is none; `TrailReader::is_torn` then says that one was. An `Err` drops
/// the users.
pub fn replay<R: Read + Drop>(
    alloc: Global,
    users: Users,
    reader: &mut TrailReader<R>,
) -> Result<Past, HistoryFault>
    ensures ok { IfOk result (λ past. Reads (IsFile users past) (incoming R.remaining reader.old) (incoming R.remaining reader.new)) }
    ensures end { OnOk result (IsAtEnd (unread R.remaining reader.new)) }
    ensures bounded { IsBounded (waiting reader.old) → IsBounded (waiting reader.new) }
    ensures fault { IfErr result (λ fault. Reads (IsFileFault users fault) (incoming R.remaining reader.old) (incoming R.remaining reader.new)) }
{
    let head = reader.next_head(alloc)?;
    let mut past = Past::new(alloc, users, &head)?;
    past.read_records(alloc, reader)?;
    Ok(past)
}

/// Replays a file that goes on where the past ends. What was stepped before a fault stays.
pub fn replay_next<R: Read + Drop>(
    alloc: Global,
    past: &mut Past,
    reader: &mut TrailReader<R>,
) -> Result<(), HistoryFault>
    ensures ok { OnOk result (Reads (IsNextFile past.old past.new) (incoming R.remaining reader.old) (incoming R.remaining reader.new)) }
    ensures end { OnOk result (IsAtEnd (unread R.remaining reader.new)) }
    ensures bounded { IsBounded (waiting reader.old) → IsBounded (waiting reader.new) }
    ensures fault { IfErr result (λ fault. Reads (IsNextFileFault past.old past.new fault) (incoming R.remaining reader.old) (incoming R.remaining reader.new)) }
{
    let head = reader.next_head(alloc)?;
    past.goes_on(&head)?;
    past.read_records(alloc, reader)?;
    Ok(())
}
