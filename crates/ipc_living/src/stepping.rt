//! A trail that is stepped, with notes of who sends.

ghost use Rattle.std.specs.Prelude.{◌≡◌, OnOk};
ghost use Rattle.ipc_living.specs.Living.{AreSenders};

use crate::senders::Senders;
use ipc_history::{HistoryFault, Past, TrailReader};
use std::alloc::Global;
use std::io::Read;

/// Steps the records that come, up to the place `end`, and notes who sends. At an `Err` the notes may tell of a send that wasn't
/// stepped.
pub fn step_noting<R: Read + Drop>(
    alloc: Global,
    past: &mut Past,
    senders: &mut Senders,
    reader: &mut TrailReader<R>,
    end: u64,
) -> Result<(), HistoryFault>
    requires { AreSenders senders.old past.old.history }
    ensures config { past.new.config ≡ past.old.config }
    ensures retelling { past.new.retelling ≡ past.old.retelling }
    ensures senders { OnOk result (AreSenders senders.new past.new.history) }
{
    for _ in past.place()..end {
        let Some(next) = reader.next_record(alloc, past.place())? else {
            return Ok(());
        };
        senders.note(past.state(), &next.event)?;
        past.step(alloc, next)?;
    }
    Ok(())
}
