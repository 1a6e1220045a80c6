//! A trail that is compared with the one that it retells.

ghost use Rattle.ipc_living.specs.Living.{AreSenders};

use crate::reading::reader_of;
use crate::retelling::{step_old, tell};
use crate::stepped::{SteppedTrail, open};
use ipc_history::{HistoryFault, Past};
use ipc_living::{CompactFault, Living, Senders, step_noting};
use ipc_log::Retelling;
use ipc_policy::Config;
use ipc_program::{ProgramFault, Retold};
use ipc_script::ScriptFault;
use std::fs::File;
use std::rt::Files;

/// Compares a trail with the old one that it retells, perhaps under another configuration: its head names the old one, both are
/// legal, and the same lives after its retold records as at the old one's end once everybody has hung up. Prints how long both are.
pub fn compare_trails<R: AllocGlobal + Files<File = File> + Print>(
    rt: &R,
    retold: &Retold,
) -> Result<(), ProgramFault> {
    let (old, config, _first) = step_old(rt, retold)?;
    let (records, is_torn) = (old.past.place(), old.is_torn);
    let told = compare(rt, config, old, retold.new.as_str())?;
    tell(rt, records, is_torn, told)
}

/// Compares the trail of this file with the old one. How many records retell it.
fn compare<R: AllocGlobal + Files<File = File>>(
    rt: &R,
    config: Config,
    old: SteppedTrail,
    path: &str,
) -> Result<u64, ProgramFault>
    requires { AreSenders old.senders old.past.history }
{
    let alloc = rt.alloc();
    let Config { users, limits } = config;
    let file = open(rt, path)?;
    let mut reader = reader_of(alloc, &file)?;
    let head = reader.next_head(alloc)?;
    let Retelling {
        generation,
        records,
        old_records,
        old_digest,
    } = head.retelling;
    if generation == 0 || old_records != old.past.place() || old_digest != old.digest {
        return Err(CompactFault::OtherFiles.into());
    }
    let mut past = Past::new(alloc, users, &head)?;
    if past.state().config().limits != limits {
        return Err(HistoryFault::OtherLimits.into());
    }
    let mut senders = Senders::new(alloc);
    step_noting(alloc, &mut past, &mut senders, &mut reader, records)?;
    if past.place() < records {
        return Err(ProgramFault::CutOff(past.place()));
    }
    let Ok(living) = Living::after(alloc, old.past, old.senders) else {
        return Err(ScriptFault::Memory.into());
    };
    if !living.is_same(&past, &senders) {
        return Err(CompactFault::Differs.into());
    }
    past.read_records(alloc, &mut reader)?;
    Ok(records)
}
