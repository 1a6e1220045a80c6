//! What a chmod and a chown change.

ghost use Rattle.std.specs.Prelude.{◌≡◌, Some, None};
ghost use Rattle.ipc_terms.specs.declared.record.Event.TheVariants.{Do};
ghost use Rattle.ipc_policy.specs.Decides.History.{after_accepted};
ghost use Rattle.ipc_policy.specs.Decides.Verdict.{verdict};
ghost use Rattle.ipc_state.specs.Agrees.{Agrees, IsCore};
ghost use Rattle.ipc_state.specs.Meetings.{by_name, object_bound};
ghost use Rattle.ipc_state.specs.Changes.{changing, bits_of, changed_by};

use crate::rows::facts_in;
use ipc_policy::Config;
use ipc_tables::{Owned, Tables};
use ipc_terms::{Call, Facts, Mode, Sid, Target};
use ipc_trail::Trail;

/// Brings the tables up to date with a chmod or a chown of the target.
pub fn accept_change(
    tables: &mut Tables,
    config: &Config,
    past: &Trail,
    sid: Sid,
    call: &Call,
    target: &Target,
    bound: Option<u64>,
)
    requires changes { changing call.now ≡ Some target.now }
    requires core { IsCore config.now past.now.history tables.old }
    requires accepted { verdict config.now past.now.history (Do sid call.now) ≡ None }
    requires bound { bound ≡ by_name (object_bound past.now.history) (Do sid call.now) }
    ensures { Agrees config.now (after_accepted past.now.history (Do sid call.now)) tables.new }
{
    match target {
        Target::Dir(family) => {
            let was = tables.names(*family).facts();
            tables.set_facts(Owned::Directory(*family), changed(call, was));
        }
        Target::Name(..) => {
            let Some(object) = bound else {
                unreachable!();
            };
            let Some(was) = facts_in(tables.object(object)) else {
                unreachable!();
            };
            tables.set_facts(Owned::Object(object), changed(call, was));
        }
    }
}

/// What the call makes of the owner, group and mode of what it means.
fn changed(call: &Call, was: Facts) -> Facts
    ensures { result ≡ changed_by call.now was }
{
    match call {
        Call::Chmod { mode, target } => Facts {
            owner: was.owner,
            group: was.group,
            mode: bits_of(target, *mode),
        },
        Call::Chown { owner, group, .. } => Facts {
            owner: owner.unwrap_or(was.owner),
            group: group.unwrap_or(was.group),
            mode: was.mode,
        },
        _ => was,
    }
}

/// What the target takes of a mode: an object octal 0777, a directory octal 01777.
fn bits_of(target: &Target, mode: Mode) -> Mode
    ensures { result ≡ bits_of target.now mode }
{
    match target {
        Target::Dir(_) => Mode(mode.0 % 0o2000),
        Target::Name(..) => Mode(mode.0 % 0o1000),
    }
}
