//! What an audit shows of a record.

ghost use Rattle.std.specs.Prelude.{◌≡◌, [], take, unwrap_or, IfOk};
ghost use Rattle.ipc_terms.specs.Lines.{event_name, line_of, rule_number};

use ipc_terms::{Bytes, Event, Line, Name, NoMemory, Record, Rule};
use std::alloc::Global;

/// The most bytes of a name that a line shows.
const LONGEST_NAME: usize = 256;

/// What an audit shows of the record at a place.
pub(crate) fn line_of(alloc: Global, place: u64, shown: &Record) -> Result<Line, NoMemory>
    ensures { IfOk result (λ line. line ≡ line_of place shown.now) }
{
    Ok(Line {
        place,
        sid: shown.event.caller(),
        op: shown.event.op(),
        rule: rule_number(shown.rule),
        name: name_shown(alloc, &shown.event)?,
    })
}

/// The number of the rule, or 0.
fn rule_number(rule: Option<Rule>) -> u16
    ensures { result ≡ rule_number rule }
{
    match rule {
        Some(rule) => rule.number(),
        None => 0,
    }
}

/// The first 256 bytes of the name that the event names; no bytes where it names nothing.
fn name_shown(alloc: Global, event: &Event) -> Result<Name, NoMemory>
    ensures { IfOk result (λ name. name ≡ take 256 (unwrap_or (event_name event.now) [])) }
{
    let bytes = match event.name() {
        Some(name) => name.as_slice(),
        None => &[],
    };
    let (shown, _rest) = bytes.split_at(bytes.len().min(LONGEST_NAME));
    Ok(Name::new(Bytes::from_slice(alloc, shown)?))
}
