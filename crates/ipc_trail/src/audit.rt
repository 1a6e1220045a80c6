//! What the audit shows of a record.

ghost use Rattle.std.specs.Prelude.{◌≡◌, ◌+◌, ◌^◌, ◌<◌, ◌≤◌, [], take, drop, length, unwrap_or, IfOk};
ghost use Rattle.std.specs.VecDeque.{deque_len};
ghost use Rattle.ipc_terms.specs.Lines.{line_of, event_name, rule_number};
ghost use Rattle.ipc_trail.specs.Receipts.{receipt_of, lines_from};

use ipc_terms::{Bytes, Event, Line, Name, NoMemory, Record, Rule, Sid};
use std::alloc::Global;
use std::collections::VecDeque;

/// The most bytes of a name that a line shows.
const LONGEST_NAME: usize = 256;

/// What the audit says of the record at a place, but for its name.
#[derive(Clone, Copy, PartialEq, Eq)]
pub struct Receipt {
    /// How many records came before it.
    pub place: u64,
    /// The session that the event names; a hello names nobody.
    pub sid: Sid,
    /// The number of the call, as its frames carry it; 1 for a hello and 25 for a hang-up.
    pub op: u8,
    /// The number of the rule that refused it, or 0.
    pub rule: u16,
}

pub(crate) fn receipt_of(place: u64, record: &Record) -> Receipt
    ensures { result ≡ receipt_of (line_of place record.now) }
{
    Receipt {
        place,
        sid: record.event.caller(),
        op: record.event.op(),
        rule: rule_number(record.rule),
    }
}

/// The number of the rule, or 0.
fn rule_number(rule: Option<Rule>) -> u16
    ensures { result ≡ rule_number rule }
{
    match rule {
        Some(rule) => rule.number(),
        None => 0,
    }
}

/// The lines of so many of these records from the one at `skipped` on, which stands at the place `first`.
pub(crate) fn lines_from(
    alloc: Global,
    first: u64,
    records: &VecDeque<Record>,
    skipped: usize,
    count: usize,
) -> Result<Vec<Line>, NoMemory>
    requires fits { first + count < 2 ^ 64 }
    requires there { skipped + count ≤ length records.now.items }
    requires len { deque_len records.now ≡ length records.now.items }
    ensures { IfOk result (λ lines. lines.items ≡ lines_from first (take count (drop skipped records.now.items))) }
{
    let mut lines = Vec::with_capacity(alloc, count)?;
    for index in 0..count {
        let Some(record) = records.get(skipped + index) else {
            unreachable!();
        };
        lines.push(line_of(alloc, first + index as u64, record)?)?;
    }
    Ok(lines)
}

fn line_of(alloc: Global, place: u64, record: &Record) -> Result<Line, NoMemory>
    ensures { IfOk result (λ line. line ≡ line_of place record.now) }
{
    Ok(Line {
        place,
        sid: record.event.caller(),
        op: record.event.op(),
        rule: rule_number(record.rule),
        name: name_shown(alloc, &record.event)?,
    })
}

/// The first 256 bytes of the name that the event names; no bytes where it names nothing.
fn name_shown(alloc: Global, event: &Event) -> Result<Name, NoMemory>
    ensures { IfOk result (λ name. name ≡ take 256 (unwrap_or (event_name event.now) [])) }
{
    let bytes = match event.name() {
        Some(name) => name.as_slice(),
        None => &[],
    };
    let (shown, _rest) = bytes.split_at(bytes.len().min(LONGEST_NAME));
    Ok(Name::new(Bytes::from_slice(alloc, shown)?))
}
