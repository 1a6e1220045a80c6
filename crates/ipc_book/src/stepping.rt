//! One event of a seat, over the fields of a book and of the seat.

ghost use Rattle.std.specs.Prelude.{◌≡◌, ◌+◌, ◌≢◌, None, Some, OnOk, OnErr, IfOk, IfErr, IfSome};
ghost use Rattle.ipc_policy.specs.Decides.Verdict.{verdict, answers};
ghost use Rattle.ipc_core.specs.Outboxes.{session_at};
ghost use Rattle.ipc_book.specs.Seats.{IsCurrent, Stepped, StaleExactly, last_receipt, receipt_at, without_event};

use crate::entry::{Entry, StepFault, Unstepped};
use crate::seat::Receipts;
use ipc_core::{Core, Posted};
use ipc_terms::{Event, NoMemory};
use ipc_trail::Receipt;
use std::alloc::Global;
use std::sync::ledger::{Book as Total, Ledger};

/// The last receipt, if the trail has it not at its place, and what was found there.
pub(crate) fn stale<L: Ledger>(
    core: &Core,
    receipts: &Receipts<L>,
) -> Option<(Receipt, Option<Receipt>)>
    requires { core.now.first ≡ 0 }
    ensures none { result ≡ None → IsCurrent core.now.history receipts.now.list }
    ensures some { IfSome result (λ p. (last_receipt receipts.now.list ≡ Some p.0) × (receipt_at core.now.history p.0.place ≡ p.1) × (p.1 ≢ Some p.0)) }
{
    let seen = receipts.entries.last()?.receipt;
    let found = core.trail().receipt(seen.place as usize);
    if found == Some(seen) {
        None
    } else {
        Some((seen, found))
    }
}

/// The copy that was made before, or else a new one.
fn own_copy(event: &Event, copy: Option<Event>) -> Result<Event, NoMemory>
    requires { IfSome copy (λ same. same ≡ event.now) }
    ensures { IfOk result (λ same. same ≡ event.now) }
{
    match copy {
        Some(copy) => Ok(copy),
        None => event.copy(),
    }
}

/// Steps an event, of which there may be a copy already; an `Err` gives the event back. The seat's copy
/// and its place in the seat are there before the core steps, so nothing can fail after it.
pub(crate) fn enter<L: Ledger>(
    core: &mut Core,
    total: &mut Total<L>,
    receipts: &mut Receipts<L>,
    alloc: Global,
    event: Event,
    copy: Option<Event>,
) -> Result<(Receipt, Posted), Unstepped>
    requires same { IfSome copy (λ same. same ≡ event) }
    requires whole { core.old.first ≡ 0 }
    ensures whole { core.new.first ≡ 0 }
    ensures ok { IfOk result (λ p. Stepped core.old core.new receipts.old.list receipts.new.list event p.0) }
    ensures verdict { IfOk result (λ p. p.1.verdict ≡ verdict core.old.config core.old.history event) }
    ensures caller { IfOk result (λ p. p.1.caller ≡ session_at 0 (answers core.old.config core.old.history event)) }
    ensures other { IfOk result (λ p. p.1.other ≡ session_at 1 (answers core.old.config core.old.history event)) }
    ensures stale { StaleExactly core.old receipts.old.list (without_event result) }
    ensures total { OnOk result (total.new.total ≡ total.old.total + 1) }
    ensures err { OnErr result ((core.new ≡ core.old) × (total.new.total ≡ total.old.total) × (receipts.new ≡ receipts.old)) }
    ensures back { IfErr result (λ unstepped. unstepped.event ≡ event) }
{
    core.is_legal();
    if let Some((seen, found)) = stale(core, receipts) {
        let fault = StepFault::Stale { seen, found };
        return Err(Unstepped { fault, event });
    }
    let fault = StepFault::NoMemory;
    let Ok(copy) = own_copy(&event, copy) else {
        return Err(Unstepped { fault, event });
    };
    if receipts.entries.reserve(1).is_err() {
        return Err(Unstepped { fault, event });
    }
    let place = core.trail().len();
    let Ok(posted) = core.post(alloc, event) else {
        return Err(Unstepped { fault, event: copy });
    };
    let Some(receipt) = core.trail().receipt(place) else {
        unreachable!();
    };
    receipts.entries.push_reserved(Entry {
        receipt,
        event: copy,
    });
    total.add(&mut receipts.share, 1);
    Ok((receipt, posted))
}
