//! How much memory records take.

ghost use Rattle.std.specs.Prelude.{◌≡◌};
ghost use Rattle.ipc_trail.specs.Sizes.{event_bytes};

use ipc_terms::{Call, Event};

/// About how many bytes a record takes without its message and name: with its share of the list that it stands in.
const RECORD: u64 = 128;

/// About how many bytes the record of the event takes, with the message that it sends, if it sends one, and with the name that it
/// names, if it names one.
#[inline(always)]
pub(crate) fn event_bytes(event: &Event) -> u64
    ensures { result ≡ event_bytes event.now }
{
    let carried = match event {
        Event::Do {
            call: Call::MqSend { bytes, .. } | Call::MqTimedSend { bytes, .. },
            ..
        } => bytes.as_slice().len(),
        _ => match event.name() {
            Some(name) => name.as_slice().len(),
            None => 0,
        },
    };
    carried as u64 + RECORD
}
