//! The message in the record of a send.

ghost use Rattle.std.specs.Prelude.{◌≡◌, Some, IsSome};
ghost use Rattle.std.specs.Option.{option_map};
ghost use Rattle.ipc_terms.specs.History.{message_of};

use ipc_terms::{Bytes, Call, Event};

/// The bytes of the message that the event sends.
pub(crate) fn bytes_of(event: &Event) -> &Bytes
    requires { IsSome (message_of event.now) }
    ensures { option_map (λ m. m.bytes) (message_of event.now) ≡ Some result.now }
{
    match event {
        Event::Do {
            call: Call::MqSend { bytes, .. } | Call::MqTimedSend { bytes, .. },
            ..
        } => bytes,
        _ => unreachable!(),
    }
}

/// The priority of the message that the event sends.
pub(crate) fn priority_of(event: &Event) -> u32
    requires { IsSome (message_of event.now) }
    ensures { option_map (λ m. m.priority) (message_of event.now) ≡ Some result }
{
    match event {
        Event::Do {
            call: Call::MqSend { priority, .. } | Call::MqTimedSend { priority, .. },
            ..
        } => *priority,
        _ => unreachable!(),
    }
}
