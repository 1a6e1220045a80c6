//! Streams whose answers by a hub are known.
//!
//! `NAME.in` has a stream as hexadecimal digits. It comes in one piece, in two pieces cut at every byte, byte by byte,
//! and byte by byte in turn with another connection's stream, `beside.in`. Each time `NAME.out` has what a hub
//! answers, and in the last case `NAME.beside` what the other connection takes. `NAME.calls` has calls on several
//! connections, and `NAME.out` what each answers.

mod answers;
mod calls;
pub mod common;
mod feeds;
mod stream;

use anyhow::Result;

/// The streams, in the order in which they are fed.
pub const STREAMS: [&str; 18] = [
    "open_that_creates",
    "send_and_receive",
    "interrupt_of_nothing",
    "timed_wait_by_no_description",
    "timed_wait_ends_at_its_deadline",
    "description_given_to_its_holder",
    "unknown_key",
    "body_of_no_bytes",
    "body_too_long",
    "unknown_opcode",
    "fields_cut_off",
    "byte_behind_the_fields",
    "call_before_the_hello",
    "second_hello",
    "calls_before_a_fault",
    "calls_behind_a_refused_hello",
    "nothing",
    "part_of_a_frame",
];

/// The calls on several connections.
const CALLS: [&str; 7] = [
    "receive_served_by_another_connection",
    "answered_connections_are_named",
    "timed_receive_ends_at_its_deadline",
    "frame_cut_off_by_the_hang_up",
    "trail_of_each_end",
    "numbers_not_given",
    "nothing_is_kept_of_who_is_gone",
];

/// Prints for each stream, and for each row of calls, whether it is answered as it must be.
pub fn run(rt: &HostRuntime) -> Result<()> {
    for name in &STREAMS {
        let verdict = stream::judge(rt, format!(in rt.alloc(); "streams/{name}")?.as_str())?;
        println!(rt; "{name}: {verdict}")?;
    }
    for name in &CALLS {
        let verdict = calls::judge(rt, format!(in rt.alloc(); "streams/{name}")?.as_str())?;
        println!(rt; "{name}: {verdict}")?;
    }
    Ok(())
}
