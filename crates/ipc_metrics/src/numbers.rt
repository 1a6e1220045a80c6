//! What a page shows.

/// The verdicts: that an event is accepted, and one for each rule.
pub const VERDICTS: usize = 34;

/// What a page shows.
#[derive(Clone, Copy)]
pub struct Numbers {
    /// The sessions that live.
    pub sessions: u64,
    /// The connections that are open.
    pub connections: u64,
    pub queues: u64,
    pub semaphores: u64,
    /// The messages that stand in queues.
    pub messages: u64,
    /// Their bytes.
    pub message_bytes: u64,
    /// The bytes that queues take of their creators' limits.
    pub charged_bytes: u64,
    /// The records that were ever made, those that are kept, and the bytes of these.
    pub recorded: u64,
    pub kept: u64,
    pub kept_bytes: u64,
    /// The events by their verdicts: those that were accepted, and behind them those that each rule refused, at its number.
    pub verdicts: [u64; VERDICTS],
    /// The rounds of the server's loop.
    pub rounds: u64,
    /// The processor's time, in hundredths of a second.
    pub processor_ticks: u64,
    /// The bytes of memory that are resident.
    pub resident: u64,
}
