//! The policy: what a history of records means, and which rules forbid an event after it. All of it
//! stands in `specs/`; the laws hold of every history, some of every legal one.
#![tactic(auto)]

mod asking;
mod config;
mod laws;
mod messages;

pub use asking::{
    Described, Naming, Opening, description_of, kind_of, naming_of, opening_of, unlinking_of,
};
pub use config::{
    Config, DESCRIPTIONS_MAX, HARD_MSG_MAX, HARD_MSGSIZE_MAX, HARD_QUEUES_MAX, Held, Limits,
    Registration,
};
pub use ipc_terms::{Kind, Object};
pub use laws::{
    answered, bound, bounded, counted, grow, holders, in_order, in_range, inside_by_place, known,
    least, listed, parked_alive, parked_by_place, parked_listed, quiet, rights, sized, ticks,
    timed, within_limit,
};
pub use messages::{confined, once};
