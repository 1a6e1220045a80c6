//! The words that every part of the server shares: who calls, what is asked, what is answered, and the rules.
#![tactic(auto)]

mod binding;
mod bytes;
mod call;
pub mod counts;
mod errors;
mod facts;
mod flags;
mod ids;
mod items;
mod limits;
mod line;
mod name;
mod object;
mod op;
mod page;
mod record;
mod rule;

pub use binding::Binding;
pub use bytes::Bytes;
pub use call::{Access, Answer, Attributes, Call, QueueOpen, SemaphoreOpen};
pub use errors::NoMemory;
pub use facts::Facts;
pub use flags::OpenFlags;
pub use ids::{Desc, Family, Gid, Mode, Sid, Target, Uid};
pub use items::Items;
pub use limits::{LIMIT_MAX, MQ_PRIO_MAX};
pub use line::{Line, Lines};
pub use name::{Name, Names};
pub use object::{Asked, Kind, Object, SEM_VALUE_MAX};
pub use op::{
    AnswerOp, CallOp, EVERY_ANSWER, EVERY_CALL, HANG_UP_NUMBER, HELLO_NUMBER, TICK_NUMBER,
};
pub use page::page_of;
pub use record::{Event, Record};
pub use rule::{EVERY_RULE, Rule};
