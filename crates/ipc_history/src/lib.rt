//! A trail that is read from a file, or from several that follow one another, and stepped again: whether each record's rule
//! is the policy's verdict, what the records count up to, and where they end. Memory doesn't grow with the file.
#![tactic(auto)]

mod counts;
mod fault;
mod lines;
mod past;
mod replaying;
mod shown;
mod trail_reader;
mod user_sums;

pub use counts::Counts;
pub use fault::HistoryFault;
pub use past::Past;
pub use replaying::{replay, replay_next};
pub use shown::{text_of, text_of_page, texts_of_answers};
pub use trail_reader::TrailReader;
pub use user_sums::users_sum;
