//! The command that answers a stream of messages over a database.
#![tactic(auto)]

mod answering;
mod command;
mod laws;
mod messages;
mod reading;
mod stream;

pub use command::{database_named, wire};
pub use laws::{one_list_of_answers, packed_lines_are_answered_alike};
