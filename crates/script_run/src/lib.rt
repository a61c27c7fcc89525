//! The command that answers a script over a database.
#![tactic(auto)]

mod answering;
mod command;
mod laws;
mod reading;

pub use command::{database_named, read_database, run};
pub use laws::starts_where_granted;
