//! Reads a whole rule text (`db.txt` of wireless-regdb) into a database.
#![tactic(auto)]

mod assemble;
mod countries;
mod fault;
mod late;
mod laws;
mod map_values;
mod parser;
mod text;
mod wmm_rules;

pub use fault::{ParseFault, TextFault};
pub use laws::one_answer;
pub use text::parse;
