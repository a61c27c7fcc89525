//! Reads the bytes of a `regulatory.db`.
#![tactic(auto)]

mod collection;
mod entries;
mod fault;
mod header;
mod laws;
mod numbers;
mod reader;
mod rule_record;
mod wmm_record;

pub use fault::ReadFault;
pub use laws::one_answer;
pub use reader::read_db;
pub use rule_tables::DbFault;
