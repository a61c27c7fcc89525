//! Lays out a database as the bytes of a `regulatory.db`.
#![tactic(auto)]

mod fault;
mod gather;
mod laws;
mod pieces;
mod plan;
mod records;
mod section;
mod writer;

pub use fault::WriteFault;
pub use laws::{file_says_its_database, one_file};
pub use writer::layout;
