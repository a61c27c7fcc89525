//! Lists that contracts see as lists: one that grows, and one of a fixed room that takes no memory.
#![tactic(auto)]

mod errors;
mod few;
mod seq;
mod shared;

pub use errors::OutOfMemory;
pub use few::Few;
pub use seq::Seq;
