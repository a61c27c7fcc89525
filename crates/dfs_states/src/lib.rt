//! The book of a radio on checks (CAC, channel availability check) and radar: for each channel the end of
//! its nonoccupancy (NOP, non-occupancy period), the end of its latest standing check and its last use, for each slot the check
//! that runs and the operation of its interface, and no list of what happened.
#![tactic(auto)]

mod book;
mod check;
mod dfs;
mod laws;
mod moments;
mod operation;
mod place;
mod slot;
mod span;

pub use book::DfsBook;
pub use dfs::Dfs;
pub use laws::{answers_are_determined, blank_calls_are_alike};
pub use moments::{LAST_MOMENT_MS, NONOCCUPANCY_MS, UNUSED_CHECK_MS};
pub use slot::IfSlot;
