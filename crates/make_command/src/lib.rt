//! The command that asks a core as many made requests as are wanted, and sums the replies up.
#![tactic(auto)]

mod answering;
mod command;
mod counts;
mod number;

pub use command::make;
pub use number::number_named;
