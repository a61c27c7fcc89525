//! The command that packs the requests of a script into messages.
#![tactic(auto)]

mod command;
mod laws;
mod packing;
mod requests;
mod typed;

pub use command::pack;
pub use laws::one_packing;
pub use typed::type_request;
