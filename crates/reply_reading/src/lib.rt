//! Reads replies back from their messages.
//!
//! A candidate is read by the places of attributes alone: what can't be read counts as 0. Then the messages of the
//! candidate are written and compared with those that were given, which judges all else.
#![tactic(auto)]

mod answers;
mod candidate;
mod channels;
mod compare;
mod effects;
mod fault;
mod interfaces;
mod laws;
mod narrow;
mod payloads;
mod radios;
mod reading;
mod refusals;
mod request_head;
mod sections;
mod told;
mod values;

pub use fault::ReplyFault;
pub use laws::replies_read_back;
pub use reading::reply_of;
