//! Replies as messages.
#![tactic(auto)]

mod answer;
mod attribute;
mod channels;
mod dump;
mod effect;
mod interfaces;
mod nested;
mod plain;
mod radios;
mod reply;
mod sections;

pub use plain::msgs_of_plain;
pub use reply::msgs_of_reply;
