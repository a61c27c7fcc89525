//! Requests and replies as messages of nl80211 and of a family of its own for simulated radios.
#![tactic(auto)]

pub mod attribute;
mod chan_reader;
mod codes;
mod command;
mod draft;
mod error_message;
mod family;
mod fault;
mod field;
mod field_reader;
mod field_writer;
mod laws;
mod limits;
mod profile_reader;
mod request_reader;
mod request_writer;
mod rule_reader;
mod rule_writer;
mod values;

pub use codes::{code, errno};
pub use command::Command;
pub use error_message::{msg_of_errno, seq_and_pid};
pub use family::Family;
pub use fault::RequestFault;
pub use field::Field;
pub use field_writer::{
    iftype_number, push_chan, push_number, push_plain, push_power, push_profile, push_text,
};
pub use laws::one_request;
pub use limits::Limits;
pub use request_reader::request_of;
pub use request_writer::msg_of_request;
pub use rule_reader::flag_bits;
pub use rule_writer::put_limits;
