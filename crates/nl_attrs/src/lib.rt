//! Netlink messages after nl80211, as values and as bytes.
#![tactic(auto)]

mod attr;
mod attr_reader;
mod attr_writer;
mod decoder;
mod fault;
mod laws;
mod lists;
mod message;
mod message_head;
mod message_reader;
mod message_writer;
mod nested;
mod numbers;
mod payloads;
mod walk;

pub use attr::{Attr, AttrRef};
pub use attr_reader::attrs_of;
pub use attr_writer::{attrs_bytes, put_attr, put_attrs, put_plain};
pub use decoder::Decoder;
pub use fault::{AttrFault, AttrsFault, Breach, EncodeFault, NextFault};
pub use laws::{one_spelling, one_stream, one_verdict, reads_back, spelling_lengths};
pub use lists::{AttrList, MsgList};
pub use message::Msg;
pub use message_head::{head_in, head_of};
pub use message_writer::{encode, put_message};
pub use nested::{Nested, begin_nested, end_nested};
pub use payloads::{Payload, i32_of, put_payload, text_of, u8_of, u16_of, u32_of, u64_of};
pub use walk::Walk;
