//! Channels of 20 to 320 MHz, the channels of 20 MHz that they cover, and kinds of interfaces.
#![tactic(auto)]

mod definition;
mod iw_word;
mod kind;
mod width;

pub use definition::{ChanDef, MOST_SUBCHANNELS, covers, subchannels};
pub use iw_word::from_iw_word;
pub use kind::{Kind, MOST_IFACES};
pub use width::Width;
