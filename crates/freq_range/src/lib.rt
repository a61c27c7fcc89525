//! Regulatory rules: a range of frequencies, a width, a power, flags and WMM; and the channel table.
#![tactic(auto)]

mod channel;
mod flags;
mod list;
mod listing;
mod power;
mod range;
mod rule;
mod wmm;

pub use channel::{Band, channel_khz, khz_channel};
pub use flags::RuleFlags;
pub use list::{RuleList, contains_rule};
pub use listing::all_channels;
pub use power::mw_to_mbm;
pub use range::Range;
pub use rule::Rule;
pub use wmm::{Wmm, WmmEntry};
