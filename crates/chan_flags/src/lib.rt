//! What the rules allow on each channel of a radio, and whether they allow a channel of 20 to 320 MHz.
#![tactic(auto)]

mod asked;
mod barred;
mod channels;
mod judge;
mod laws;
mod limits;
mod profile;
mod radio;
mod record;
mod verdict;

pub use laws::{allowed_where_it_fits, one_record, one_verdict, some_verdict};
pub use profile::{Bands, Profile};
pub use radio::RadioChans;
pub use record::{Chan, Fit};
pub use verdict::{ChanRefusal, PowerSetting, Verdict};
