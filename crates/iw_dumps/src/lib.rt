//! The texts of dumps: what is shown of rules, channels, radios and interfaces.
#![tactic(auto)]

mod channels;
mod interfaces;
mod laws;
mod pieces;
mod radios;
mod sections;
mod words;

pub use channels::channels_text;
pub use interfaces::iface_report_text;
pub use laws::numbers_are_of_the_table;
pub use pieces::{put_code, put_mhz, put_number, put_radio};
pub use radios::radio_report_text;
pub use sections::sections_text;
pub use words::{bands_text, kind_text};
