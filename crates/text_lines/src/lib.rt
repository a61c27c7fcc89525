//! Reads one line of a rule text (`db.txt` of wireless-regdb): what it says, or what is wrong with its
//! form.
#![tactic(auto)]

mod band_reader;
mod country_header;
mod fault;
mod form;
mod known_powers;
mod laws;
mod lines;
mod numbers;
mod opening;
mod power_reader;
mod rule_line;
mod rule_reader;
mod rule_words;
mod scanner;
mod wmm_reader;

pub use country_header::header_of;
pub use fault::{LineStop, RuleTextFault, TextKind};
pub use form::{Flag, Item, Opening};
pub use known_powers::KnownPowers;
pub use laws::one_rule;
pub use lines::{cut_line, readable, squeeze};
pub use opening::opening_of;
pub use rule_line::parse_rule;
pub use rule_reader::rule_of;
pub use wmm_reader::{entry_of, item_name, wmm_name_of};
