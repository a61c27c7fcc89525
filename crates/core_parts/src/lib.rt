//! The parts of which the core is made: radios, interfaces and the tables of domains as the core keeps
//! them, and what they say of a channel. Each is pure: drivers and requests are the core's.
#![tactic(auto)]

mod book_call;
mod chan_set;
mod change;
mod contexts;
mod domains;
mod hinting;
mod interface;
mod interface_map;
mod leaving;
mod lookup;
mod permitting;
mod radar;
mod radio;
mod radios;
mod regions;
mod tables;

pub use book_call::BookCall;
pub use chan_set::ChanSet;
pub use change::{Change, Changes, add_change, effects_of, no_changes};
pub use contexts::{channel_of, checked_channel};
pub use domains::{CustomRules, Domains};
pub use hinting::{moved_by, new_tables, retune_all};
pub use interface::{Interface, Running, count_on, free_slot_on, interface_named};
pub use interface_map::InterfaceMap;
pub use lookup::with_radio;
pub use permitting::{check_permit, judge, judge_check, permit, refusal_of};
pub use radar::Demand;
pub use radio::{Radio, RadioPlace};
pub use radios::{advance_all, note_at, radio_at};
pub use regions::{checks_last, is_moved, region_of};
pub use tables::{custom_of, driver_of, global_table, initial_table, radio_table};
