//! The core: requests to simulated radios, answered by what was accepted before, of which it keeps the
//! parts that count and no list.
#![tactic(auto)]

mod checking;
mod clock;
mod commit;
mod core_state;
mod deciding;
mod declined;
mod driver_hints;
mod drivers;
mod dumps;
mod elements_heard;
mod forecast;
mod hint_outcomes;
mod hint_taking;
mod iface_adding;
mod iface_deleting;
mod indoors;
mod initial;
mod powering;
mod publishing;
mod radar_met;
mod radio_adding;
mod radio_deleting;
mod retyping;
mod rules_set;
mod starting;
mod step;
mod stopping;
mod sweep;

pub use core_state::Core;
pub use drivers::{DriverRow, Drivers};
pub use publishing::Shown;
pub use reg_books::{
    books_are_told_what_journals_say, books_of_added_radios_are_blank, indexes_name_interfaces,
    interfaces_have_their_slots, what_operates_is_on_air,
};
