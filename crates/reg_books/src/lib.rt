//! What the core keeps beside its lists, over journals alone: the calls of the radios' books, the slots
//! of interfaces, what the drivers have on air, and the laws that tie them to the journal.
#![tactic(auto)]

mod laws;

pub use laws::{
    books_are_told_what_journals_say, books_of_added_radios_are_blank, indexes_name_interfaces,
    interfaces_have_their_slots, what_operates_is_on_air,
};
