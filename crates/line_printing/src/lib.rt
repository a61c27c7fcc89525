//! Prints requests as lines of scripts, by the table of forms.
#![tactic(auto)]

mod digits;
mod form_choice;
mod laws;
mod line_printer;
mod rules_printer;
mod slot_printer;
mod told;
mod typed;

pub use laws::printed_lines_read_back;
pub use line_printer::line_of;
