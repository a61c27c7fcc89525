//! The forms of lines of scripts, in one table: which lines have a form, what they ask, and what is
//! wrong with those that have none.
#![tactic(auto)]

mod cut;
mod draft;
mod fault;
mod fitting;
mod form;
mod judged;
mod laws;
mod likely;
mod pieces;
mod profiles;
mod reader;
mod request;
mod rows_iw;
mod rows_operating;
mod rows_radio;
mod rules;
mod slot;
mod spelled;
mod step;
mod table;
mod walker;
mod words;

pub use draft::Draft;
pub use fault::{LineFault, ReadLineFault};
pub use form::{Extra, Form, Freq};
pub use judged::{Judged, judge};
pub use laws::one_meaning;
pub use pieces::number_within;
pub use reader::read;
pub use request::asked;
pub use rules::MOST_RULES;
pub use slot::{Slot, Word, text};
pub use spelled::read_line;
pub use table::{FORMS, slots};
pub use walker::{Blame, End, Stop, walk};
pub use words::Words;
