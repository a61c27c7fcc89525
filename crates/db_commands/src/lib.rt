//! The conversions of databases, and what a call of the program ends with.
#![tactic(auto)]

mod common_report;
mod conversion;
mod count_report;
mod line;
mod lint_report;
mod pieces;
mod status;
mod stream_faults;
mod streams;
mod words;

pub use conversion::{Conversion, Refusal};
pub use status::{InputFault, Status, status_text};
pub use streams::convert;
pub use words::are_only;
