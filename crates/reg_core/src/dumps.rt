//! What is shown: nothing changes.

mod channels;
mod reports;
mod sections;
mod steps;

pub(crate) use sections::all_sections;
