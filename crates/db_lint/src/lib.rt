//! What stands out in a database of rules: rules that govern no channel, and what two domains allow
//! together.
#![tactic(auto)]

mod entry;
mod joint;
mod least;
mod notes;
mod rule_at;

pub use entry::{Common, CommonList};
pub use joint::common;
pub use notes::{NoteList, RuleNote, lint, lint_domain};
