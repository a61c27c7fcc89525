//! Domains of rules, and databases of domains in ascending order of their codes.
#![tactic(auto)]

mod code;
mod database;
mod distinct_rules;
mod domain;
mod file_fault;
mod govern;
mod run_widths;
mod shared;
mod width;
mod world;

pub use code::{Alpha2, Region};
pub use database::{Db, DbInsertFault};
pub use distinct_rules::DistinctRules;
pub use domain::{Domain, DomainFault};
pub use file_fault::DbFault;
pub use govern::governing;
pub use run_widths::allowed_widths;
pub use width::{allowed_width, width_among};
