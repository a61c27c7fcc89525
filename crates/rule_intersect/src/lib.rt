//! The rows that several domains allow together, and the tables that hold them.
#![tactic(auto)]

mod fault;
mod joining;
mod laws;
mod row;
mod table;

pub use fault::ResolveFault;
pub use laws::{first_row_is_that_of_all_domains, one_table};
pub use row::{LEAST_CHECK_MS, Row};
pub use table::{MOST_DOMAINS, MOST_ROWS, Table};
