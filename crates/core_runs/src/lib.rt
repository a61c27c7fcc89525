//! How a core and the drivers of its radios go on from request to request.
#![tactic(auto)]

mod driver_row;
mod laws;

pub use driver_row::add_driver;
pub use laws::one_course;
