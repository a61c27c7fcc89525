//! Drivers of radios, simulated ones among them, and what they are told: interfaces by index, what is on air,
//! checks.
#![tactic(auto)]

mod air_list;
mod driver;
mod failing;
mod iface;
mod laws;
mod name;
mod on_air;
mod sim;

pub use driver::{Driver, DriverFailed};
pub use failing::FailingDriver;
pub use iface::IfIndex;
pub use laws::each_interface_is_once_on_air;
pub use name::Name;
pub use on_air::{CheckTold, OnAir};
pub use sim::SimDriver;
