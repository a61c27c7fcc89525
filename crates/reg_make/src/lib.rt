//! Makes requests by which a core of radios is tried: eight radios with two interfaces each, and
//! then as many drawn requests as are wanted. The database that they run over is made too.
#![tactic(auto)]

mod database;
mod draws;
mod generator;
mod parts;
mod radios;
mod turn;

pub use database::made_database;
pub use generator::Generator;
