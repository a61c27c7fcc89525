//! Tests of the notes on a database and of what two domains allow together.
#![tactic(auto)]

#[cfg(test)]
mod notes;
#[cfg(test)]
mod shared;
