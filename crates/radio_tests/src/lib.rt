//! Tests of what stands under a radio: tables of rules, hints, channels, the book of checks and radar,
//! and drivers, through their public calls.
#![tactic(auto)]

#[cfg(test)]
mod books;
#[cfg(test)]
mod channels;
#[cfg(test)]
mod domains;
#[cfg(test)]
mod drivers;
#[cfg(test)]
mod hints;
#[cfg(test)]
mod tables;
