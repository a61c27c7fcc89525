//! Tests of published tables through their public calls: on one thread, and with readers beside a writer.
#![tactic(auto)]

#[cfg(test)]
mod alone;
#[cfg(test)]
mod beside;
#[cfg(test)]
mod score;
