//! Tests of netlink messages, over their library.
#![tactic(auto)]

#[cfg(test)]
mod attributes;
#[cfg(test)]
mod heads;
#[cfg(test)]
mod streams;
