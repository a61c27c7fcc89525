//! Tests of scripts that are packed into messages, and of messages that are answered, over their libraries.
#![tactic(auto)]

#[cfg(test)]
mod calls;
#[cfg(test)]
mod commands;
#[cfg(test)]
mod errnos;
#[cfg(test)]
mod packs;
#[cfg(test)]
mod streams;
