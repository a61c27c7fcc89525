//! Tests of requests and replies as messages, over their library.
#![tactic(auto)]

#[cfg(test)]
mod answers;
#[cfg(test)]
mod hex;
#[cfg(test)]
mod replies;
#[cfg(test)]
mod requests;
