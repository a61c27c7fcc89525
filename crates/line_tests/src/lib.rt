//! Tests of lines of scripts, as read and as printed, and of the texts of replies, through the public calls of iw_commands.
#![tactic(auto)]

#[cfg(test)]
mod lines;
#[cfg(test)]
mod printed;
#[cfg(test)]
mod texts;
