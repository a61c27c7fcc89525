//! Tests of the conversions of databases, over their library.
#![tactic(auto)]

#[cfg(test)]
mod calls;
#[cfg(test)]
mod compiled;
#[cfg(test)]
mod databases;
#[cfg(test)]
mod lint_notes;
#[cfg(test)]
mod rule_texts;
#[cfg(test)]
mod samples;
#[cfg(test)]
mod statuses;
#[cfg(test)]
mod streams;
#[cfg(test)]
mod text_faults;
#[cfg(test)]
mod words;
