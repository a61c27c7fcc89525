//! Tests of rule texts and database files, over their libraries.
#![tactic(auto)]

#[cfg(test)]
mod read_files;
#[cfg(test)]
mod samples;
#[cfg(test)]
mod texts;
#[cfg(test)]
mod written_files;
