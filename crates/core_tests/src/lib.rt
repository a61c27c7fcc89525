//! Tests of requests that are made of a core, over its library and drivers in memory.
#![tactic(auto)]

#[cfg(test)]
mod calls;
#[cfg(test)]
mod checks;
#[cfg(test)]
mod forecasts;
#[cfg(test)]
mod many_rows;
#[cfg(test)]
mod requests;
#[cfg(test)]
mod stops;
