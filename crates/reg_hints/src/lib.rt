//! Hints at the country: how each is treated, and the global list of domains that they lead to.
#![tactic(auto)]

mod codes;
mod element;
mod hint;
mod hints;
mod laws;
mod radio;

pub use codes::MOST_CODES;
pub use element::{Element, ElementFault, read_country_element};
pub use hint::{Hint, Last, Treatment};
pub use hints::{Hints, TooManyDomains};
pub use laws::global_list_is_never_empty;
pub use radio::RadioNo;
