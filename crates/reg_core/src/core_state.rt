//! What the core keeps.

use core_parts::{Domains, InterfaceMap, RadioPlace};
use reg_hints::Hints;
use rule_intersect::Table;

/// What is kept of all that was accepted.
#[derive(Drop)]
pub struct Core {
    pub(crate) domains: Domains,
    /// The present moment, in ms.
    pub(crate) clock: u64,
    pub(crate) indoor: bool,
    pub(crate) hints: Hints,
    /// How many interfaces were made.
    pub(crate) made: u32,
    /// The rows of the global list.
    pub(crate) global: Table,
    /// By number.
    pub(crate) radios: [RadioPlace; 8],
    /// By index, in order of creation.
    pub(crate) interfaces: InterfaceMap,
}
