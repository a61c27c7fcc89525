//! What a task has done.

/// How many pairs were tried, and how many of them had something in common.
#[derive(Clone, Copy, Debug)]
pub(crate) struct Count {
    pub pairs: u64,
    pub found: u64,
}

impl Count {
    pub const NONE: Count = Count { pairs: 0, found: 0 };

    /// Both together; a count stops at its greatest value.
    pub(crate) fn and(&self, other: &Count) -> Count {
        Count {
            pairs: self.pairs.saturating_add(other.pairs),
            found: self.found.saturating_add(other.found),
        }
    }
}
