//! What a task has found.

use dfs_states::Dfs;

/// How many calls were made and checks begun, and how often each state was answered.
#[derive(Clone, Copy, Debug)]
pub(crate) struct Count {
    pub calls: u64,
    pub begun: u64,
    pub usable: u64,
    pub available: u64,
    pub unavailable: u64,
}

impl Count {
    pub const NONE: Count = Count {
        calls: 0,
        begun: 0,
        usable: 0,
        available: 0,
        unavailable: 0,
    };

    /// One more answer.
    pub(crate) fn answer(&mut self, state: Dfs) {
        let told = match state {
            Dfs::Usable => &mut self.usable,
            Dfs::Available { .. } => &mut self.available,
            Dfs::Unavailable { .. } => &mut self.unavailable,
        };
        *told = told.wrapping_add(1);
    }
}
