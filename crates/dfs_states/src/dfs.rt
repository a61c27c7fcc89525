//! The state of a channel.

/// The state of a channel of 20 MHz in which radar has to be looked for (`enum nl80211_dfs_state`).
#[derive(Clone, Copy, Debug, PartialEq, Eq)]
pub enum Dfs {
    /// No check (CAC, channel availability check) stands for it.
    Usable,
    /// There was radar on it.
    Unavailable {
        /// The end of its nonoccupancy (NOP, non-occupancy period), in ms.
        until: u64,
    },
    /// A check stands for it.
    Available {
        /// The end of the latest such check, in ms.
        since: u64,
    },
}
