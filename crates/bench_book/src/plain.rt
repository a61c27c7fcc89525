//! Plain arrays, with the least that is to be kept.

ghost use Rattle.std.specs.Prelude.{◌≤◌};

use crate::draws::{CHANNELS, LOWEST_KHZ};
use crate::keeper::Keeper;
use chan_def::{ChanDef, Width};
use dfs_states::{Dfs, NONOCCUPANCY_MS};

/// Moments in ms, where 0 is none.
#[derive(Drop)]
pub(crate) struct Plain {
    now: u64,
    ends: [u64; 8],
    counts: [[bool; CHANNELS]; 8],
    until: [u64; CHANNELS],
    since: [u64; CHANNELS],
}

impl Plain {
    pub(crate) fn new() -> Plain {
        Plain {
            now: 0,
            ends: [0; 8],
            counts: [[false; CHANNELS]; 8],
            until: [0; CHANNELS],
            since: [0; CHANNELS],
        }
    }
}

/// The places of the channels that it covers: the first one and that behind the last.
fn places(c: &ChanDef) -> (usize, usize)
    ensures { result.1 ≤ 100 }
{
    let count = match c.width {
        Width::Noht | Width::W20 => 1,
        Width::W40 => 2,
        Width::W80 => 4,
        Width::W160 => 8,
        Width::W320 => 16,
    };
    let first = (c.control_khz.saturating_sub(LOWEST_KHZ) / 20_000) as usize;
    (first.min(CHANNELS), (first + count).min(CHANNELS))
}

/// Ends the check of a slot.
fn end_check(counts: &[bool; CHANNELS], end: u64, since: &mut [u64; CHANNELS]) {
    for k in 0..CHANNELS {
        if counts[k] {
            since[k] = since[k].max(end);
        }
    }
}

impl Keeper for Plain {
    fn advance(&mut self, now: u64) {
        for slot in 0..8 {
            let end = self.ends[slot];
            if end != 0 && end <= now {
                end_check(&self.counts[slot], end, &mut self.since);
                self.ends[slot] = 0;
            }
        }
        self.now = now;
    }

    fn radar(&mut self, c: &ChanDef) {
        let (first, past) = places(c);
        for k in first..past {
            self.until[k] = self.now.wrapping_add(NONOCCUPANCY_MS);
            self.since[k] = 0;
            for slot in 0..8 {
                self.counts[slot][k] = false;
            }
        }
    }

    fn begin(&mut self, slot: u8, c: &ChanDef, length_ms: u32) -> bool {
        let slot = usize::from(slot % 8);
        if self.ends[slot] != 0 {
            return false;
        }
        let (first, past) = places(c);
        for k in 0..CHANNELS {
            self.counts[slot][k] = first <= k && k < past;
        }
        self.ends[slot] = self.now.wrapping_add(u64::from(length_ms));
        true
    }

    fn drop_check(&mut self, slot: u8) {
        self.ends[usize::from(slot % 8)] = 0;
    }

    fn region_changed(&mut self) {
        self.since = [0; CHANNELS];
        self.counts = [[false; CHANNELS]; 8];
    }

    fn state(&self, khz: u32) -> Dfs {
        let k = (khz.saturating_sub(LOWEST_KHZ) / 20_000) as usize;
        if k >= CHANNELS {
            return Dfs::Usable;
        }
        let (until, since) = (self.until[k], self.since[k]);
        if self.now < until {
            Dfs::Unavailable { until }
        } else if since != 0 {
            Dfs::Available { since }
        } else {
            Dfs::Usable
        }
    }
}
