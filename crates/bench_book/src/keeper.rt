//! What the calls are made to.

ghost use Rattle.std.specs.Prelude.{◌≤◌};

use chan_def::ChanDef;
use dfs_states::{Dfs, DfsBook, IfSlot, LAST_MOMENT_MS};

/// One who keeps book of checks and radar.
pub(crate) trait Keeper {
    fn advance(&mut self, now: u64)
        requires { now ≤ LAST_MOMENT_MS };

    fn radar(&mut self, c: &ChanDef);

    /// Begins a check in the slot, if it is idle. Whether it was.
    fn begin(&mut self, slot: u8, c: &ChanDef, length_ms: u32) -> bool;

    fn drop_check(&mut self, slot: u8);

    fn region_changed(&mut self);

    fn state(&self, khz: u32) -> Dfs;
}

impl Keeper for DfsBook {
    fn advance(&mut self, now: u64) {
        DfsBook::advance(self, now);
    }

    fn radar(&mut self, c: &ChanDef) {
        DfsBook::radar(self, c);
    }

    fn begin(&mut self, slot: u8, c: &ChanDef, length_ms: u32) -> bool {
        let Some(slot) = IfSlot::new(slot) else {
            return false;
        };
        if self.running(slot).is_some() {
            return false;
        }
        DfsBook::begin(self, slot, c, length_ms);
        true
    }

    fn drop_check(&mut self, slot: u8) {
        if let Some(slot) = IfSlot::new(slot) {
            DfsBook::drop_check(self, slot);
        }
    }

    fn region_changed(&mut self) {
        DfsBook::region_changed(self, true);
    }

    fn state(&self, khz: u32) -> Dfs {
        DfsBook::state(self, khz)
    }
}
