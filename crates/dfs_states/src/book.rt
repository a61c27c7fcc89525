//! The book.

ghost use Rattle.std.specs.Prelude.{◌≡◌, ℕ, List, [], ◌∷◌, ◌≤◌, Bool, IfOk};
ghost use Rattle.std.specs.Option.{option_copied};
ghost use Rattle.dfs_states.specs.Calls.{Call, Advance, Radar, Begin, DropCheck, Operate, RegionChanged};
ghost use Rattle.dfs_states.specs.Meaning.{MayBeCalled, IsFreeSlot, IsBookAnswer, IsRunning};
ghost use Rattle.dfs_states.specs.StandsFor.{BookStandsFor};
ghost use Rattle.dfs_states.specs.inner.Steps.{ArePlaces};

use crate::check::{Check, clear_done, some_is_done};
use crate::dfs::Dfs;
use crate::moments::LAST_MOMENT_MS;
use crate::place::{
    Place, advance_each, begin_check, change_region, meet_radar, place_of, settle_each,
};
use crate::slot::IfSlot;
use crate::span::reach_of;
use chan_def::{ChanDef, MOST_IFACES};
use reg_lists::OutOfMemory;
use std::alloc::Global;
use std::marker::Model;

/// What a radio knows of radar and of checks on its channels. Its meaning is the calls that it stands
/// for, the newest first: any list of calls, each within its condition, that leads to what is kept.
#[derive(Debug, Drop)]
pub struct DfsBook {
    moment: u64,
    /// Whether checks last in the region: it is that of ETSI.
    lasts: bool,
    checks: [Option<Check>; MOST_IFACES],
    operations: [Option<ChanDef>; MOST_IFACES],
    places: Vec<Place>,
}

impl Model for DfsBook {
    ghost use Rattle.std.specs.Prelude.{◌≤◌};
    ghost use Rattle.dfs_states.specs.declared.moments.TheConstants.{LAST_MOMENT_MS};
    ghost use Rattle.dfs_states.specs.Book.{Book};

    ghost Value = { Book };

    ghost view = { λ b. record {
      moment = b.moment;
      lasts = b.lasts;
      checks = b.checks;
      operations = b.operations;
      places = b.places.items;
    } };

    ghost invariant = { λ b. b.moment ≤ LAST_MOMENT_MS };
}

impl DfsBook {
    /// The book of the channels of these centres, in kHz, at moment 0, of a radio in a region where checks
    /// last, as in that of ETSI, or lapse. All are usable.
    pub fn new(alloc: Global, channels: &[u32], lasts: bool) -> Result<DfsBook, OutOfMemory>
        ensures opening { IfOk result (λ book. BookStandsFor book channels.now lasts []) }
    {
        Ok(DfsBook {
            moment: 0,
            lasts,
            checks: [None; MOST_IFACES],
            operations: [None; MOST_IFACES],
            places: unused_places(alloc, channels)?,
        })
    }

    /// It is `now`, in ms, which isn't earlier than before. A check that ends by then is done
    /// (`cfg80211_cac_event`).
    pub fn advance(&mut self, now: u64)
        requires { now ≤ LAST_MOMENT_MS }
        ensures stands_for { (channels : List ℕ) (opening : Bool) (calls : List Call) → BookStandsFor self.old channels opening calls
            → MayBeCalled calls (Advance now) → BookStandsFor self.new channels opening (Advance now ∷ calls) }
    {
        if !some_is_done(now, &self.checks) {
            self.moment = now;
            return;
        }
        advance_each(now, &self.checks, self.places.as_mut_slice());
        clear_done(now, &mut self.checks);
        self.moment = now;
    }

    /// There is radar on the channel, at the present moment (`cfg80211_radar_event`).
    pub fn radar(&mut self, c: &ChanDef)
        ensures stands_for { (channels : List ℕ) (opening : Bool) (calls : List Call) → BookStandsFor self.old channels opening calls
            → MayBeCalled calls (Radar c.now) → BookStandsFor self.new channels opening (Radar c.now ∷ calls) }
    {
        meet_radar(self.moment, c, self.places.as_mut_slice());
    }

    /// A check begins in an idle slot, at the present moment, and takes `length_ms`
    /// (`NL80211_CMD_RADAR_DETECT`).
    pub fn begin(&mut self, iface: IfSlot, c: &ChanDef, length_ms: u32)
        ensures stands_for { (channels : List ℕ) (opening : Bool) (calls : List Call) → BookStandsFor self.old channels opening calls
            → MayBeCalled calls (Begin iface c.now length_ms) → BookStandsFor self.new channels opening (Begin iface c.now length_ms ∷ calls) }
    {
        let slot = iface.place();
        begin_check(self.moment, slot, c, length_ms, self.places.as_mut_slice());
        if length_ms == 0 {
            return;
        }
        self.checks[slot] = Some(Check {
            chan: *c,
            start: self.moment,
            end: self.moment + u64::from(length_ms),
        });
    }

    /// The slot's check is dropped (`NL80211_RADAR_CAC_ABORTED`). Where none runs, nothing changes.
    pub fn drop_check(&mut self, iface: IfSlot)
        ensures stands_for { (channels : List ℕ) (opening : Bool) (calls : List Call) → BookStandsFor self.old channels opening calls
            → MayBeCalled calls (DropCheck iface) → BookStandsFor self.new channels opening (DropCheck iface ∷ calls) }
        ensures unchanged { (channels : List ℕ) (opening : Bool) (calls : List Call) → BookStandsFor self.old channels opening calls
            → IsFreeSlot calls iface → self.new ≡ self.old }
    {
        self.checks[iface.place()] = None;
    }

    /// The slot's interface, which sends first, operates on this channel from now on, or on none. A check
    /// that hasn't lapsed on a channel of the operation is kept by it.
    pub fn operate(&mut self, iface: IfSlot, chan: Option<&ChanDef>)
        ensures stands_for { (channels : List ℕ) (opening : Bool) (calls : List Call) → BookStandsFor self.old channels opening calls
            → MayBeCalled calls (Operate iface (option_copied chan.entry))
            → BookStandsFor self.new channels opening (Operate iface (option_copied chan.entry) ∷ calls) }
    {
        let slot = iface.place();
        let begun = chan.copied();
        let reach = reach_of(&self.operations, slot, &begun);
        let places = self.places.as_mut_slice();
        settle_each(self.moment, self.lasts, &self.operations, &reach, places);
        self.operations[slot] = begun;
    }

    /// The region of the radio has changed (`reg_get_dfs_region`). In the new one checks last, as in that
    /// of ETSI, or lapse.
    pub fn region_changed(&mut self, lasts: bool)
        ensures stands_for { (channels : List ℕ) (opening : Bool) (calls : List Call) → BookStandsFor self.old channels opening calls
            → BookStandsFor self.new channels opening (RegionChanged lasts ∷ calls) }
    {
        change_region(lasts, self.places.as_mut_slice());
        self.lasts = lasts;
    }

    /// The state of the channel of this centre, in kHz. A centre that isn't of the book is usable.
    pub fn state(&self, khz: u32) -> Dfs
        ensures answer { (channels : List ℕ) (opening : Bool) (calls : List Call) → BookStandsFor self.now channels opening calls
            → IsBookAnswer channels opening calls khz result }
    {
        match place_of(khz, self.places.as_slice()) {
            Some(place) => place.state(self.moment, self.lasts, &self.operations),
            None => Dfs::Usable,
        }
    }

    /// The channel of the check that runs in the slot, and when it is done, in ms. `None` exactly where
    /// none runs.
    pub fn running(&self, iface: IfSlot) -> Option<(ChanDef, u64)>
        ensures answer { (channels : List ℕ) (opening : Bool) (calls : List Call) → BookStandsFor self.now channels opening calls
            → IsRunning calls iface result }
    {
        let check = self.checks[iface.place()]?;
        Some((check.chan, check.end))
    }
}

/// A place for each centre, in kHz, on whose channel nothing has happened.
fn unused_places(alloc: Global, channels: &[u32]) -> Result<Vec<Place>, OutOfMemory>
    ensures { IfOk result (λ places. ArePlaces channels.now places.items) }
{
    let mut places = Vec::with_capacity(alloc, channels.len())?;
    for khz in channels {
        places.push(Place::unused(*khz))?;
    }
    Ok(places)
}
