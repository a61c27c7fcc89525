//! What is kept of one channel.

ghost use Rattle.std.specs.Prelude.{◌≡◌, ℕ, ◌⊎◌, ◌<◌, ◌≤◌, List, [], ◌∷◌, Some, Contains, MatchOption, slice_index_or, length, Bool, false, None, Option};
ghost use Rattle.chan_def.specs.declared.definition.ChanDef.{ChanDef};
ghost use Rattle.dfs_states.specs.Calls.{Call, Advance, Radar, Begin, Operate, RegionChanged, moment_of};
ghost use Rattle.dfs_states.specs.Greatest.{IsMost};
ghost use Rattle.dfs_states.specs.Meaning.{EachMayBeCalled, IsBookState};
ghost use Rattle.dfs_states.specs.StandsFor.{AreChecks, IsPlace};
ghost use Rattle.dfs_states.specs.inner.Steps.{EachFollows, PlaceFollows, IsEnded, IsPresent, IsReach, IsRemaining};

use crate::check::{Check, end_of};
use crate::dfs::Dfs;
use crate::moments::{LAST_MOMENT_MS, NONOCCUPANCY_MS, is_long_ago, later};
use crate::operation::some_operates_on;
use crate::span::Span;
use chan_def::{ChanDef, MOST_IFACES, covers};

/// What is known of a channel of 20 MHz.
#[derive(Clone, Copy, Debug)]
pub(crate) struct Place {
    /// Its centre, in kHz.
    pub khz: u32,
    /// The latest end of a nonoccupancy (NOP), in ms.
    pub until: Option<u64>,
    /// The latest end of a check (CAC) that counts for it, in ms. `None` where it lapsed before the last
    /// operation on the channel began. A lapse since then is told by the present moment.
    pub since: Option<u64>,
    /// The last moment at which an operation covered it, in ms, where none does now.
    pub used: Option<u64>,
    /// For each slot, whether the check that runs there counts for it.
    pub counts: [bool; MOST_IFACES],
}

impl Place {
    /// Nothing has happened on the channel.
    pub(crate) fn unused(khz: u32) -> Place
        ensures khz { result.khz ≡ khz }
        ensures place { (opening : Bool) → IsPlace opening [] result }
    {
        Place {
            khz,
            until: None,
            since: None,
            used: None,
            counts: [false; MOST_IFACES],
        }
    }

    /// The state at the present moment.
    pub(crate) fn state(&self, now: u64, lasts: bool, operations: &[Option<ChanDef>]) -> Dfs
        ensures { (opening : Bool) (calls : List Call) → EachMayBeCalled calls → IsPresent now lasts operations.now opening calls
            → IsPlace opening calls self.now → IsBookState opening calls self.now.khz result }
    {
        if let Some(until) = self.bar(now) {
            return Dfs::Unavailable { until };
        }
        let in_use = some_operates_on(self.khz, operations);
        match self.remaining(now, lasts, in_use) {
            Some(since) => Dfs::Available { since },
            None => Dfs::Usable,
        }
    }

    /// The end of its nonoccupancy, in ms, unless that is over.
    fn bar(&self, now: u64) -> Option<u64>
        ensures { MatchOption result ((until : ℕ) → self.now.until ≡ Some until → until ≤ now)
            (λ until. (self.now.until ≡ Some until) × (now < until)) }
    {
        match self.until {
            Some(until) if now < until => Some(until),
            _ => None,
        }
    }

    /// The end of its latest check, in ms, unless that has lapsed.
    fn remaining(&self, now: u64, lasts: bool, in_use: bool) -> Option<u64>
        ensures { IsRemaining now lasts in_use self.now result }
    {
        match self.since {
            Some(end) if lasts || in_use || !is_long_ago(now, end, self.used) => Some(end),
            _ => None,
        }
    }

    /// After the moment has come, with the checks that ran until then.
    fn after_advance(&self, now: u64, checks: &[Option<Check>; MOST_IFACES]) -> Place
        ensures { PlaceFollows (λ opening calls. AreChecks checks.now calls) (Advance now) self.now result }
    {
        Place {
            since: latest_end(now, &self.counts, checks, self.since),
            ..*self
        }
    }

    /// After radar. A check that met radar counts no more, though it may run on.
    fn after_radar(&self, now: u64, c: &ChanDef) -> Place
        requires { now ≤ LAST_MOMENT_MS }
        ensures { PlaceFollows (λ opening calls. moment_of calls ≡ now) (Radar c.now) self.now result }
    {
        if !covers(c, self.khz) {
            return *self;
        }
        Place {
            until: later(self.until, Some(now + NONOCCUPANCY_MS)),
            since: None,
            counts: [false; MOST_IFACES],
            ..*self
        }
    }

    /// After a change of the region to one where checks last or lapse.
    fn after_region_change(&self, lasts: bool) -> Place
        ensures { PlaceFollows (λ opening calls. Unit {0}) (RegionChanged lasts) self.now result }
    {
        Place {
            since: None,
            counts: [false; MOST_IFACES],
            ..*self
        }
    }

    /// Before an operation begins or ends: what has lapsed is gone, and a channel in use is used now.
    fn settled(&self, now: u64, lasts: bool, operations: &[Option<ChanDef>]) -> Place
        ensures { (slot : ℕ) (chan : Option ChanDef)
            → PlaceFollows (IsPresent now lasts operations.now) (Operate slot chan) self.now result }
    {
        let in_use = some_operates_on(self.khz, operations);
        let used = if in_use { Some(now) } else { self.used };
        let since = self.remaining(now, lasts, in_use);
        Place {
            since,
            used,
            ..*self
        }
    }

    /// An operation begins or ends in a slot, inside this span. Outside of it nothing is written: the channel
    /// is in use after it as it was before it.
    fn settle(&mut self, now: u64, lasts: bool, operations: &[Option<ChanDef>], reach: &Span)
        ensures { (slot : ℕ) (chan : Option ChanDef) → IsReach operations.now slot chan reach.now
            → PlaceFollows (IsPresent now lasts operations.now) (Operate slot chan) self.old self.new }
    {
        if !reach.holds(self.khz) {
            return;
        }
        *self = self.settled(now, lasts, operations);
    }

    /// After the beginning of a check. One of length 0 is done at once.
    fn after_begin(&self, now: u64, slot: usize, c: &ChanDef, length_ms: u32) -> Place
        requires { slot < MOST_IFACES }
        ensures { PlaceFollows (λ opening calls. moment_of calls ≡ now) (Begin slot c.now length_ms) self.now result }
    {
        let mut counts = self.counts;
        if !covers(c, self.khz) {
            counts[slot] = false;
            return Place { counts, ..*self };
        }
        if length_ms == 0 {
            return Place {
                since: Some(now),
                ..*self
            };
        }
        counts[slot] = true;
        Place { counts, ..*self }
    }
}

/// The latest of `since` and of the ends of the checks that count and are done, in ms.
fn latest_end(
    now: u64,
    counts: &[bool; MOST_IFACES],
    checks: &[Option<Check>; MOST_IFACES],
    since: Option<u64>,
) -> Option<u64>
    ensures { IsMost (λ end. (since ≡ Some end) ⊎ ((slot : ℕ)
        × IsEnded now (slice_index_or counts.now slot false) (slice_index_or checks.now slot None) end)) result }
{
    let mut latest = since;
    for slot in 0..8 {
        latest = later(latest, end_of(now, counts[slot], &checks[slot]));
    }
    latest
}

/// The moment has come.
pub(crate) fn advance_each(now: u64, checks: &[Option<Check>; MOST_IFACES], places: &mut [Place])
    ensures { EachFollows (PlaceFollows (λ opening calls. AreChecks checks.now calls) (Advance now)) places.old places.new }
{
    for place in places.iter_mut() {
        *place = place.after_advance(now, checks);
    }
}

/// There is radar on the channel.
pub(crate) fn meet_radar(now: u64, c: &ChanDef, places: &mut [Place])
    requires { now ≤ LAST_MOMENT_MS }
    ensures { EachFollows (PlaceFollows (λ opening calls. moment_of calls ≡ now) (Radar c.now)) places.old places.new }
{
    for place in places.iter_mut() {
        *place = place.after_radar(now, c);
    }
}

/// The region has changed.
pub(crate) fn change_region(lasts: bool, places: &mut [Place])
    ensures { EachFollows (PlaceFollows (λ opening calls. Unit {0}) (RegionChanged lasts)) places.old places.new }
{
    for place in places.iter_mut() {
        *place = place.after_region_change(lasts);
    }
}

/// An operation begins or ends in a slot, inside this span.
pub(crate) fn settle_each(
    now: u64,
    lasts: bool,
    operations: &[Option<ChanDef>],
    reach: &Span,
    places: &mut [Place],
)
    ensures { (slot : ℕ) (chan : Option ChanDef) → IsReach operations.now slot chan reach.now
        → EachFollows (PlaceFollows (IsPresent now lasts operations.now) (Operate slot chan)) places.old places.new }
{
    for place in places.iter_mut() {
        place.settle(now, lasts, operations, reach);
    }
}

/// A check begins.
pub(crate) fn begin_check(now: u64, slot: usize, c: &ChanDef, length_ms: u32, places: &mut [Place])
    requires { slot < MOST_IFACES }
    ensures { EachFollows (PlaceFollows (λ opening calls. moment_of calls ≡ now) (Begin slot c.now length_ms)) places.old places.new }
{
    for place in places.iter_mut() {
        *place = place.after_begin(now, slot, c, length_ms);
    }
}

/// What is known of the channel of this centre, in kHz. `None` exactly where it is none of these.
pub(crate) fn place_of(khz: u32, places: &[Place]) -> Option<Place>
    ensures { MatchOption result ((place : Place) → Contains places.now place → place.khz ≡ khz → ⊥)
        (λ place. Contains places.now place × (place.khz ≡ khz)) }
{
    for place in places {
        if place.khz == khz {
            return Some(*place);
        }
    }
    None
}
