//! A radio's channels and what the rules allow there.

ghost use Rattle.std.specs.Prelude.{◌≡◌, ◌==◌, ◌↔◌, ℕ, List, None, All, IfOk, IsTrue, length, map, slice_get};
ghost use Rattle.rule_tables.specs.declared.domain.Domain.{Domain};
ghost use Rattle.rule_intersect.specs.Subchannels.{SomeLacksRule};
ghost use Rattle.rule_intersect.specs.Tables.{IsTableOf};
ghost use Rattle.chan_def.specs.Covered.{IsValidDef};
ghost use Rattle.chan_flags.specs.ByRecords.{IsBoundBy, IsVerdictBy};
ghost use Rattle.chan_flags.specs.Lists.{AreChannels};
ghost use Rattle.chan_flags.specs.Records.{AreRecords, IsRecord, IsRowFit};
ghost use Rattle.chan_flags.specs.Verdicts.{asked, IsBound, IsMissing, IsVerdict};

use crate::asked::Asked;
use crate::channels::channels_of;
use crate::judge::verdict_by;
use crate::limits::is_bound_by;
use crate::profile::Profile;
use crate::record::{Chan, Fit};
use crate::verdict::{PowerSetting, Verdict};
use chan_def::{ChanDef, Kind};
use reg_lists::OutOfMemory;
use rule_intersect::Table;
use std::alloc::Global;
use std::marker::Model;

/// The channels of a radio, with what the rules allow there (`struct ieee80211_supported_band`).
#[derive(Debug, Drop)]
pub struct RadioChans {
    profile: Profile,
    chans: Vec<Chan>,
}

impl Model for RadioChans {
    ghost use Rattle.std.specs.Prelude.{map};
    ghost use Rattle.chan_flags.specs.Lists.{AreChannels};
    ghost use Rattle.chan_flags.specs.Records.{Recorded};

    ghost Value = { Recorded };

    ghost view = { λ r. record { profile = r.profile; chans = r.chans.items } };

    ghost invariant = { λ r. AreChannels r.profile.bands (map (λ c. c.khz) r.chans.items) };
}

/// What the table allows on the channel round this centre, in kHz.
fn fit_of(t: &Table, khz: u32) -> Option<Fit>
    ensures row { IsRowFit t.now.rows khz result }
    ensures law { (ds : List Domain) → IsTableOf ds t.now → IsRecord ds khz result }
{
    let row = t.row(t.row_for(khz)?)?;
    Some(Fit {
        flags: row.flags,
        limit_mbm: row.eirp_mbm,
        check_ms: row.check_ms,
        width_khz: row.width_khz,
    })
}

/// Gives each channel what the table allows there.
fn refit(chans: &mut [Chan], t: &Table)
    ensures records { All (λ c. IsRowFit t.now.rows c.khz c.fit) chans.new }
    ensures channels { map (λ c. c.khz) chans.new ≡ map (λ c. c.khz) chans.old }
    ensures law { (ds : List Domain) → IsTableOf ds t.now → All (λ c. IsRecord ds c.khz c.fit) chans.new }
{
    for chan in chans.iter_mut() {
        chan.fit = fit_of(t, chan.khz);
    }
}

impl RadioChans {
    /// All channels of the radio's bands, ascending. None fits yet.
    pub fn new(alloc: Global, profile: Profile) -> Result<RadioChans, OutOfMemory>
        ensures profile { IfOk result (λ r. r.profile ≡ profile) }
        ensures channels { IfOk result (λ r. AreChannels profile.bands (map (λ c. c.khz) r.chans)) }
        ensures unfit { IfOk result (λ r. All (λ c. c.fit ≡ None) r.chans) }
    {
        let chans = channels_of(alloc, profile.bands())?;
        Ok(RadioChans { profile, chans })
    }

    /// Gives each channel what the table of the domains that apply to the radio allows there
    /// (`handle_channel`): the first row that holds it, which is what the governing rules of all
    /// domains allow together.
    pub fn refresh(&mut self, t: &Table)
        ensures records { All (λ c. IsRowFit t.now.rows c.khz c.fit) self.new.chans }
        ensures channels { map (λ c. c.khz) self.new.chans ≡ map (λ c. c.khz) self.old.chans }
        ensures profile { self.new.profile ≡ self.old.profile }
        ensures law { (ds : List Domain) → IsTableOf ds t.now → AreRecords ds self.new.chans }
    {
        refit(self.chans.as_mut_slice(), t);
    }

    /// Whether the rules allow the channel to an interface of this kind, which asks for this power;
    /// and why not (`cfg80211_chandef_usable`, `cfg80211_reg_can_beacon`). The first reason comes, and
    /// for it the lowest subchannel to which it applies.
    pub fn verdict(&self, c: &ChanDef, kind: Kind, indoor: bool, setting: PowerSetting) -> Verdict
        requires { IsValidDef c.now }
        ensures verdict { IsVerdictBy self.now.chans (asked self.now.profile c.now kind indoor setting) result }
        ensures domains { (ds : List Domain) → AreRecords ds self.now.chans
            → IsVerdict ds (asked self.now.profile c.now kind indoor setting) result }
    {
        let asked = Asked {
            profile: self.profile,
            chan: *c,
            kind,
            indoor,
            setting,
        };
        verdict_by(self.chans.as_slice(), &asked)
    }

    /// Whether the channel with this centre, in kHz, has to be checked for radar (CAC, channel
    /// availability check). False where it has no
    /// record.
    pub fn is_bound(&self, khz: u32) -> bool
        ensures record { IsTrue result ↔ IsBoundBy self.now.chans khz }
        ensures domains { (ds : List Domain) → AreRecords ds self.now.chans
            → (IsMissing self.now.profile.bands khz → ⊥) → (SomeLacksRule ds khz → ⊥) → (IsTrue result ↔ IsBound ds khz) }
    {
        is_bound_by(self.chans.as_slice(), khz)
    }

    /// The radio's profile.
    pub fn profile(&self) -> Profile
        ensures { result ≡ self.now.profile }
    {
        self.profile
    }

    /// How many channels there are: all of the radio's bands.
    pub fn len(&self) -> usize
        ensures len { result ≡ length self.now.chans }
        ensures channels { AreChannels self.now.profile.bands (map (λ c. c.khz) self.now.chans) }
    {
        self.chans.len()
    }

    pub fn is_empty(&self) -> bool
        ensures { result ≡ (length self.now.chans == 0) }
    {
        self.chans.is_empty()
    }

    /// The channel at place `i`, counted from 0 in ascending order, or `None` past the end.
    pub fn chan(&self, i: usize) -> Option<Chan>
        ensures { result ≡ slice_get self.now.chans i }
    {
        self.chans.get(i).copied()
    }
}
