//! What radar asks of a channel.

ghost use Rattle.std.specs.Prelude.{◌≡◌, ℕ, List, MatchBool, MatchOption};
ghost use Rattle.rule_tables.specs.declared.domain.Domain.{Domain};
ghost use Rattle.chan_def.specs.Covered.{IsCovered, IsValidDef};
ghost use Rattle.chan_flags.specs.Verdicts.{BarsFirst};
ghost use Rattle.reg_journal.specs.Causes.{◌before◌};
ghost use Rattle.reg_journal.specs.Facts.{Journal};
ghost use Rattle.reg_journal.specs.Permits.{IsBoundOn, LacksCheck, LacksRadarWidth, MetRadar, width_mhz};
ghost use Rattle.reg_journal.specs.Present.{Iface};
ghost use Rattle.reg_journal.specs.Radar.{IsState};
ghost use Rattle.core_parts.specs.Demands.{AllMeet, AllMeetFor, FailsDemand, HasRadarWidth, HasRules, IsNarrowEnough, IsTooWide, MeetsDemand};
ghost use Rattle.core_parts.specs.declared.radar.Demand.TheVariants.{Clear, Quiet};

use crate::radio::Radio;
use chan_def::{ChanDef, Kind, MOST_SUBCHANNELS, subchannels};
use dfs_states::Dfs;
use reg_journal::Refusal;

/// What is demanded of the subchannels that have to be checked for radar.
#[derive(Clone, Copy)]
pub enum Demand {
    /// That there are none.
    Absent,
    /// That no nonoccupancy runs there.
    Quiet,
    /// That a check stands for each, and no nonoccupancy runs there.
    Clear,
}

/// Whether a subchannel in this state meets the demand.
fn meets(demand: Demand, state: Dfs) -> bool
    ensures { (db : List Domain) (J : Journal) (r s : ℕ) → IsState db J r s state
        → MatchBool result (MeetsDemand db J r demand s) (MeetsDemand db J r demand s → ⊥) }
{
    match demand {
        Demand::Absent => false,
        Demand::Quiet => !matches!(state, Dfs::Unavailable { .. }),
        Demand::Clear => matches!(state, Dfs::Available { .. }),
    }
}

/// Whether the subchannel with this centre, in kHz, has to be checked for radar and doesn't meet the
/// demand.
fn fails(radio: &Radio, chan: &ChanDef, demand: Demand, khz: u32) -> bool
    ensures { (db : List Domain) (J : Journal) (r : ℕ) → HasRules db J r radio.now chan.now → IsCovered chan.now khz
        → MatchBool result (FailsDemand db J r demand khz) (IsBoundOn db J r khz → MeetsDemand db J r demand khz) }
{
    radio.chans.is_bound(khz) && !meets(demand, radio.book.state(khz))
}

/// The lowest subchannel, by its centre in kHz, that has to be checked for radar and doesn't meet the
/// demand.
pub(crate) fn lowest_failing(radio: &Radio, chan: &ChanDef, demand: Demand) -> Option<u32>
    requires { IsValidDef chan.now }
    ensures { (db : List Domain) (J : Journal) (r : ℕ) → HasRules db J r radio.now chan.now
        → MatchOption result (AllMeet db J r demand chan.now) (BarsFirst (FailsDemand db J r demand) chan.now) }
{
    for i in 0..MOST_SUBCHANNELS {
        let khz = subchannels(chan, i)?;
        if fails(radio, chan, demand, khz) {
            return Some(khz);
        }
    }
    None
}

/// The width in MHz.
fn width_mhz(chan: &ChanDef) -> u16
    ensures { result ≡ width_mhz chan.now }
{
    chan.width.mhz()
}

/// Whether some subchannel has to be checked for radar, and the channel is wider than what the radio
/// can check.
fn lacks_radar_width(radio: &Radio, chan: &ChanDef) -> bool
    requires { IsValidDef chan.now }
    ensures { (db : List Domain) (J : Journal) (r : ℕ) → HasRules db J r radio.now chan.now
        → MatchBool result (IsTooWide db J r radio.now.chans.profile.radar_mhz chan.now)
        (IsNarrowEnough db J r radio.now.chans.profile.radar_mhz chan.now) }
{
    if width_mhz(chan) <= radio.chans.profile().radar_mhz() {
        return false;
    }
    match lowest_failing(radio, chan, Demand::Absent) {
        Some(_) => true,
        None => false,
    }
}

/// Why radar keeps an interface of this kind from a check of the channel, if it does. One that doesn't
/// send first need not look for it.
pub(crate) fn radar_refusal(kind: Kind, radio: &Radio, chan: &ChanDef) -> Option<Refusal>
    requires { IsValidDef chan.now }
    ensures { (db : List Domain) (J : Journal) (x : Iface) → HasRules db J x.radio radio.now chan.now → kind ≡ x.kind
        → MatchOption result (HasRadarWidth db J x chan.now × AllMeetFor db J x Quiet chan.now)
        (LacksRadarWidth db J x chan.now before MetRadar db J x chan.now) }
{
    if !kind.initiates() {
        return None;
    }
    if lacks_radar_width(radio, chan) {
        return Some(Refusal::RadioLacksRadarWidth(width_mhz(chan)));
    }
    match lowest_failing(radio, chan, Demand::Quiet) {
        Some(khz) => Some(Refusal::Radar(khz)),
        None => None,
    }
}

/// The refusal that names the lowest subchannel for which no check stands, if an interface of this kind
/// has to check one. Radar is asked before: no nonoccupancy runs on those that have to be checked.
pub(crate) fn unchecked_refusal(kind: Kind, radio: &Radio, chan: &ChanDef) -> Option<Refusal>
    requires { IsValidDef chan.now }
    ensures { (db : List Domain) (J : Journal) (x : Iface) → HasRules db J x.radio radio.now chan.now → kind ≡ x.kind
        → AllMeetFor db J x Quiet chan.now → MatchOption result (AllMeetFor db J x Clear chan.now) (LacksCheck db J x chan.now) }
{
    if !kind.initiates() {
        return None;
    }
    match lowest_failing(radio, chan, Demand::Clear) {
        Some(khz) => Some(Refusal::Unchecked(khz)),
        None => None,
    }
}
