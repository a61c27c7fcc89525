//! What a start or a check would come to, and the state of a channel. Nothing changes and no memory is
//! taken.

ghost use Rattle.std.specs.Prelude.{◌≡◌, ◌↔◌, ℕ, List, IsTrue, MatchOption, MatchResult};
ghost use Rattle.rule_tables.specs.declared.domain.Domain.{Domain};
ghost use Rattle.chan_def.specs.Covered.{IsValidDef};
ghost use Rattle.reg_journal.specs.Asking.{IsStateOn, WouldCheck, WouldStart};
ghost use Rattle.reg_journal.specs.Due.{EachMayFollow};
ghost use Rattle.reg_journal.specs.Facts.{Journal};
ghost use Rattle.reg_journal.specs.Permits.{EndsCheck, IsLimitOf};
ghost use Rattle.reg_journal.specs.Present.{Iface};
ghost use Rattle.reg_journal.specs.Radar.{IsChannelState};
ghost use Rattle.reg_journal.specs.Refusals.{IsInUse};
ghost use Rattle.core_parts.specs.Contexts.{IsOf};
ghost use Rattle.core_parts.specs.Judging.{IsSwept};
ghost use Rattle.core_parts.specs.Reading.{BarsCheckAtFirst, BarsStartAtFirst, MayBeChecked, MayBeStarted};
ghost use Rattle.core_parts.specs.Kept.{KeepsRadio};
ghost use Rattle.reg_core.specs.Kept.{StandsFor};

use crate::core_state::Core;
use crate::starting::{is_in_use_for, is_same_kind};
use chan_def::{ChanDef, Kind};
use chan_flags::{PowerSetting, Verdict};
use core_parts::{
    Interface, Radio, channel_of, judge, judge_check, radio_at, refusal_of, with_radio,
};
use dfs_states::{Dfs, DfsBook};
use radio_drv::Name;
use reg_hints::RadioNo;
use reg_journal::Refusal;

/// Why the interface can't start as this kind, by what is asked before the channel is judged.
fn start_refusal(
    interface: &Interface,
    book: &DfsBook,
    kind: Kind,
    chan: &ChanDef,
) -> Option<Refusal>
    ensures first { (db : List Domain) (J : Journal) (x : Iface) → IsOf db J x book.now interface.now
        → MatchOption result (MayBeStarted J kind chan.now x) (BarsStartAtFirst J kind chan.now x) }
    ensures valid { MatchOption result (IsValidDef chan.now) (λ _. Unit {0}) }
{
    if !is_same_kind(interface.kind, kind) {
        return Some(Refusal::WrongType);
    }
    if is_in_use_for(interface, book, kind) {
        return Some(Refusal::Busy);
    }
    if !chan.valid() {
        return Some(Refusal::BadChannel);
    }
    None
}

/// Whether the interface has an operation or a running check.
pub(crate) fn is_used(interface: &Interface, book: &DfsBook) -> bool
    ensures { (db : List Domain) (J : Journal) (x : Iface) → IsOf db J x book.now interface.now → IsTrue result ↔ IsInUse J x }
{
    channel_of(interface, book).is_some()
}

/// Why the interface can't check, by what is asked before the channel is judged.
fn check_refusal(interface: &Interface, book: &DfsBook, chan: &ChanDef) -> Option<Refusal>
    ensures first { (db : List Domain) (J : Journal) (x : Iface) → IsOf db J x book.now interface.now
        → MatchOption result (MayBeChecked J chan.now x) (BarsCheckAtFirst J chan.now x) }
    ensures valid { MatchOption result (IsValidDef chan.now) (λ _. Unit {0}) }
{
    if !interface.kind.initiates() {
        return Some(Refusal::WrongType);
    }
    if is_used(interface, book) {
        return Some(Refusal::Busy);
    }
    if !chan.valid() {
        return Some(Refusal::BadChannel);
    }
    None
}

/// The limit in mBm of the interface's power on the channel, whatever power is set, or the first refusal
/// that ends a check there.
fn limit_on(
    interface: &Interface,
    radio: &Radio,
    indoor: bool,
    chan: &ChanDef,
) -> Result<u16, Refusal>
    requires { IsValidDef chan.now }
    ensures { (db : List Domain) (J : Journal) (x : Iface) → IsSwept db J x interface.now radio.now indoor
        → MatchResult result (IsLimitOf db J x chan.now) (EndsCheck db J x chan.now) }
{
    match radio
        .chans
        .verdict(chan, interface.kind, indoor, PowerSetting::Auto)
    {
        Verdict::Refused(refusal) => Err(refusal_of(refusal)),
        Verdict::Fits { power_mbm, .. } => Ok(power_mbm),
    }
}

/// The state of the centre, in kHz, on the radio.
fn state_on(radio: &Radio, khz: u32) -> Dfs
    ensures { (db : List Domain) (J : Journal) (r : ℕ) → EachMayFollow db J → KeepsRadio db J r radio.now → IsChannelState db J r khz result }
{
    let _channels = radio.chans.len();
    radio.book.state(khz)
}

impl Core {
    /// What the start of the interface of this name on the channel, as this kind, would come to if the
    /// driver didn't fail: the power in mBm, or the first refusal of `Request::Start`.
    pub fn would_start(&self, name: &Name, kind: Kind, chan: &ChanDef) -> Result<u16, Refusal>
        ensures would { (db : List Domain) (J : Journal) → StandsFor db self.now J → WouldStart db J name.now kind chan.now result }
    {
        let interfaces = self.interfaces.as_slice();
        let (interface, radio) = match with_radio(interfaces, &self.radios, name) {
            Ok(found) => found,
            Err(refusal) => return Err(refusal),
        };
        if let Some(refusal) = start_refusal(interface, &radio.book, kind, chan) {
            return Err(refusal);
        }
        judge(interface, interfaces, radio, self.indoor, chan)
    }

    /// What a check (CAC) of the channel by the interface of this name would come to if the driver didn't
    /// fail: its length in ms and the limit of the power on the channel in mBm, whatever power is set; or
    /// the first refusal of `Request::Check`.
    pub fn would_check(&self, name: &Name, chan: &ChanDef) -> Result<(u32, u16), Refusal>
        ensures would { (db : List Domain) (J : Journal) → StandsFor db self.now J → WouldCheck db J name.now chan.now result }
    {
        let interfaces = self.interfaces.as_slice();
        let (interface, radio) = match with_radio(interfaces, &self.radios, name) {
            Ok(found) => found,
            Err(refusal) => return Err(refusal),
        };
        if let Some(refusal) = check_refusal(interface, &radio.book, chan) {
            return Err(refusal);
        }
        let length_ms = match judge_check(interface, interfaces, radio, self.indoor, chan) {
            Ok(length_ms) => length_ms,
            Err(refusal) => return Err(refusal),
        };
        match limit_on(interface, radio, self.indoor, chan) {
            Ok(limit_mbm) => Ok((length_ms, limit_mbm)),
            Err(refusal) => Err(refusal),
        }
    }

    /// The state of the channel with this centre, in kHz, on the radio (`enum nl80211_dfs_state`): until
    /// when it is unavailable or since when it is available, in ms. A centre that is no channel of the
    /// radio's bands is usable. `None` exactly where the radio isn't there.
    pub fn channel_state(&self, radio: RadioNo, khz: u32) -> Option<Dfs>
        ensures state { (db : List Domain) (J : Journal) → StandsFor db self.now J → IsStateOn db J radio khz result }
    {
        match radio_at(&self.radios, radio) {
            Some(radio) => Some(state_on(radio, khz)),
            None => None,
        }
    }
}
