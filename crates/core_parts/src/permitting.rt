//! Whether an interface may operate on a channel, and why not.

ghost use Rattle.std.specs.Prelude.{◌≡◌, List, IsTrue, MatchBool, MatchResult};
ghost use Rattle.rule_tables.specs.declared.domain.Domain.{Domain};
ghost use Rattle.chan_def.specs.Covered.{IsValidDef};
ghost use Rattle.reg_journal.specs.Causes.{IsFree};
ghost use Rattle.reg_journal.specs.Facts.{Journal};
ghost use Rattle.reg_journal.specs.Granted.{IsGranted, IsPermitted};
ghost use Rattle.reg_journal.specs.Permits.{BarsOperation, EndsCheck, EndsOperation, HasNothingToCheck, IsLengthOf, refusal_of_channel};
ghost use Rattle.reg_journal.specs.Present.{Iface};
ghost use Rattle.core_parts.specs.Judging.{BarsBeginning, CheckFits, HasVerdict, IsJudged, as_auto, is_lacking};
ghost use Rattle.core_parts.specs.Demands.{AllMeet, HasRules};
ghost use Rattle.core_parts.specs.declared.radar.Demand.TheVariants.{Quiet};
ghost use Rattle.chan_def.specs.Kinds.{initiates};
ghost use Rattle.reg_journal.specs.declared.refusal.Refusal.TheVariants.{NothingToCheck};

use crate::contexts::passes_contexts;
use crate::interface::Interface;
use crate::radar::{Demand, lowest_failing, radar_refusal, unchecked_refusal};
use crate::radio::Radio;
use chan_def::{ChanDef, Kind};
use chan_flags::{ChanRefusal, PowerSetting, Verdict};
use reg_journal::Refusal;

/// The refusal of an interface which this refusal of its channel is.
pub fn refusal_of(refusal: ChanRefusal) -> Refusal
    ensures { result ≡ refusal_of_channel refusal }
{
    match refusal {
        ChanRefusal::LacksChannel(khz) => Refusal::RadioLacks(khz),
        ChanRefusal::LacksWidth(mhz) => Refusal::RadioLacksWidth(mhz),
        ChanRefusal::NoRule(khz) => Refusal::NoRule(khz),
        ChanRefusal::TooNarrow(khz) => Refusal::Width(khz),
        ChanRefusal::NoOfdm(khz) => Refusal::NoOfdm(khz),
        ChanRefusal::NoIr(khz) => Refusal::NoIr(khz),
        ChanRefusal::NoOutdoor(khz) => Refusal::NoOutdoor(khz),
        ChanRefusal::AboveLimit(limit_mbm) => Refusal::Power(limit_mbm),
    }
}

/// Whether the channel is refused because the radio lacks it or its width.
pub(crate) fn is_lacking(verdict: Verdict) -> bool
    ensures { result ≡ is_lacking verdict }
{
    match verdict {
        Verdict::Refused(ChanRefusal::LacksChannel(_) | ChanRefusal::LacksWidth(_)) => true,
        Verdict::Refused(_) | Verdict::Fits { .. } => false,
    }
}

/// The power in mBm with which an interface of this kind may operate on the channel, where this is the
/// verdict of the rules, or the first refusal that ends its operation there.
pub fn permit(verdict: Verdict, kind: Kind, radio: &Radio, chan: &ChanDef) -> Result<u16, Refusal>
    requires { IsValidDef chan.now }
    ensures { (db : List Domain) (J : Journal) (x : Iface) → HasVerdict db J x kind radio.now chan.now verdict
        → MatchResult result (IsPermitted db J x chan.now) (EndsOperation db J x chan.now) }
{
    match verdict {
        Verdict::Refused(refusal) => Err(refusal_of(refusal)),
        Verdict::Fits { power_mbm, .. } => {
            if let Some(refusal) = radar_refusal(kind, radio, chan) {
                return Err(refusal);
            }
            if let Some(refusal) = unchecked_refusal(kind, radio, chan) {
                return Err(refusal);
            }
            Ok(power_mbm)
        }
    }
}

/// The length in ms of a check of the channel by an interface of this kind, where this is the verdict of
/// the rules for any power, or the first refusal that ends a check there.
pub fn check_permit(
    verdict: Verdict,
    kind: Kind,
    radio: &Radio,
    chan: &ChanDef,
) -> Result<u32, Refusal>
    requires { IsValidDef chan.now }
    ensures { (db : List Domain) (J : Journal) (x : Iface) → HasVerdict db J (as_auto x) kind radio.now chan.now verdict
        → MatchResult result (CheckFits db J x radio.now chan.now) (EndsCheck db J x chan.now) }
{
    match verdict {
        Verdict::Refused(refusal) => Err(refusal_of(refusal)),
        Verdict::Fits { check_ms, .. } => match radar_refusal(kind, radio, chan) {
            Some(refusal) => Err(refusal),
            None => Ok(check_ms),
        },
    }
}

/// Whether a check stands for each subchannel that has to be checked for radar, or none has to be. Radar
/// is asked before: no nonoccupancy runs on those that have to be checked.
fn has_nothing_to_check(radio: &Radio, chan: &ChanDef) -> bool
    requires { IsValidDef chan.now }
    ensures { (db : List Domain) (J : Journal) (x : Iface) → HasRules db J x.radio radio.now chan.now → AllMeet db J x.radio Quiet chan.now
        → MatchBool result (HasNothingToCheck db J x chan.now) (HasNothingToCheck db J x chan.now → ⊥) }
{
    match lowest_failing(radio, chan, Demand::Clear) {
        Some(_khz) => false,
        None => true,
    }
}

/// The length in ms of a check of the channel, which is one, by an interface that sends first, or why there
/// is nothing to check.
fn some_to_check(radio: &Radio, chan: &ChanDef, length_ms: u32) -> Result<u32, Refusal>
    requires { IsValidDef chan.now }
    ensures { (db : List Domain) (J : Journal) (x : Iface) → HasRules db J x.radio radio.now chan.now → AllMeet db J x.radio Quiet chan.now
        → MatchResult result (λ ms. (HasNothingToCheck db J x chan.now → ⊥) × (ms ≡ length_ms)) (λ e. HasNothingToCheck db J x chan.now × (e ≡ NothingToCheck)) }
{
    if has_nothing_to_check(radio, chan) {
        return Err(Refusal::NothingToCheck);
    }
    Ok(length_ms)
}

/// The length in ms of a check of the channel by the interface, which sends first, or the first refusal.
pub fn judge_check(
    interface: &Interface,
    interfaces: &[Interface],
    radio: &Radio,
    indoor: bool,
    chan: &ChanDef,
) -> Result<u32, Refusal>
    requires { IsValidDef chan.now }
    ensures { (db : List Domain) (J : Journal) (x : Iface) → IsJudged db J x interface.now interfaces.now radio.now indoor → IsTrue (initiates x.kind)
        → MatchResult result (λ ms. IsFree (BarsBeginning db J x chan.now) × IsLengthOf db J x chan.now ms) (BarsBeginning db J x chan.now) }
{
    let verdict = radio
        .chans
        .verdict(chan, interface.kind, indoor, PowerSetting::Auto);
    if !is_lacking(verdict) && passes_contexts(interface, interfaces, radio, chan) {
        return Err(Refusal::RadioLacksContext(radio.chans.profile().contexts()));
    }
    match check_permit(verdict, interface.kind, radio, chan) {
        Ok(length_ms) => some_to_check(radio, chan, length_ms),
        Err(refusal) => Err(refusal),
    }
}

/// The power in mBm with which the interface may start on the channel, or the first refusal. Whether the
/// radio has a context is asked after its channels and its width, and before the rules.
pub fn judge(
    interface: &Interface,
    interfaces: &[Interface],
    radio: &Radio,
    indoor: bool,
    chan: &ChanDef,
) -> Result<u16, Refusal>
    requires { IsValidDef chan.now }
    ensures { (db : List Domain) (J : Journal) (x : Iface) → IsJudged db J x interface.now interfaces.now radio.now indoor
        → MatchResult result (IsGranted db J x chan.now) (BarsOperation db J x chan.now) }
{
    let verdict = radio
        .chans
        .verdict(chan, interface.kind, indoor, interface.setting);
    if !is_lacking(verdict) && passes_contexts(interface, interfaces, radio, chan) {
        return Err(Refusal::RadioLacksContext(radio.chans.profile().contexts()));
    }
    permit(verdict, interface.kind, radio, chan)
}
