//! What a word at a slot tells.

ghost use Rattle.std.specs.Prelude.{◌≡◌, ◌↔◌, IsTrue, MatchOption, false, true};
ghost use Rattle.chan_def.specs.declared.definition.ChanDef.{ChanDef};
ghost use Rattle.chan_flags.specs.Profiles.{Abilities};
ghost use Rattle.line_forms.specs.Slots.{ByChannel, ByProfile, Fills, FillsChannel, FillsProfile, IsPeriod};
ghost use Rattle.line_forms.specs.Told.{Told};

use crate::draft::Draft;
use crate::pieces::{
    bands_of, channel_by_number, channel_by_word, code_of, is_hex, is_ssid, kind_of, number_within,
    radio_of, width_of,
};
use crate::profiles::{with_bands, with_contexts, with_most_power, with_radar, with_width};
use crate::slot::{Slot, text};
use crate::words::{is_word, number_of};
use chan_def::{ChanDef, Width};
use chan_flags::Profile;
use radio_drv::Name;

/// What is told where the word is accepted, which changes nothing else.
fn accepted<'a>(draft: &Draft<'a>, is: bool) -> Option<Draft<'a>>
    ensures { MatchOption result (is ≡ false) (λ e. (e ≡ draft.now) × (is ≡ true)) }
{
    if is { Some(draft.same()) } else { None }
}

/// The channel of these parts.
fn channel(control_khz: u32, width: Width, centre_khz: u32) -> ChanDef
    ensures { result ≡ record { control_khz = control_khz; width = width; centre_khz = centre_khz } }
{
    ChanDef {
        control_khz,
        width,
        centre_khz,
    }
}

/// The channel that the word at the slot makes of this one.
fn channel_by(slot: Slot, c: ChanDef, word: &[u8]) -> Option<ChanDef>
    ensures { MatchOption result ((x : ChanDef) → FillsChannel slot c word.now x → ⊥) (FillsChannel slot c word.now) }
{
    match slot {
        Slot::Mhz => {
            let khz = 1_000 * number_within(word, 1, 100_000)? as u32;
            Some(channel(khz, Width::Noht, khz))
        }
        Slot::ChannelNo => {
            let khz = channel_by_number(word)?;
            Some(channel(khz, Width::Noht, khz))
        }
        Slot::WordForm => channel_by_word(c.control_khz, word),
        Slot::Twenty if is_word(word, b"20") => {
            Some(channel(c.control_khz, Width::W20, c.control_khz))
        }
        Slot::Wide => {
            let width = width_of(word)?;
            Some(channel(c.control_khz, width, c.centre_khz))
        }
        Slot::Centre => {
            let khz = 1_000 * number_within(word, 1, 100_000)? as u32;
            Some(channel(c.control_khz, c.width, khz))
        }
        _ => None,
    }
}

/// The profile that the word at the slot makes of this one.
fn profile_by(slot: Slot, p: &Profile, word: &[u8]) -> Option<Profile>
    ensures { MatchOption result ((q : Abilities) → FillsProfile slot p.now word.now q → ⊥) (FillsProfile slot p.now word.now) }
{
    match slot {
        Slot::Bands => {
            let bands = bands_of(word)?;
            Some(with_bands(p, bands))
        }
        Slot::Width => {
            let width = width_of(word)?;
            Some(with_width(p, width.mhz()))
        }
        Slot::RadarWidth if is_word(word, b"0") => Some(with_radar(p, 0)),
        Slot::RadarWidth => {
            let width = width_of(word)?;
            Some(with_radar(p, width.mhz()))
        }
        Slot::MostPower => {
            let power = number_within(word, 0, 65_535)?;
            Some(with_most_power(p, power as u16))
        }
        Slot::Contexts => {
            let contexts = number_within(word, 1, 8)?;
            Some(with_contexts(p, contexts as u8))
        }
        _ => None,
    }
}

/// With the channel told that the word at the slot gives.
fn by_channel<'a>(slot: Slot, draft: &Draft<'a>, word: &[u8]) -> Option<Draft<'a>>
    ensures { MatchOption result ((e : Told) → ByChannel slot draft.now word.now e → ⊥) (ByChannel slot draft.now word.now) }
{
    let c = channel_by(slot, draft.chan(), word)?;
    Some(draft.with_chan(c))
}

/// With the profile told that the word at the slot gives.
fn by_profile<'a>(slot: Slot, draft: &Draft<'a>, word: &[u8]) -> Option<Draft<'a>>
    ensures { MatchOption result ((e : Told) → ByProfile slot draft.now word.now e → ⊥) (ByProfile slot draft.now word.now) }
{
    let profile = profile_by(slot, &draft.profile(), word)?;
    Some(draft.with_profile(profile))
}

/// What is told with the word at the slot. `None` exactly where it can't stand there.
pub fn step<'a>(slot: Slot, draft: &Draft<'a>, word: &'a [u8]) -> Option<Draft<'a>>
    ensures { MatchOption result ((e : Told) → Fills slot draft.now word.now e → ⊥) (Fills slot draft.now word.now) }
{
    match slot {
        Slot::Fixed(fixed) => accepted(draft, is_word(word, text(fixed))),
        Slot::Moment => Some(draft.with_moment(number_of(word)?)),
        Slot::Radio => Some(draft.with_radio(radio_of(word)?)),
        Slot::Bands => by_profile(Slot::Bands, draft, word),
        Slot::Width => by_profile(Slot::Width, draft, word),
        Slot::RadarWidth => by_profile(Slot::RadarWidth, draft, word),
        Slot::MostPower => by_profile(Slot::MostPower, draft, word),
        Slot::Contexts => by_profile(Slot::Contexts, draft, word),
        Slot::Rules => None,
        Slot::Hex if is_hex(word) => Some(draft.with_digits(word)),
        Slot::Hex => None,
        Slot::Code => Some(draft.with_code(code_of(word)?)),
        Slot::Mhz => by_channel(Slot::Mhz, draft, word),
        Slot::ChannelNo => by_channel(Slot::ChannelNo, draft, word),
        Slot::WordForm => by_channel(Slot::WordForm, draft, word),
        Slot::Twenty => by_channel(Slot::Twenty, draft, word),
        Slot::Wide => by_channel(Slot::Wide, draft, word),
        Slot::Centre => by_channel(Slot::Centre, draft, word),
        Slot::Name => Some(draft.with_name(Name::new(word)?)),
        Slot::OfKind => Some(draft.with_kind(kind_of(word)?)),
        Slot::Power => Some(draft.with_power(number_within(word, 0, 65_535)? as u16)),
        Slot::Ssid => accepted(draft, is_ssid(word)),
        Slot::Interval => accepted(draft, is_period(word)),
        Slot::Dtim => accepted(draft, is_period(word)),
    }
}

/// Whether the word is a number from 1 to 65,535.
pub fn is_period(word: &[u8]) -> bool
    ensures { IsTrue result ↔ IsPeriod word.now }
{
    match number_within(word, 1, 65_535) {
        Some(_) => true,
        None => false,
    }
}
