//! Channels and powers that attributes say.

ghost use Rattle.std.specs.Prelude.{◌≡◌, ℕ, MatchOption, IfSome};
ghost use Rattle.std.specs.Option.{option_copied};
ghost use Rattle.chan_def.specs.declared.definition.ChanDef.{ChanDef};
ghost use Rattle.chan_def.specs.declared.width.Width.{Width};
ghost use Rattle.chan_flags.specs.declared.verdict.PowerSetting.{PowerSetting};
ghost use Rattle.nl80211_cmds.specs.Values.{TellsWidth, TellsCentre, TellsChan, TellsPower};

use crate::values::number_in;
use chan_def::{ChanDef, Width};
use chan_flags::PowerSetting;

/// The greatest frequency, in MHz.
const MOST_MHZ: u32 = 100_000;

/// The width of a channel.
fn width_in(payload: Option<&[u8]>) -> Option<Width>
    ensures { MatchOption result ((width : Width) → TellsWidth (option_copied payload.entry) width → ⊥)
        (λ width. TellsWidth (option_copied payload.entry) width) }
{
    match payload {
        None => Some(Width::Noht),
        Some(payload) => Width::numbered(number_in(Some(payload), 0, 13)?),
    }
}

/// The centre of a channel of this width and this control frequency, both frequencies in MHz.
fn centre_in(payload: Option<&[u8]>, width: Width, mhz: u32) -> Option<u32>
    ensures { MatchOption result ((centre : ℕ) → TellsCentre (option_copied payload.entry) width mhz centre → ⊥)
        (λ centre. TellsCentre (option_copied payload.entry) width mhz centre) }
{
    match payload {
        None if width.khz() == 20_000 => Some(mhz),
        None => None,
        Some(payload) => {
            let centre = number_in(Some(payload), 1, MOST_MHZ)?;
            if width == Width::Noht && centre != mhz {
                None
            } else {
                Some(centre)
            }
        }
    }
}

/// A channel: by its control frequency, its width and its centre.
pub fn chan_in(
    frequency: Option<&[u8]>,
    width: Option<&[u8]>,
    centre: Option<&[u8]>,
) -> Option<ChanDef>
    ensures { MatchOption result
        ((c : ChanDef) → TellsChan (option_copied frequency.entry) (option_copied width.entry) (option_copied centre.entry) c → ⊥)
        (λ c. TellsChan (option_copied frequency.entry) (option_copied width.entry) (option_copied centre.entry) c) }
{
    let mhz = number_in(frequency, 1, MOST_MHZ)?;
    let width = width_in(width)?;
    let centre_mhz = centre_in(centre, width, mhz)?;
    Some(ChanDef {
        control_khz: 1_000 * mhz,
        width,
        centre_khz: 1_000 * centre_mhz,
    })
}

/// How power is set, and to what.
pub fn power_in(setting: Option<&[u8]>, level: Option<&[u8]>) -> Option<PowerSetting>
    ensures { MatchOption result
        ((s : PowerSetting) → TellsPower (option_copied setting.entry) (option_copied level.entry) s → ⊥)
        (λ s. TellsPower (option_copied setting.entry) (option_copied level.entry) s) }
{
    let setting = number_in(setting, 0, 2)?;
    if setting == 0 {
        return Some(PowerSetting::Auto);
    }
    let power = number_in(level, 0, 65_535)? as u16;
    if setting == 1 {
        Some(PowerSetting::Limit(power))
    } else {
        Some(PowerSetting::Fixed(power))
    }
}
