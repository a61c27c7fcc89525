//! Reads the band of a rule.

ghost use Rattle.std.specs.Prelude.{◌≡◌, MatchOption};
ghost use Rattle.text_lines.specs.inner.Reading.{band_at, khz_behind};

use crate::numbers::decimal_at;
use crate::scanner::after_byte;

/// The most kHz that a number of a band may have.
const MOST_KHZ: u32 = 4_294_967_295;

/// The decimals of MHz that kHz have.
const KHZ_PLACES: usize = 3;

/// The numbers of a band, in kHz.
#[derive(Clone, Copy)]
pub struct Band {
    pub start_khz: u32,
    pub end_khz: u32,
    pub width_khz: u32,
}

/// The MHz behind the byte, in kHz, and what is behind them.
#[tactic(auto, unfolding(crate::specs::inner::Reading::khz_behind))]
fn khz_behind(bytes: &[u8], byte: u8) -> Option<(u32, &[u8])>
    ensures { MatchOption result (khz_behind byte bytes.now ≡ None) (λ x. khz_behind byte bytes.now ≡ Some (x.0, x.1.now)) }
{
    let rest = after_byte(bytes, byte)?;
    decimal_at(rest, KHZ_PLACES, MOST_KHZ)
}

/// The valid band that stands first, `(START-END@WIDTH)`, and what is behind it.
#[tactic(auto, unfolding(crate::specs::inner::Reading::band_at))]
pub fn band_at(bytes: &[u8]) -> Option<(Band, &[u8])>
    ensures { MatchOption result (band_at bytes.now ≡ None) (λ x. band_at bytes.now ≡ Some (x.0, x.1.now)) }
{
    let (start_khz, rest) = khz_behind(bytes, b'(')?;
    let (end_khz, rest) = khz_behind(rest, b'-')?;
    let (width_khz, rest) = khz_behind(rest, b'@')?;
    let rest = after_byte(rest, b')')?;
    if 0 < start_khz && start_khz < end_khz && width_khz <= end_khz - start_khz {
        Some((
            Band {
                start_khz,
                end_khz,
                width_khz,
            },
            rest,
        ))
    } else {
        None
    }
}
