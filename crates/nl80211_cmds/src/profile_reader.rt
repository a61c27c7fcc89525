//! Profiles of radios that attributes say.

ghost use Rattle.std.specs.Prelude.{◌≡◌, ◌+◌, ◌*◌, ℕ, ◌≤◌, MatchOption, IfSome};
ghost use Rattle.chan_flags.specs.Profiles.{Abilities};
ghost use Rattle.nl80211_cmds.specs.Values.{band_bits, bit_of, payload_of, TellsNumber, TellsProfile};

use crate::attribute::{BANDS, CONTEXTS, POWER, PROFILE_FLAGS, RADAR_MHZ, WIDTH_MHZ};
use crate::values::{number_in, payload_of};
use chan_flags::{Bands, Profile};
use nl_attrs::Attr;

/// The bands of these bits.
fn bands_of(bits: u32) -> Bands
    requires { bits ≤ 7 }
    ensures { band_bits result ≡ bits }
{
    Bands {
        ghz2: bits % 2 == 1,
        ghz5: bits / 2 % 2 == 1,
        ghz6: bits / 4 == 1,
    }
}

/// Whether the radio is self-managed, and whether it ignores country elements, by these bits.
fn flags_of(bits: u32) -> (bool, bool)
    requires { bits ≤ 3 }
    ensures { bit_of result.0 + 2 * bit_of result.1 ≡ bits }
{
    (bits % 2 == 1, bits / 2 == 1)
}

/// The number of the attribute of this kind, at most `most`.
pub fn number_of(attrs: &[Attr], kind: u16, most: u32) -> Option<u32>
    ensures number { MatchOption result ((n : ℕ) → TellsNumber (payload_of kind attrs.now) 0 most n → ⊥)
        (λ n. TellsNumber (payload_of kind attrs.now) 0 most n) }
    ensures only { IfSome result (λ n. (m : ℕ) → TellsNumber (payload_of kind attrs.now) 0 most m → m ≡ n) }
{
    number_in(payload_of(attrs, kind), 0, most)
}

/// The profile of a radio.
pub fn profile_in(attrs: &[Attr]) -> Option<Profile>
    ensures { MatchOption result ((p : Abilities) → TellsProfile attrs.now p → ⊥)
        (λ p. TellsProfile attrs.now p) }
{
    let bands = bands_of(number_of(attrs, BANDS, 7)?);
    let width_mhz = number_of(attrs, WIDTH_MHZ, 65_535)? as u16;
    let radar_mhz = number_of(attrs, RADAR_MHZ, 65_535)? as u16;
    let power_mbm = number_of(attrs, POWER, 65_535)? as u16;
    let contexts = number_of(attrs, CONTEXTS, 255)? as u8;
    let (self_managed, deaf) = flags_of(number_of(attrs, PROFILE_FLAGS, 3)?);
    Profile::new(
        bands,
        width_mhz,
        radar_mhz,
        power_mbm,
        contexts,
        self_managed,
        deaf,
    )
}
