//! Values by their numbers in messages: the last of each kind stands for a number that is no value's.

ghost use Rattle.std.specs.Prelude.{◌≡◌, ℕ};
ghost use Rattle.reply_reading.specs.inner.Values.{bands_numbered, flags_numbered, kind_numbered, region_numbered, width_numbered};

use chan_def::{Kind, Width};
use chan_flags::Bands;
use freq_range::RuleFlags;
use rule_tables::Region;

/// The kind of interfaces with this number.
pub fn kind_numbered(number: u32) -> Kind
    ensures { result ≡ kind_numbered number }
{
    match number {
        1 => Kind::Ibss,
        2 => Kind::Station,
        3 => Kind::Ap,
        6 => Kind::Monitor,
        _ => Kind::Mesh,
    }
}

/// The width with this number.
pub fn width_numbered(number: u32) -> Width
    ensures { result ≡ width_numbered number }
{
    match number {
        0 => Width::Noht,
        1 => Width::W20,
        2 => Width::W40,
        3 => Width::W80,
        5 => Width::W160,
        _ => Width::W320,
    }
}

/// The region with this number.
pub fn region_numbered(number: u8) -> Region
    ensures { result ≡ region_numbered number }
{
    match number {
        0 => Region::Unset,
        1 => Region::Fcc,
        2 => Region::Etsi,
        _ => Region::Jp,
    }
}

/// The flags of a rule that these bits say.
pub fn flags_numbered(bits: u32) -> RuleFlags
    ensures { result ≡ flags_numbered bits }
{
    RuleFlags {
        no_ofdm: bits % 2 == 1,
        no_outdoor: bits / 8 % 2 == 1,
        dfs: bits / 16 % 2 == 1,
        no_ir: bits / 128 % 2 == 1,
        auto_bw: bits / 2_048 % 2 == 1,
    }
}

/// The bands that these bits say.
pub fn bands_numbered(bits: u32) -> Bands
    ensures { result ≡ bands_numbered bits }
{
    Bands {
        ghz2: bits % 2 == 1,
        ghz5: bits / 2 % 2 == 1,
        ghz6: bits / 4 % 2 == 1,
    }
}
