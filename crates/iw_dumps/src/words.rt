//! The words for bands, kinds, widths and regions.

ghost use Rattle.std.specs.Prelude.{◌≡◌};
ghost use Rattle.iw_dumps.specs.DumpTexts.{region_text};
ghost use Rattle.iw_dumps.specs.Spelling.{bands_text, kind_text, operating_text, width_text};

use chan_def::{Kind, Width};
use chan_flags::Bands;
use rule_tables::Region;

/// The numbers of the bands, ascending, parted by commas.
pub fn bands_text(bands: Bands) -> &'static [u8]
    ensures { result.now ≡ bands_text bands }
{
    match (bands.ghz2, bands.ghz5, bands.ghz6) {
        (true, true, true) => b"2,5,6",
        (true, true, false) => b"2,5",
        (true, false, true) => b"2,6",
        (true, false, false) => b"2",
        (false, true, true) => b"5,6",
        (false, true, false) => b"5",
        (false, false, true) => b"6",
        (false, false, false) => b"",
    }
}

/// The kind of an interface.
pub fn kind_text(kind: Kind) -> &'static [u8]
    ensures { result.now ≡ kind_text kind }
{
    match kind {
        Kind::Ap => b"__ap",
        Kind::Ibss => b"ibss",
        Kind::Mesh => b"mesh",
        Kind::Station => b"managed",
        Kind::Monitor => b"monitor",
    }
}

/// How an interface of the kind operates.
pub fn operating_text(kind: Kind) -> &'static [u8]
    ensures { result.now ≡ operating_text kind }
{
    match kind {
        Kind::Ap => b"ap",
        Kind::Ibss => b"ibss",
        Kind::Mesh => b"mesh",
        Kind::Station => b"station",
        Kind::Monitor => b"monitor",
    }
}

/// A width, in MHz.
pub fn width_text(width: Width) -> &'static [u8]
    ensures { result.now ≡ width_text width }
{
    match width {
        Width::Noht => b"NOHT",
        Width::W20 => b"20",
        Width::W40 => b"40",
        Width::W80 => b"80",
        Width::W160 => b"160",
        Width::W320 => b"320",
    }
}

/// The name of a region, unset too.
pub fn region_text(region: Region) -> &'static [u8]
    ensures { result.now ≡ region_text region }
{
    match region {
        Region::Unset => b"DFS-UNSET",
        Region::Fcc => b"DFS-FCC",
        Region::Etsi => b"DFS-ETSI",
        Region::Jp => b"DFS-JP",
    }
}
