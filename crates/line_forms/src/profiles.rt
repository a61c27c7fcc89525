//! Profiles of radios, part by part.

ghost use Rattle.std.specs.Prelude.{◌≡◌, ◌==◌, ◌||◌, ◌≤◌, IsTrue};
ghost use Rattle.chan_flags.specs.Profiles.{IsProfile, abilities, has_some, is_width};
ghost use Rattle.line_forms.specs.Told.{nothing, with_bands, with_contexts, with_marks, with_most_power, with_radar, with_width};

use chan_flags::{Bands, Profile};

/// The profile of these parts.
fn profile_of(
    bands: Bands,
    width_mhz: u16,
    radar_mhz: u16,
    power_mbm: u16,
    contexts: u8,
    self_managed: bool,
    deaf: bool,
) -> Profile
    requires { IsProfile (abilities bands width_mhz radar_mhz power_mbm contexts self_managed deaf) }
    ensures { result ≡ abilities bands width_mhz radar_mhz power_mbm contexts self_managed deaf }
{
    match Profile::new(
        bands,
        width_mhz,
        radar_mhz,
        power_mbm,
        contexts,
        self_managed,
        deaf,
    ) {
        Some(profile) => profile,
        None => unreachable!(),
    }
}

/// A profile that stands where none is told.
pub fn first_profile() -> Profile
    ensures { result ≡ nothing.profile }
{
    let bands = Bands {
        ghz2: true,
        ghz5: false,
        ghz6: false,
    };
    profile_of(bands, 20, 0, 0, 1, false, false)
}

/// With these bands.
pub fn with_bands(p: &Profile, bands: Bands) -> Profile
    requires { IsTrue (has_some bands) }
    ensures { result ≡ with_bands bands p.now }
{
    let _valid = p.bands();
    profile_of(
        bands,
        p.width_mhz(),
        p.radar_mhz(),
        p.power_mbm(),
        p.contexts(),
        p.self_managed(),
        p.deaf(),
    )
}

/// With this greatest width, in MHz.
pub fn with_width(p: &Profile, width_mhz: u16) -> Profile
    requires { IsTrue (is_width width_mhz) }
    ensures { result ≡ with_width width_mhz p.now }
{
    profile_of(
        p.bands(),
        width_mhz,
        p.radar_mhz(),
        p.power_mbm(),
        p.contexts(),
        p.self_managed(),
        p.deaf(),
    )
}

/// With this greatest width where it checks for radar (CAC), in MHz.
pub fn with_radar(p: &Profile, radar_mhz: u16) -> Profile
    requires { IsTrue (radar_mhz == 0 || is_width radar_mhz) }
    ensures { result ≡ with_radar radar_mhz p.now }
{
    profile_of(
        p.bands(),
        p.width_mhz(),
        radar_mhz,
        p.power_mbm(),
        p.contexts(),
        p.self_managed(),
        p.deaf(),
    )
}

/// With this greatest power, in mBm.
pub fn with_most_power(p: &Profile, power_mbm: u16) -> Profile
    ensures { result ≡ with_most_power power_mbm p.now }
{
    profile_of(
        p.bands(),
        p.width_mhz(),
        p.radar_mhz(),
        power_mbm,
        p.contexts(),
        p.self_managed(),
        p.deaf(),
    )
}

/// On so many channels at once.
pub fn with_contexts(p: &Profile, contexts: u8) -> Profile
    requires some { 1 ≤ contexts }
    requires few { contexts ≤ 8 }
    ensures { result ≡ with_contexts contexts p.now }
{
    profile_of(
        p.bands(),
        p.width_mhz(),
        p.radar_mhz(),
        p.power_mbm(),
        contexts,
        p.self_managed(),
        p.deaf(),
    )
}

/// Self-managed or not, and ignoring country elements or not.
pub fn with_marks(p: &Profile, self_managed: bool, deaf: bool) -> Profile
    ensures marks { result ≡ with_marks self_managed deaf p.now }
    ensures valid { IsProfile result }
{
    profile_of(
        p.bands(),
        p.width_mhz(),
        p.radar_mhz(),
        p.power_mbm(),
        p.contexts(),
        self_managed,
        deaf,
    )
}
