//! What a radio can do.

ghost use Rattle.std.specs.Prelude.{◌≡◌, ◌==◌, ◌||◌, ◌≤◌, IsTrue, IfSome, MatchOption};
ghost use Rattle.chan_flags.specs.Profiles.{has_band, is_width, abilities, IsProfile};

use freq_range::Band;
use std::marker::Model;

/// The bands that a radio has.
#[derive(Clone, Copy, Debug, PartialEq, Eq)]
pub struct Bands {
    pub ghz2: bool,
    pub ghz5: bool,
    pub ghz6: bool,
}

impl Bands {
    /// Whether the band is one of them.
    pub fn has(&self, band: Band) -> bool
        ensures has { result ≡ has_band self.now band }
    {
        match band {
            Band::Ghz2 => self.ghz2,
            Band::Ghz5 => self.ghz5,
            Band::Ghz6 => self.ghz6,
        }
    }
}

/// What a radio can do (`struct wiphy`).
#[derive(Clone, Copy, Debug, PartialEq, Eq)]
pub struct Profile {
    bands: Bands,
    width_mhz: u16,
    radar_mhz: u16,
    power_mbm: u16,
    contexts: u8,
    self_managed: bool,
    deaf: bool,
}

impl Model for Profile {
    ghost use Rattle.chan_flags.specs.Profiles.{Abilities, IsProfile, abilities};

    ghost Value = { Abilities };

    ghost view = { λ p. abilities p.bands p.width_mhz p.radar_mhz p.power_mbm p.contexts p.self_managed p.deaf };

    ghost invariant = { λ p. IsProfile (abilities p.bands p.width_mhz p.radar_mhz p.power_mbm p.contexts p.self_managed p.deaf) };

    ghost inverse = { λ a. record {
      bands = a.bands;
      width_mhz = a.width_mhz;
      radar_mhz = a.radar_mhz;
      power_mbm = a.power_mbm;
      contexts = a.contexts;
      self_managed = a.self_managed;
      deaf = a.deaf;
    } };
}

/// Whether the width, in MHz, is one that a radio may have.
fn is_width(mhz: u16) -> bool
    ensures { result ≡ is_width mhz }
{
    mhz == 20 || mhz == 40 || mhz == 80 || mhz == 160 || mhz == 320
}

impl Profile {
    /// A radio with these bands, its greatest width, its greatest width on a channel that is checked
    /// for radar (0 where it can't check), both in MHz, its greatest power in mBm, how many channels
    /// it can be on at once, whether it is self-managed, and whether it ignores country
    /// elements. `None` exactly where there is no band, a width is none of 20, 40, 80, 160 and 320, or
    /// it can't be on 1 to 8 channels at once.
    pub fn new(
        bands: Bands,
        width_mhz: u16,
        radar_mhz: u16,
        power_mbm: u16,
        contexts: u8,
        self_managed: bool,
        deaf: bool,
    ) -> Option<Profile>
        ensures profile { let p = abilities bands width_mhz radar_mhz power_mbm contexts self_managed deaf in
            MatchOption result (IsProfile p → ⊥) (λ profile. profile ≡ p) }
        ensures valid { IfSome result IsProfile }
    {
        let has_band = bands.ghz2 || bands.ghz5 || bands.ghz6;
        let is_radar_width = radar_mhz == 0 || is_width(radar_mhz);
        if has_band && is_width(width_mhz) && is_radar_width && 1 <= contexts && contexts <= 8 {
            Some(Profile {
                bands,
                width_mhz,
                radar_mhz,
                power_mbm,
                contexts,
                self_managed,
                deaf,
            })
        } else {
            None
        }
    }

    /// Its bands, at least one.
    pub fn bands(&self) -> Bands
        ensures bands { result ≡ self.now.bands }
        ensures valid { IsProfile self.now }
    {
        self.bands
    }

    /// Its greatest width, in MHz.
    pub fn width_mhz(&self) -> u16
        ensures width { result ≡ self.now.width_mhz }
        ensures known { IsTrue (is_width result) }
    {
        self.width_mhz
    }

    /// Its greatest width, in MHz, on a channel that is checked for radar (CAC), 0 where it can't check.
    pub fn radar_mhz(&self) -> u16
        ensures radar { result ≡ self.now.radar_mhz }
        ensures known { IsTrue (result == 0 || is_width result) }
    {
        self.radar_mhz
    }

    /// Its greatest power, in mBm.
    pub fn power_mbm(&self) -> u16
        ensures { result ≡ self.now.power_mbm }
    {
        self.power_mbm
    }

    /// How many channels it can be on at once.
    pub fn contexts(&self) -> u8
        ensures contexts { result ≡ self.now.contexts }
        ensures some { 1 ≤ result }
        ensures few { result ≤ 8 }
    {
        self.contexts
    }

    /// Whether it is self-managed: no regdom but its own applies (`REGULATORY_WIPHY_SELF_MANAGED`).
    pub fn self_managed(&self) -> bool
        ensures { result ≡ self.now.self_managed }
    {
        self.self_managed
    }

    /// Whether it ignores country elements (`REGULATORY_COUNTRY_IE_IGNORE`).
    pub fn deaf(&self) -> bool
        ensures { result ≡ self.now.deaf }
    {
        self.deaf
    }
}
