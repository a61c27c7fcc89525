//! The numbers and the centres of channels.

ghost use Rattle.std.specs.Prelude.{◌≡◌, ℕ, ◌↔◌, ◌<◌, ◌⊎◌, IsTrue, IfSome, MatchOption};
ghost use Rattle.freq_range.specs.declared.channel.Band.{Band};
ghost use Rattle.freq_range.specs.Channels.{IsChannel, IsStepOfFour};

/// A band of channels (`enum nl80211_band`).
#[derive(Clone, Copy, Debug, PartialEq, Eq)]
pub enum Band {
    /// 2.4 GHz.
    Ghz2,
    /// 5 GHz.
    Ghz5,
    /// 6 GHz.
    Ghz6,
}

/// The centre, in kHz, of the band's channel of this number (`ieee80211_channel_to_freq_khz`).
/// `None` exactly where the table has no such channel.
pub fn channel_khz(band: Band, n: u8) -> Option<u32>
    ensures table { MatchOption result ((khz : ℕ) → IsChannel band n khz → ⊥) (λ khz. IsChannel band n khz) }
    ensures only { IfSome result (λ khz. (other : ℕ) → IsChannel band n other → other ≡ khz) }
{
    let above = 5_000 * u32::from(n);
    match band {
        Band::Ghz2 if n == 14 => Some(2_484_000),
        Band::Ghz2 if 1 <= n && n <= 13 => Some(2_407_000 + above),
        Band::Ghz5 if is_ghz5_number(n) => Some(5_000_000 + above),
        Band::Ghz6 if is_step(1, 233, n) => Some(5_950_000 + above),
        _ => None,
    }
}

/// The band and the number of the channel with this centre, in kHz
/// (`ieee80211_freq_khz_to_channel`). `None` exactly where the table has no such channel.
pub fn khz_channel(khz: u32) -> Option<(Band, u8)>
    ensures table { MatchOption result ((band : Band) (n : ℕ) → IsChannel band n khz → ⊥)
        (λ c. IsChannel c.0 c.1 khz) }
    ensures only { IfSome result
        (λ c. (band : Band) (n : ℕ) → IsChannel band n khz → (band ≡ c.0) × (n ≡ c.1)) }
{
    let (band, n) = candidate(khz);
    let n = u8::try_from(n).ok()?;
    match channel_khz(band, n) {
        Some(centre_khz) if centre_khz == khz => Some((band, n)),
        _ => None,
    }
}

/// The one channel that can have this centre, in kHz.
fn candidate(khz: u32) -> (Band, u32)
    ensures { (band : Band) (n : ℕ) → IsChannel band n khz
        → (band ≡ result.0) × (n ≡ result.1) × (n < 256) }
{
    if khz == 2_484_000 {
        (Band::Ghz2, 14)
    } else if khz < 5_000_000 {
        (Band::Ghz2, khz.saturating_sub(2_407_000) / 5_000)
    } else if khz < 5_950_000 {
        (Band::Ghz5, (khz - 5_000_000) / 5_000)
    } else {
        (Band::Ghz6, (khz - 5_950_000) / 5_000)
    }
}

/// Whether the number is one of those in 5 GHz.
fn is_ghz5_number(n: u8) -> bool
    ensures { IsTrue result ↔ (IsStepOfFour 36 64 n ⊎ (IsStepOfFour 100 144 n ⊎ IsStepOfFour 149 177 n)) }
{
    is_step(36, 64, n) || is_step(100, 144, n) || is_step(149, 177, n)
}

/// Whether the number is one of `first`, `first + 4` and so on to `last`.
fn is_step(first: u8, last: u8, n: u8) -> bool
    ensures { IsTrue result ↔ IsStepOfFour first last n }
{
    first <= n && n <= last && (n - first) % 4 == 0
}
