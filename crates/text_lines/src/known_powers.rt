//! Powers in milliwatts that were read before.

ghost use Rattle.std.specs.Prelude.{◌≡◌, ℕ};
ghost use Rattle.freq_range.specs.Power.{IsMbm, IsMilliwatts};

use freq_range::mw_to_mbm;

/// How many powers are kept: a prime, so that round numbers have places of their own.
const PLACES: usize = 61;

/// A power in milliwatts and the same in mBm, or none at 0 mW.
#[derive(Clone, Copy)]
struct KnownPower {
    milliwatts: u32,
    mbm: u16,
    ghost known: { (other : ℕ) → IsMbm milliwatts other → other ≡ mbm },
}

/// Powers in milliwatts that were read before, each at a place that its number tells. A text has
/// few different ones, and to take a logarithm is dearer than to look up the last one.
#[derive(Drop)]
pub struct KnownPowers {
    powers: [KnownPower; PLACES],
}

/// The milliwatts in mBm.
fn computed(milliwatts: u32) -> u16
    requires { IsMilliwatts milliwatts }
    ensures value { IsMbm milliwatts result }
    ensures only { (other : ℕ) → IsMbm milliwatts other → other ≡ result }
{
    match mw_to_mbm(milliwatts) {
        Some(mbm) => mbm,
        None => unreachable!(),
    }
}

impl KnownPowers {
    /// None yet.
    pub fn new() -> KnownPowers {
        KnownPowers {
            powers: [KnownPower {
                milliwatts: 0,
                mbm: 0,
            }; PLACES],
        }
    }

    /// The milliwatts in mBm, which are kept.
    pub fn mbm(&mut self, milliwatts: u32) -> u16
        requires { IsMilliwatts milliwatts }
        ensures { IsMbm milliwatts result }
    {
        let place = milliwatts as usize % PLACES;
        let known = self.powers[place];
        if known.milliwatts == milliwatts {
            return known.mbm;
        }
        let mbm = computed(milliwatts);
        self.powers[place] = KnownPower { milliwatts, mbm };
        mbm
    }
}
