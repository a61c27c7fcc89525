//! Reads the power of a rule.

ghost use Rattle.std.specs.Prelude.{◌≡◌, IfSome, MatchOption};
ghost use Rattle.text_lines.specs.declared.power_reader.Amount.{Amount};
ghost use Rattle.text_lines.specs.inner.Reading.{IsAmount, MeansMbm, amount_at, behind_gain, power_at};

use crate::known_powers::KnownPowers;
use crate::numbers::{decimal_from, value_within};
use crate::scanner::{after_byte, after_word, number_at};

/// The most milliwatts that a text may name.
const MOST_MW: u32 = 1_000_000;

/// The most mBm that a rule may have.
const MOST_MBM: u32 = 65_535;

/// The decimals of dBm that mBm have.
const MBM_PLACES: usize = 2;

/// A power, as a text has it.
#[derive(Clone, Copy)]
enum Amount {
    Mbm(u16),
    Milliwatts(u32),
}

/// What is behind a gain, if one stands first.
#[tactic(auto, unfolding(crate::specs::inner::Reading::behind_gain))]
fn behind_gain(bytes: &[u8]) -> &[u8]
    ensures { result.now ≡ behind_gain bytes.now }
{
    if let Some(rest) = after_word(bytes, b"N/A,") {
        return rest;
    }
    match after_word(bytes, b"0,") {
        Some(rest) => rest,
        None => bytes,
    }
}

/// The amount that stands first, and what is behind it.
#[tactic(auto, unfolding(crate::specs::inner::Reading::amount_at))]
fn amount_at(bytes: &[u8]) -> Option<(Amount, &[u8])>
    ensures found { MatchOption result (amount_at bytes.now ≡ None) (λ x. amount_at bytes.now ≡ Some (x.0, x.1.now)) }
    ensures range { IfSome result (λ x. IsAmount x.0) }
{
    let (digits, rest) = number_at(bytes)?;
    match after_word(rest, b"mW") {
        Some(rest) => {
            let value = value_within(digits, MOST_MW)?;
            if value == 0 {
                return None;
            }
            Some((Amount::Milliwatts(value), rest))
        }
        None => {
            let (value, rest) = decimal_from(digits, rest, MBM_PLACES, MOST_MBM)?;
            Some((Amount::Mbm(value as u16), rest))
        }
    }
}

/// The amount in mBm.
fn mbm_of(amount: Amount, known: &mut KnownPowers) -> u16
    requires { IsAmount amount }
    ensures { MeansMbm amount result }
{
    match amount {
        Amount::Mbm(value) => value,
        Amount::Milliwatts(mw) => known.mbm(mw),
    }
}

/// The power that stands first, `,(POWER)`, in mBm, and what is behind it.
#[tactic(auto, unfolding(crate::specs::inner::Reading::power_at))]
pub fn power_at<'a>(bytes: &'a [u8], known: &mut KnownPowers) -> Option<(u16, &'a [u8])>
    ensures { MatchOption result (power_at bytes.now ≡ None)
        (λ x. (amount : Amount) × (power_at bytes.now ≡ Some (amount, x.1.now)) × MeansMbm amount x.0) }
{
    let rest = after_word(bytes, b",(")?;
    let (amount, rest) = amount_at(behind_gain(rest))?;
    let rest = after_byte(rest, b')')?;
    Some((mbm_of(amount, known), rest))
}
