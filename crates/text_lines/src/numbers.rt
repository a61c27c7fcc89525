//! The values of digits.

ghost use Rattle.std.specs.Prelude.{◌≡◌, ◌≤◌, ◌<◌, ◌^◌, fold, min, ℕ, MatchOption, IfSome};
ghost use Rattle.text_lines.specs.inner.Reading.{decimal_at, decimal_from, digits_from, fraction_at, scaled_within, value_within};

use crate::scanner::number_at;

/// The value of digits behind those of another value, where it is below the cap, and the cap
/// otherwise.
#[tactic(auto, using(crate::proofs::Values::steps))]
fn capped(value: u64, digits: &[u8], cap: u64) -> u64
    requires cap { cap ≤ 2 ^ 40 }
    requires below { value ≤ cap }
    ensures value { result ≡ min (digits_from value digits.now) cap }
{
    let mut sum = value;
    for digit in digits {
        sum = (sum * 10 + u64::from(digit.saturating_sub(b'0'))).min(cap);
    }
    sum
}

/// The value of digits, where it is at most this.
#[tactic(auto, using(crate::proofs::Values::limits))]
pub fn value_within(digits: &[u8], most: u32) -> Option<u32>
    ensures value { MatchOption result (value_within most digits.now ≡ None) (λ value. value_within most digits.now ≡ Some value) }
    ensures small { IfSome result (λ value. value ≤ most) }
{
    let value = capped(0, digits, u64::from(most) + 1);
    if value <= u64::from(most) {
        Some(value as u32)
    } else {
        None
    }
}

/// The value of a decimal in units of the last place, where it has no more places and the value is
/// at most this.
#[tactic(auto, using(crate::proofs::Values::limits))]
fn scaled_within(whole: &[u8], fraction: &[u8], places: usize, most: u32) -> Option<u32>
    requires { places ≤ 3 }
    ensures value { MatchOption result (scaled_within places most whole.now fraction.now ≡ None)
        (λ value. scaled_within places most whole.now fraction.now ≡ Some value) }
    ensures small { IfSome result (λ value. value ≤ most) }
{
    if fraction.len() > places {
        return None;
    }
    let cap = u64::from(most) + 1;
    let value = capped(capped(0, whole, cap), fraction, cap);
    let scaled = value * 10u64.pow((places - fraction.len()) as u32);
    if scaled <= u64::from(most) {
        Some(scaled as u32)
    } else {
        None
    }
}

/// The digits behind a point, which may both lack, and what is behind them.
#[tactic(auto, unfolding(crate::specs::inner::Reading::fraction_at))]
fn fraction_at(bytes: &[u8]) -> Option<(&[u8], &[u8])>
    ensures { MatchOption result (fraction_at bytes.now ≡ None) (λ x. fraction_at bytes.now ≡ Some (x.0.now, x.1.now)) }
{
    match bytes {
        [b'.', rest @ ..] => number_at(rest),
        _ => Some((&[], bytes)),
    }
}

/// The value of a decimal whose digits before the point were read, and what is behind it.
#[tactic(auto, unfolding(crate::specs::inner::Reading::decimal_from))]
pub fn decimal_from<'a>(
    whole: &[u8],
    bytes: &'a [u8],
    places: usize,
    most: u32,
) -> Option<(u32, &'a [u8])>
    requires { places ≤ 3 }
    ensures found { MatchOption result (decimal_from places most whole.now bytes.now ≡ None)
        (λ x. decimal_from places most whole.now bytes.now ≡ Some (x.0, x.1.now)) }
    ensures small { IfSome result (λ x. x.0 ≤ most) }
{
    let (fraction, rest) = fraction_at(bytes)?;
    let value = scaled_within(whole, fraction, places, most)?;
    Some((value, rest))
}

/// The value of the decimal that stands first, in units of the last of so many places, and what is
/// behind it. It is `None` where there are more places or the value is above `most`.
#[tactic(auto, unfolding(crate::specs::inner::Reading::decimal_at))]
pub fn decimal_at(bytes: &[u8], places: usize, most: u32) -> Option<(u32, &[u8])>
    requires { places ≤ 3 }
    ensures found { MatchOption result (decimal_at places most bytes.now ≡ None) (λ x. decimal_at places most bytes.now ≡ Some (x.0, x.1.now)) }
    ensures small { IfSome result (λ x. x.0 ≤ most) }
{
    let (whole, rest) = number_at(bytes)?;
    decimal_from(whole, rest, places, most)
}
