//! Powers in milliwatts as powers in mBm, hundredths of a dBm.
//!
//! A number with decimals is kept as a whole number: 1 is 10^12, and what is below the twelfth
//! decimal is dropped.

ghost use Rattle.std.specs.Prelude.{◌≡◌, ℕ, ◌+◌, ◌*◌, ◌/◌, ◌^◌, ◌<◌, ◌≤◌, IfSome, MatchOption};
ghost use Rattle.freq_range.specs.Power.{power, IsNextDecimal, IsMbm, IsMilliwatts};

/// The number 1, with 12 decimals.
const ONE: u64 = 1_000_000_000_000;

/// The number 1 for products of 128 bits.
const WIDE_ONE: u128 = 1_000_000_000_000;

/// What the front of a product leaves out: its last 53 bits.
const BEHIND_FRONT: u128 = 9_007_199_254_740_992;

/// The inverse of 10^12, as a whole number of 2^103.
const INVERSE: u128 = 10_141_204_801_825_835_211;

/// 2^103 over what the front leaves out.
const INVERSE_UNIT: u128 = 1_125_899_906_842_624;

/// One decimal of a logarithm, and the number whose logarithm the further decimals are.
#[derive(Clone, Copy)]
struct Decimal {
    digit: u16,
    rest: u64,
}

/// The power in mBm of a power in milliwatts, as regdb's texts write them (`200 mW`): a thousand
/// times the decimal logarithm, of which three decimals are kept. `None` exactly outside 1 to
/// 1,000,000 mW.
pub fn mw_to_mbm(mw: u32) -> Option<u16>
    ensures value { MatchOption result (IsMilliwatts mw → ⊥) (λ mbm. IsMbm mw mbm) }
    ensures only { IfSome result (λ mbm. (other : ℕ) → IsMbm mw other → other ≡ mbm) }
{
    if (1..=1_000_000).contains(&mw) {
        Some(logarithm(mw))
    } else {
        None
    }
}

/// A thousand times the decimal logarithm: its whole part and three decimals.
fn logarithm(mw: u32) -> u16
    requires { IsMilliwatts mw }
    ensures { IsMbm mw result }
{
    let whole = mw.ilog10();
    let first = next_decimal(mantissa(mw, whole));
    let second = next_decimal(first.rest);
    let third = digit_of(tenth_power(second.rest));
    1000 * whole as u16 + 100 * first.digit + 10 * second.digit + third
}

/// The milliwatts over the power of ten that they hold.
fn mantissa(mw: u32, whole: u32) -> u64
    requires range { mw ≤ 1000000 }
    requires low { 10 ^ whole ≤ mw }
    requires high { mw < 10 * 10 ^ whole }
    ensures value { result ≡ mw * 10 ^ 12 / 10 ^ whole }
    ensures at_least_one { 10 ^ 12 ≤ result }
    ensures below_ten { result < 10 ^ 13 }
{
    u64::from(mw) * ONE / 10u64.pow(whole)
}

/// The next decimal of a logarithm: how many factors of ten the tenth power has.
fn next_decimal(mantissa: u64) -> Decimal
    requires at_least_one { 10 ^ 12 ≤ mantissa }
    requires below_ten { mantissa < 10 ^ 13 }
    ensures value { IsNextDecimal mantissa result.digit result.rest }
    ensures digit { result.digit < 10 }
    ensures at_least_one { 10 ^ 12 ≤ result.rest }
    ensures below_ten { result.rest < 10 ^ 13 }
{
    let tenth = tenth_power(mantissa);
    let digit = digit_of(tenth);
    Decimal {
        digit,
        rest: rest_of(tenth, digit),
    }
}

/// How many factors of ten a number from 1 to below 10^10 has.
fn digit_of(tenth: u128) -> u16
    requires at_least_one { 10 ^ 12 ≤ tenth }
    requires below { tenth < 10 ^ 22 }
    ensures least { 10 ^ (12 + result) ≤ tenth }
    ensures most { tenth < 10 ^ (13 + result) }
    ensures digit { result < 10 }
{
    (tenth.ilog10() - 12) as u16
}

/// What is left of the number where these factors of ten are taken out.
fn rest_of(tenth: u128, digit: u16) -> u64
    requires least { 10 ^ (12 + digit) ≤ tenth }
    requires most { tenth < 10 ^ (13 + digit) }
    requires digit { digit < 10 }
    ensures value { result ≡ tenth / 10 ^ digit }
    ensures at_least_one { 10 ^ 12 ≤ result }
    ensures below_ten { result < 10 ^ 13 }
{
    // One division by 10^12 serves each number of factors: the others are multiplied in before.
    let factors = 10u128.pow(12 - u32::from(digit));
    over_one(tenth * factors) as u64
}

/// The tenth power of a number from 1 to below 10.
fn tenth_power(mantissa: u64) -> u128
    requires at_least_one { 10 ^ 12 ≤ mantissa }
    requires below_ten { mantissa < 10 ^ 13 }
    ensures value { result ≡ power mantissa 9 }
    ensures at_least_one { 10 ^ 12 ≤ result }
    ensures below { result < 10 ^ 22 }
{
    let mut product = u128::from(mantissa);
    for factor in 0..9u32 {
        product = over_one(product * u128::from(mantissa));
    }
    product
}

/// A product over the number 1. A division of 128 bits is slow; so the quotient is taken nearly, and
/// what the product is above it, which has 64 bits, is divided.
fn over_one(product: u128) -> u128
    requires { product < 10 ^ 35 }
    ensures { result ≡ product / 10 ^ 12 }
{
    let near = nearly_over_one(product);
    let left = (product - near * WIDE_ONE) as u64;
    near + u128::from(left / ONE)
}

/// A product over the number 1 or little less: its front times the inverse of 10^12.
fn nearly_over_one(product: u128) -> u128
    requires { product < 10 ^ 35 }
    ensures most { result * 10 ^ 12 ≤ product }
    ensures near { product < result * 10 ^ 12 + 2 ^ 64 }
{
    let front = (product / BEHIND_FRONT) as u64;
    u128::from(front) * INVERSE / INVERSE_UNIT
}
