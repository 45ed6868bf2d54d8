//! The integer value of a numeral.

ghost use Rattle.std.specs.Prelude.{◌≡◌, ◌+◌, ◌<◌, ◌≤◌, ℕ, min, pos, IfSome, MatchResult};
ghost use Rattle.net_lex.specs.Limits.{limits};
ghost use Rattle.net_lex.specs.NumeralViews.{parts_view};
ghost use Rattle.net_lex.specs.Numerals.{AllDigits, AreDigits, digits_value, mantissa, up, down, IsSized, signed, IsValue, IsNumFault};
ghost use Rattle.net_lex.specs.Significands.{whole_value};

use crate::bytes::first;
use crate::numeral::{Parts, numeral_at, skip_sign};
use crate::significand::{PAST_LIMIT, Significand, ten_to, with_digits};
use thiserror::Error;

/// Why a text has no integer value.
#[derive(Clone, Copy, Debug, PartialEq, Eq, Error)]
pub enum NumFault {
    /// `1e`
    #[error("not a numeral")]
    NotNumeral,
    /// `0.5`
    #[error("not a whole number")]
    NotWhole,
    /// `1e13`
    #[error("absolute value above 1000000000000")]
    TooLarge,
}

/// The maximum absolute value of a numeral.
pub const VALUE_LIMIT: u64 = net_normal::VALUE_LIMIT as u64;

/// Represents every exponent that is greater than any possible number of digits.
const FAR: u128 = 0x1_0000_0000_0000_0000_0000;

/// Returns the number written by digits, saturated at `FAR`.
fn power_of(digits: &[u8]) -> u128
    ensures { result ≡ min (digits_value digits.now) FAR }
{
    let mut power: u128 = 0;
    for byte in digits {
        power = (10 * power + u128::from(byte.saturating_sub(b'0'))).min(FAR);
    }
    power
}

/// Returns the integer value of `digits * 10 ^ (up - down)`.
#[tactic(auto, unfolding(crate::specs::Significands::whole_value))]
fn scaled(digits: u64, up: u128, down: u128) -> Result<u64, NumFault>
    requires { digits ≤ PAST_LIMIT }
    ensures { result ≡ whole_value limits.value digits up down }
{
    if digits == 0 {
        return Ok(0);
    }
    if up < down {
        return Err(NumFault::NotWhole);
    }
    let places = up - down;
    if places > 12 {
        return Err(NumFault::TooLarge);
    }
    let value = u128::from(digits) * u128::from(ten_to(places as u32));
    if value > u128::from(VALUE_LIMIT) {
        return Err(NumFault::TooLarge);
    }
    Ok(value as u64)
}

/// Returns the number written by digits, saturated at `PAST_LIMIT`.
fn saturated_value(digits: &[u8]) -> u64
    ensures { result ≡ min (digits_value digits.now) PAST_LIMIT }
{
    let mut value: u64 = 0;
    for byte in digits {
        value = (10 * value + u64::from(byte.saturating_sub(b'0'))).min(PAST_LIMIT);
    }
    value
}

/// Returns the number written by digits, or the reason why there is none.
fn plain_size(digits: &[u8]) -> Result<u64, NumFault>
    ensures { IsSized limits.value (digits_value digits.now) 0 0 result }
{
    let value = saturated_value(digits);
    if value > VALUE_LIMIT {
        return Err(NumFault::TooLarge);
    }
    Ok(value)
}

/// Returns the integer value of a numeral's parts, or the reason why there is none.
fn scaled_size(parts: &Parts<'_>) -> Result<u64, NumFault>
    requires whole { AllDigits parts.now.whole.now }
    requires fraction { AllDigits parts.now.fraction.now }
    ensures { let p = parts_view parts.now in IsSized limits.value (mantissa p) (up p) (down p) result }
{
    let none = Significand {
        digits: 0,
        zeros: 0,
    };
    let number = with_digits(with_digits(none, parts.whole), parts.fraction);
    let power = power_of(parts.power);
    let places = parts.fraction.len() as u128;
    if parts.negative {
        scaled(number.digits, number.zeros, places + power)
    } else {
        scaled(number.digits, number.zeros + power, places)
    }
}

/// Returns the integer value of a numeral's parts, or the reason why there is none.
fn size_of(parts: &Parts<'_>) -> Result<u64, NumFault>
    requires whole { AllDigits parts.now.whole.now }
    requires fraction { AllDigits parts.now.fraction.now }
    ensures { let p = parts_view parts.now in IsSized limits.value (mantissa p) (up p) (down p) result }
{
    if parts.fraction.is_empty() && parts.power.is_empty() {
        return plain_size(parts.whole);
    }
    scaled_size(parts)
}

fn with_sign(negative: bool, size: u64) -> i64
    requires { size ≤ limits.value }
    ensures { result ≡ signed negative size }
{
    if negative {
        -(size as i64)
    } else {
        size as i64
    }
}

/// Returns the number written by a text of at most twelve digits alone.
fn plain_value(text: &[u8]) -> Option<u64>
    ensures { IfSome result (λ value. AreDigits text.now × (value ≡ digits_value text.now) × (value ≤ limits.value)) }
{
    if text.is_empty() || text.len() > 12 {
        return None;
    }
    let mut value: u64 = 0;
    for byte in text {
        if !byte.is_ascii_digit() {
            return None;
        }
        value = 10 * value + u64::from(byte.saturating_sub(b'0'));
    }
    Some(value)
}

/// Returns the code of a value in two bytes: the value plus 1 if it is from 0 to 65,534, else 0.
pub(crate) fn code_of(value: i64) -> u16
    ensures value { (n : ℕ) → result ≡ 1 + n → value ≡ pos n }
    ensures small { (n : ℕ) → value ≡ pos n → n < 65535 → result ≡ 1 + n }
{
    if 0 <= value && value < 65_535 {
        value as u16 + 1
    } else {
        0
    }
}

/// Returns the exact value of a numeral with an optional sign, if it is an integer of absolute
/// value at most 10^12.
pub fn whole_of(numeral: &str) -> Result<i64, NumFault>
    ensures value { MatchResult result (λ v. IsValue limits.value numeral.now v) (λ why. IsNumFault limits.value numeral.now why) }
{
    let bytes = numeral.as_bytes();
    // Most numerals are digits alone, which take one pass.
    if let Some(value) = plain_value(bytes) {
        return Ok(with_sign(false, value));
    }
    let Some((parts, after)) = numeral_at(skip_sign(bytes)) else {
        return Err(NumFault::NotNumeral);
    };
    if !after.is_empty() {
        return Err(NumFault::NotNumeral);
    }
    match size_of(&parts) {
        Err(why) => Err(why),
        Ok(size) => Ok(with_sign(first(bytes) == b'-', size)),
    }
}
