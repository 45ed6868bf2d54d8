//! Splitting a numeral into digits and exponent.

ghost use Rattle.std.specs.Prelude.{◌≡◌, ◌==◌, ◌||◌, option_map};
ghost use Rattle.std.specs.Char.{is_ascii_digit};
ghost use Rattle.net_lex.specs.Bytes.{after_sign, marks_power, point};
ghost use Rattle.net_lex.specs.NumeralFront.{mantissa_at, power_at, numeral_at};
ghost use Rattle.net_lex.specs.NumeralViews.{mantissa_view, power_view, parts_view};

use crate::bytes::{digits, first, rest, second};

/// The parts of a numeral: the digits before and after the decimal point, and the exponent.
#[derive(Clone, Copy)]
pub(crate) struct Parts<'s> {
    pub(crate) whole: &'s [u8],
    pub(crate) fraction: &'s [u8],
    pub(crate) negative: bool,
    pub(crate) power: &'s [u8],
}

#[derive(Clone, Copy)]
struct Mantissa<'s> {
    whole: &'s [u8],
    fraction: &'s [u8],
    rest: &'s [u8],
}

#[derive(Clone, Copy)]
struct Power<'s> {
    negative: bool,
    power: &'s [u8],
    rest: &'s [u8],
}

#[tactic(auto, unfolding(crate::specs::NumeralFront::mantissa_at))]
fn mantissa_at(bytes: &[u8]) -> Option<Mantissa<'_>>
    ensures { option_map mantissa_view result ≡ mantissa_at bytes.now }
{
    let (whole, after) = digits(bytes);
    if first(after) == b'.' && second(after).is_ascii_digit() {
        let (fraction, after) = digits(rest(after));
        Some(Mantissa {
            whole,
            fraction,
            rest: after,
        })
    } else if !whole.is_empty() {
        Some(Mantissa {
            whole,
            fraction: &[],
            rest: after,
        })
    } else {
        None
    }
}

pub(crate) fn skip_sign(bytes: &[u8]) -> &[u8]
    ensures { result.now ≡ after_sign bytes.now }
{
    if first(bytes) == b'+' || first(bytes) == b'-' {
        rest(bytes)
    } else {
        bytes
    }
}

fn marks_power(byte: u8) -> bool
    ensures { result ≡ marks_power byte }
{
    byte == b'e' || byte == b'E' || byte == b'd' || byte == b'D'
}

#[tactic(auto, unfolding(crate::specs::NumeralFront::power_at))]
fn power_at(bytes: &[u8]) -> Power<'_>
    ensures { power_view result ≡ power_at bytes.now }
{
    let sign = rest(bytes);
    let unsigned = skip_sign(sign);
    if marks_power(first(bytes)) && first(unsigned).is_ascii_digit() {
        let (power, after) = digits(unsigned);
        Power {
            negative: first(sign) == b'-',
            power,
            rest: after,
        }
    } else {
        Power {
            negative: false,
            power: &[],
            rest: bytes,
        }
    }
}

/// Reads the unsigned numeral at the beginning; returns its parts and the bytes after it.
#[inline(never)]
#[tactic(auto, unfolding(crate::specs::NumeralFront::numeral_at))]
fn parts_at(bytes: &[u8]) -> Option<(Parts<'_>, &[u8])>
    ensures { option_map (λ x. (parts_view x.0, x.1.now)) result ≡ numeral_at bytes.now }
{
    let mantissa = mantissa_at(bytes)?;
    let power = power_at(mantissa.rest);
    let parts = Parts {
        whole: mantissa.whole,
        fraction: mantissa.fraction,
        negative: power.negative,
        power: power.power,
    };
    Some((parts, power.rest))
}

fn starts_numeral(byte: u8) -> bool
    ensures { result ≡ (is_ascii_digit byte || byte == point) }
{
    byte.is_ascii_digit() || byte == b'.'
}

/// Reads the unsigned numeral at the beginning; returns its parts and the bytes after it. Tests the
/// first byte before it calls the parser.
#[inline]
pub(crate) fn numeral_at(bytes: &[u8]) -> Option<(Parts<'_>, &[u8])>
    ensures { option_map (λ x. (parts_view x.0, x.1.now)) result ≡ numeral_at bytes.now }
{
    if starts_numeral(first(bytes)) {
        parts_at(bytes)
    } else {
        None
    }
}
