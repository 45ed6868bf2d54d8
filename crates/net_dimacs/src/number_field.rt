//! Numbers of a file: the one scanner of fields that are numbers.

ghost use Rattle.std.specs.Prelude.{◌≡◌, ℕ, ◌-◌, ◌^◌, ◌<◌, ◌≤◌, ◌∷◌, List, Some, None, true, IfSome, MatchOption, length, take, min, neg_ℤ, pos, if◌then◌else◌};
ghost use Rattle.std.specs.Option.{option_map};
ghost use Rattle.std.specs.Str.{all_ascii_digits};
ghost use Rattle.net_dimacs.specs.Lines.{fields_of, natural_of, number_of, value_after};
ghost use Rattle.net_dimacs.specs.Numbers.{cut, cut_number, cut_numbers, first_number, BeginsWithDigits};

use crate::fields::{is_blank, split_field};
use crate::integer::short_size_of;

/// Splits off the first field of some bytes as a saturated number. Returns `None` if it is not a
/// number.
#[inline(always)]
pub fn split_number(bytes: &[u8]) -> Option<(i64, &[u8])>
    ensures { MatchOption result (first_number (cut_numbers bytes.now) ≡ None)
        (λ p. first_number (cut_numbers bytes.now) ≡ Some (p.0, cut_numbers p.1.now)) }
{
    match split_short_number(bytes) {
        Some(split) => Some(split),
        None => split_any_number(bytes),
    }
}

#[inline(never)]
fn split_any_number(bytes: &[u8]) -> Option<(i64, &[u8])>
    ensures { MatchOption result (first_number (cut_numbers bytes.now) ≡ None)
        (λ p. first_number (cut_numbers bytes.now) ≡ Some (p.0, cut_numbers p.1.now)) }
{
    let (field, rest) = split_field(bytes)?;
    let number = cut_number(field)?;
    Some((number, rest))
}

/// Parses a field as an optional sign and digits, saturating.
fn cut_number(field: &[u8]) -> Option<i64>
    ensures { result ≡ cut_number field.now }
{
    let (first, rest) = field.split_first()?;
    match *first {
        b'+' => Some(signed(false, size_of(rest)?)),
        b'-' => Some(signed(true, size_of(rest)?)),
        _ => Some(signed(false, size_of(field)?)),
    }
}

/// Parses digits, saturating at `u64::MAX`. Returns `None` if a byte is not a digit or there are
/// none.
fn size_of(digits: &[u8]) -> Option<u64>
    ensures { result ≡ option_map (λ n. min n (2 ^ 64 - 1)) (natural_of digits.now) }
{
    short_size_of(digits)
}

/// Returns the number with this sign and absolute value, saturated to the range -(2^63 - 1) to 2^63
/// - 1.
fn signed(negative: bool, size: u64) -> i64
    ensures { (n : ℕ) → size ≡ min n (2 ^ 64 - 1) → result ≡ cut (if negative then neg_ℤ (pos n) else pos n) }
{
    let size = size.min(i64::MAX as u64) as i64;
    if negative { -size } else { size }
}

/// Splits off the first field as a number in the most frequent form: one space or tab before it, no
/// `+`, and at most 18 digits.
#[inline(always)]
pub fn split_short_number(bytes: &[u8]) -> Option<(i64, &[u8])>
    ensures number { IfSome result (λ p. (field : List ℕ) × (fields_of bytes.now ≡ field ∷ fields_of p.1.now) × (number_of field ≡ Some p.0)) }
    ensures small { IfSome result (λ p. cut p.0 ≡ p.0) }
    ensures shorter { IfSome result (λ p. length p.1.now < length bytes.now) }
{
    let (blank, rest) = bytes.split_first()?;
    if !is_blank(*blank) {
        return None;
    }
    match rest.split_first() {
        Some((sign, digits)) if *sign == b'-' => {
            let (size, after) = split_digits(digits)?;
            Some((-size, after))
        }
        _ => split_digits(rest),
    }
}

/// Parses the digits up to the first space or tab; returns the number and the bytes after the
/// digits.
#[inline(always)]
fn split_digits(bytes: &[u8]) -> Option<(i64, &[u8])>
    ensures { IfSome result (λ p. BeginsWithDigits bytes.now p.1.now p.0) }
{
    let (size, count) = leading_digits(bytes);
    if count == 0 {
        return None;
    }
    let (_, after) = bytes.split_at(count);
    match after.first() {
        Some(byte) if !is_blank(*byte) => None,
        _ => Some((size as i64, after)),
    }
}

/// Parses at most 18 digits at the beginning; returns the number and the count of digits.
#[inline(always)]
fn leading_digits(bytes: &[u8]) -> (u64, usize)
    ensures within { result.1 ≤ length bytes.now }
    ensures digits { all_ascii_digits (take result.1 bytes.now) ≡ true }
    ensures size { result.0 ≡ value_after 0 (take result.1 bytes.now) }
    ensures small { result.0 < 10 ^ 18 }
{
    let mut size = 0u64;
    for (count, digit) in bytes.iter().enumerate() {
        if !digit.is_ascii_digit() || count == 18 {
            return (size, count);
        }
        size = size * 10 + u64::from(*digit - b'0');
    }
    (size, bytes.len())
}
