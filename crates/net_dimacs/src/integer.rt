//! Integers of a certificate file.

ghost use Rattle.std.specs.Prelude.{◌≡◌, ◌≤◌, ℕ, ◌-◌, ◌^◌, ℤ, pos, neg_ℤ, min, map, if◌then◌else◌};
ghost use Rattle.std.specs.Option.{option_map};
ghost use Rattle.net_dimacs.specs.Lines.{fields_of, natural_of, number_of};
ghost use Rattle.net_dimacs.specs.Claims.{value_of, amount_of, place_of, integer_of, numbers_in};
ghost use Rattle.net_dimacs.specs.Numerals.{with_digit, size_after, size_of, with_integer};

use crate::fields::split_field;

/// An integer with any number of digits.
#[derive(Clone, Copy)]
pub enum Integer {
    Of(i128),
    /// The integer does not fit `i128`.
    TooLarge,
}

/// The numbers after the first field of a line.
#[derive(Clone, Copy)]
pub enum Numbers {
    Zero,
    One(Integer),
    Two(Integer, Integer),
    Three(Integer, Integer, Integer),
    /// Anything else, or more than three numbers.
    Other,
}

impl Integer {
    /// Returns the number if it fits `i128`.
    pub fn value(self) -> Option<i128>
        ensures { result ≡ value_of self }
    {
        match self {
            Integer::Of(number) => Some(number),
            Integer::TooLarge => None,
        }
    }

    /// Returns the number if it fits `i64`.
    pub fn amount(self) -> Option<i64>
        ensures { result ≡ amount_of self }
    {
        match self {
            Integer::Of(number) if -GREATEST - 1 <= number && number <= GREATEST => {
                Some(number as i64)
            }
            _ => None,
        }
    }

    /// Returns the index of a node, counted from 0, from its number, counted from 1.
    pub fn place(self) -> Option<u32>
        ensures { result ≡ place_of self }
    {
        match self {
            Integer::Of(number) if 1 <= number && number <= 4_294_967_296 => {
                Some((number - 1) as u32)
            }
            _ => None,
        }
    }
}

/// The greatest `i64`.
const GREATEST: i128 = 9_223_372_036_854_775_807;

impl Numbers {
    /// Adds a field: a number, or `None` for anything else.
    #[inline(always)]
    fn with(self, next: Option<Integer>) -> Numbers
        ensures { result ≡ with_integer self next }
    {
        match (self, next) {
            (Numbers::Zero, Some(a)) => Numbers::One(a),
            (Numbers::One(a), Some(b)) => Numbers::Two(a, b),
            (Numbers::Two(a, b), Some(c)) => Numbers::Three(a, b, c),
            _ => Numbers::Other,
        }
    }
}

/// Parses all fields as numbers.
pub fn numbers_of(bytes: &[u8]) -> Numbers
    ensures { result ≡ numbers_in (map number_of (fields_of bytes.now)) }
{
    let mut numbers = Numbers::Zero;
    let mut rest = bytes;
    while let Some((field, after)) = split_field(rest) {
        numbers = numbers.with(integer_of(field));
        rest = after;
    }
    numbers
}

/// Parses a field as an optional sign and digits.
fn integer_of(field: &[u8]) -> Option<Integer>
    ensures { result ≡ option_map integer_of (number_of field.now) }
{
    let (first, rest) = field.split_first()?;
    match *first {
        b'+' => Some(signed(false, size_of(rest)?)),
        b'-' => Some(signed(true, size_of(rest)?)),
        _ => Some(signed(false, size_of(field)?)),
    }
}

/// Returns the number with this sign and absolute value.
fn signed(negative: bool, size: u128) -> Integer
    ensures { (n : ℕ) → size ≡ min n (2 ^ 128 - 1) → result ≡ integer_of (if negative then neg_ℤ (pos n) else pos n) }
{
    let number = if negative {
        0i128.checked_sub_unsigned(size)
    } else {
        0i128.checked_add_unsigned(size)
    };
    match number {
        Some(number) => Integer::Of(number),
        None => Integer::TooLarge,
    }
}

/// Parses digits, saturating at `u128::MAX`. Returns `None` if a byte is not a digit or there are
/// none.
fn size_of(digits: &[u8]) -> Option<u128>
    ensures { result ≡ option_map (λ n. min n (2 ^ 128 - 1)) (natural_of digits.now) }
{
    // Most numbers are short.
    let size = short_size_of(digits)?;
    if size < u64::MAX {
        return Some(u128::from(size));
    }
    long_size_of(digits)
}

/// Parses digits, saturating at `u64::MAX`. Returns `None` if a byte is not a digit or there are
/// none.
pub fn short_size_of(digits: &[u8]) -> Option<u64>
    ensures { result ≡ size_of (2 ^ 64 - 1) digits.now }
{
    let mut size = 0u64;
    for digit in digits {
        if !digit.is_ascii_digit() {
            return None;
        }
        size = with_short_digit(size, *digit);
    }
    if digits.is_empty() { None } else { Some(size) }
}

#[inline(always)]
fn with_short_digit(size: u64, digit: u8) -> u64
    requires { 48 ≤ digit }
    ensures { result ≡ with_digit (2 ^ 64 - 1) size digit }
{
    size.saturating_mul(10)
        .saturating_add(u64::from(digit - b'0'))
}

/// Parses digits, saturating at `u128::MAX`. Returns `None` if a byte is not a digit or there are
/// none.
#[inline(never)]
fn long_size_of(digits: &[u8]) -> Option<u128>
    ensures { result ≡ size_of (2 ^ 128 - 1) digits.now }
{
    let mut size = 0u128;
    for digit in digits {
        if !digit.is_ascii_digit() {
            return None;
        }
        size = with_long_digit(size, *digit);
    }
    if digits.is_empty() { None } else { Some(size) }
}

#[inline(always)]
fn with_long_digit(size: u128, digit: u8) -> u128
    requires { 48 ≤ digit }
    ensures { result ≡ with_digit (2 ^ 128 - 1) size digit }
{
    size.saturating_mul(10)
        .saturating_add(u128::from(digit - b'0'))
}
