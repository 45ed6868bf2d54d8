//! The digits of a number without its trailing zeros.

ghost use Rattle.std.specs.Prelude.{◌≡◌, ◌+◌, ◌*◌, ◌^◌, ◌<◌, ◌≤◌, length, min};
ghost use Rattle.net_lex.specs.Significands.{with_digit, with_digits};
ghost use Rattle.net_lex.specs.Saturation.{Follows};

/// Represents every number above the limit.
pub(crate) const PAST_LIMIT: u64 = 1_000_000_000_001;

pub(crate) fn ten_to(power: u32) -> u64
    requires { power ≤ 12 }
    ensures value { result ≡ 10 ^ power }
    ensures small { result < PAST_LIMIT }
{
    10u64.pow(power)
}

/// Returns the number `digits` followed by `places - 1` zeros and a digit, saturated at
/// `PAST_LIMIT`.
fn grown(digits: u64, places: u128, digit: u8) -> u64
    requires { digits ≤ PAST_LIMIT }
    ensures { result ≡ min (digits * 10 ^ places + digit) PAST_LIMIT }
{
    if places == 1 {
        (10 * digits + u64::from(digit)).min(PAST_LIMIT)
    } else if digits == 0 {
        u64::from(digit)
    } else if places > 12 {
        PAST_LIMIT
    } else {
        let all = u128::from(digits) * u128::from(ten_to(places as u32)) + u128::from(digit);
        all.min(u128::from(PAST_LIMIT)) as u64
    }
}

/// The digits of a number without its trailing zeros, saturated at `PAST_LIMIT`, and the number of
/// trailing zeros.
#[derive(Clone, Copy)]
pub(crate) struct Significand {
    pub(crate) digits: u64,
    pub(crate) zeros: u128,
}

fn with_digit(number: Significand, byte: u8) -> Significand
    requires small { number.digits ≤ PAST_LIMIT }
    requires room { number.zeros < 2 ^ 100 }
    ensures value { Follows PAST_LIMIT number result (λ g. with_digit g byte) }
    ensures small { result.digits ≤ PAST_LIMIT }
    ensures room { result.zeros ≤ number.zeros + 1 }
{
    if byte == b'0' {
        Significand {
            digits: number.digits,
            zeros: number.zeros + 1,
        }
    } else {
        let digits = grown(number.digits, number.zeros + 1, byte.saturating_sub(b'0'));
        Significand { digits, zeros: 0 }
    }
}

pub(crate) fn with_digits(number: Significand, text: &[u8]) -> Significand
    requires small { number.digits ≤ PAST_LIMIT }
    requires room { number.zeros < 2 ^ 99 }
    ensures value { Follows PAST_LIMIT number result (λ g. with_digits g text.now) }
    ensures small { result.digits ≤ PAST_LIMIT }
    ensures room { result.zeros ≤ number.zeros + length text.now }
{
    let mut number = number;
    for byte in text {
        number = with_digit(number, *byte);
    }
    number
}
