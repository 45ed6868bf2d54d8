//! The primitive operations on bytes: the first bytes, the length of a run of one class, and
//! splitting.
ghost use Rattle.std.specs.Prelude.{◌≡◌, ◌≤◌, Bool, true, length, take, drop, slice_index};
ghost use Rattle.std.specs.List.{prefix_len};
ghost use Rattle.std.specs.Char.{is_ascii_digit};
ghost use Rattle.net_lex.specs.Bytes.{digits_at};

/// Returns the first byte, or 0 if there is none.
pub fn first(bytes: &[u8]) -> u8
    ensures { result ≡ slice_index bytes.now 0 }
{
    bytes.first().copied().unwrap_or(0)
}

/// Returns the second byte, or 0 if there is none.
pub fn second(bytes: &[u8]) -> u8
    ensures { result ≡ slice_index bytes.now 1 }
{
    bytes.get(1).copied().unwrap_or(0)
}

/// Returns the byte at `index`, or 0 past the end.
pub fn byte_at(bytes: &[u8], index: usize) -> u8
    ensures { result ≡ slice_index bytes.now index }
{
    bytes.get(index).copied().unwrap_or(0)
}

/// Returns the bytes after the first.
pub fn rest(bytes: &[u8]) -> &[u8]
    ensures { result.now ≡ drop 1 bytes.now }
{
    bytes.get(1..).unwrap_or(bytes)
}

/// Splits off the leading digits.
pub fn digits(bytes: &[u8]) -> (&[u8], &[u8])
    ensures { (result.0.now, result.1.now) ≡ digits_at bytes.now }
{
    bytes.split_at(digits_len(bytes))
}

fn digits_len(bytes: &[u8]) -> usize
    ensures value { result ≡ prefix_len is_ascii_digit bytes.now }
    ensures within { result ≤ length bytes.now }
{
    bytes.iter().take_while(|b| b.is_ascii_digit()).count()
}
