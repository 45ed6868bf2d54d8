//! Bare words of data files.
ghost use Rattle.std.specs.Prelude.{◌≡◌, ◌≤◌, ◌&&◌, nat_lt, length};
ghost use Rattle.std.specs.List.{prefix_len};
ghost use Rattle.std.specs.Str.{IsCharBoundary};
ghost use Rattle.unicode_ident.specs.Ident.{is_xid_continue};
ghost use Rattle.net_lex.specs.Characters.{is_word_char};
ghost use Rattle.net_lex.specs.Shapes.{char_len, word_len};

use crate::bytes::byte_at;

/// Returns whether an identifier can continue with this character. Uses Unicode's table only for
/// characters outside ASCII.
#[inline]
fn continues_identifier(c: char) -> bool
    ensures { result ≡ is_xid_continue c }
{
    if c.is_ascii() {
        c.is_ascii_alphanumeric() || c == '_'
    } else {
        unicode_ident::is_xid_continue(c)
    }
}

/// Returns whether a bare word can contain this character.
#[inline]
fn is_word_char(c: char) -> bool
    ensures { result ≡ is_word_char c }
{
    continues_identifier(c) || c == '.' || c == '+' || c == '-'
}

/// Returns the length of the first character in bytes, or 0 for an empty text.
pub(crate) fn char_len(text: &str) -> usize
    ensures { result ≡ char_len text.now }
{
    match text.chars().next() {
        Some(c) => c.len_utf8(),
        None => 0,
    }
}

/// Returns whether a bare word can contain this byte as an ASCII character.
#[inline]
#[tactic(auto, using(crate::proofs::WordReading::word_tests))]
fn is_ascii_word_char(byte: u8) -> bool
    ensures { result ≡ (nat_lt byte 128 && is_word_char byte) }
{
    byte.is_ascii_alphanumeric() || matches!(byte, b'_' | b'.' | b'+' | b'-')
}

/// Returns the length of the ASCII prefix of a bare word.
fn ascii_len(bytes: &[u8]) -> usize
    ensures value { result ≡ prefix_len (λ c. nat_lt c 128 && is_word_char c) bytes.now }
    ensures within { result ≤ length bytes.now }
{
    bytes.iter().take_while(|b| is_ascii_word_char(**b)).count()
}

/// Returns the length in bytes of the bare word at the beginning of a text.
fn unicode_len(text: &str) -> usize
    ensures value { result ≡ word_len text.now }
    ensures cut { IsCharBoundary text.now result }
{
    let mut len = 0;
    for c in text.chars() {
        if !is_word_char(c) {
            return len;
        }
        len += c.len_utf8();
    }
    len
}

/// Returns the length in bytes of the bare word at the beginning of a text, with a fast path for
/// ASCII.
pub(crate) fn word_len(text: &str) -> usize
    ensures value { result ≡ word_len text.now }
    ensures cut { IsCharBoundary text.now result }
{
    let bytes = text.as_bytes();
    let ascii = ascii_len(bytes);
    if byte_at(bytes, ascii).is_ascii() {
        ascii
    } else {
        unicode_len(text)
    }
}
