//! Quoted strings.
ghost use Rattle.std.specs.Prelude.{◌≡◌, ◌+◌, ◌<◌, ◌^◌, false, length};
ghost use Rattle.net_lex.specs.Shapes.{delimited_after, string_end, IsEndWithin, string_at};
ghost use Rattle.net_lex.specs.Characters.{is_control, is_quote};

use crate::bytes::{first, rest};
use crate::shape::{BadFront, Shape};
use net_base::ErrorCode;

/// The end of a string, counted from the byte after its opening quotation mark.
#[derive(Clone, Copy)]
pub(crate) enum StringEnd {
    /// After the closing quotation mark.
    Closed(usize),
    /// At a control character, which is not allowed.
    Control(usize),
    /// The string is not closed.
    Open,
}

/// Returns whether a byte is a control character, which is not allowed in strings.
fn is_control(byte: u8) -> bool
    ensures { result ≡ is_control byte }
{
    byte < 0x20 || byte == 0x7F
}

pub(crate) fn is_quote(byte: u8) -> bool
    ensures { result ≡ is_quote byte }
{
    byte == b'\'' || byte == b'"'
}

fn delimited_after(delimiter: u8, delimited: bool, byte: u8) -> Option<bool>
    ensures { result ≡ delimited_after delimiter delimited byte }
{
    if delimited {
        if byte == delimiter { Some(false) } else { None }
    } else if byte == delimiter {
        Some(true)
    } else if is_control(byte) {
        None
    } else {
        Some(false)
    }
}

fn string_end(delimiter: u8, inside: &[u8]) -> StringEnd
    ensures value { result ≡ string_end delimiter false 0 inside.now }
    ensures within { IsEndWithin (length inside.now) result }
{
    let mut delimited = false;
    for at in 0..inside.len() {
        match delimited_after(delimiter, delimited, inside[at]) {
            Some(next) => delimited = next,
            None if delimited => return StringEnd::Closed(at),
            None => return StringEnd::Control(at),
        }
    }
    if delimited {
        StringEnd::Closed(inside.len())
    } else {
        StringEnd::Open
    }
}

/// Reads the string at the beginning of the text.
pub(crate) fn string_at(bytes: &[u8]) -> Result<(Shape, usize), BadFront>
    requires { length bytes.now + 2 < 2 ^ 64 }
    ensures { result ≡ string_at bytes.now }
{
    match string_end(first(bytes), rest(bytes)) {
        StringEnd::Closed(n) => Ok((Shape::Quoted, n + 1)),
        StringEnd::Control(n) => Err(BadFront {
            error_code: ErrorCode::BadCharacter,
            from: n + 1,
            to: n + 2,
        }),
        StringEnd::Open => Err(BadFront {
            error_code: ErrorCode::OpenString,
            from: 0,
            to: 1,
        }),
    }
}
