//! The lexical forms of tokens.

ghost use Rattle.std.specs.Prelude.{◌≡◌};
ghost use Rattle.net_lex.specs.Shapes.{mark_front};

use crate::bare_word::char_len;
use net_base::ErrorCode;

/// The lexical form of a token.
#[derive(Clone, Copy)]
pub(crate) enum Shape {
    Word,
    Numeral,
    Quoted,
    Mark,
}

/// An error and its range of bytes, counted from the beginning of the token.
#[derive(Clone, Copy)]
pub(crate) struct BadFront {
    pub error_code: ErrorCode,
    pub from: usize,
    pub to: usize,
}

/// Returns punctuation of this length, or the error for a character with which no token begins if
/// `len` is 0.
pub(crate) fn mark_front(text: &str, len: usize) -> Result<(Shape, usize), BadFront>
    ensures { result ≡ mark_front text.now len }
{
    if len == 0 {
        Err(BadFront {
            error_code: ErrorCode::BadCharacter,
            from: 0,
            to: char_len(text),
        })
    } else {
        Ok((Shape::Mark, len))
    }
}
