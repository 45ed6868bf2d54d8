//! Tokens of data files.
ghost use Rattle.std.specs.Prelude.{◌≡◌, ◌+◌, ◌<◌, ◌^◌, length};
ghost use Rattle.net_base.specs.declared.diagnostic.Language.TheVariants.{Data};
ghost use Rattle.net_lex.specs.Lexing.{Lexes};
ghost use Rattle.net_lex.specs.Shapes.{data_front};

use crate::bare_word::word_len;
use crate::bytes::first;
use crate::reserved_words::data_mark_len;
use crate::shape::{BadFront, Shape, mark_front};
use crate::string::{is_quote, string_at};
use crate::tokens::lex;
use crate::words::WordList;
use net_base::{Fault, Language};
use std::alloc::Global;

/// Returns the shape and length of the token at the beginning of a text that starts with neither a
/// blank nor a comment.
#[tactic(auto, unfolding(crate::specs::Shapes::data_front))]
pub(crate) fn data_front(text: &str) -> Result<(Shape, usize), BadFront>
    requires { length text.now + 2 < 2 ^ 64 }
    ensures { result ≡ data_front text.now }
{
    let bytes = text.as_bytes();
    if is_quote(first(bytes)) {
        return string_at(bytes);
    }
    match word_len(text) {
        0 => mark_front(text, data_mark_len(bytes)),
        len => Ok((Shape::Word, len)),
    }
}

/// The maximum size of a data file: 16 MiB.
pub const DATA_LIMIT: usize = 0x100_0000;

/// Splits a data file into tokens. Returns the first error with its span: the size limit is checked
/// first, then UTF-8, then the tokens in order. Spans count bytes from 0.
pub fn lex_data<'s>(alloc: Global, text: &'s [u8]) -> Result<WordList<'s>, Fault>
    ensures value { Lexes (λ v. v) Data text.entry.now result }
{
    lex(alloc, Language::Data, text)
}
