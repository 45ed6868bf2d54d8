//! Tokens of models.
ghost use Rattle.std.specs.Prelude.{◌≡◌, ◌+◌, ◌<◌, ◌^◌, ◌≤◌, length, None};
ghost use Rattle.std.specs.List.{prefix_len};
ghost use Rattle.net_base.specs.declared.diagnostic.Language.TheVariants.{Model};
ghost use Rattle.net_lex.specs.Lexing.{Lexes};
ghost use Rattle.net_lex.specs.Characters.{starts_name, continues_name};
ghost use Rattle.net_lex.specs.Shapes.{unnamed_front, model_front};

use crate::bytes::first;
use crate::numeral::numeral_at;
use crate::reserved_words::model_mark_len;
use crate::shape::{BadFront, Shape, mark_front};
use crate::string::{is_quote, string_at};
use crate::token::Token;
use crate::tokens::lex;
use net_base::{Fault, Language};
use std::alloc::Global;

fn starts_name(byte: u8) -> bool
    ensures { result ≡ starts_name byte }
{
    byte.is_ascii_alphabetic() || byte == b'_'
}

fn name_len(bytes: &[u8]) -> usize
    ensures value { result ≡ prefix_len continues_name bytes.now }
    ensures within { result ≤ length bytes.now }
{
    bytes
        .iter()
        .take_while(|b| b.is_ascii_alphanumeric() || **b == b'_')
        .count()
}

/// Reads a string or punctuation.
fn unnamed_front(text: &str) -> Result<(Shape, usize), BadFront>
    requires { length text.now + 2 < 2 ^ 64 }
    ensures { result ≡ unnamed_front text.now None }
{
    let bytes = text.as_bytes();
    if is_quote(first(bytes)) {
        string_at(bytes)
    } else {
        mark_front(text, model_mark_len(bytes))
    }
}

/// Returns the shape and length of the token at the beginning of a text that starts with neither a
/// blank nor a comment.
#[tactic(auto, unfolding(crate::specs::Shapes::model_front))]
pub(crate) fn model_front(text: &str) -> Result<(Shape, usize), BadFront>
    requires { length text.now + 2 < 2 ^ 64 }
    ensures { result ≡ model_front text.now }
{
    let bytes = text.as_bytes();
    if starts_name(first(bytes)) {
        return Ok((Shape::Word, name_len(bytes)));
    }
    match numeral_at(bytes) {
        Some((_, after)) => Ok((Shape::Numeral, bytes.len() - after.len())),
        None => unnamed_front(text),
    }
}

/// The maximum size of a model: 1 MiB.
pub const MODEL_LIMIT: usize = 0x10_0000;

/// Splits a model into tokens. Returns the first error with its span: the size limit is checked
/// first, then UTF-8, then the tokens in order. Spans count bytes from 0.
pub fn lex_model<'s>(alloc: Global, text: &'s [u8]) -> Result<Vec<Token<'s>>, Fault>
    ensures value { Lexes (λ v. v.items) Model text.entry.now result }
{
    let words = lex(alloc, Language::Model, text)?;
    Ok(words.to_tokens(alloc)?)
}
