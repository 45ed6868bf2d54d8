//! Reading single tokens, for both languages.
ghost use Rattle.std.specs.Prelude.{◌≡◌, ◌+◌, ◌<◌, ◌≤◌, ◌^◌, IfOk, IfSome, IsTrue, MatchResult, MatchOption, Ok, length};
ghost use Rattle.net_lex.specs.Shapes.{front};
ghost use Rattle.net_lex.specs.Tokens.{HasShape};
ghost use Rattle.net_lex.specs.Gaps.{IsLastGap};
ghost use Rattle.net_lex.specs.Faults.{IsFault};
ghost use Rattle.net_lex.specs.Limits.{limits};
ghost use Rattle.net_lex.specs.Numerals.{AreDigits};
ghost use Rattle.net_lex.specs.Packed.{IsCodeOf};
ghost use Rattle.net_lex.specs.Scanning.{BeginsNoGap, IsNumeralKind, IsKindOf, IsTokenAt, IsErrorCodeAt, IsStep, kind_in};
ghost use Rattle.net_lex.specs.declared.shape.Shape.TheVariants.{Word};

use crate::bytes::digits;
use crate::data_text::data_front;
use crate::gap::gap_len;
use crate::model_text::model_front;
use crate::reserved_words::is_reserved;
use crate::shape::{BadFront, Shape};
use crate::token::{Kind, Token};
use crate::whole::{NumFault, code_of, whole_of};
use net_base::{ErrorCode, Excerpt, Language, Span};

/// The maximum length of a token, in bytes.
const TOKEN_LIMIT: usize = 255;

#[tactic(auto, unfolding(crate::specs::Shapes::front))]
fn front(language: Language, text: &str) -> Result<(Shape, usize), BadFront>
    requires { length text.now + 2 < 2 ^ 64 }
    ensures { result ≡ front language text.now }
{
    match language {
        Language::Model => model_front(text),
        Language::Data => data_front(text),
    }
}

/// The kind of a word, and the code of its value.
struct WordKind {
    kind: Kind,
    value_code: u16,
}

/// Returns the kind of a word without a value.
fn without_value(kind: Kind) -> WordKind
    ensures { result ≡ record { kind = kind; value_code = 0 } }
{
    WordKind {
        kind,
        value_code: 0,
    }
}

/// Returns whether a word has 6 to 12 characters, all of them digits. Its value is within the limit, and has no code unless
/// zeros precede it.
fn is_plain(word: &str) -> bool
    ensures { IsTrue result → (length word.now ≤ 12) × AreDigits word.now }
{
    let bytes = word.as_bytes();
    if bytes.len() < 6 || bytes.len() > 12 {
        return false;
    }
    let (_, after) = digits(bytes);
    after.is_empty()
}

/// Returns the kind of a numeral and the code of its value, after checking the value, or `otherwise` for a word that is not a
/// numeral. Reads no value that cannot exceed the limit and seldom has a code.
fn numeral_kind(word: &str, otherwise: Kind) -> Result<WordKind, ErrorCode>
    ensures kind { IsNumeralKind word.now (Ok otherwise) (kind_in result) }
    ensures value { IfOk result (λ found. IsCodeOf word.now found.value_code) }
{
    if is_plain(word) {
        return Ok(without_value(Kind::Num));
    }
    match whole_of(word) {
        Ok(value) => Ok(WordKind {
            kind: Kind::Num,
            value_code: code_of(value),
        }),
        Err(NumFault::NotWhole) => Err(ErrorCode::NotWhole),
        Err(NumFault::TooLarge) => Err(ErrorCode::NumeralTooLarge),
        Err(NumFault::NotNumeral) => Ok(without_value(otherwise)),
    }
}

/// Returns the kind of a word of this shape and the code of its value, after checking the value of a numeral.
fn kind_of(language: Language, shape: Shape, word: &str) -> Result<WordKind, ErrorCode>
    requires { HasShape language shape word.now }
    ensures kind { IsKindOf language word.now (kind_in result) }
    ensures value { IfOk result (λ found. IsCodeOf word.now found.value_code) }
{
    match shape {
        Shape::Quoted => Ok(without_value(Kind::Str)),
        Shape::Mark => Ok(without_value(Kind::Mark)),
        Shape::Numeral => numeral_kind(word, Kind::Num),
        Shape::Word => word_kind(language, word),
    }
}

fn word_kind(language: Language, word: &str) -> Result<WordKind, ErrorCode>
    requires { HasShape language Word word.now }
    ensures kind { IsKindOf language word.now (kind_in result) }
    ensures value { IfOk result (λ found. IsCodeOf word.now found.value_code) }
{
    match language {
        Language::Model if is_reserved(word.as_bytes()) => Ok(without_value(Kind::Key)),
        Language::Model => Ok(without_value(Kind::Name)),
        Language::Data if word.as_bytes() == b".".as_slice() => Ok(without_value(Kind::Dot)),
        Language::Data => numeral_kind(word, Kind::Name),
    }
}

/// A token, and the code of its value.
#[derive(Drop)]
pub(crate) struct Scanned<'s> {
    pub(crate) token: Token<'s>,
    pub(crate) value_code: u16,
}

/// Builds the token of this shape and length at the beginning of the text; also returns the text
/// after it.
fn token_of<'s>(
    language: Language,
    shape: Shape,
    len: usize,
    text: &'s str,
    at: usize,
) -> Result<(Scanned<'s>, &'s str), (ErrorCode, Span)>
    requires room { at + length text.now + 4 < 2 ^ 64 }
    requires some { 0 < length text.now }
    requires found { front language text.now ≡ Ok (shape, len) }
    requires short { len ≤ TOKEN_LIMIT }
    ensures token { MatchResult result
        (λ x. IsTokenAt language at text.entry.now x.0.token x.1.now)
        (λ e. IsErrorCodeAt language at text.entry.now e.0 e.1) }
    ensures value { IfOk result (λ x. IsCodeOf x.0.token.text x.0.value_code) }
{
    let (word, after) = text.split_at(len);
    let span = Span {
        start: at,
        end: at + len,
    };
    match kind_of(language, shape, word) {
        Ok(found) => {
            let WordKind { kind, value_code } = found;
            let text = Excerpt::new(word);
            let token = Token { kind, text, span };
            Ok((Scanned { token, value_code }, after))
        }
        Err(error_code) => Err((error_code, span)),
    }
}

/// Returns the error and its span, for a token that begins at byte `at`.
fn fault_at(stop: BadFront, at: usize) -> (ErrorCode, Span)
    requires from { at + stop.from < 2 ^ 64 }
    requires to { at + stop.to < 2 ^ 64 }
    ensures error_code { result.0 ≡ stop.error_code }
    ensures span { result.1 ≡ record { start = at + stop.from; end = at + stop.to } }
{
    let span = Span {
        start: at + stop.from,
        end: at + stop.to,
    };
    (stop.error_code, span)
}

/// Reads the token at the beginning of the text; also returns the text after it.
fn token_at<'s>(
    language: Language,
    text: &'s str,
    at: usize,
) -> Result<(Scanned<'s>, &'s str), (ErrorCode, Span)>
    requires room { at + length text.now + 4 < 2 ^ 64 }
    requires some { 0 < length text.now }
    requires here { BeginsNoGap text.now }
    ensures token { MatchResult result
        (λ x. IsTokenAt language at text.entry.now x.0.token x.1.now)
        (λ e. IsErrorCodeAt language at text.entry.now e.0 e.1) }
    ensures value { IfOk result (λ x. IsCodeOf x.0.token.text x.0.value_code) }
{
    match front(language, text) {
        Err(stop) => Err(fault_at(stop, at)),
        Ok((_, len)) if len > TOKEN_LIMIT => {
            let stop = BadFront {
                error_code: ErrorCode::TextTooLong,
                from: 0,
                to: len,
            };
            Err(fault_at(stop, at))
        }
        Ok((shape, len)) => token_of(language, shape, len, text, at),
    }
}

/// Reads the next token; also returns the text after it. Returns `None` after the last token.
pub(crate) fn step<'s>(
    language: Language,
    rest: &'s str,
    at: usize,
) -> Result<Option<(Scanned<'s>, &'s str)>, (ErrorCode, Span)>
    requires room { at + length rest.now + 4 < 2 ^ 64 }
    ensures token { MatchResult result
        (λ o. MatchOption o (IsLastGap rest.entry.now) (λ x. IsStep language at rest.entry.now x.0.token x.1.now))
        (λ e. IsFault limits language at rest.entry.now e.0 e.1) }
    ensures value { IfOk result (λ o. IfSome o (λ x. IsCodeOf x.0.token.text x.0.value_code)) }
{
    match gap_len(rest) {
        Err(n) => Err((
            ErrorCode::OpenComment,
            Span {
                start: at + n,
                end: at + n + 2,
            },
        )),
        Ok(n) if n == rest.len() => Ok(None),
        Ok(n) => {
            let (_, text) = rest.split_at(n);
            match token_at(language, text, at + n) {
                Ok(found) => Ok(Some(found)),
                Err(fault) => Err(fault),
            }
        }
    }
}
