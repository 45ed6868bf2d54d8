//! The first error of a text, without its tokens.

ghost use Rattle.std.specs.Prelude.{◌≤◌, ◌^◌, List, length, MatchOption, ◌≡◌, ℕ};
ghost use Rattle.net_lex.specs.Limits.{limits};
ghost use Rattle.net_lex.specs.Reading.{EndsInGap, Reads};
ghost use Rattle.net_lex.specs.Faults.{IsFault, StandSound};
ghost use Rattle.net_lex.specs.Lexing.{AreTokensOf, IsFirstFault};
ghost use Rattle.net_lex.specs.declared.token.Token.{Token as Word, Token};
ghost use Rattle.net_base.specs.declared.error_code.ErrorCode.{ErrorCode};
ghost use Rattle.net_base.specs.declared.diagnostic.Language.{Language};
ghost use Rattle.net_base.specs.declared.diagnostic.Span.{Span};
ghost use Rattle.std.specs.List.{AllByRecursion};
ghost use Rattle.net_lex.specs.LineEnds.{HasNoLineEnd};

use crate::scan::step;
use crate::tokens::text_limit;
use net_base::{ErrorCode, Language, Span};

fn first_error_in(language: Language, text: &str) -> Option<(ErrorCode, Span)>
    requires { length text.now ≤ 2 ^ 24 }
    ensures { MatchOption result
        ((tokens : List Word) × StandSound limits language EndsInGap 0 text.now tokens)
        (λ e. (tokens : List Word) × StandSound limits language (λ at rest. IsFault limits language at rest e.0 e.1) 0 text.now tokens) }
{
    let mut rest = text;
    let mut at = 0;
    'tokens: loop {
        match step(language, rest, at) {
            Err(error) => return Some(error),
            Ok(None) => return None,
            Ok(Some((found, after))) => {
                at = found.token.span.end;
                rest = after;
            }
        }
    }
}

/// Returns the first error of a text and its span, or `None` if the text consists of tokens. Takes
/// no memory, so each text gets one of the two answers.
pub fn first_error(language: Language, text: &[u8]) -> Option<(ErrorCode, Span)>
    ensures { MatchOption result
        ((tokens : List Word) × AreTokensOf language text.now tokens)
        (λ e. IsFirstFault language text.now e.0 e.1) }
{
    if text.len() > text_limit(language) {
        return Some((ErrorCode::TextTooLong, Span { start: 0, end: 0 }));
    }
    match str::from_utf8(text) {
        Err(bad) => {
            let good = bad.valid_up_to();
            let at = Span {
                start: good,
                end: good + 1,
            };
            Some((ErrorCode::NotUtf8, at))
        }
        Ok(text) => first_error_in(language, text),
    }
}

/// Theorem: a text consists of at most one list of tokens.
pub fn one_reading()
    ensures value { (language : Language) (text : List ℕ) (tokens others : List Token)
        → Reads language text tokens → Reads language text others → tokens ≡ others }
{}

/// Theorem: no text has both tokens and a first error.
pub fn read_or_rejected()
    ensures value { (language : Language) (text : List ℕ) (tokens : List Token) (error_code : ErrorCode) (span : Span)
        → AreTokensOf language text tokens → IsFirstFault language text error_code span → ⊥ }
{}

/// Theorem: a text has at most one first error.
pub fn one_first_fault()
    ensures value { (language : Language) (text : List ℕ) (error_code other : ErrorCode) (span place : Span)
        → IsFirstFault language text error_code span → IsFirstFault language text other place → (error_code ≡ other) × (span ≡ place) }
{}

/// Theorem: no token of a text contains a line ending.
pub fn tokens_have_no_line_ends()
    ensures value { (language : Language) (text : List ℕ) (tokens : List Token)
        → AreTokensOf language text tokens → AllByRecursion (λ token. HasNoLineEnd token.text) tokens }
{}
