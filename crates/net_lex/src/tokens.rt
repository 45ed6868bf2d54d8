//! Splitting a whole text into tokens.
ghost use Rattle.std.specs.Prelude.{◌≡◌, ◌≤◌, ◌^◌, length, IfOk, MatchResult};
ghost use Rattle.net_lex.specs.Limits.{limits, text_limit};
ghost use Rattle.net_lex.specs.Reading.{EndsInGap};
ghost use Rattle.net_lex.specs.Faults.{StandSound, IsFaultAfter};
ghost use Rattle.net_lex.specs.Lexing.{Lexes};

use crate::data_text::DATA_LIMIT;
use crate::model_text::MODEL_LIMIT;
use crate::scan::step;
use crate::words::{PackedToken, WordList};
use net_base::{Detail, ErrorCode, Fault, Language, Span};
use std::alloc::Global;

fn tokens_of<'s>(alloc: Global, language: Language, text: &'s str) -> Result<WordList<'s>, Fault>
    requires { length text.now ≤ 2 ^ 24 }
    ensures { MatchResult result
        (λ v. StandSound limits language EndsInGap 0 text.entry.now v)
        (λ e. IsFaultAfter limits language text.entry.now e) }
{
    let mut tokens = Vec::new(alloc);
    let mut rest = text;
    let mut at = 0;
    'tokens: loop {
        match step(language, rest, at) {
            Err((error_code, span)) => return Err(Fault::of_text(
                language,
                error_code,
                span,
                Detail::Nothing,
            )),
            Ok(None) => return Ok(WordList::new(text, tokens)),
            Ok(Some((found, after))) => {
                at = found.token.span.end;
                let Ok(()) = tokens.push(PackedToken::of(&found.token, found.value_code)) else {
                    return Err(Fault::OutOfMemory);
                };
                rest = after;
            }
        }
    }
}

/// Returns the maximum length of a text in a language.
pub(crate) fn text_limit(language: Language) -> usize
    ensures { result ≡ text_limit language }
{
    match language {
        Language::Model => MODEL_LIMIT,
        Language::Data => DATA_LIMIT,
    }
}

/// Splits a text into tokens, or returns its first error.
pub(crate) fn lex<'s>(
    alloc: Global,
    language: Language,
    text: &'s [u8],
) -> Result<WordList<'s>, Fault>
    ensures value { Lexes (λ v. v) language text.entry.now result }
    ensures stands { IfOk result (λ v. StandSound limits language EndsInGap 0 text.entry.now v) }
{
    if text.len() > text_limit(language) {
        let at = Span { start: 0, end: 0 };
        return Err(Fault::of_text(language, ErrorCode::TextTooLong, at, Detail::Nothing));
    }
    match str::from_utf8(text) {
        Err(bad) => {
            let good = bad.valid_up_to();
            let at = Span {
                start: good,
                end: good + 1,
            };
            Err(Fault::of_text(language, ErrorCode::NotUtf8, at, Detail::Nothing))
        }
        Ok(text) => tokens_of(alloc, language, text),
    }
}
