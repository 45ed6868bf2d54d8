//! Reading the next token, skipping commas.
ghost use Rattle.std.specs.Prelude.{◌≡◌, ◌<◌, ◌≤◌, drop, length, IfSome, IfOk};
ghost use Rattle.std.specs.List.{prefix_len};
ghost use Rattle.net_data.specs.Tests.{is_comma, is_of};
ghost use Rattle.net_data.specs.Reading.{front, met, wanted, rejected};

use crate::data_parser::ParseError;
use crate::expected_token::{Expected, is_comma, is_of};
use net_base::ErrorCode;
use net_lex::{Word, Words};

/// A token, and the tokens after it.
pub(crate) type Next<'t, 's> = (Word<'t, 's>, Words<'t, 's>);

/// Returns the next token that is not a comma, and the tokens after it.
pub(crate) fn front<'t, 's>(tokens: &Words<'t, 's>) -> Option<Next<'t, 's>>
    ensures value { result ≡ front tokens.now }
    ensures shorter { IfSome result (λ x. length x.1 < length tokens.now) }
{
    after_commas(tokens).split_first()
}

/// Returns the tokens after the leading commas.
pub(crate) fn after_commas<'t, 's>(tokens: &Words<'t, 's>) -> Words<'t, 's>
    ensures { result ≡ drop (prefix_len is_comma tokens.now) tokens.now }
{
    let (_, rest) = tokens.split_at(commas_len(tokens));
    rest
}

fn commas_len(tokens: &Words<'_, '_>) -> usize
    ensures value { result ≡ prefix_len is_comma tokens.now }
    ensures within { result ≤ length tokens.now }
{
    let mut len = 0;
    'tokens: for token in tokens.copied() {
        if !is_comma(&token) {
            return len;
        }
        len += 1;
    }
    len
}

/// Returns the next token if it is of this sort, and the tokens after it.
#[tactic(auto, unfolding(crate::specs::Reading::met))]
pub(crate) fn met<'t, 's>(sort: Expected, tokens: &Words<'t, 's>) -> Option<Next<'t, 's>>
    ensures value { result ≡ met (is_of sort) tokens.now }
    ensures shorter { IfSome result (λ x. length x.1 < length tokens.now) }
{
    match front(tokens) {
        None => None,
        Some((token, after)) => {
            if is_of(sort, &token) {
                Some((token, after))
            } else {
                None
            }
        }
    }
}

/// Returns the error for the next token, which is not allowed.
#[tactic(auto, unfolding(crate::specs::Reading::rejected))]
pub(crate) fn rejected(tokens: &Words<'_, '_>) -> ParseError
    ensures { result ≡ rejected tokens.now }
{
    let at = match front(tokens) {
        None => None,
        Some((token, _)) => Some(token.span()),
    };
    ParseError {
        error_code: ErrorCode::DataSyntax,
        at,
    }
}

/// Returns the next token, which must be of this sort, and the tokens after it.
#[tactic(auto, unfolding(crate::specs::Reading::wanted))]
pub(crate) fn wanted<'t, 's>(
    sort: Expected,
    tokens: &Words<'t, 's>,
) -> Result<Next<'t, 's>, ParseError>
    ensures value { result ≡ wanted (is_of sort) tokens.now }
    ensures shorter { IfOk result (λ x. length x.1 < length tokens.now) }
{
    match met(sort, tokens) {
        Some(found) => Ok(found),
        None => Err(rejected(tokens)),
    }
}
