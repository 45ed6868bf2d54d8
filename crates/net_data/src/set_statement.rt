//! `set NAME := items ;`
ghost use Rattle.std.specs.Prelude.{◌≡◌, ◌+◌, ◌<◌, ◌≤◌, length, Result, Ok, Err, IfOk};
ghost use Rattle.net_data.specs.Spots.{outside};
ghost use Rattle.net_data.specs.Reading.{items, items_from, set, ReadsStated, CountsItems};

use crate::data_parser::{ParseError, StatementStop};
use crate::expected_token::Expected;
use crate::members::{Members, Spot};
use crate::next_token::wanted;
use crate::statement::{SetStatement, Stated, Statement, stated};
use net_base::ErrorCode;
use net_lex::{Word, Words};
use std::alloc::Global;

/// Returns the number of tokens in the leading members and tuples, including the commas among them.
fn items_len(tokens: &Words<'_, '_>) -> Result<usize, ParseError>
    ensures value { CountsItems tokens.now (items_from outside tokens.now) result }
    ensures within { IfOk result (λ n. n ≤ length tokens.now) }
{
    let mut spot = Spot::Outside;
    let mut len = 0;
    'tokens: for token in tokens.copied() {
        match spot.after(&token) {
            Some(next) => spot = next,
            None if spot.rests() => return Ok(len),
            None => {
                return Err(ParseError {
                    error_code: ErrorCode::DataSyntax,
                    at: Some(token.span()),
                });
            }
        }
        len += 1;
    }
    if spot.rests() {
        return Ok(len);
    }
    Err(ParseError {
        error_code: ErrorCode::DataSyntax,
        at: None,
    })
}

/// Splits off the leading members and tuples.
fn items_at<'t, 's>(tokens: &Words<'t, 's>) -> Result<(Members<'t, 's>, Words<'t, 's>), ParseError>
    ensures value { result ≡ items tokens.now }
    ensures within { IfOk result (λ x. length x.1 ≤ length tokens.now) }
{
    match items_len(tokens) {
        Err(stop) => Err(stop),
        Ok(len) => {
            let (items, rest) = tokens.split_at(len);
            Ok((Members::new(items), rest))
        }
    }
}

/// Parses a statement after the keyword `set`.
#[tactic(auto, unfolding(crate::specs::Reading::set))]
pub(crate) fn set<'t, 's>(
    alloc: Global,
    keyword: Word<'t, 's>,
    tokens: &Words<'t, 's>,
) -> Result<Stated<'t, 's>, StatementStop>
    ensures value { ReadsStated (set keyword.entry tokens.now) result }
    ensures shorter { IfOk result (λ x. length x.1 < length tokens.now) }
{
    let (name, rest) = wanted(Expected::Name, tokens)?;
    let (assign, rest) = wanted(Expected::Assign, &rest)?;
    let (items, rest) = items_at(&rest)?;
    let (end, rest) = wanted(Expected::Semicolon, &rest)?;
    let statement = SetStatement {
        keyword,
        name,
        assign,
        items,
        end,
    };
    stated(alloc, Statement::Set(statement), rest)
}
