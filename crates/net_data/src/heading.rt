//! The heading and the cells of a table.
ghost use Rattle.std.specs.Prelude.{◌≡◌, ◌<◌, ◌≤◌, ◌+◌, ◌^◌, length, IfOk, Result, Ok, Err};
ghost use Rattle.net_data.specs.Tests.{is_of};
ghost use Rattle.net_data.specs.Reading.{cells, heading, headed, check_rows, ReadsPair};

use crate::cells::{Cells, run};
use crate::data_parser::ParseError;
use crate::expected_token::Expected;
use crate::next_token::wanted;
use net_base::ErrorCode;
use net_lex::{Word, Words};

/// Cells, the punctuation after them, and the remaining tokens.
pub(crate) type CellRow<'t, 's> = (Cells<'t, 's>, Word<'t, 's>, Words<'t, 's>);

/// Returns a heading up to its `:=`, or an error if it has no column.
fn headed<'t, 's>(
    columns: Cells<'t, 's>,
    assign: Word<'t, 's>,
    tokens: Words<'t, 's>,
) -> Result<CellRow<'t, 's>, ParseError>
    ensures value { ReadsPair (headed columns.entry assign.entry tokens.entry) result }
    ensures same { IfOk result (λ x. x.2 ≡ tokens.entry) }
{
    if columns.len() == 0 {
        return Err(ParseError {
            error_code: ErrorCode::TableWidth,
            at: Some(assign.span()),
        });
    }
    Ok((columns, assign, tokens))
}

/// Parses a heading of tokens of a sort.
#[tactic(auto, unfolding(crate::specs::Reading::heading))]
pub(crate) fn heading<'t, 's>(
    sort: Expected,
    tokens: &Words<'t, 's>,
) -> Result<CellRow<'t, 's>, ParseError>
    ensures value { ReadsPair (heading (is_of sort) tokens.now) result }
    ensures shorter { IfOk result (λ x. length x.2 < length tokens.now) }
{
    let (columns, rest) = run(sort, tokens);
    let (assign, rest) = wanted(Expected::Assign, &rest)?;
    headed(columns, assign, rest)
}

/// Parses cells up to the semicolon.
#[tactic(auto, unfolding(crate::specs::Reading::cells))]
pub(crate) fn cells<'t, 's>(tokens: &Words<'t, 's>) -> Result<CellRow<'t, 's>, ParseError>
    ensures value { ReadsPair (cells tokens.now) result }
    ensures shorter { IfOk result (λ x. length x.2 < length tokens.now) }
{
    let (cells, rest) = run(Expected::Cell, tokens);
    let (end, rest) = wanted(Expected::Semicolon, &rest)?;
    Ok((cells, end, rest))
}

/// Checks that the cells fill complete rows of a member and one value for each column.
#[tactic(auto, unfolding(crate::specs::Reading::check_rows))]
pub(crate) fn check_rows(columns: &Cells<'_, '_>, cells: &Cells<'_, '_>) -> Result<(), ParseError>
    ensures { result ≡ check_rows columns.now cells.now }
{
    if cells.len() % (columns.len() + 1) == 0 {
        return Ok(());
    }
    Err(ParseError {
        error_code: ErrorCode::RowWidth,
        at: cells.last_span(),
    })
}
