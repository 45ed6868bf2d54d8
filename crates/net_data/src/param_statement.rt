//! `param` statements: lists, tables and columns.
ghost use Rattle.std.specs.Prelude.{◌≡◌, ◌<◌, ◌≤◌, length, IfOk, IfSome};
ghost use Rattle.net_data.specs.Reading.{table, turned, listed, list, body, default, named, named_set, columns, param, ReadsStated};

use crate::data_parser::{ParseError, StatementStop};
use crate::expected_token::Expected;
use crate::heading::{cells, check_rows, heading};
use crate::next_token::{met, wanted};
use crate::statement::{
    ColumnsStatement, DefaultValue, Given, ListStatement, NamedSet, Stated, Statement,
    TableStatement, Transposed, stated,
};
use net_lex::{Word, Words};
use std::alloc::Global;

/// The part of a parameter's statement before its cells.
#[derive(Drop)]
struct Parameter<'t, 's> {
    keyword: Word<'t, 's>,
    name: Word<'t, 's>,
    default: Option<DefaultValue<'t, 's>>,
}

/// Parses a table after its colon.
#[tactic(auto, unfolding(crate::specs::Reading::table))]
fn table<'t, 's>(
    alloc: Global,
    parameter: Parameter<'t, 's>,
    transposed: Option<Transposed<'t, 's>>,
    colon: Word<'t, 's>,
    tokens: &Words<'t, 's>,
) -> Result<Stated<'t, 's>, StatementStop>
    ensures value { ReadsStated (table parameter.entry.keyword parameter.entry.name parameter.entry.default transposed.entry colon.entry tokens.now)
        result }
    ensures shorter { IfOk result (λ x. length x.1 < length tokens.now) }
{
    let (columns, assign, rest) = heading(Expected::Member, tokens)?;
    let (cells, end, rest) = cells(&rest)?;
    check_rows(&columns, &cells)?;
    let columns = columns.words(alloc)?;
    let cells = cells.words(alloc)?;
    let Parameter {
        keyword,
        name,
        default,
    } = parameter;
    let statement = TableStatement {
        keyword,
        name,
        default,
        transposed,
        colon,
        columns,
        assign,
        cells,
        end,
    };
    stated(alloc, Statement::Table(statement), rest)
}

/// Parses a transposed table after the `(` of `(tr)`.
#[tactic(auto, unfolding(crate::specs::Reading::turned))]
fn turned<'t, 's>(
    alloc: Global,
    parameter: Parameter<'t, 's>,
    opening: Word<'t, 's>,
    tokens: &Words<'t, 's>,
) -> Result<Stated<'t, 's>, StatementStop>
    ensures value { ReadsStated (turned parameter.entry.keyword parameter.entry.name parameter.entry.default opening.entry tokens.now) result }
    ensures shorter { IfOk result (λ x. length x.1 < length tokens.now) }
{
    let (word, rest) = wanted(Expected::Transposed, tokens)?;
    let (closing, rest) = wanted(Expected::Closing, &rest)?;
    let (colon, rest) = wanted(Expected::Colon, &rest)?;
    let transposed = Transposed {
        opening,
        word,
        closing,
    };
    table(alloc, parameter, Some(transposed), colon, &rest)
}

/// Builds a list from its parts.
fn listed<'t, 's>(
    alloc: Global,
    parameter: Parameter<'t, 's>,
    given: Option<Given<'t, 's>>,
    end: Word<'t, 's>,
    tokens: Words<'t, 's>,
) -> Result<Stated<'t, 's>, StatementStop>
    ensures value { ReadsStated (listed parameter.entry.keyword parameter.entry.name parameter.entry.default given.entry end.entry tokens.entry) result }
    ensures rest { IfOk result (λ x. x.1 ≡ tokens.entry) }
{
    let Parameter {
        keyword,
        name,
        default,
    } = parameter;
    let statement = ListStatement {
        keyword,
        name,
        default,
        given,
        end,
    };
    stated(alloc, Statement::List(statement), tokens)
}

/// Parses a list after the name and the default: cells, if present, up to the semicolon.
#[tactic(auto, unfolding(crate::specs::Reading::list, crate::specs::Reading::given, crate::specs::Reading::cells))]
fn list<'t, 's>(
    alloc: Global,
    parameter: Parameter<'t, 's>,
    tokens: &Words<'t, 's>,
) -> Result<Stated<'t, 's>, StatementStop>
    ensures value { ReadsStated (list parameter.entry.keyword parameter.entry.name parameter.entry.default tokens.now) result }
    ensures shorter { IfOk result (λ x. length x.1 < length tokens.now) }
{
    match met(Expected::Assign, tokens) {
        None => {
            let (end, rest) = wanted(Expected::Semicolon, tokens)?;
            listed(alloc, parameter, None, end, rest)
        }
        Some((assign, rest)) => {
            let (cells, end, rest) = cells(&rest)?;
            let cells = cells.words(alloc)?;
            listed(alloc, parameter, Some(Given { assign, cells }), end, rest)
        }
    }
}

/// Parses a statement after the name and the default of its parameter.
#[tactic(auto, unfolding(crate::specs::Reading::body))]
fn body<'t, 's>(
    alloc: Global,
    parameter: Parameter<'t, 's>,
    tokens: &Words<'t, 's>,
) -> Result<Stated<'t, 's>, StatementStop>
    ensures value { ReadsStated (body parameter.entry.keyword parameter.entry.name parameter.entry.default tokens.now) result }
    ensures shorter { IfOk result (λ x. length x.1 < length tokens.now) }
{
    if let Some((opening, rest)) = met(Expected::Opening, tokens) {
        return turned(alloc, parameter, opening, &rest);
    }
    match met(Expected::Colon, tokens) {
        Some((colon, rest)) => table(alloc, parameter, None, colon, &rest),
        None => list(alloc, parameter, tokens),
    }
}

/// Parses the default of a parameter, if present; also returns the remaining tokens.
#[tactic(auto, unfolding(crate::specs::Reading::default))]
fn default<'t, 's>(
    tokens: &Words<'t, 's>,
) -> Result<(Option<DefaultValue<'t, 's>>, Words<'t, 's>), ParseError>
    ensures value { result ≡ default tokens.now }
    ensures within { IfOk result (λ x. length x.1 ≤ length tokens.now) }
{
    match met(Expected::Default, tokens) {
        None => Ok((None, tokens.copied())),
        Some((keyword, rest)) => {
            let (value, rest) = wanted(Expected::Member, &rest)?;
            Ok((Some(DefaultValue { keyword, value }), rest))
        }
    }
}

/// Parses a statement after the keyword `param`, if no colon follows.
#[tactic(auto, unfolding(crate::specs::Reading::named))]
fn named<'t, 's>(
    alloc: Global,
    keyword: Word<'t, 's>,
    tokens: &Words<'t, 's>,
) -> Result<Stated<'t, 's>, StatementStop>
    ensures value { ReadsStated (named keyword.entry tokens.now) result }
    ensures shorter { IfOk result (λ x. length x.1 < length tokens.now) }
{
    let (name, rest) = wanted(Expected::Name, tokens)?;
    let (default, rest) = default(&rest)?;
    let parameter = Parameter {
        keyword,
        name,
        default,
    };
    body(alloc, parameter, &rest)
}

/// Parses the name of a set and a colon, if they come next; also returns the remaining tokens.
#[tactic(auto, unfolding(crate::specs::Reading::named_set))]
fn named_set<'t, 's>(tokens: &Words<'t, 's>) -> (Option<NamedSet<'t, 's>>, Words<'t, 's>)
    ensures value { result ≡ named_set tokens.now }
    ensures within { length result.1 ≤ length tokens.now }
{
    match met(Expected::Name, tokens) {
        None => (None, tokens.copied()),
        Some((name, rest)) => match met(Expected::Colon, &rest) {
            None => (None, tokens.copied()),
            Some((colon, rest)) => (Some(NamedSet { name, colon }), rest),
        },
    }
}

/// Parses a statement after the keyword `param` and a colon.
#[tactic(auto, unfolding(crate::specs::Reading::columns))]
fn columns<'t, 's>(
    alloc: Global,
    keyword: Word<'t, 's>,
    colon: Word<'t, 's>,
    tokens: &Words<'t, 's>,
) -> Result<Stated<'t, 's>, StatementStop>
    ensures value { ReadsStated (columns keyword.entry colon.entry tokens.now) result }
    ensures shorter { IfOk result (λ x. length x.1 < length tokens.now) }
{
    let (set, rest) = named_set(tokens);
    let (names, assign, rest) = heading(Expected::Name, &rest)?;
    let (cells, end, rest) = cells(&rest)?;
    let names = names.words(alloc)?;
    let cells = cells.words(alloc)?;
    let statement = ColumnsStatement {
        keyword,
        colon,
        set,
        names,
        assign,
        cells,
        end,
    };
    stated(alloc, Statement::Columns(statement), rest)
}

/// Parses a statement after the keyword `param`.
#[tactic(auto, unfolding(crate::specs::Reading::param))]
pub(crate) fn param<'t, 's>(
    alloc: Global,
    keyword: Word<'t, 's>,
    tokens: &Words<'t, 's>,
) -> Result<Stated<'t, 's>, StatementStop>
    ensures value { ReadsStated (param keyword.entry tokens.now) result }
    ensures shorter { IfOk result (λ x. length x.1 < length tokens.now) }
{
    match met(Expected::Colon, tokens) {
        Some((colon, rest)) => columns(alloc, keyword, colon, &rest),
        None => named(alloc, keyword, tokens),
    }
}
