//! The statements of a data file.

ghost use Rattle.std.specs.Prelude.{◌≡◌, ◌<◌, ◌≤◌, length, suc, IfOk, IfErr, IfSome, IfNone, ℕ, List, [], ◌∷◌, Ok, take, drop};
ghost use Rattle.net_data.specs.Reading.{statement, statements, single_by, met, finished, tables, end_of};
ghost use Rattle.net_data.specs.Reading.{fault_of, statement_fault, GoesAfter, ReadsOn, Answers};
ghost use Rattle.net_data.specs.Tests.{is_of};
ghost use Rattle.net_data.specs.Meaning.{Mean, all_judged, checked};
ghost use Rattle.net_data.specs.Rejections.{IsRejection};
ghost use Rattle.net_data.specs.declared.statement.Tables.{Tables};
ghost use Rattle.net_data.specs.declared.data_parser.StatementStop.TheVariants as statement_stops;
ghost use Rattle.net_data.specs.Rows.{groups, set_rows, first_row, more_rows};
ghost use Rattle.net_lex.specs.declared.token.Token.{Token};
ghost use Rattle.net_data.specs.GoingOn.{NoneGoOn, AllBegin};
ghost use Rattle.net_data.specs.GrammarLaws.{IsComplete, IsSound, IsUnambiguous};

use crate::expected_token::Expected;
use crate::next_token::{front, met, wanted};
use crate::param_statement::param;
use crate::set_statement::set;
use crate::statement::{Single, Stated, Statement, Tables, push};
use net_base::{Boxed, ErrorCode, Fault, Items, Span};
use net_lex::Words;
use std::alloc::{AllocError, Global};

/// Returns the position after the last token.
fn end_of(tokens: &Words<'_, '_>) -> usize
    ensures { result ≡ end_of tokens.now }
{
    match tokens.last() {
        None => 0,
        Some(token) => token.span().end,
    }
}

/// Returns the error reported for a stop, given the end of the text.
fn fault_of(stop: ParseError, end: usize) -> Fault
    ensures { result ≡ fault_of end stop }
{
    match stop.at {
        None => Fault::of_data(stop.error_code, Span { start: end, end }),
        Some(span) => Fault::of_data(stop.error_code, span),
    }
}

/// Returns the error that prevents a statement from being parsed, given the end of the text.
fn statement_fault(stop: StatementStop, end: usize) -> Fault
    ensures { result ≡ statement_fault end stop }
{
    match stop {
        StatementStop::OutOfMemory => Fault::OutOfMemory,
        StatementStop::Reading(stop) => fault_of(stop, end),
    }
}

/// The tokens that are not yet parsed.
#[derive(Drop)]
struct Unread<'t, 's> {
    tokens: Words<'t, 's>,
}

impl<'t, 's> Unread<'t, 's> {
    /// Stores the tokens after a parsed statement, and returns the statement.
    fn behind(
        &mut self,
        stated: Result<Stated<'t, 's>, StatementStop>,
    ) -> Result<Option<Boxed<Statement<'t, 's>>>, StatementStop>
        ensures { GoesAfter stated.entry self.new.tokens result }
    {
        let (found, rest) = stated?;
        self.tokens = rest;
        Ok(Some(found))
    }

    /// Parses the next statement, if there is one.
    #[tactic(auto, unfolding(crate::specs::Reading::statement))]
    fn statement(
        &mut self,
        alloc: Global,
    ) -> Result<Option<Boxed<Statement<'t, 's>>>, StatementStop>
        ensures value { ReadsOn (statement self.old.tokens) self.new.tokens result }
        ensures left { IfOk result (λ o. IfNone o (self.new.tokens ≡ self.old.tokens)) }
        ensures shorter { IfOk result (λ o. IfSome o (λ x. length self.new.tokens < length self.old.tokens)) }
    {
        if let Some((keyword, rest)) = met(Expected::Set, &self.tokens) {
            return self.behind(set(alloc, keyword, &rest));
        }
        match met(Expected::Param, &self.tokens) {
            None => Ok(None),
            Some((keyword, rest)) => self.behind(param(alloc, keyword, &rest)),
        }
    }
}

/// Parses the statements that come next; also returns the remaining tokens.
fn statements<'t, 's>(
    alloc: Global,
    end: usize,
    tokens: &Words<'t, 's>,
) -> Result<(Items<Statement<'t, 's>>, Words<'t, 's>), Fault>
    ensures { Answers end (statements (suc (length tokens.now)) tokens.now) result }
{
    let mut statements = Vec::new(alloc);
    let mut unread = Unread {
        tokens: tokens.copied(),
    };
    'statements: loop {
        match unread.statement(alloc) {
            Err(stop) => return Err(statement_fault(stop, end)),
            Ok(None) => return Ok((Items::new(statements), unread.tokens)),
            Ok(Some(found)) => push(&mut statements, found)?,
        }
    }
}

/// Parses a keyword with its semicolon, if it comes next; also returns the remaining tokens.
fn single<'t, 's>(
    sort: Expected,
    tokens: &Words<'t, 's>,
) -> Result<(Option<Single<'t, 's>>, Words<'t, 's>), ParseError>
    ensures { result ≡ single_by tokens.now (met (is_of sort) tokens.now) }
{
    match met(sort, tokens) {
        None => Ok((None, tokens.copied())),
        Some((word, rest)) => {
            let (end, rest) = wanted(Expected::Semicolon, &rest)?;
            Ok((Some(Single { word, end }), rest))
        }
    }
}

/// Returns an error unless nothing but commas follows.
#[tactic(auto, unfolding(crate::specs::Reading::finished))]
fn finished(tokens: &Words<'_, '_>) -> Result<(), ParseError>
    ensures { result ≡ finished tokens.now }
{
    match front(tokens) {
        None => Ok(()),
        Some((token, _)) => Err(ParseError {
            error_code: ErrorCode::DataSyntax,
            at: Some(token.span()),
        }),
    }
}

/// Parses the statements of a data file, given its end.
#[tactic(auto, unfolding(crate::specs::Reading::tables, crate::specs::Reading::single))]
fn tables<'t, 's>(
    alloc: Global,
    end: usize,
    tokens: &Words<'t, 's>,
) -> Result<Tables<'t, 's>, Fault>
    ensures { Answers end (tables tokens.now) result }
{
    let (opening, rest) = match single(Expected::Data, tokens) {
        Ok(found) => found,
        Err(stop) => return Err(fault_of(stop, end)),
    };
    let (statements, rest) = statements(alloc, end, &rest)?;
    let (ending, rest) = match single(Expected::End, &rest) {
        Ok(found) => found,
        Err(stop) => return Err(fault_of(stop, end)),
    };
    match finished(&rest) {
        Err(stop) => Err(fault_of(stop, end)),
        Ok(()) => Ok(Tables {
            opening,
            statements,
            ending,
        }),
    }
}

/// Parses the tokens of a data file. Commas are allowed anywhere and significant only in tuples.
/// The first error is `DataSyntax` at the first token that is not allowed, or at the end of the last
/// one; `TableWidth` at the `:=` of a heading without a column or a name; or `RowWidth` at the last
/// cell of a table that does not fill complete rows.
pub fn parse_data<'t, 's>(alloc: Global, tokens: &Words<'t, 's>) -> Result<Tables<'t, 's>, Fault>
    ensures ok { IfOk result (λ x. Mean tokens.now x) }
    // The tables of a successful result have no error.
    ensures full { IfOk result (λ x. all_judged x.statements ≡ Ok tt) }
    ensures rejected { IfErr result (IsRejection tokens.now) }
    // If the tokens are statements, the result is these statements, or the first error in their
    // tables.
    ensures complete { (x : Tables) → Mean tokens.now x
        → Answers (end_of tokens.now) (checked x) result }
    // Which error is the first, and its span.
    ensures place { Answers (end_of tokens.now) (tables tokens.now) result }
{
    tables(alloc, end_of(tokens), tokens)
}

/// Why parsing stops: an error at a token, or at the end of the text if there is no span.
#[derive(Clone, Copy)]
pub struct ParseError {
    pub error_code: ErrorCode,
    pub at: Option<Span>,
}

/// Why no statement is parsed: memory ran out, or there is an error in the text.
#[derive(Clone, Copy)]
pub enum StatementStop {
    OutOfMemory,
    Reading(ParseError),
}

impl From<ParseError> for StatementStop {
    ghost from_gives = { λ stop e. e ≡ statement_stops.Reading stop };

    fn from(stop: ParseError) -> StatementStop {
        StatementStop::Reading(stop)
    }
}

impl From<AllocError> for StatementStop {
    ghost from_gives = { λ _ e. e ≡ statement_stops.OutOfMemory };

    fn from(_memory: AllocError) -> StatementStop {
        StatementStop::OutOfMemory
    }
}

/// Theorem: if tokens are tables without an error, they are no other tables.
pub fn one_meaning()
    ensures value { (tokens : List Token) (x y : Tables) → Mean tokens x → Mean tokens y → all_judged x.statements ≡ Ok tt → x ≡ y }
{}

/// Theorem: the grammar of data files derives all tokens that are tables without an error.
pub fn grammar_is_complete()
    ensures value { IsComplete }
{}

/// Theorem: tokens that the grammar of data files derives are these tables, without an error.
pub fn grammar_is_sound()
    ensures value { IsSound }
{}

/// Theorem: the grammar of data files is unambiguous.
pub fn grammar_is_unambiguous()
    ensures value { IsUnambiguous }
{}

/// Theorem: the groups of cells are the first group and the groups of the cells after it.
pub fn group_by_group()
    ensures none { (size : ℕ) → groups size [] ≡ [] }
    ensures next { (size : ℕ) (cells : List Token) → 0 < size → 0 < length cells → groups size cells ≡ take size cells ∷ groups size (drop size cells) }
{}

/// Theorem: the rows of a set are the first row and the rows of the items after it.
pub fn set_row_by_row()
    ensures none { (dimension : ℕ) → set_rows dimension [] ≡ [] }
    ensures next { (dimension : ℕ) (items : List Token) → 0 < dimension → 0 < length items
        → set_rows dimension items ≡ first_row dimension items ∷ set_rows dimension (more_rows dimension items) }
{}

/// Theorem: if parsing stops at a token that is not allowed, the tokens before it begin valid
/// statements, and no valid statements continue with that token, whatever follows. If it stops at
/// the end, the tokens begin valid statements but are not valid by themselves.
pub fn no_statements_go_on()
    ensures value { NoneGoOn }
    ensures at_end { AllBegin }
{}
