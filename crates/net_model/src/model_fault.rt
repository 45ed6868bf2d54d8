//! The error for a token that the grammar does not allow.

ghost use Rattle.std.specs.Prelude.{◌≡◌, length, IfOk};
ghost use Rattle.net_model.specs.Faults as faults;
ghost use Rattle.net_base.specs.declared.diagnostic.Fault.TheVariants.{At};

use crate::model_parser::{Awaiting, ParseError};
use net_base::{Detail, ErrorCode, Fault, Language, Span};
use net_lex::{Kind, Token};
use net_tree::{Relation, Role, role_of};
use std::alloc::{AllocError, Global};

/// Returns whether a gain factor can begin with a token of this role.
fn begins_gain(role: Role) -> bool
    ensures { result ≡ faults.begins_gain role }
{
    match role {
        Role::Number | Role::Text | Role::Name | Role::Open | Role::OpenBrace => true,
        Role::Sign | Role::If | Role::Reduction => true,
        _ => false,
    }
}

/// Returns whether a token in the position of a phrase or of a declaration is an unsupported
/// construct of AMPL: a word, `=` or `{`.
fn is_foreign(kind: Kind, role: Role) -> bool
    ensures { result ≡ faults.is_foreign kind role }
{
    match kind {
        Kind::Name | Kind::Key => true,
        Kind::Num | Kind::Str | Kind::Mark | Kind::Dot => {
            matches!(role, Role::OpenBrace | Role::Relation(Relation::Equal))
        }
    }
}

fn foreign_error_code(foreign: bool) -> ErrorCode
    ensures { result ≡ faults.foreign_error_code foreign }
{
    if foreign {
        ErrorCode::LeftOut
    } else {
        ErrorCode::ModelSyntax
    }
}

/// Returns the error of a token that is not expected and is not a gain factor.
fn misplaced(awaiting: Awaiting, kind: Kind, role: Role) -> ErrorCode
    ensures { result ≡ faults.misplaced awaiting kind role }
{
    match role {
        Role::Net => ErrorCode::NetPlace,
        Role::LeftOut => ErrorCode::LeftOut,
        _ => foreign_error_code(foreign_for(awaiting, kind, role)),
    }
}

fn foreign_for(awaiting: Awaiting, kind: Kind, role: Role) -> bool
    ensures { result ≡ faults.foreign_for awaiting kind role }
{
    match awaiting {
        Awaiting::FurtherPhrase => true,
        Awaiting::Declaration | Awaiting::Phrase | Awaiting::PhraseAfterNode => {
            is_foreign(kind, role)
        }
        Awaiting::Objective => matches!(role, Role::OpenBrace),
        Awaiting::Other => false,
    }
}

fn is_after_node(awaiting: Awaiting) -> bool
    ensures { result ≡ faults.is_after_node awaiting }
{
    matches!(awaiting, Awaiting::PhraseAfterNode)
}

/// Returns the error of a token in the position of what is expected.
fn error_code_of(awaiting: Awaiting, kind: Kind, role: Role) -> ErrorCode
    ensures { result ≡ faults.error_code_of awaiting kind role }
{
    if is_after_node(awaiting) && begins_gain(role) {
        ErrorCode::Gain
    } else {
        misplaced(awaiting, kind, role)
    }
}

/// Returns the detail that is reported with an error: the word of an unsupported construct.
fn detail_of(alloc: Global, error_code: ErrorCode, token: &Token<'_>) -> Result<Detail, AllocError>
    ensures { IfOk result (λ d. d ≡ faults.detail_of error_code token.now.text) }
{
    match error_code {
        ErrorCode::LeftOut => Detail::of_name(alloc, &token.text),
        _ => Ok(Detail::Nothing),
    }
}

/// Returns the span of the end of the text.
fn end_of(tokens: &[Token<'_>]) -> Span
    ensures { result ≡ faults.end_of tokens.now }
{
    match tokens {
        [] => Span { start: 0, end: 0 },
        [.., last] => Span {
            start: last.span.end,
            end: last.span.end,
        },
    }
}

fn rejected_fault(
    alloc: Global,
    awaiting: Awaiting,
    left: usize,
    tokens: &[Token<'_>],
) -> Result<Fault, AllocError>
    ensures { IfOk result (λ f. f ≡ At (faults.rejected_fault awaiting (faults.left_of left tokens.now) tokens.now)) }
{
    match tokens.get(tokens.len().saturating_sub(left)) {
        None => Ok(Fault::of_model(ErrorCode::ModelSyntax, end_of(tokens))),
        Some(token) => {
            let error_code = error_code_of(awaiting, token.kind, role_of(token));
            let detail = detail_of(alloc, error_code, token)?;
            Ok(Fault::of_text(Language::Model, error_code, token.span, detail))
        }
    }
}

fn deep_fault(left: usize, tokens: &[Token<'_>]) -> Fault
    ensures { result ≡ At (faults.deep_fault (faults.left_of left tokens.now) tokens.now) }
{
    match tokens.get(tokens.len().saturating_sub(left)) {
        None => Fault::of_model(ErrorCode::TooDeep, end_of(tokens)),
        Some(token) => Fault::of_model(ErrorCode::TooDeep, token.span),
    }
}

/// Returns the error for a stop of the parser.
pub(crate) fn reported(alloc: Global, stop: ParseError, tokens: &[Token<'_>]) -> Fault
    ensures { faults.IsReportedOf stop tokens.now result }
{
    match stop {
        ParseError::OutOfMemory => Fault::OutOfMemory,
        ParseError::Rejected(left, awaiting) => match rejected_fault(
            alloc, awaiting, left, tokens,
        ) {
            Ok(fault) => fault,
            Err(_) => Fault::OutOfMemory,
        },
        ParseError::TooDeep(left) => deep_fault(left, tokens),
    }
}
