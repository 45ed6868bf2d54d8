//! `if` expressions, in the positions that allow them.

ghost use Rattle.std.specs.Prelude.{◌≡◌, ◌<◌, ◌≤◌, length, IfOk};
ghost use Rattle.net_tree.specs.Precedence.{of_union};
ghost use Rattle.net_tree.specs.View.{tree, option_part, part_of};
ghost use Rattle.net_model.specs.Expressions as grammar;
ghost use Rattle.net_model.specs.Expressions.{nested, inner_of, unary};
ghost use Rattle.net_model.specs.Reading.{Gives};
ghost use Rattle.net_model.specs.declared.expected.Expected.TheVariants as sorts;

use crate::chains::climb_to;
use crate::expected::Expected;
use crate::model_parser::{Awaiting, ParseError};
use crate::stored::{Carried, Stored, boxed};
use crate::token_cursor::{TokenCursor, expect};
use net_base::Boxed;
use net_lex::Token;
use net_tree::{Expr, Part, precedence};
use std::alloc::Global;

/// Parses an `if`, or a tree of at most this precedence.
#[cycle(parser)]
#[tactic(auto, unfolding(crate::specs::Expressions::wide))]
pub(crate) fn wide_of<'t, 's>(
    alloc: Global,
    depth: u8,
    max_precedence: u8,
    tokens: &mut TokenCursor<'t, 's>,
) -> Result<Stored<Expr<'s>>, ParseError>
    ensures value { Gives tree result tokens.new (grammar.wide (nested depth) max_precedence tokens.old) }
    ensures shorter { IfOk result (λ x. length tokens.new < length tokens.old) }
{
    if tokens.next_is(Expected::If) {
        if_of(alloc, depth, tokens)
    } else {
        climb_to(alloc, depth, max_precedence, tokens)
    }
}

/// Parses an `if` expression.
#[cycle(parser)]
fn if_of<'t, 's>(
    alloc: Global,
    depth: u8,
    tokens: &mut TokenCursor<'t, 's>,
) -> Result<Stored<Expr<'s>>, ParseError>
    ensures value { Gives tree result tokens.new (grammar.if_at (nested depth) tokens.old) }
    ensures shorter { IfOk result (λ x. length tokens.new < length tokens.old) }
{
    if depth == 0 {
        return Err(ParseError::TooDeep(tokens.len()));
    }
    match tokens.next() {
        None => Err(ParseError::Rejected(0, Awaiting::Other)),
        Some(word) => choice_inside(alloc, depth - 1, word, tokens),
    }
}

/// Parses a tree of at most this precedence; its clause includes the token before it.
#[cycle(parser)]
#[tactic(auto, using(net_tree::proofs::Views::views))]
pub(crate) fn introduced<'t, 's>(
    alloc: Global,
    depth: u8,
    max_precedence: u8,
    mark: Token<'s>,
    tokens: &mut TokenCursor<'t, 's>,
) -> Result<Stored<Part<'s>>, ParseError>
    ensures value { Gives (λ p. (part_of p).1) result tokens.new (grammar.climb max_precedence (unary (nested depth)) tokens.old) }
    ensures mark { IfOk result (λ p. (part_of p).0 ≡ mark.entry) }
    ensures shorter { IfOk result (λ x. length tokens.new < length tokens.old) }
{
    let value = climb_to(alloc, depth, max_precedence, tokens)?.into_inner();
    Stored::new(alloc, Part { mark, value })
}

/// Parses an `if` expression after its keyword.
#[cycle(parser)]
#[tactic(auto, using(net_tree::proofs::Views::views), unfolding(crate::specs::Expressions::conditional_at, crate::specs::Expressions::inner_of))]
fn choice_inside<'t, 's>(
    alloc: Global,
    depth: u8,
    word: Token<'s>,
    tokens: &mut TokenCursor<'t, 's>,
) -> Result<Stored<Expr<'s>>, ParseError>
    ensures value { Gives tree result tokens.new (grammar.conditional_at (inner_of (nested depth)) word.entry tokens.old) }
    ensures shorter { IfOk result (λ x. length tokens.new < length tokens.old) }
{
    let condition = introduced(alloc, depth, precedence::OR, word, tokens)?;
    let then = expect(Expected::Then, Awaiting::Other, tokens)?;
    let branch = introduced(alloc, depth, precedence::UNION, then, tokens)?;
    let otherwise = otherwise_of(alloc, depth, tokens)?;
    let choice = Expr::If(
        condition.into_boxed(),
        branch.into_boxed(),
        otherwise.into_inner(),
    );
    Stored::new(alloc, choice)
}

/// Parses the `else` clause, if present.
#[cycle(parser)]
#[tactic(auto, using(net_tree::proofs::Views::views), unfolding(crate::specs::Expressions::part_at, crate::specs::Expressions::present_at, crate::specs::Expressions::inner_of))]
fn otherwise_of<'t, 's>(
    alloc: Global,
    depth: u8,
    tokens: &mut TokenCursor<'t, 's>,
) -> Result<Carried<Option<Boxed<Part<'s>>>>, ParseError>
    ensures value { Gives option_part result tokens.new (grammar.part_at sorts.Else ((inner_of (nested depth)).wide of_union) tokens.old) }
    ensures shorter { IfOk result (λ x. length tokens.new ≤ length tokens.old) }
{
    if !tokens.next_is(Expected::Else) {
        return Ok(Carried::new(None));
    }
    let Some(mark) = tokens.next() else {
        return Err(ParseError::Rejected(0, Awaiting::Other));
    };
    let value = wide_of(alloc, depth, precedence::UNION, tokens)?.into_inner();
    Ok(Carried::new(Some(boxed(alloc, Part { mark, value })?)))
}
