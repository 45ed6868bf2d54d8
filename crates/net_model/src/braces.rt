//! Indexing expressions, and reductions over them.

ghost use Rattle.std.specs.Prelude.{◌≡◌, ◌<◌, ◌≤◌, length, IfOk};
ghost use Rattle.net_tree.specs.Precedence.{of_product};
ghost use Rattle.net_tree.specs.Tree.{reduced};
ghost use Rattle.net_tree.specs.View.{tree, braces_of, option_part};
ghost use Rattle.net_model.specs.Expressions as grammar;
ghost use Rattle.net_model.specs.Expressions.{nested, inner_of, unary};
ghost use Rattle.net_model.specs.Reading.{Tokens, Gives, read_as};

use crate::chains::{climb_to, links_from};
use crate::choices::introduced;
use crate::expected::Expected;
use crate::model_parser::{Awaiting, ParseError};
use crate::stored::{Carried, Stored, boxed};
use crate::token_cursor::{TokenCursor, expect};
use net_base::Boxed;
use net_lex::Token;
use net_tree::{Braces, Expr, Operands, Part, Reducer, precedence};
use std::alloc::Global;

/// Parses an indexing expression.
#[cycle(parser)]
pub(crate) fn braces_of<'t, 's>(
    alloc: Global,
    depth: u8,
    tokens: &mut TokenCursor<'t, 's>,
) -> Result<Stored<Braces<'s>>, ParseError>
    ensures value { Gives braces_of result tokens.new (grammar.braces (nested depth) tokens.old) }
    ensures shorter { IfOk result (λ x. length tokens.new < length tokens.old) }
{
    let left = tokens.len();
    let open = expect(Expected::OpenBrace, Awaiting::Other, tokens)?;
    if depth == 0 {
        Err(ParseError::TooDeep(left))
    } else {
        braces_inside(alloc, depth - 1, open, tokens)
    }
}

/// Parses an indexing expression after its opening brace.
#[cycle(parser)]
#[tactic(auto, unfolding(crate::specs::Expressions::braces_at))]
pub(crate) fn braces_inside<'t, 's>(
    alloc: Global,
    depth: u8,
    opening: Token<'s>,
    tokens: &mut TokenCursor<'t, 's>,
) -> Result<Stored<Braces<'s>>, ParseError>
    ensures value { Gives braces_of result tokens.new (grammar.braces_at (inner_of (nested depth)) opening.entry tokens.old) }
    ensures shorter { IfOk result (λ x. length tokens.new < length tokens.old) }
{
    if tokens.next_ends_braces() {
        hollow_inside(alloc, depth, opening, tokens)
    } else {
        items_inside(alloc, depth, opening, tokens)
    }
}

/// Parses braces without items.
#[cycle(parser)]
#[tactic(auto, using(net_tree::proofs::Views::views), unfolding(crate::specs::Expressions::empty_braces_at))]
fn hollow_inside<'t, 's>(
    alloc: Global,
    depth: u8,
    opening: Token<'s>,
    tokens: &mut TokenCursor<'t, 's>,
) -> Result<Stored<Braces<'s>>, ParseError>
    ensures value { Gives braces_of result tokens.new (grammar.empty_braces_at (inner_of (nested depth)) opening.entry tokens.old) }
    ensures shorter { IfOk result (λ x. length tokens.new < length tokens.old) }
{
    let filter = filter_of(alloc, depth, tokens)?;
    let close = expect(Expected::CloseBrace, Awaiting::Other, tokens)?;
    Stored::new(alloc, Braces::Empty(opening, filter.into_inner(), close))
}

/// Parses braces with items.
#[cycle(parser)]
#[tactic(auto, using(crate::proofs::Making::makings), unfolding(crate::specs::Expressions::items_at, crate::specs::Expressions::inner_of))]
fn items_inside<'t, 's>(
    alloc: Global,
    depth: u8,
    opening: Token<'s>,
    tokens: &mut TokenCursor<'t, 's>,
) -> Result<Stored<Braces<'s>>, ParseError>
    ensures value { Gives braces_of result tokens.new (grammar.items_at (inner_of (nested depth)) opening.entry tokens.old) }
    ensures shorter { IfOk result (λ x. length tokens.new < length tokens.old) }
{
    let first = climb_to(alloc, depth, precedence::RELATION, tokens)?;
    let more = links_from(
        alloc,
        depth,
        precedence::COMMA,
        precedence::RELATION,
        tokens,
    )?;
    let filter = filter_of(alloc, depth, tokens)?;
    let close = expect(Expected::CloseBrace, Awaiting::Other, tokens)?;
    let first = first.into_inner();
    let more = more.into_inner();
    let braces = Braces::Filled(
        opening,
        Operands { first, more },
        filter.into_inner(),
        close,
    );
    Stored::new(alloc, braces)
}

/// Parses the condition of an indexing expression, if present.
#[cycle(parser)]
#[tactic(auto, using(net_tree::proofs::Views::views), unfolding(crate::specs::Expressions::part_at, crate::specs::Expressions::present_at, crate::specs::Expressions::inner_of))]
fn filter_of<'t, 's>(
    alloc: Global,
    depth: u8,
    tokens: &mut TokenCursor<'t, 's>,
) -> Result<Carried<Option<Boxed<Part<'s>>>>, ParseError>
    ensures value { Gives option_part result tokens.new (grammar.filter_at (inner_of (nested depth)) tokens.old) }
    ensures shorter { IfOk result (λ x. length tokens.new ≤ length tokens.old) }
{
    if !tokens.next_is(Expected::Colon) {
        return Ok(Carried::new(None));
    }
    let Some(mark) = tokens.next() else {
        return Err(ParseError::Rejected(0, Awaiting::Other));
    };
    let condition = introduced(alloc, depth, precedence::OR, mark, tokens)?;
    Ok(Carried::new(Some(condition.into_boxed())))
}

/// Parses a reduction after `sum`, `min` or `max`.
#[cycle(parser)]
#[tactic(auto, unfolding(crate::specs::Expressions::reduction_at, crate::specs::Expressions::inner_of))]
pub(crate) fn reduced_inside<'t, 's>(
    alloc: Global,
    depth: u8,
    word: Token<'s>,
    tokens: &mut TokenCursor<'t, 's>,
) -> Result<Stored<Expr<'s>>, ParseError>
    ensures value { Gives tree result tokens.new (grammar.reduction_at (inner_of (nested depth)) word.entry tokens.old) }
    ensures shorter { IfOk result (λ x. length tokens.new < length tokens.old) }
{
    let braces = braces_of(alloc, depth, tokens)?;
    let body = body_inside(alloc, depth, tokens)?;
    reduced(alloc, word, braces, body)
}

/// Builds a reduction.
#[tactic(auto, using(net_tree::proofs::Views::views))]
fn reduced<'s>(
    alloc: Global,
    word: Token<'s>,
    braces: Stored<Braces<'s>>,
    body: Stored<Expr<'s>>,
) -> Result<Stored<Expr<'s>>, ParseError>
    ensures { (rest : Tokens) → Gives tree result rest (read_as (reduced word.entry (braces_of braces.entry) (tree body.entry)) rest) }
{
    let front = boxed(alloc, (Reducer::new(word), braces.into_inner()))?;
    Stored::new(alloc, Expr::Reduction(front, body.into_boxed()))
}

/// Parses the summand of a reduction, after its braces.
#[cycle(parser)]
fn body_inside<'t, 's>(
    alloc: Global,
    depth: u8,
    tokens: &mut TokenCursor<'t, 's>,
) -> Result<Stored<Expr<'s>>, ParseError>
    ensures value { Gives tree result tokens.new (grammar.climb of_product (unary (nested depth)) tokens.old) }
    ensures shorter { IfOk result (λ x. length tokens.new < length tokens.old) }
{
    climb_to(alloc, depth, max_precedence_in_body(), tokens)
}

/// Returns the maximum precedence of a summand: a product, so that a following `+` is not part of
/// the reduction.
fn max_precedence_in_body() -> u8
    ensures { result ≡ of_product }
{
    precedence::PRODUCT
}
