//! Expressions. `depth` is the number of nesting levels that are still allowed; a function
//! `.._inside` has already entered its own level. `max_precedence` is the maximum precedence of a tree at
//! that position.

ghost use Rattle.std.specs.Prelude.{◌≡◌, ◌<◌, ◌≤◌, length, IfOk};
ghost use Rattle.net_tree.specs.Tree.{braced, indexed, negated, signed};
ghost use Rattle.net_tree.specs.View.{tree, braces_of, links_of};
ghost use Rattle.net_model.specs.Expressions as grammar;
ghost use Rattle.net_model.specs.Expressions.{nested, inner_of, unary};
ghost use Rattle.net_model.specs.Reading.{Tokens, Gives, ◌>>=◌ as ◌▷◌, read_as, expect};
ghost use Rattle.net_model.specs.declared.expected.Expected.TheVariants as sorts;
ghost use Rattle.net_model.specs.declared.model_parser.Awaiting.TheVariants as awaiting;

use crate::braces::{braces_inside, reduced_inside};
use crate::chains::{climb_to, is_none, is_sum, links_from};
use crate::choices::wide_of;
use crate::expected::Expected;
use crate::model_parser::{Awaiting, ParseError};
use crate::stored::{Carried, Stored, boxed};
use crate::token_cursor::{TokenCursor, expect};
use net_base::Items;
use net_lex::Token;
use net_tree::{Braces, Expr, Leaf, LinkedOperand, Operands, Role, Sign, precedence};
use std::alloc::Global;

/// Parses an atom, a signed operand or a reduction.
#[cycle(parser)]
#[tactic(auto, using(net_tree::proofs::Views::views), unfolding(crate::specs::Expressions::unary, crate::specs::Expressions::unary_at, crate::specs::Expressions::inner_of))]
pub(crate) fn unary_of<'t, 's>(
    alloc: Global,
    depth: u8,
    tokens: &mut TokenCursor<'t, 's>,
) -> Result<Stored<Expr<'s>>, ParseError>
    ensures value { Gives tree result tokens.new (unary (nested depth) tokens.old) }
    ensures shorter { IfOk result (λ x. length tokens.new < length tokens.old) }
{
    let left = tokens.len();
    let Some((role, token)) = tokens.next_with_role() else {
        return Err(ParseError::Rejected(0, Awaiting::Other));
    };
    match role {
        Role::Name => named_of(alloc, depth, token, tokens),
        Role::Number | Role::Text => Stored::new(alloc, Expr::Leaf(Leaf::new(token))),
        Role::Not => negated_of(alloc, depth, token, tokens),
        Role::Open | Role::OpenBrace | Role::Sign | Role::Reduction if depth == 0 => {
            Err(ParseError::TooDeep(left))
        }
        Role::Open => parens_inside(alloc, depth - 1, token, tokens),
        Role::OpenBrace => {
            let braces = braces_inside(alloc, depth - 1, token, tokens)?;
            braced(alloc, braces)
        }
        Role::Sign => {
            let operand = climb_to(alloc, depth - 1, precedence::REDUCTION, tokens)?;
            signed(alloc, token, operand)
        }
        Role::Reduction => reduced_inside(alloc, depth - 1, token, tokens),
        _ => Err(ParseError::Rejected(left, Awaiting::Other)),
    }
}

/// Builds a set from an indexing expression.
#[tactic(auto, using(net_tree::proofs::Views::views))]
fn braced<'s>(alloc: Global, braces: Stored<Braces<'s>>) -> Result<Stored<Expr<'s>>, ParseError>
    ensures { (rest : Tokens) → Gives tree result rest (read_as (braced (braces_of braces.entry)) rest) }
{
    Stored::new(alloc, Expr::Braced(braces.into_boxed()))
}

/// Builds a signed operand.
#[tactic(auto, using(net_tree::proofs::Views::views))]
fn signed<'s>(
    alloc: Global,
    sign: Token<'s>,
    operand: Stored<Expr<'s>>,
) -> Result<Stored<Expr<'s>>, ParseError>
    ensures { (rest : Tokens) → Gives tree result rest (read_as (signed sign.entry (tree operand.entry)) rest) }
{
    let parts = boxed(alloc, (Sign::new(sign), operand.into_inner()))?;
    Stored::new(alloc, Expr::Signed(parts))
}

/// Parses a name with optional subscripts, after the name.
#[cycle(parser)]
#[tactic(auto, using(net_tree::proofs::Views::views), unfolding(crate::specs::Expressions::named_at))]
pub(crate) fn named_of<'t, 's>(
    alloc: Global,
    depth: u8,
    name: Token<'s>,
    tokens: &mut TokenCursor<'t, 's>,
) -> Result<Stored<Expr<'s>>, ParseError>
    ensures value { Gives tree result tokens.new (grammar.named_at (nested depth) name.entry tokens.old) }
    ensures shorter { IfOk result (λ x. length tokens.new ≤ length tokens.old) }
{
    if !tokens.next_is(Expected::OpenSquare) {
        Stored::new(alloc, Expr::Leaf(Leaf::new(name)))
    } else if depth == 0 {
        Err(ParseError::TooDeep(tokens.len()))
    } else {
        subscripts_inside(alloc, depth - 1, name, tokens)
    }
}

/// Parses the subscripts of a name.
#[cycle(parser)]
#[tactic(auto, unfolding(crate::specs::Expressions::subscripts_at, crate::specs::Expressions::inner_of))]
fn subscripts_inside<'t, 's>(
    alloc: Global,
    depth: u8,
    name: Token<'s>,
    tokens: &mut TokenCursor<'t, 's>,
) -> Result<Stored<Expr<'s>>, ParseError>
    ensures value { Gives tree result tokens.new (grammar.subscripts_at (inner_of (nested depth)) name.entry tokens.old) }
    ensures shorter { IfOk result (λ x. length tokens.new ≤ length tokens.old) }
{
    let Some(open) = tokens.next() else {
        return Err(ParseError::Rejected(0, Awaiting::Other));
    };
    let first = climb_to(alloc, depth, precedence::SUM, tokens)?;
    let more = links_from(alloc, depth, precedence::COMMA, precedence::SUM, tokens)?;
    indexed(alloc, name, open, first, more, tokens)
}

/// Parses the end of the subscripts of a name.
#[tactic(auto, using(net_tree::proofs::Views::views, crate::proofs::Making::makings))]
fn indexed<'t, 's>(
    alloc: Global,
    name: Token<'s>,
    opening: Token<'s>,
    first: Stored<Expr<'s>>,
    more: Carried<Items<LinkedOperand<'s>>>,
    tokens: &mut TokenCursor<'t, 's>,
) -> Result<Stored<Expr<'s>>, ParseError>
    ensures value { Gives tree result tokens.new (expect sorts.CloseSquare awaiting.Other tokens.old ▷ λ c. read_as
        (indexed name.entry opening.entry (tree first.entry) (links_of more.entry) c.0) c.1) }
    ensures shorter { IfOk result (λ x. length tokens.new < length tokens.old) }
{
    let close = expect(Expected::CloseSquare, Awaiting::Other, tokens)?;
    let first = first.into_inner();
    let more = more.into_inner();
    let parts = (name, opening, Operands { first, more }, close);
    let parts = boxed(alloc, parts)?;
    Stored::new(alloc, Expr::Indexed(parts))
}

/// Parses parentheses, after `(`.
#[cycle(parser)]
#[tactic(auto, unfolding(crate::specs::Expressions::parens_at, crate::specs::Expressions::inner_of))]
fn parens_inside<'t, 's>(
    alloc: Global,
    depth: u8,
    opening: Token<'s>,
    tokens: &mut TokenCursor<'t, 's>,
) -> Result<Stored<Expr<'s>>, ParseError>
    ensures value { Gives tree result tokens.new (grammar.parens_at (inner_of (nested depth)) opening.entry tokens.old) }
    ensures shorter { IfOk result (λ x. length tokens.new < length tokens.old) }
{
    let inner = wide_of(alloc, depth, precedence::OR, tokens)?;
    parens_from(alloc, depth, opening, inner, tokens)
}

/// Parses parentheses, after their first expression.
#[cycle(parser)]
#[tactic(auto, unfolding(crate::specs::Expressions::parens_from, crate::specs::Expressions::inner_of))]
fn parens_from<'t, 's>(
    alloc: Global,
    depth: u8,
    opening: Token<'s>,
    first: Stored<Expr<'s>>,
    tokens: &mut TokenCursor<'t, 's>,
) -> Result<Stored<Expr<'s>>, ParseError>
    ensures value { Gives tree result tokens.new (grammar.parens_from (inner_of (nested depth)) opening.entry (tree first.entry) tokens.old) }
    ensures shorter { IfOk result (λ x. length tokens.new < length tokens.old) }
{
    if is_sum(first.get()) {
        let more = links_from(alloc, depth, precedence::COMMA, precedence::SUM, tokens)?;
        listed(alloc, opening, first, more, tokens)
    } else {
        closed(alloc, opening, first, tokens)
    }
}

/// Parses the end of parentheses around one expression.
#[tactic(auto, using(net_tree::proofs::Views::views))]
fn closed<'t, 's>(
    alloc: Global,
    opening: Token<'s>,
    inner: Stored<Expr<'s>>,
    tokens: &mut TokenCursor<'t, 's>,
) -> Result<Stored<Expr<'s>>, ParseError>
    ensures value { Gives tree result tokens.new (grammar.closed opening.entry (tree inner.entry) tokens.old) }
    ensures shorter { IfOk result (λ x. length tokens.new < length tokens.old) }
{
    let close = expect(Expected::Close, Awaiting::Other, tokens)?;
    let parts = (opening, inner.into_inner(), close);
    let parts = boxed(alloc, parts)?;
    Stored::new(alloc, Expr::Parens(parts))
}

/// Parses the end of parentheses around one expression or a tuple.
#[tactic(auto, using(net_tree::proofs::Views::views, crate::proofs::Making::makings))]
fn listed<'t, 's>(
    alloc: Global,
    opening: Token<'s>,
    first: Stored<Expr<'s>>,
    more: Carried<Items<LinkedOperand<'s>>>,
    tokens: &mut TokenCursor<'t, 's>,
) -> Result<Stored<Expr<'s>>, ParseError>
    ensures value { Gives tree result tokens.new (grammar.listed opening.entry (tree first.entry) (links_of more.entry) tokens.old) }
    ensures shorter { IfOk result (λ x. length tokens.new < length tokens.old) }
{
    if is_none(more.get()) {
        return closed(alloc, opening, first, tokens);
    }
    let close = expect(Expected::Close, Awaiting::Other, tokens)?;
    let first = first.into_inner();
    let more = more.into_inner();
    let parts = (opening, Operands { first, more }, close);
    let parts = boxed(alloc, parts)?;
    Stored::new(alloc, Expr::Tuple(parts))
}

/// Parses a negation, after `not`.
#[cycle(parser)]
fn negated_of<'t, 's>(
    alloc: Global,
    depth: u8,
    word: Token<'s>,
    tokens: &mut TokenCursor<'t, 's>,
) -> Result<Stored<Expr<'s>>, ParseError>
    ensures value { Gives tree result tokens.new (grammar.negated_at (nested depth) word.entry tokens.old) }
    ensures shorter { IfOk result (λ x. length tokens.new < length tokens.old) }
{
    let left = tokens.len();
    let open = expect(Expected::Open, Awaiting::Other, tokens)?;
    if depth == 0 {
        return Err(ParseError::TooDeep(left));
    }
    let inner = climb_to(alloc, depth - 1, precedence::OR, tokens)?;
    negated(alloc, word, open, inner, tokens)
}

/// Parses the end of a negation.
#[tactic(auto, using(net_tree::proofs::Views::views))]
fn negated<'t, 's>(
    alloc: Global,
    word: Token<'s>,
    opening: Token<'s>,
    inner: Stored<Expr<'s>>,
    tokens: &mut TokenCursor<'t, 's>,
) -> Result<Stored<Expr<'s>>, ParseError>
    ensures value { Gives tree result tokens.new (expect sorts.Close awaiting.Other tokens.old ▷ λ c. read_as
        (negated word.entry opening.entry (tree inner.entry) c.0) c.1) }
    ensures shorter { IfOk result (λ x. length tokens.new < length tokens.old) }
{
    let close = expect(Expected::Close, Awaiting::Other, tokens)?;
    let parts = (word, opening, inner.into_inner(), close);
    let parts = boxed(alloc, parts)?;
    Stored::new(alloc, Expr::Negated(parts))
}
