//! Chains of operands, one precedence level at a time.

ghost use Rattle.std.specs.Prelude.{◌≡◌, ◌<◌, ◌≤◌, length, IfOk, nat_le, IfErr};
ghost use Rattle.net_tree.specs.View.{tree, links_of, link_of};
ghost use Rattle.net_model.specs.Expressions as grammar;
ghost use Rattle.net_model.specs.Expressions.{nested, unary, chained, is_none};
ghost use Rattle.net_model.specs.Reading.{Gives};
ghost use Rattle.net_tree.specs.WellFormed.{precedence};
ghost use Rattle.net_tree.specs.Precedence.{of_sum};
ghost use Rattle.net_model.specs.declared.model_parser.ParseError.TheVariants.{OutOfMemory};

use crate::expressions::unary_of;
use crate::model_parser::ParseError;
use crate::stored::{Carried, Stored, boxed, push};
use crate::token_cursor::{TokenCursor, operator_at};
use net_base::Items;
use net_tree::{Expr, LinkedOperand, Operands, Operator, precedence};
use std::alloc::Global;

/// Parses a tree of at most this precedence, up to an `or`.
#[cycle(parser)]
pub(crate) fn climb_to<'t, 's>(
    alloc: Global,
    depth: u8,
    max_precedence: u8,
    tokens: &mut TokenCursor<'t, 's>,
) -> Result<Stored<Expr<'s>>, ParseError>
    ensures value { Gives tree result tokens.new (grammar.climb max_precedence (unary (nested depth)) tokens.old) }
    ensures shorter { IfOk result (λ x. length tokens.new < length tokens.old) }
{
    if max_precedence < precedence::PRODUCT {
        unary_of(alloc, depth, tokens)
    } else {
        chain_of(alloc, depth, max_precedence - 1, tokens)
    }
}

/// Parses a chain of operands of this precedence, or a single operand.
#[cycle(parser)]
#[tactic(auto, unfolding(crate::specs::Expressions::chain_at))]
fn chain_of<'t, 's>(
    alloc: Global,
    depth: u8,
    max_precedence: u8,
    tokens: &mut TokenCursor<'t, 's>,
) -> Result<Stored<Expr<'s>>, ParseError>
    ensures value { Gives tree result tokens.new (grammar.chain_at max_precedence (grammar.climb max_precedence (unary (nested depth))) tokens.old) }
    ensures shorter { IfOk result (λ x. length tokens.new < length tokens.old) }
{
    let first = climb_to(alloc, depth, max_precedence, tokens)?;
    let more = chain_links(alloc, depth, max_precedence, tokens)?;
    Ok(chained(alloc, max_precedence, first, more)?)
}

/// Parses the links of a chain whose first operand has this precedence.
#[cycle(parser)]
fn chain_links<'t, 's>(
    alloc: Global,
    depth: u8,
    max_precedence: u8,
    tokens: &mut TokenCursor<'t, 's>,
) -> Result<Carried<Items<LinkedOperand<'s>>>, ParseError>
    ensures value { Gives links_of result tokens.new (grammar.all_links max_precedence (grammar.climb max_precedence (unary (nested depth))) tokens.old) }
    ensures shorter { IfOk result (λ x. length tokens.new ≤ length tokens.old) }
{
    links_from(
        alloc,
        depth,
        max_precedence,
        max_precedence_at_right(max_precedence),
        tokens,
    )
}

/// Returns the maximum precedence of a right operand: that of the left operand, so that chains
/// associate to the left.
fn max_precedence_at_right(left: u8) -> u8
    ensures { result ≡ left }
{
    left
}

/// Parses links whose tokens join operands of precedence `joining`, with operands of at most
/// precedence `max_precedence`.
#[cycle(parser)]
pub(crate) fn links_from<'t, 's>(
    alloc: Global,
    depth: u8,
    joining: u8,
    max_precedence: u8,
    tokens: &mut TokenCursor<'t, 's>,
) -> Result<Carried<Items<LinkedOperand<'s>>>, ParseError>
    ensures value { Gives links_of result tokens.new (grammar.all_links joining (grammar.climb max_precedence (unary (nested depth))) tokens.old) }
    ensures shorter { IfOk result (λ x. length tokens.new ≤ length tokens.old) }
{
    let mut found = Vec::new(alloc);
    while tokens.next_joins(joining, found.len()) {
        let operator = operator_at(alloc, tokens)?;
        let operand = climb_to(alloc, depth, max_precedence, tokens)?;
        let link = linked(alloc, operator, operand)?;
        push(&mut found, link)?;
    }
    Ok(Carried::new(Items::new(found)))
}

/// Returns whether the tree is allowed in the position of a sum.
#[tactic(auto, using(net_tree::proofs::Views::views))]
pub(crate) fn is_sum(expr: &Expr<'_>) -> bool
    ensures { result ≡ nat_le (precedence (tree expr.now)) of_sum }
{
    match expr {
        Expr::Leaf(_) | Expr::Indexed(_) | Expr::Parens(_) | Expr::Tuple(_) => true,
        Expr::Negated(_) | Expr::Braced(_) | Expr::Reduction(_, _) => true,
        Expr::Signed(parts) => is_sum(&parts.get().1),
        Expr::Chain(max_precedence, _) => *max_precedence < precedence::SUM,
        Expr::If(_, _, _) | Expr::Net(_) => false,
    }
}

/// Builds a link from an operator and the operand after it.
#[tactic(auto, using(crate::proofs::Making::link_made))]
pub(crate) fn linked<'s>(
    alloc: Global,
    operator: Carried<Operator<'s>>,
    operand: Stored<Expr<'s>>,
) -> Result<Stored<LinkedOperand<'s>>, ParseError>
    ensures value { IfOk result (λ l. link_of l ≡ (operator.entry, tree operand.entry)) }
    ensures memory { IfErr result (λ e. e ≡ OutOfMemory) }
{
    let operator = operator.into_inner();
    let operand = operand.into_inner();
    Stored::new(alloc, LinkedOperand { operator, operand })
}

/// Returns whether there are no links.
pub(crate) fn is_none(links: &Items<LinkedOperand<'_>>) -> bool
    ensures { result ≡ is_none (links_of links.now) }
{
    match links.as_slice() {
        [] => true,
        [_, ..] => false,
    }
}

/// Builds a chain, or returns the first operand if there are no links.
#[tactic(auto, using(crate::proofs::Making::makings))]
pub(crate) fn chained<'s>(
    alloc: Global,
    max_precedence: u8,
    first: Stored<Expr<'s>>,
    more: Carried<Items<LinkedOperand<'s>>>,
) -> Result<Stored<Expr<'s>>, ParseError>
    ensures value { IfOk result (λ x. tree x ≡ chained max_precedence (tree first.entry) (links_of more.entry)) }
    ensures memory { IfErr result (λ e. e ≡ OutOfMemory) }
{
    if is_none(more.get()) {
        return Ok(first);
    }
    let first = first.into_inner();
    let more = more.into_inner();
    let operands = boxed(alloc, Operands { first, more })?;
    Stored::new(alloc, Expr::Chain(max_precedence, operands))
}
