//! The spans of trees.

ghost use Rattle.std.specs.Prelude.{◌≡◌, ◌+◌, ◌<◌, ◌≤◌};
ghost use Rattle.net_tree.specs.Spans as spans;
ghost use Rattle.net_tree.specs.View.{tree, braces_of, condition_of, links_of, option_part};
ghost use Rattle.net_tree.specs.Weights.{weight, weights, part_weight};

use crate::declaration::NetCond;
use crate::expr::{Braces, Expr, LinkedOperand, Part};
use crate::operator::Sign;
use crate::terminal::NetWord;
use net_base::{Boxed, Span};
use net_lex::Token;

/// Returns the start of the first token of a tree.
#[tactic(auto, using(crate::proofs::Views::views))]
fn start_of(expr: &Expr<'_>) -> usize
    ensures { result ≡ (spans.first (tree expr.now)).span.start }
{
    match expr {
        Expr::Leaf(leaf) => leaf.token().span.start,
        Expr::Indexed(parts) => parts.get().0.span.start,
        Expr::Parens(parts) => parts.get().0.span.start,
        Expr::Tuple(parts) => parts.get().0.span.start,
        Expr::Negated(parts) => parts.get().0.span.start,
        Expr::Braced(braces) => opening_of(braces.get()),
        Expr::Signed(parts) => parts.get().0.token().span.start,
        Expr::Reduction(parts, _) => parts.get().0.token().span.start,
        Expr::Chain(_, operands) => start_of(&operands.get().first),
        Expr::If(condition, _, _) => condition.get().mark.span.start,
        Expr::Net(parts) => net_start(&parts.get().0, &parts.get().1),
    }
}

fn net_start(sign: &Option<Sign<'_>>, word: &NetWord<'_>) -> usize
    ensures { result ≡ (spans.first_or sign.now word.now).span.start }
{
    match sign {
        Some(sign) => sign.token().span.start,
        None => word.token().span.start,
    }
}

#[tactic(auto, using(crate::proofs::Views::views))]
fn opening_of(braces: &Braces<'_>) -> usize
    ensures { result ≡ (spans.opening (braces_of braces.now)).span.start }
{
    match braces {
        Braces::Empty(open, _, _) => open.span.start,
        Braces::Filled(open, _, _, _) => open.span.start,
    }
}

#[tactic(auto, using(crate::proofs::Views::views))]
fn closing_of(braces: &Braces<'_>) -> usize
    ensures { result ≡ (spans.closing (braces_of braces.now)).span.end }
{
    match braces {
        Braces::Empty(_, _, close) => close.span.end,
        Braces::Filled(_, _, _, close) => close.span.end,
    }
}

/// Returns the end of the last token of a tree. Takes time proportional to the depth, independent
/// of the length of chains.
#[tactic(auto, using(crate::proofs::Views::views))]
fn end_of(expr: &Expr<'_>) -> usize
    ensures { result ≡ (spans.final (tree expr.now)).span.end }
{
    match expr {
        Expr::Leaf(leaf) => leaf.token().span.end,
        Expr::Indexed(parts) => parts.get().3.span.end,
        Expr::Parens(parts) => parts.get().2.span.end,
        Expr::Tuple(parts) => parts.get().2.span.end,
        Expr::Negated(parts) => parts.get().3.span.end,
        Expr::Braced(braces) => closing_of(braces.get()),
        Expr::Signed(parts) => end_of(&parts.get().1),
        Expr::Reduction(_, body) => end_of(body.get()),
        Expr::Chain(_, operands) => {
            let series = operands.get();
            end_of(last_of(&series.first, series.more.as_slice()))
        }
        Expr::If(_, first, otherwise) => end_of(later_of(&first.get().value, otherwise)),
        Expr::Net(parts) => parts.get().1.token().span.end,
    }
}

/// Returns the last operand of a chain.
fn last_of<'a, 's>(operand: &'a Expr<'s>, links: &'a [LinkedOperand<'s>]) -> &'a Expr<'s>
    ensures last { spans.final (tree result.now) ≡ spans.final_of (spans.final (tree operand.entry.now)) (links_of links.entry.now) }
    ensures lighter { weight (tree result.now) ≤ weight (tree operand.entry.now) + weights (links_of links.entry.now) }
{
    match links {
        [] => operand,
        [.., link] => &link.operand,
    }
}

/// Returns the last branch of an `if`.
#[tactic(auto, using(crate::proofs::Views::views))]
fn later_of<'a, 's>(branch: &'a Expr<'s>, otherwise: &'a Option<Boxed<Part<'s>>>) -> &'a Expr<'s>
    ensures last { spans.final (tree result.now) ≡ spans.final_part (spans.final (tree branch.entry.now)) (option_part otherwise.entry.now) }
    ensures lighter { weight (tree result.now) ≤ weight (tree branch.entry.now) + part_weight (option_part otherwise.entry.now) }
{
    match otherwise {
        None => branch,
        Some(part) => &part.get().value,
    }
}

/// Returns the span of an expression.
#[tactic(auto, unfolding(crate::specs::Spans::span_of))]
pub fn span_of(expr: &Expr<'_>) -> Span
    ensures { result ≡ spans.span_of (tree expr.now) }
{
    Span {
        start: start_of(expr),
        end: end_of(expr),
    }
}

/// Returns the span of an indexing expression.
#[tactic(auto, unfolding(crate::specs::Spans::braces_span))]
pub fn braces_span(braces: &Braces<'_>) -> Span
    ensures { result ≡ spans.braces_span (braces_of braces.now) }
{
    Span {
        start: opening_of(braces),
        end: closing_of(braces),
    }
}

/// Returns the span from the start of one token to the end of another.
#[tactic(auto, unfolding(crate::specs::Spans::span_between))]
pub fn span_between(first: &Token<'_>, last: &Token<'_>) -> Span
    ensures { result ≡ spans.span_between first.now last.now }
{
    Span {
        start: first.span.start,
        end: last.span.end,
    }
}

/// Returns the span of a node's condition without its colon, or `None` if there is no condition.
pub fn condition_span(condition: &NetCond<'_>) -> Option<Span>
    ensures { result ≡ spans.condition_span (condition_of condition.now) }
{
    match condition {
        NetCond::Absent => None,
        NetCond::One(_, left, _, right) => Some(Span {
            start: start_of(left),
            end: end_of(right),
        }),
        NetCond::Between(_, low, _, _, _, high) => Some(Span {
            start: start_of(low),
            end: end_of(high),
        }),
    }
}
