//! Occurrences of arcs in expressions.

ghost use Rattle.std.specs.Prelude.{◌≡◌, ◌||◌};
ghost use Rattle.net_tree.specs.View.{tree, braces_of, links_of, option_part};
ghost use Rattle.net_linear.specs.Objectives as objectives;

use crate::key_numbers::NumberedNames;
use crate::net_term::is_sign;
use net_base::Boxed;
use net_tree::{BinOp, Braces, Expr, LinkedOperand, Part};

/// Returns whether an expression contains an arc.
#[cycle(names)]
#[tactic(auto, using(net_tree::proofs::Views::views))]
pub(crate) fn names_arc<'s>(arcs: &NumberedNames<'s>, expr: &Expr<'s>) -> bool
    ensures { result ≡ objectives.names_arc arcs.now (tree expr.now) }
{
    match expr {
        Expr::Leaf(leaf) => arcs.has(&leaf.token().text),
        Expr::Indexed(parts) => {
            let (name, _, series, _) = parts.get();
            arcs.has(&name.text) || any_arc(arcs, &series.first, series.more.as_slice())
        }
        Expr::Parens(parts) => names_arc(arcs, &parts.get().1),
        Expr::Tuple(parts) => {
            let series = &parts.get().1;
            any_arc(arcs, &series.first, series.more.as_slice())
        }
        Expr::Negated(parts) => names_arc(arcs, &parts.get().2),
        Expr::Braced(braces) => braces_arc(arcs, braces.get()),
        Expr::Signed(parts) => names_arc(arcs, &parts.get().1),
        Expr::Reduction(parts, body) => {
            braces_arc(arcs, &parts.get().1) || names_arc(arcs, body.get())
        }
        Expr::Chain(_, operands) => {
            let series = operands.get();
            any_arc(arcs, &series.first, series.more.as_slice())
        }
        Expr::If(condition, branch, otherwise) => {
            names_arc(arcs, &condition.get().value)
                || names_arc(arcs, &branch.get().value)
                || part_arc(arcs, otherwise)
        }
        Expr::Net(_) => false,
    }
}

#[cycle(names)]
pub(crate) fn any_arc<'s>(
    arcs: &NumberedNames<'s>,
    first: &Expr<'s>,
    more: &[LinkedOperand<'s>],
) -> bool
    ensures { result ≡ objectives.first_or_any arcs.now (tree first.now) (links_of more.now) }
{
    names_arc(arcs, first) || links_arc(arcs, more)
}

#[cycle(names)]
fn links_arc<'s>(arcs: &NumberedNames<'s>, links: &[LinkedOperand<'s>]) -> bool
    ensures { result ≡ objectives.any_arc arcs.now (links_of links.now) }
{
    for link in links {
        if names_arc(arcs, &link.operand) {
            return true;
        }
    }
    false
}

#[cycle(names)]
#[tactic(auto, using(net_tree::proofs::Views::views))]
fn part_arc<'s>(arcs: &NumberedNames<'s>, part: &Option<Boxed<Part<'s>>>) -> bool
    ensures { result ≡ objectives.part_arc arcs.now (option_part part.now) }
{
    match part {
        None => false,
        Some(part) => names_arc(arcs, &part.get().value),
    }
}

#[cycle(names)]
#[tactic(auto, using(net_tree::proofs::Views::views))]
pub(crate) fn braces_arc<'s>(arcs: &NumberedNames<'s>, braces: &Braces<'s>) -> bool
    ensures { result ≡ objectives.braces_arc arcs.now (braces_of braces.now) }
{
    match braces {
        Braces::Empty(_, condition, _) => part_arc(arcs, condition),
        Braces::Filled(_, series, condition, _) => {
            any_arc(arcs, &series.first, series.more.as_slice()) || part_arc(arcs, condition)
        }
    }
}

fn are_signs(links: &[LinkedOperand<'_>]) -> bool
    ensures { result ≡ objectives.are_signs (links_of links.now) }
{
    for link in links {
        if !is_sign(link.operator.op()) {
            return false;
        }
    }
    true
}

/// Returns whether an operator is allowed, given whether its left and its right operand contain an
/// arc: `*` allows an arc on one side, the other arithmetic operators on neither.
fn may_join(op: BinOp, before: bool, here: bool) -> bool
    ensures { result ≡ objectives.may_join op before here }
{
    match op {
        BinOp::Times => !(before && here),
        BinOp::Plus | BinOp::Minus | BinOp::Div | BinOp::Mod => !(before || here),
        _ => false,
    }
}

fn either(a: bool, b: bool) -> bool
    ensures { result ≡ (a || b) }
{
    a || b
}

fn one_factor<'s>(arcs: &NumberedNames<'s>, first: bool, links: &[LinkedOperand<'s>]) -> bool
    ensures { result ≡ objectives.one_factor arcs.now first (links_of links.now) }
{
    let mut before = first;
    for link in links {
        let here = names_arc(arcs, &link.operand);
        if !may_join(link.operator.op(), before, here) {
            return false;
        }
        before = either(before, here);
    }
    true
}

/// Returns whether a chain is a sum, or a product with at most one operand that contains an arc.
pub(crate) fn is_linear<'s>(
    arcs: &NumberedNames<'s>,
    first: &Expr<'s>,
    more: &[LinkedOperand<'s>],
) -> bool
    ensures { result ≡ objectives.is_linear arcs.now (tree first.now) (links_of more.now) }
{
    are_signs(more) || one_factor(arcs, names_arc(arcs, first), more)
}
