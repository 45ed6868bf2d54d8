//! The form of items in braces, and simple names.

ghost use Rattle.std.specs.Prelude.{◌≡◌};
ghost use Rattle.std.specs.Option.{option_map};
ghost use Rattle.net_tree.specs.Items as items;
ghost use Rattle.net_tree.specs.Operations as operations;
ghost use Rattle.net_tree.specs.Tree.{leaf};
ghost use Rattle.net_tree.specs.View.{tree, links_of};

use crate::expr::{Expr, LinkedOperand};
use crate::operator::{BinOp, Operator};
use crate::role::{Role, role_of};
use net_lex::Token;

fn is_in(operator: &Operator<'_>) -> bool
    ensures { result ≡ items.is_in (operations.operation operator.now) }
{
    matches!(operator.op(), BinOp::In)
}

/// Returns the right operand of a single `in`.
fn after_in<'a, 's>(links: &'a [LinkedOperand<'s>]) -> Option<&'a Expr<'s>>
    ensures { option_map (λ x. tree x.now) result ≡ items.after_in (links_of links.entry.now) }
{
    match links {
        [] => None,
        [link] => {
            if is_in(&link.operator) {
                Some(&link.operand)
            } else {
                None
            }
        }
        [_, _, ..] => None,
    }
}

/// Returns the two sides of an item whose top operator is `in`.
#[tactic(auto, using(crate::proofs::Views::views))]
pub fn sides_of<'a, 's>(item: &'a Expr<'s>) -> Option<(&'a Expr<'s>, &'a Expr<'s>)>
    ensures { option_map (λ p. (tree p.0.now, tree p.1.now)) result ≡ items.sides (tree item.entry.now) }
{
    match item {
        Expr::Chain(_, operands) => {
            let series = operands.get();
            match after_in(series.more.as_slice()) {
                None => None,
                Some(set) => Some((&series.first, set)),
            }
        }
        Expr::Leaf(_) | Expr::Indexed(_) | Expr::Parens(_) | Expr::Tuple(_) => None,
        Expr::Negated(_) | Expr::Braced(_) | Expr::Signed(_) | Expr::Reduction(_, _) => None,
        Expr::If(_, _, _) | Expr::Net(_) => None,
    }
}

fn if_name<'a, 's>(token: &'a Token<'s>) -> Option<&'a Token<'s>>
    ensures { option_map (λ t. t.now) result ≡ items.single_name (leaf token.entry.now) }
{
    match role_of(token) {
        Role::Name => Some(token),
        _ => None,
    }
}

/// Returns the token of a simple name.
#[tactic(auto, using(crate::proofs::Views::views))]
pub fn single_name<'a, 's>(component: &'a Expr<'s>) -> Option<&'a Token<'s>>
    ensures { option_map (λ t. t.now) result ≡ items.single_name (tree component.entry.now) }
{
    match component {
        Expr::Leaf(leaf) => if_name(leaf.token()),
        Expr::Indexed(_) | Expr::Parens(_) | Expr::Tuple(_) | Expr::Negated(_) => None,
        Expr::Braced(_) | Expr::Signed(_) | Expr::Reduction(_, _) | Expr::Chain(_, _) => None,
        Expr::If(_, _, _) | Expr::Net(_) => None,
    }
}
