//! Ranges of conditions.

ghost use Rattle.std.specs.Prelude.{◌≡◌, ◌&&◌, ◌↔◌, ◌-ℤ◌, IsTrue, IfOk, ℤ, not, pos, IfSome, None};
ghost use Rattle.net_normal.specs.Assignments.{IsInRange};
ghost use Rattle.net_tree.specs.Role as role;
ghost use Rattle.net_tree.specs.View.{tree, condition_of};
ghost use Rattle.net_expr.specs.Limits.{is_small};
ghost use Rattle.net_linear.specs.Conditions as conditions;
ghost use Rattle.net_base.specs.Outcomes.{Refines};
ghost use Rattle.net_linear.specs.declared.condition.Comparison.TheVariants.{Equal};

use crate::linear_value::number_or_none;
use crate::net_term::{NetTerm, net_side};
use net_base::{ErrorCode, Fault, Span};
use net_expr::{Env, Scope, is_small};
use net_normal::NodeRange;
use net_tree::{Expr, NetCond, Relation, Role, Terminal, span_of};
use std::alloc::Global;

/// The relation of a condition.
#[derive(Clone, Copy)]
pub enum Comparison {
    /// `=`, `==`
    Equal,
    /// `<=`
    AtMost,
    /// `>=`
    AtLeast,
}

/// The least and the greatest net inflow that a condition allows, if limited.
#[derive(Clone, Copy)]
pub struct Sides {
    pub low: Option<i64>,
    pub high: Option<i64>,
}

fn comparison_of(operator: &Terminal<'_>) -> Option<Comparison>
    ensures { result ≡ conditions.comparison_in (role.role_of operator.now) }
{
    match operator.role() {
        Role::Relation(Relation::Equal) => Some(Comparison::Equal),
        Role::Relation(Relation::AtMost) => Some(Comparison::AtMost),
        Role::Relation(Relation::AtLeast) => Some(Comparison::AtLeast),
        _ => None,
    }
}

fn from_to(first: &Expr<'_>, last: &Expr<'_>) -> Span
    ensures { result ≡ conditions.from_to (tree first.now) (tree last.now) }
{
    Span {
        start: span_of(first).start,
        end: span_of(last).end,
    }
}

fn less(a: &i64, b: &i64) -> i64
    requires { IsTrue (is_small a.now && is_small b.now) }
    ensures { result ≡ a.now -ℤ b.now }
{
    *a - *b
}

fn compared_with(comparison: Comparison, number: i64) -> Sides
    ensures { result ≡ conditions.compared_with comparison number }
{
    match comparison {
        Comparison::Equal => Sides {
            low: Some(number),
            high: Some(number),
        },
        Comparison::AtMost => Sides {
            low: None,
            high: Some(number),
        },
        Comparison::AtLeast => Sides {
            low: Some(number),
            high: None,
        },
    }
}

fn flipped(comparison: Comparison) -> Comparison
    ensures { result ≡ conditions.flipped comparison }
{
    match comparison {
        Comparison::Equal => Comparison::Equal,
        Comparison::AtMost => Comparison::AtLeast,
        Comparison::AtLeast => Comparison::AtMost,
    }
}

/// Returns the net inflows that satisfy a comparison; `a` and `b` are the values of its sides with
/// net inflow 0.
fn solved(
    at: Span,
    comparison: Option<Comparison>,
    left: NetTerm,
    right: NetTerm,
    a: &i64,
    b: &i64,
) -> Result<Sides, Fault>
    requires { IsTrue (is_small a.now && is_small b.now) }
    ensures { Refines (conditions.solved at comparison left right a.now b.now) result }
{
    match (comparison, left, right) {
        (Some(comparison), NetTerm::Inflow, NetTerm::Absent) => {
            Ok(compared_with(comparison, less(b, a)))
        }
        (Some(comparison), NetTerm::Absent, NetTerm::Outflow) => {
            Ok(compared_with(comparison, less(b, a)))
        }
        (Some(comparison), NetTerm::Outflow, NetTerm::Absent) => {
            Ok(compared_with(flipped(comparison), less(a, b)))
        }
        (Some(comparison), NetTerm::Absent, NetTerm::Inflow) => {
            Ok(compared_with(flipped(comparison), less(a, b)))
        }
        _ => Err(Fault::of_model(ErrorCode::KindMismatch, at)),
    }
}

fn solved_sides(
    at: Span,
    comparison: Option<Comparison>,
    left: NetTerm,
    right: NetTerm,
    a: &Option<i64>,
    b: &Option<i64>,
) -> Result<Sides, Fault>
    ensures { Refines (conditions.solved_sides at comparison left right a.now b.now) result }
{
    match (a, b) {
        (Some(a), Some(b)) => {
            if is_small(a) && is_small(b) {
                solved(at, comparison, left, right, a, b)
            } else {
                Err(Fault::of_model(ErrorCode::ValueTooLarge, at))
            }
        }
        _ => Err(Fault::of_model(ErrorCode::KindMismatch, at)),
    }
}

/// Returns the intersection of two ranges, of which one has the low side and the other the high
/// one.
fn met(at: Span, first: Sides, second: Sides) -> Result<Sides, Fault>
    ensures { Refines (conditions.met at first second) result }
{
    match (first.low, first.high, second.low, second.high) {
        (None, Some(high), Some(low), None) => Ok(Sides {
            low: Some(low),
            high: Some(high),
        }),
        (Some(low), None, None, Some(high)) => Ok(Sides {
            low: Some(low),
            high: Some(high),
        }),
        _ => Err(Fault::of_model(ErrorCode::KindMismatch, at)),
    }
}

fn one<'s>(
    alloc: Global,
    env: &Env<'_, 's>,
    scope: &Scope<'s>,
    left: &Expr<'s>,
    operator: &Terminal<'s>,
    right: &Expr<'s>,
) -> Result<Sides, Fault>
    ensures { Refines (conditions.one_in env.now scope.now (tree left.now) operator.now (tree right.now)) result }
{
    let a = number_or_none(alloc, env, scope, left)?;
    let b = number_or_none(alloc, env, scope, right)?;
    let at = from_to(left, right);
    let (left, right) = (net_side(left), net_side(right));
    solved_sides(at, comparison_of(operator), left, right, &a, &b)
}

/// The first or last of three sides, with the relation between it and the middle one.
#[derive(Clone, Copy)]
struct OuterSide<'a, 's> {
    side: &'a Expr<'s>,
    relation: &'a Terminal<'s>,
}

fn between<'s>(
    alloc: Global,
    env: &Env<'_, 's>,
    scope: &Scope<'s>,
    left: &OuterSide<'_, 's>,
    middle: &Expr<'s>,
    right: &OuterSide<'_, 's>,
) -> Result<Sides, Fault>
    ensures { Refines (conditions.between_in env.now scope.now (tree left.now.side.now) left.now.relation.now (tree middle.now)
        right.now.relation.now (tree right.now.side.now)) result }
{
    let low = number_or_none(alloc, env, scope, left.side)?;
    let sum = number_or_none(alloc, env, scope, middle)?;
    let high = number_or_none(alloc, env, scope, right.side)?;
    let at = from_to(left.side, right.side);
    let (begins, ends) = (comparison_of(left.relation), comparison_of(right.relation));
    let term = net_side(middle);
    let first = solved_sides(at, begins, net_side(left.side), term, &low, &sum)?;
    let second = solved_sides(at, ends, term, net_side(right.side), &sum, &high)?;
    met(at, first, second)
}

/// Returns the range of a node without a condition: net inflow 0.
fn balanced() -> Sides
    ensures { result ≡ conditions.compared_with Equal (pos 0) }
{
    compared_with(Comparison::Equal, 0)
}

fn sides_of<'s>(
    alloc: Global,
    env: &Env<'_, 's>,
    scope: &Scope<'s>,
    condition: &NetCond<'s>,
) -> Result<Sides, Fault>
    ensures { Refines (conditions.sides_in env.now scope.now (condition_of condition.now)) result }
{
    match condition {
        NetCond::Absent => Ok(balanced()),
        NetCond::One(_, left, operator, right) => one(alloc, env, scope, left, operator, right),
        NetCond::Between(_, low, first, middle, second, high) => {
            let left = OuterSide {
                side: low,
                relation: first,
            };
            let right = OuterSide {
                side: high,
                relation: second,
            };
            between(alloc, env, scope, &left, middle, &right)
        }
    }
}

fn are_crossed(low: &Option<i64>, high: &Option<i64>) -> bool
    ensures { result ≡ conditions.are_crossed low.now high.now }
{
    match (low, high) {
        (Some(low), Some(high)) => *high < *low,
        _ => false,
    }
}

/// Returns the range with these sides, or `None` if it contains no number.
fn uncrossed(sides: &Sides) -> Option<NodeRange>
    requires { conditions.AreSides sides.now }
    ensures { conditions.HasSides (conditions.uncrossed sides.now) result }
{
    if are_crossed(&sides.low, &sides.high) {
        None
    } else {
        Some(NodeRange {
            low: sides.low,
            high: sides.high,
        })
    }
}

fn range_of<'s>(
    alloc: Global,
    env: &Env<'_, 's>,
    scope: &Scope<'s>,
    condition: &NetCond<'s>,
) -> Result<Option<NodeRange>, Fault>
    ensures { conditions.AnswersRange (conditions.range_in env.now scope.now (condition_of condition.now)) result }
{
    let sides = sides_of(alloc, env, scope, condition)?;
    Ok(uncrossed(&sides))
}

/// Returns the net inflows that a node's condition allows: exactly those for which the condition as
/// written is true, with `net_in` as the net inflow and `net_out` as its negation. Returns `None`
/// if there are none. A node without a condition has net inflow 0.
///
/// All parts are evaluated from left to right with net inflow 0; the first error is returned. Then,
/// if a side is not a number, the error is `KindMismatch` at the whole condition.
pub fn node_range<'s>(
    alloc: Global,
    env: &Env<'_, 's>,
    scope: &Scope<'s>,
    condition: &NetCond<'s>,
) -> Result<Option<NodeRange>, Fault>
    ensures value { conditions.AnswersRange (conditions.range_in env.now scope.now (condition_of condition.now)) result }
    ensures exact { IfOk result (λ found. IfSome found
        (λ range. (y : ℤ) → IsInRange range y ↔ conditions.Holds env.now scope.now (condition_of condition.now) y)) }
    ensures crossed { IfOk result (λ found. found ≡ None → (y : ℤ) → conditions.Holds env.now scope.now (condition_of condition.now) y → ⊥) }
{
    range_of(alloc, env, scope, condition)
}
