//! The results of operators on two values.

ghost use Rattle.std.specs.Prelude.{◌∷◌, [], Bool};
ghost use Rattle.net_tree.specs.Spans as trees;
ghost use Rattle.net_tree.specs.View.{tree};
ghost use Rattle.net_expr.specs.Operators as operators;
ghost use Rattle.net_base.specs.Outcomes.{Refines, Outcome, and_then, Yields};
ghost use Rattle.net_expr.specs.declared.value.Value.{Value as Found};

use crate::arithmetic::of_numbers;
use crate::set_operator::{belongs, contained, cross_values, of_sets};
use crate::value::{Value, reject_tree};
use net_base::{ErrorCode, Fault, Span};
use net_sets::Member;
use net_tree::{BinOp, Expr};
use std::alloc::Global;

/// Returns whether two members are equal.
fn same<'s>(whole: &Expr<'_>, x: &Value<'_, 's>, y: &Value<'_, 's>) -> Result<bool, Fault>
    ensures { Refines (operators.same (trees.span_of (tree whole.now)) x.now y.now) result }
{
    match (x, y) {
        (Value::One(a), Value::One(b)) => Ok(*a == *b),
        _ => Err(reject_tree(ErrorCode::KindMismatch, whole)),
    }
}

/// Returns a value as a truth value, or `KindMismatch` at the whole if it is not one.
pub fn truth(whole: &Expr<'_>, value: &Value<'_, '_>) -> Result<bool, Fault>
    ensures { Yields (operators.truth (trees.span_of (tree whole.now)) value.now) result }
{
    match value {
        Value::Truth(truth) => Ok(*truth),
        _ => Err(reject_tree(ErrorCode::KindMismatch, whole)),
    }
}

/// Returns the result of an evaluation as a truth value.
pub(crate) fn truth_of(whole: &Expr<'_>, value: Result<Value<'_, '_>, Fault>) -> Result<bool, Fault>
    ensures { (wanted : Outcome Found) → Refines wanted value.entry → Refines (and_then wanted (operators.truth (trees.span_of (tree whole.now)))) result }
{
    match value {
        Ok(value) => truth(whole, &value),
        Err(fault) => Err(fault),
    }
}

/// Returns the result of the condition of an indexing expression as a truth value; errors have the
/// span of the braces.
pub(crate) fn truth_at(at: Span, value: Result<Value<'_, '_>, Fault>) -> Result<bool, Fault>
    ensures { (wanted : Outcome Found) → Refines wanted value.entry → Refines (and_then wanted (operators.truth at)) result }
{
    match value {
        Ok(value) => match &value {
            Value::Truth(truth) => Ok(*truth),
            _ => Err(Fault::of_model(ErrorCode::KindMismatch, at)),
        },
        Err(fault) => Err(fault),
    }
}

/// Returns the result of an operator if the left side alone determines it.
pub(crate) fn decided<'w, 's>(
    operation: BinOp,
    whole: &Expr<'_>,
    value: &Value<'_, 's>,
) -> Result<Option<Value<'w, 's>>, Fault>
    ensures { Yields (operators.decided operation (trees.span_of (tree whole.now)) value.now) result }
{
    match operation {
        BinOp::And => {
            if truth(whole, value)? {
                Ok(None)
            } else {
                Ok(Some(Value::Truth(false)))
            }
        }
        BinOp::Or => {
            if truth(whole, value)? {
                Ok(Some(Value::Truth(true)))
            } else {
                Ok(None)
            }
        }
        _ => Ok(None),
    }
}

/// Returns a truth value as a value.
fn as_truth<'w, 's>(found: Result<bool, Fault>) -> Result<Value<'w, 's>, Fault>
    ensures { (wanted : Outcome Bool) → Refines wanted found → Refines (operators.as_truth wanted) result }
{
    let holds = found?;
    Ok(Value::Truth(holds))
}

/// Returns the negation of a condition as a value.
pub(crate) fn as_denial<'w, 's>(found: Result<bool, Fault>) -> Result<Value<'w, 's>, Fault>
    ensures { (wanted : Outcome Bool) → Refines wanted found → Refines (operators.as_denial wanted) result }
{
    let holds = found?;
    Ok(Value::Truth(!holds))
}

/// Returns the truth value of the right side, if the left side did not determine the result.
fn right_truth<'w, 's>(
    whole: &Expr<'_>,
    x: &Value<'_, 's>,
    y: &Value<'_, 's>,
) -> Result<Value<'w, 's>, Fault>
    ensures { Yields (operators.as_truth (and_then (operators.truth (trees.span_of (tree whole.now)) x.now)
        (λ b. operators.truth (trees.span_of (tree whole.now)) y.now))) result }
{
    let _left = truth(whole, x)?;
    let holds = truth(whole, y)?;
    Ok(Value::Truth(holds))
}

/// Applies an operator to two values. A set operator changes the first in place.
fn apply<'w, 's>(
    alloc: Global,
    operation: BinOp,
    whole: &Expr<'_>,
    x: Value<'_, 's>,
    y: &Value<'_, 's>,
) -> Result<Value<'w, 's>, Fault>
    ensures { Refines (operators.apply operation (trees.span_of (tree whole.now)) x.entry y.now) result }
{
    match operation {
        BinOp::Plus
        | BinOp::Minus
        | BinOp::Times
        | BinOp::Div
        | BinOp::Mod
        | BinOp::Less
        | BinOp::AtMost
        | BinOp::Greater
        | BinOp::AtLeast => of_numbers(operation, whole, &x, y),
        BinOp::Cross => cross_values(alloc, whole, &x, y),
        BinOp::Inter | BinOp::Union | BinOp::Diff | BinOp::Symdiff => {
            of_sets(alloc, operation, whole, x, y)
        }
        BinOp::Equal => as_truth(same(whole, &x, y)),
        BinOp::Unequal => as_denial(same(whole, &x, y)),
        BinOp::In => as_truth(belongs(whole, &x, y)),
        BinOp::NotIn => as_denial(belongs(whole, &x, y)),
        BinOp::Within => as_truth(contained(whole, &x, y)),
        BinOp::NotWithin => as_denial(contained(whole, &x, y)),
        BinOp::And | BinOp::Or => right_truth(whole, &x, y),
        BinOp::Range | BinOp::Other => Err(reject_tree(ErrorCode::KindMismatch, whole)),
    }
}

/// Applies an operator to a value and the result of an evaluation. It is a call of its own, so that
/// its stack frame is not one of each nesting.
#[inline(never)]
pub(crate) fn apply_to<'w, 's>(
    alloc: Global,
    operation: BinOp,
    whole: &Expr<'_>,
    x: Value<'_, 's>,
    y: Result<Value<'_, 's>, Fault>,
) -> Result<Value<'w, 's>, Fault>
    ensures { (wanted : Outcome Found) → Refines wanted y.entry
        → Refines (and_then wanted (operators.apply operation (trees.span_of (tree whole.now)) x.entry)) result }
{
    match y {
        Ok(y) => apply(alloc, operation, whole, x, &y),
        Err(fault) => Err(fault),
    }
}

/// Returns a value as a number or string, or an error if it is neither.
pub(crate) fn member_of<'s>(whole: &Expr<'_>, value: &Value<'_, 's>) -> Result<Member<'s>, Fault>
    ensures { Yields (operators.member (trees.span_of (tree whole.now)) value.now) result }
{
    match value {
        Value::One(member) => Ok(member.copied()),
        _ => Err(reject_tree(ErrorCode::KindMismatch, whole)),
    }
}
