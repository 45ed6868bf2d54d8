//! Ranges of numbers, as in `1 .. 9 by 2`.

ghost use Rattle.std.specs.Prelude.{◌≡◌, ◌∷◌, [], List, IsTrue, OnOk, false, int_lt, pos};
ghost use Rattle.net_tree.specs.Spans as trees;
ghost use Rattle.net_tree.specs.View.{tree};
ghost use Rattle.net_expr.specs.Limits.{is_small};
ghost use Rattle.net_expr.specs.Numbers as numbers;
ghost use Rattle.net_base.specs.Outcomes.{Refines, Outcome, and_then, Yields};
ghost use Rattle.net_expr.specs.declared.value.Value.{Value as Found};

use crate::arithmetic::{is_small, number_of};
use crate::set_operator::made;
use crate::value::{Value, reject_tree};
use crate::world::Env;
use net_base::{ErrorCode, Fault, Items};
use net_sets::{HashKey, Range};
use net_tree::Expr;
use std::alloc::Global;

/// Returns the numbers of a range whose step is at least 1.
#[tactic(auto, unfolding(crate::specs::Limits::is_small))]
fn range_within<'w, 's>(
    alloc: Global,
    hash_key: HashKey,
    whole: &Expr<'_>,
    first: &i64,
    last: &i64,
    by: &i64,
) -> Result<Value<'w, 's>, Fault>
    requires small { IsTrue (numbers.are_small first.now last.now by.now) }
    requires moves { int_lt by.now (pos 1) ≡ false }
    ensures { Refines (numbers.range_within (trees.span_of (tree whole.now)) first.now last.now by.now) result }
{
    let range = Range {
        first: *first,
        last: *last,
        by: *by,
    };
    made(alloc, whole, 1, range.listed(alloc, hash_key))
}

fn are_small(first: &i64, last: &i64, by: &i64) -> bool
    ensures { result ≡ numbers.are_small first.now last.now by.now }
{
    if !is_small(first) {
        return false;
    }
    if !is_small(last) {
        return false;
    }
    is_small(by)
}

/// Returns an error unless the step is at least 1.
fn check_step(whole: &Expr<'_>, by: &i64) -> Result<(), Fault>
    ensures value { Yields (numbers.step (trees.span_of (tree whole.now)) by.now) result }
    ensures moves { OnOk result (int_lt by.now (pos 1) ≡ false) }
{
    if *by < 1 {
        Err(reject_tree(ErrorCode::DivMod, whole))
    } else {
        Ok(())
    }
}

fn check_size(whole: &Expr<'_>, first: &i64, last: &i64, by: &i64) -> Result<(), Fault>
    ensures value { Yields (numbers.size (trees.span_of (tree whole.now)) first.now last.now by.now) result }
    ensures small { OnOk result (IsTrue (numbers.are_small first.now last.now by.now)) }
{
    if are_small(first, last, by) {
        Ok(())
    } else {
        Err(reject_tree(ErrorCode::ValueTooLarge, whole))
    }
}

fn range<'w, 's>(
    alloc: Global,
    hash_key: HashKey,
    whole: &Expr<'_>,
    first: &i64,
    last: &i64,
    by: &i64,
) -> Result<Value<'w, 's>, Fault>
    ensures { Refines (numbers.range (trees.span_of (tree whole.now)) first.now last.now by.now) result }
{
    check_step(whole, by)?;
    check_size(whole, first, last, by)?;
    range_within(alloc, hash_key, whole, first, last, by)
}

fn range_of_two<'w, 's>(
    alloc: Global,
    hash_key: HashKey,
    whole: &Expr<'_>,
    x: &Value<'_, 's>,
    y: &Value<'_, 's>,
) -> Result<Value<'w, 's>, Fault>
    ensures { Refines (numbers.range_of (trees.span_of (tree whole.now)) (x.now ∷ y.now ∷ [])) result }
{
    let first = number_of(whole, x)?;
    let last = number_of(whole, y)?;
    range(alloc, hash_key, whole, &first, &last, &1)
}

fn range_of_three<'w, 's>(
    alloc: Global,
    hash_key: HashKey,
    whole: &Expr<'_>,
    x: &Value<'_, 's>,
    y: &Value<'_, 's>,
    z: &Value<'_, 's>,
) -> Result<Value<'w, 's>, Fault>
    ensures { Refines (numbers.range_of (trees.span_of (tree whole.now)) (x.now ∷ y.now ∷ z.now ∷ [])) result }
{
    let first = number_of(whole, x)?;
    let last = number_of(whole, y)?;
    let by = number_of(whole, z)?;
    range(alloc, hash_key, whole, &first, &last, &by)
}

fn range_between<'w, 's>(
    alloc: Global,
    hash_key: HashKey,
    whole: &Expr<'_>,
    values: &[Value<'_, 's>],
) -> Result<Value<'w, 's>, Fault>
    ensures { Refines (numbers.range_of (trees.span_of (tree whole.now)) values.now) result }
{
    match values {
        [x, y] => range_of_two(alloc, hash_key, whole, x, y),
        [x, y, z] => range_of_three(alloc, hash_key, whole, x, y, z),
        [] | [_] => Err(reject_tree(ErrorCode::KindMismatch, whole)),
        [_, _, _, _, ..] => Err(reject_tree(ErrorCode::KindMismatch, whole)),
    }
}

/// Returns the range of two bounds and an optional step.
pub(crate) fn range_of<'w, 's>(
    alloc: Global,
    env: &Env<'_, 's>,
    whole: &Expr<'_>,
    values: Result<Items<Value<'_, 's>>, Fault>,
) -> Result<Value<'w, 's>, Fault>
    ensures { (wanted : Outcome (List Found)) → Refines wanted values.entry
        → Refines (and_then wanted (numbers.range_of (trees.span_of (tree whole.now)))) result }
{
    let values = values?;
    range_between(alloc, env.hash_key(), whole, values.as_slice())
}
