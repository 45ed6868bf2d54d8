//! Values of parts of objectives and conditions.

ghost use Rattle.std.specs.Prelude.{◌≡◌};
ghost use Rattle.net_tree.specs.Spans as trees;
ghost use Rattle.net_tree.specs.View.{tree};
ghost use Rattle.net_tree.specs.Operations as operations;
ghost use Rattle.net_linear.specs.Objectives as objectives;
ghost use Rattle.net_base.specs.Outcomes.{Refines};
ghost use Rattle.net_linear.specs.Amounts.{as_number, number_or_none};

use net_base::Fault;
use net_expr::{Env, Scope, Value, evaluate, truth};
use net_sets::Member;
use net_tree::{Expr, Reducer, Reduction};
use std::alloc::Global;

/// Returns a value as a number, or `None` if it is not one.
pub(crate) fn number_in(value: &Value<'_, '_>) -> Option<i64>
    ensures { result ≡ as_number value.now }
{
    match value {
        Value::One(Member::Number(number)) => Some(*number),
        Value::One(Member::Name(_)) => None,
        Value::Several(_) => None,
        Value::Many(_, _) => None,
        Value::Truth(_) => None,
    }
}

/// Evaluates an expression to a number, or `None` if it is not one.
pub(crate) fn number_or_none<'s>(
    alloc: Global,
    env: &Env<'_, 's>,
    scope: &Scope<'s>,
    expr: &Expr<'s>,
) -> Result<Option<i64>, Fault>
    ensures { Refines (number_or_none env.now scope.now (tree expr.now)) result }
{
    let value = evaluate(alloc, env, scope, expr)?;
    Ok(number_in(&value))
}

/// Evaluates the condition of an `if`.
pub(crate) fn truth_of<'s>(
    alloc: Global,
    env: &Env<'_, 's>,
    scope: &Scope<'s>,
    whole: &Expr<'s>,
    condition: &Expr<'s>,
) -> Result<bool, Fault>
    ensures { Refines (objectives.condition env.now scope.now (trees.span_of (tree whole.now)) (tree condition.now)) result }
{
    let value = evaluate(alloc, env, scope, condition)?;
    truth(whole, &value)
}

/// Returns whether a reduction is a sum.
pub(crate) fn is_sum(reducer: &Reducer<'_>) -> bool
    ensures { result ≡ objectives.is_sum (operations.reduction reducer.now) }
{
    matches!(reducer.reduction(), Reduction::Sum)
}
