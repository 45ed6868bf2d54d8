//! Evaluation with a required kind of value; any other kind is an error of the expression.

ghost use Rattle.std.specs.Prelude.{◌≡◌, ℕ};
ghost use Rattle.net_tree.specs.Spans as trees;
ghost use Rattle.net_tree.specs.View.{tree, braces_of};
ghost use Rattle.net_expr.specs.Items as items;
ghost use Rattle.net_expr.specs.Operators as operators;
ghost use Rattle.net_base.specs.Outcomes.{Refines, and_then};
ghost use Rattle.net_expr.specs.Values as values;
ghost use Rattle.net_base.specs.Places.{Finds, IsInFiles, IsSpanIn};
ghost use Rattle.net_tree.specs.Standing.{Stands, BracesStand};
ghost use Rattle.net_tree.specs.Tree.{Tree, Braces as Written};
ghost use Rattle.net_expr.specs.SetValues.{HaveDistinctKeys, KeepsSets};
ghost use Rattle.net_expr.specs.Values.{value, index};
ghost use Rattle.net_expr.specs.Worlds.{World, Scope};

use crate::eval::{evaluate, is_met};
use crate::index_item::tuples_of;
use crate::keys::index;
use crate::operators::member_of;
use crate::row::Keys;
use crate::scope::Scope;
use crate::world::Env;
use net_base::Fault;
use net_sets::{Cow, Member};
use net_tree::{Braces, Expr, span_of};
use std::alloc::Global;

/// Evaluates an expression to a number or string.
pub fn member<'s>(
    alloc: Global,
    env: &Env<'_, 's>,
    scope: &Scope<'s>,
    expr: &Expr<'s>,
) -> Result<Member<'s>, Fault>
    ensures { Refines (and_then (values.value env.now scope.now (tree expr.now)) (operators.member (trees.span_of (tree expr.now)))) result }
{
    let found = evaluate(alloc, env, scope, expr)?;
    member_of(expr, &found)
}

/// Evaluates an expression to a set and returns its tuples in order.
pub fn members<'w, 's>(
    alloc: Global,
    env: &Env<'w, 's>,
    scope: &Scope<'s>,
    expr: &Expr<'s>,
) -> Result<Cow<'w, 's>, Fault>
    ensures { Refines (and_then (values.value env.now scope.now (tree expr.now)) (items.tuples_of (trees.span_of (tree expr.now)))) result }
{
    tuples_of(span_of(expr), evaluate(alloc, env, scope, expr))
}

/// Evaluates an expression to a truth value.
pub fn holds<'s>(
    alloc: Global,
    env: &Env<'_, 's>,
    scope: &Scope<'s>,
    expr: &Expr<'s>,
) -> Result<bool, Fault>
    ensures { Refines (and_then (values.value env.now scope.now (tree expr.now)) (operators.truth (trees.span_of (tree expr.now)))) result }
{
    is_met(alloc, env, scope, expr, expr)
}

/// Returns the keys of an indexing expression in order, each with the dummies in scope.
pub fn index_of<'s>(
    alloc: Global,
    env: &Env<'_, 's>,
    scope: &Scope<'s>,
    braces: &Braces<'s>,
) -> Result<Keys<'s>, Fault>
    ensures { Refines (values.index env.now scope.now (braces_of braces.now)) result }
{
    index(alloc, env, scope, braces)
}

/// Theorem: if the tuples of set values are distinct, the keys of an indexing expression are
/// distinct.
pub fn keys_are_distinct()
    ensures value { HaveDistinctKeys }
{}

/// Theorem: if the tuples of declared sets are distinct and have their dimension, so are and have
/// those of set values.
pub fn values_keep_sets()
    ensures value { KeepsSets }
{}

/// Theorem: if the spans of all parts of an expression are in a model of this size, so is that of
/// an error of its evaluation.
pub fn errors_are_in_expressions()
    ensures values { (size : ℕ) (w : World) (scope : Scope) (x : Tree) → Stands (IsSpanIn size) x → Finds (IsInFiles size 0) (value w scope x) }
    ensures keys { (size : ℕ) (w : World) (s : Scope) (braces : Written) → BracesStand (IsSpanIn size) braces → Finds (IsInFiles size 0) (index w s braces) }
{}
