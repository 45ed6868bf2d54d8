//! Calls on a bound world: an expression as the one kind of value that is needed; any other kind is an error of the expression.

ghost use Rattle.std.specs.Prelude.{◌≡◌, IfOk};
ghost use Rattle.net_tree.specs.Spans as trees;
ghost use Rattle.net_tree.specs.View.{tree, braces_of};
ghost use Rattle.net_expr.specs.Items as items;
ghost use Rattle.net_expr.specs.Operators as operators;
ghost use Rattle.net_base.specs.Outcomes.{Refines, and_then, diagnostic_at};
ghost use Rattle.net_expr.specs.Values as values;
ghost use Rattle.net_base.specs.declared.diagnostic.Detail.TheVariants.{Reported};
ghost use Rattle.net_base.specs.declared.diagnostic.Fault.TheVariants.{At};

use net_base::{Detail, ErrorCode, Excerpt, Fault, Language, Span};
use net_expr::{Env, Keys, Member, Scope, World};
use net_sets::Cow;
use net_tree::{Braces, Expr};
use std::alloc::{AllocError, Global};

/// Evaluates an expression to a number or a text.
pub fn value<'s>(
    alloc: Global,
    world: &World<'s>,
    scope: &Scope<'s>,
    expr: &Expr<'s>,
) -> Result<Member<'s>, Fault>
    ensures { Refines (and_then (values.value world.now scope.now (tree expr.now)) (operators.member (trees.span_of (tree expr.now)))) result }
{
    net_expr::member(alloc, &Env::of_world(world), scope, expr)
}

/// Evaluates an expression to a set, and returns its tuples in order.
pub fn members<'w, 's>(
    alloc: Global,
    world: &'w World<'s>,
    scope: &Scope<'s>,
    expr: &Expr<'s>,
) -> Result<Cow<'w, 's>, Fault>
    ensures { Refines (and_then (values.value world.entry.now scope.now (tree expr.now)) (items.tuples_of (trees.span_of (tree expr.now)))) result }
{
    net_expr::members(alloc, &Env::of_world(world), scope, expr)
}

/// Evaluates a condition.
pub fn holds<'s>(
    alloc: Global,
    world: &World<'s>,
    scope: &Scope<'s>,
    expr: &Expr<'s>,
) -> Result<bool, Fault>
    ensures { Refines (and_then (values.value world.now scope.now (tree expr.now)) (operators.truth (trees.span_of (tree expr.now)))) result }
{
    net_expr::holds(alloc, &Env::of_world(world), scope, expr)
}

/// Returns the keys of an indexing expression, in order, each with the dummies in scope at it.
pub fn index_of<'s>(
    alloc: Global,
    world: &World<'s>,
    scope: &Scope<'s>,
    braces: &Braces<'s>,
) -> Result<Keys<'s>, Fault>
    ensures { Refines (values.index world.now scope.now (braces_of braces.now)) result }
{
    net_expr::index_of(alloc, &Env::of_world(world), scope, braces)
}

/// Builds an error at a name or at a part of its declaration; the name is its detail. Fails only if
/// memory runs out.
pub(crate) fn reject_name(
    alloc: Global,
    text: Language,
    error_code: ErrorCode,
    at: Span,
    name: &Excerpt<'_>,
) -> Result<Fault, AllocError>
    ensures { IfOk result (λ f. f ≡ At (diagnostic_at text error_code at (Reported name.now))) }
{
    let detail = Detail::of_name(alloc, name)?;
    Ok(Fault::of_text(text, error_code, at, detail))
}
