//! Evaluation of trees.

ghost use Rattle.std.specs.Prelude.{◌≡◌, ◌∷◌, [], Ok, None, not, pos, if◌then◌else◌};
ghost use Rattle.net_tree.specs.Spans as trees;
ghost use Rattle.net_tree.specs.declared.expr.Operands.{out-Operands};
ghost use Rattle.net_tree.specs.View.{tree, braces_of, links_of, option_part};
ghost use Rattle.net_expr.specs.Items as items;
ghost use Rattle.net_expr.specs.Numbers as numbers;
ghost use Rattle.net_tree.specs.Operations as operations;
ghost use Rattle.net_expr.specs.Operators as operators;
ghost use Rattle.net_base.specs.Outcomes.{Refines, and_then};
ghost use Rattle.net_expr.specs.Rows as rows;
ghost use Rattle.net_expr.specs.Values as values;
ghost use Rattle.net_expr.specs.Walks as walks;
ghost use Rattle.net_sets.specs.declared.member.Member.TheVariants.{Number};
ghost use Rattle.net_expr.specs.declared.value.Value.TheVariants.{One, Truth};

use crate::arithmetic::{one_more, reduced_to, with_sign};
use crate::index_item::begins_range;
use crate::keys::index;
use crate::list::as_value;
use crate::name::{leaf, name_at};
use crate::operators::{apply_to, as_denial, decided, truth_of};
use crate::range_operator::range_of;
use crate::row::Keys;
use crate::scope::Scope;
use crate::subscripts::key_of;
use crate::value::Value;
use crate::world::Env;
use net_base::{Boxed, Fault, Items};
use net_lex::Token;
use net_sets::Member;
use net_tree::{
    Braces, Expr, LinkedOperand, Operands, Part, Reducer, Reduction, Sign, braces_span, span_of,
};
use std::alloc::Global;

/// Evaluates an expression. Returns the first error from left to right.
#[cycle(eval)]
#[tactic(auto, using(net_tree::proofs::Views::views))]
pub fn evaluate<'w, 's>(
    alloc: Global,
    env: &Env<'w, 's>,
    scope: &Scope<'s>,
    expr: &Expr<'s>,
) -> Result<Value<'w, 's>, Fault>
    ensures { Refines (values.value env.now scope.now (tree expr.now)) result }
{
    match expr {
        Expr::Leaf(token) => leaf(alloc, env, scope, token),
        Expr::Indexed(parts) => {
            let (name, _, series, _) = parts.get();
            subscripted(alloc, env, scope, expr, name, series)
        }
        Expr::Parens(parts) => evaluate(alloc, env, scope, &parts.get().1),
        Expr::Tuple(parts) => tupled(alloc, env, scope, expr, &parts.get().1),
        Expr::Negated(parts) => negated(alloc, env, scope, expr, &parts.get().2),
        Expr::Braced(braces) => braced(alloc, env, scope, braces.get()),
        Expr::Signed(parts) => {
            let (sign, operand) = parts.get();
            signed(alloc, env, scope, expr, sign, operand)
        }
        Expr::Reduction(front, body) => reduced(alloc, env, scope, expr, front.get(), body.get()),
        Expr::Chain(_, operands) => chain(alloc, env, scope, expr, operands.get()),
        Expr::If(condition, branch, otherwise) => {
            let condition = &condition.get().value;
            let branches = Branches {
                first: &branch.get().value,
                otherwise,
            };
            choice(alloc, env, scope, expr, condition, branches)
        }
        Expr::Net(_) => Ok(Value::One(Member::Number(0))),
    }
}

#[cycle(eval)]
fn subscripted<'w, 's>(
    alloc: Global,
    env: &Env<'w, 's>,
    scope: &Scope<'s>,
    whole: &Expr<'s>,
    name: &Token<'s>,
    subscripts: &Operands<'s>,
) -> Result<Value<'w, 's>, Fault>
    ensures { Refines (and_then (and_then (values.value env.now scope.now (tree (out-Operands subscripts.now).first))
        (λ v. values.values env.now scope.now (links_of (out-Operands subscripts.now).more) (v ∷ [])))
        (values.subscripted (trees.span_of (tree whole.now)) env.now scope.now name.now.text)) result }
{
    let Operands { first, more } = subscripts;
    let key = key_of(alloc, env, scope, whole, first, more.as_slice())?;
    name_at(alloc, span_of(whole), env, scope, &name.text, key)
}

#[cycle(eval)]
fn tupled<'w, 's>(
    alloc: Global,
    env: &Env<'w, 's>,
    scope: &Scope<'s>,
    whole: &Expr<'s>,
    components: &Operands<'s>,
) -> Result<Value<'w, 's>, Fault>
    ensures { Refines (and_then (and_then (values.value env.now scope.now (tree (out-Operands components.now).first))
        (λ v. values.values env.now scope.now (links_of (out-Operands components.now).more) (v ∷ []))) (values.tupled (trees.span_of (tree whole.now)))) result }
{
    let Operands { first, more } = components;
    let tuple = key_of(alloc, env, scope, whole, first, more.as_slice())?;
    Ok(Value::Several(Boxed::new(Box::new(alloc, tuple)?)))
}

/// Evaluates a condition.
#[cycle(eval)]
pub(crate) fn is_met<'s>(
    alloc: Global,
    env: &Env<'_, 's>,
    scope: &Scope<'s>,
    whole: &Expr<'s>,
    condition: &Expr<'s>,
) -> Result<bool, Fault>
    ensures { Refines (and_then (values.value env.now scope.now (tree condition.now)) (operators.truth (trees.span_of (tree whole.now)))) result }
{
    truth_of(whole, evaluate(alloc, env, scope, condition))
}

#[cycle(eval)]
fn negated<'w, 's>(
    alloc: Global,
    env: &Env<'w, 's>,
    scope: &Scope<'s>,
    whole: &Expr<'s>,
    condition: &Expr<'s>,
) -> Result<Value<'w, 's>, Fault>
    ensures { Refines (and_then (and_then (values.value env.now scope.now (tree condition.now)) (operators.truth (trees.span_of (tree whole.now))))
        (λ b. Ok (Truth (not b)))) result }
{
    as_denial(is_met(alloc, env, scope, whole, condition))
}

/// Evaluates an indexing expression to the set of its keys.
#[cycle(eval)]
fn braced<'w, 's>(
    alloc: Global,
    env: &Env<'w, 's>,
    scope: &Scope<'s>,
    braces: &Braces<'s>,
) -> Result<Value<'w, 's>, Fault>
    ensures { Refines (and_then (values.index env.now scope.now (braces_of braces.now)) (rows.as_set (trees.braces_span (braces_of braces.now)))) result }
{
    let keys = index(alloc, env, scope, braces)?;
    as_value(alloc, env, braces_span(braces), &keys)
}

#[cycle(eval)]
fn signed<'w, 's>(
    alloc: Global,
    env: &Env<'w, 's>,
    scope: &Scope<'s>,
    whole: &Expr<'s>,
    sign: &Sign<'s>,
    operand: &Expr<'s>,
) -> Result<Value<'w, 's>, Fault>
    ensures { Refines (and_then (values.value env.now scope.now (tree operand.now))
        (values.with_sign (trees.span_of (tree whole.now)) (operations.is_minus sign.now))) result }
{
    let value = evaluate(alloc, env, scope, operand);
    with_sign(whole, sign.is_minus(), value)
}

/// Evaluates a reduction of an expression over an indexing expression.
#[cycle(eval)]
fn reduced<'w, 's>(
    alloc: Global,
    env: &Env<'w, 's>,
    scope: &Scope<'s>,
    whole: &Expr<'s>,
    front: &(Reducer<'s>, Braces<'s>),
    body: &Expr<'s>,
) -> Result<Value<'w, 's>, Fault>
    ensures { Refines (and_then (values.index env.now scope.now (braces_of front.now.1))
        (rows.reduce (trees.span_of (tree whole.now)) (operations.reduction front.now.0) (λ q. values.value env.now q (tree body.now)))) result }
{
    let (reducer, braces) = front;
    let keys = index(alloc, env, scope, braces)?;
    gather(alloc, env, whole, reducer.reduction(), body, &keys)
}

/// Evaluates a chain: its operands, and its operators from left to right.
#[cycle(eval)]
fn chain<'w, 's>(
    alloc: Global,
    env: &Env<'w, 's>,
    scope: &Scope<'s>,
    whole: &Expr<'s>,
    operands: &Operands<'s>,
) -> Result<Value<'w, 's>, Fault>
    ensures { Refines (and_then (values.value env.now scope.now (tree (out-Operands operands.now).first)) (λ v.
        if items.begins_range (links_of (out-Operands operands.now).more)
        then and_then (values.values env.now scope.now (links_of (out-Operands operands.now).more) (v ∷ [])) (numbers.range_of (trees.span_of (tree whole.now)))
        else values.chained (trees.span_of (tree whole.now)) env.now scope.now (links_of (out-Operands operands.now).more) v)) result }
{
    let value = evaluate(alloc, env, scope, &operands.first)?;
    let more = operands.more.as_slice();
    if begins_range(more) {
        range_of(
            alloc,
            env,
            whole,
            evaluate_more(alloc, env, scope, value, more),
        )
    } else {
        chained(alloc, env, scope, whole, more, value)
    }
}

/// The branches of an `if`.
#[derive(Clone, Copy)]
struct Branches<'a, 's> {
    first: &'a Expr<'s>,
    otherwise: &'a Option<Boxed<Part<'s>>>,
}

#[cycle(eval)]
fn choice<'w, 's>(
    alloc: Global,
    env: &Env<'w, 's>,
    scope: &Scope<'s>,
    whole: &Expr<'s>,
    condition: &Expr<'s>,
    branches: Branches<'_, 's>,
) -> Result<Value<'w, 's>, Fault>
    ensures { Refines (and_then (and_then (values.value env.now scope.now (tree condition.now)) (operators.truth (trees.span_of (tree whole.now))))
        (λ b. if b then values.value env.now scope.now (tree branches.entry.first.now)
        else values.otherwise env.now scope.now (option_part branches.entry.otherwise.now))) result }
{
    if is_met(alloc, env, scope, whole, condition)? {
        evaluate(alloc, env, scope, branches.first)
    } else {
        other_branch(alloc, env, scope, branches.otherwise)
    }
}

/// Returns the value of a missing `else`.
fn missing_else<'w, 's>() -> Value<'w, 's>
    ensures { result ≡ One (Number (pos 0)) }
{
    Value::One(Member::Number(0))
}

#[cycle(eval)]
#[tactic(auto, using(net_tree::proofs::Views::views))]
fn other_branch<'w, 's>(
    alloc: Global,
    env: &Env<'w, 's>,
    scope: &Scope<'s>,
    otherwise: &Option<Boxed<Part<'s>>>,
) -> Result<Value<'w, 's>, Fault>
    ensures { Refines (values.otherwise env.now scope.now (option_part otherwise.now)) result }
{
    match otherwise {
        None => Ok(missing_else()),
        Some(part) => evaluate(alloc, env, scope, &part.get().value),
    }
}

#[cycle(eval)]
pub(crate) fn evaluate_more<'w, 's>(
    alloc: Global,
    env: &Env<'w, 's>,
    scope: &Scope<'s>,
    first: Value<'w, 's>,
    more: &[LinkedOperand<'s>],
) -> Result<Items<Value<'w, 's>>, Fault>
    ensures { Refines (values.values env.now scope.now (links_of more.now) (first.entry ∷ [])) result }
{
    let mut found = Vec::new(alloc);
    found.push(first)?;
    for link in more {
        let value = evaluate(alloc, env, scope, &link.operand)?;
        found.push(value)?;
    }
    Ok(Items::new(found))
}

/// Applies the operators of a chain from left to right.
#[cycle(eval)]
fn chained<'w, 's>(
    alloc: Global,
    env: &Env<'w, 's>,
    scope: &Scope<'s>,
    whole: &Expr<'s>,
    links: &[LinkedOperand<'s>],
    value: Value<'w, 's>,
) -> Result<Value<'w, 's>, Fault>
    ensures { Refines (values.chained (trees.span_of (tree whole.now)) env.now scope.now (links_of links.now) value.entry) result }
{
    let mut value = value;
    for link in links {
        value = joined(alloc, env, scope, whole, link, value)?;
    }
    Ok(value)
}

/// Returns the value of a chain after one more link.
#[cycle(eval)]
fn joined<'w, 's>(
    alloc: Global,
    env: &Env<'w, 's>,
    scope: &Scope<'s>,
    whole: &Expr<'s>,
    link: &LinkedOperand<'s>,
    value: Value<'w, 's>,
) -> Result<Value<'w, 's>, Fault>
    ensures { Refines (walks.joined (trees.span_of (tree whole.now)) (operations.operation link.now.operator)
        (values.value env.now scope.now (tree link.now.operand)) value.entry) result }
{
    let operation = link.operator.op();
    match decided(operation, whole, &value)? {
        Some(found) => Ok(found),
        None => {
            let other = evaluate(alloc, env, scope, &link.operand);
            apply_to(alloc, operation, whole, value, other)
        }
    }
}

/// Reduces the values of an expression over keys.
#[cycle(eval)]
fn gather<'w, 's>(
    alloc: Global,
    env: &Env<'w, 's>,
    whole: &Expr<'s>,
    reduction: Reduction,
    body: &Expr<'s>,
    keys: &Keys<'s>,
) -> Result<Value<'w, 's>, Fault>
    ensures { Refines (rows.reduce (trees.span_of (tree whole.now)) reduction (λ q. values.value env.now q (tree body.now)) keys.now) result }
{
    let mut so_far = None;
    let rows = keys.rows.as_slice();
    for row in rows {
        let value = evaluate(alloc, env, &row.scope, body);
        so_far = one_more(whole, reduction, &so_far, value)?;
    }
    reduced_to(whole, reduction, &so_far)
}
