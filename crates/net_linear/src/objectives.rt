//! Objectives.

ghost use Rattle.std.specs.Prelude.{◌≡◌, ◌&&◌, Ok, not, if◌then◌else◌, IfOk, ℕ, ℤ};
ghost use Rattle.net_tree.specs.Spans as trees;
ghost use Rattle.net_tree.specs.declared.expr.Operands.{out-Operands};
ghost use Rattle.net_tree.specs.View.{tree, braces_of, links_of, option_part};
ghost use Rattle.net_tree.specs.Operations as operations;
ghost use Rattle.net_expr.specs.Values as values;
ghost use Rattle.net_linear.specs.Forms as forms;
ghost use Rattle.net_linear.specs.Objectives as objectives;
ghost use Rattle.net_base.specs.Outcomes.{Refines, and_then};
ghost use Rattle.net_linear.specs.ObjectiveValues.{value_of_tree};

use crate::arc_names::{any_arc, braces_arc, is_linear, names_arc};
use crate::form::{Affine, Sum};
use crate::key_numbers::{NumberedNames, arc_at};
use crate::linear_value::{is_sum, number_or_none, truth_of};
use crate::term::{gather, join, plain_term, sized, turn};
use net_base::{Boxed, ErrorCode, Fault, Span};
use net_expr::{Env, Keys, Scope, index_of, reject_tree};
use net_lex::Token;
use net_sets::Tuple;
use net_tree::{Braces, Expr, LinkedOperand, Operands, Part, Reducer, Sign, span_of};
use std::alloc::Global;

/// The context of an expression: the arcs, the declarations that are visible, and the dummies.
#[derive(Drop)]
struct FormEnv<'a, 'w, 's> {
    arcs: &'a NumberedNames<'s>,
    env: &'a Env<'w, 's>,
    scope: &'a Scope<'s>,
}

/// Returns the term of the arc with a name and a key.
fn arc_term<'s>(
    alloc: Global,
    arcs: &NumberedNames<'s>,
    at: Span,
    name: &Token<'s>,
    key: Tuple<'s>,
) -> Result<Option<Affine>, Fault>
    ensures { Refines (objectives.arc_term arcs.now at name.now.text (Ok key.entry)) result }
{
    let arc = arc_at(alloc, at, &name.text, arcs.get(&name.text), key)?;
    Ok(Some(Affine::arc(alloc, arc)?))
}

fn indexed<'s>(
    alloc: Global,
    among: &FormEnv<'_, '_, 's>,
    whole: &Expr<'s>,
    name: &Token<'s>,
    subscripts: &Operands<'s>,
) -> Result<Option<Affine>, Fault>
    ensures { Refines (objectives.linear (trees.span_of (tree whole.now)) (not
        (objectives.first_or_any among.now.arcs.now (tree (out-Operands subscripts.now).first) (links_of (out-Operands subscripts.now).more)))
        (objectives.arc_term among.now.arcs.now (trees.span_of (tree whole.now)) name.now.text (objectives.key_of among.now.env.now
        among.now.scope.now (trees.span_of (tree whole.now)) (tree (out-Operands subscripts.now).first)
        (links_of (out-Operands subscripts.now).more)))) result }
{
    let Operands { first, more } = subscripts;
    let more = more.as_slice();
    if any_arc(among.arcs, first, more) {
        Err(reject_tree(ErrorCode::NotLinear, whole))
    } else {
        let key = key_of(alloc, among.env, among.scope, whole, first, more)?;
        arc_term(alloc, among.arcs, span_of(whole), name, key)
    }
}

/// Returns the term of an expression.
#[cycle(forms)]
fn term_of<'s>(
    alloc: Global,
    among: &FormEnv<'_, '_, 's>,
    expr: &Expr<'s>,
) -> Result<Option<Affine>, Fault>
    ensures { Refines (objectives.objective among.now.arcs.now among.now.env.now among.now.scope.now (tree expr.now)) result }
{
    if names_arc(among.arcs, expr) {
        arcs_term(alloc, among, expr)
    } else {
        let number = number_or_none(alloc, among.env, among.scope, expr)?;
        plain_term(alloc, expr, &number)
    }
}

/// Returns the term of an expression that contains an arc.
#[cycle(forms)]
#[tactic(auto, using(net_tree::proofs::Views::views))]
fn arcs_term<'s>(
    alloc: Global,
    among: &FormEnv<'_, '_, 's>,
    expr: &Expr<'s>,
) -> Result<Option<Affine>, Fault>
    ensures { Refines (objectives.with_arcs among.now.arcs.now among.now.env.now among.now.scope.now (tree expr.now)) result }
{
    match expr {
        Expr::Leaf(leaf) => arc_term(alloc, among.arcs, span_of(expr), leaf.token(), Tuple::new()),
        Expr::Indexed(parts) => {
            let (name, _, series, _) = parts.get();
            indexed(alloc, among, expr, name, series)
        }
        Expr::Parens(parts) => term_of(alloc, among, &parts.get().1),
        Expr::Signed(parts) => {
            let (sign, operand) = parts.get();
            signed(alloc, among, expr, sign, operand)
        }
        Expr::Reduction(front, body) => {
            let (word, braces) = front.get();
            reduced(alloc, among, expr, word, braces, body.get())
        }
        Expr::Chain(_, operands) => chain(alloc, among, expr, operands.get()),
        Expr::If(condition, branch, otherwise) => choice(
            alloc,
            among,
            expr,
            &condition.get().value,
            &branch.get().value,
            otherwise,
        ),
        Expr::Tuple(_) => Err(reject_tree(ErrorCode::NotLinear, expr)),
        Expr::Negated(_) => Err(reject_tree(ErrorCode::NotLinear, expr)),
        Expr::Braced(_) => Err(reject_tree(ErrorCode::NotLinear, expr)),
        Expr::Net(_) => Err(reject_tree(ErrorCode::NotLinear, expr)),
    }
}

#[cycle(forms)]
fn signed<'s>(
    alloc: Global,
    among: &FormEnv<'_, '_, 's>,
    whole: &Expr<'s>,
    sign: &Sign<'s>,
    operand: &Expr<'s>,
) -> Result<Option<Affine>, Fault>
    ensures { Refines (and_then (objectives.objective among.now.arcs.now among.now.env.now among.now.scope.now (tree operand.now))
        (forms.turn (operations.is_minus sign.now) (trees.span_of (tree whole.now)))) result }
{
    let term = term_of(alloc, among, operand)?;
    turn(alloc, sign.is_minus(), whole, term)
}

/// Returns the sum over an indexing expression.
#[cycle(forms)]
fn reduced<'s>(
    alloc: Global,
    among: &FormEnv<'_, '_, 's>,
    whole: &Expr<'s>,
    word: &Reducer<'s>,
    braces: &Braces<'s>,
    body: &Expr<'s>,
) -> Result<Option<Affine>, Fault>
    ensures { Refines (objectives.linear (trees.span_of (tree whole.now)) (objectives.is_sum (operations.reduction word.now) && not
        (objectives.braces_arc among.now.arcs.now (braces_of braces.now))) (and_then (values.index among.now.env.now among.now.scope.now (braces_of braces.now))
        (λ k. forms.total (trees.span_of (tree whole.now)) (λ row. objectives.objective among.now.arcs.now among.now.env.now row.scope (tree body.now))
        k.rows))) result }
{
    if is_sum(word) && !braces_arc(among.arcs, braces) {
        let keys = index_of(alloc, among.env, among.scope, braces)?;
        total(alloc, among, whole, body, keys)
    } else {
        Err(reject_tree(ErrorCode::NotLinear, whole))
    }
}

#[cycle(forms)]
fn total<'s>(
    alloc: Global,
    among: &FormEnv<'_, '_, 's>,
    whole: &Expr<'s>,
    body: &Expr<'s>,
    keys: Keys<'s>,
) -> Result<Option<Affine>, Fault>
    ensures { Refines (forms.total (trees.span_of (tree whole.now)) (λ row. objectives.objective among.now.arcs.now among.now.env.now row.scope (tree body.now))
        keys.entry.rows) result }
{
    let mut sum = Sum::number(alloc, &0);
    let rows = keys.rows.as_slice();
    for row in rows {
        let here = FormEnv {
            arcs: among.arcs,
            env: among.env,
            scope: &row.scope,
        };
        let term = term_of(alloc, &here, body)?;
        sum = gather(whole, sum, term)?;
    }
    sized(whole, sum)
}

/// Returns the term of a chain: its operands, and its operators from left to right.
#[cycle(forms)]
fn chain<'s>(
    alloc: Global,
    among: &FormEnv<'_, '_, 's>,
    whole: &Expr<'s>,
    operands: &Operands<'s>,
) -> Result<Option<Affine>, Fault>
    ensures { Refines (objectives.linear (trees.span_of (tree whole.now)) (objectives.is_linear among.now.arcs.now (tree (out-Operands operands.now).first)
        (links_of (out-Operands operands.now).more)) (and_then (objectives.objective among.now.arcs.now among.now.env.now among.now.scope.now
        (tree (out-Operands operands.now).first)) (objectives.chained among.now.arcs.now (trees.span_of (tree whole.now)) among.now.env.now among.now.scope.now
        (links_of (out-Operands operands.now).more)))) result }
{
    let Operands { first, more } = operands;
    let more = more.as_slice();
    if is_linear(among.arcs, first, more) {
        let term = term_of(alloc, among, first)?;
        chained(alloc, among, whole, more, term)
    } else {
        Err(reject_tree(ErrorCode::NotLinear, whole))
    }
}

#[cycle(forms)]
fn chained<'s>(
    alloc: Global,
    among: &FormEnv<'_, '_, 's>,
    whole: &Expr<'s>,
    links: &[LinkedOperand<'s>],
    first: Option<Affine>,
) -> Result<Option<Affine>, Fault>
    ensures { Refines (objectives.chained among.now.arcs.now (trees.span_of (tree whole.now)) among.now.env.now among.now.scope.now
        (links_of links.now) first) result }
{
    let mut term = first;
    for link in links {
        term = joined(alloc, among, whole, link, term)?;
    }
    Ok(term)
}

/// Joins a term with the operand of one more link.
#[cycle(forms)]
fn joined<'s>(
    alloc: Global,
    among: &FormEnv<'_, '_, 's>,
    whole: &Expr<'s>,
    link: &LinkedOperand<'s>,
    term: Option<Affine>,
) -> Result<Option<Affine>, Fault>
    ensures { Refines (and_then (objectives.objective among.now.arcs.now among.now.env.now among.now.scope.now (tree link.now.operand))
        (forms.join (operations.operation link.now.operator) (trees.span_of (tree whole.now)) term)) result }
{
    let other = term_of(alloc, among, &link.operand)?;
    join(alloc, link.operator.op(), whole, term, &other)
}

#[cycle(forms)]
fn choice<'s>(
    alloc: Global,
    among: &FormEnv<'_, '_, 's>,
    whole: &Expr<'s>,
    condition: &Expr<'s>,
    branch: &Expr<'s>,
    otherwise: &Option<Boxed<Part<'s>>>,
) -> Result<Option<Affine>, Fault>
    ensures { Refines (objectives.linear (trees.span_of (tree whole.now)) (not (objectives.names_arc among.now.arcs.now (tree condition.now))) (and_then
        (objectives.condition among.now.env.now among.now.scope.now (trees.span_of (tree whole.now)) (tree condition.now)) (λ holds.
        if holds then objectives.objective among.now.arcs.now among.now.env.now among.now.scope.now (tree branch.now)
        else objectives.otherwise among.now.arcs.now among.now.env.now among.now.scope.now (option_part otherwise.now)))) result }
{
    if names_arc(among.arcs, condition) {
        Err(reject_tree(ErrorCode::NotLinear, whole))
    } else {
        let holds = truth_of(alloc, among.env, among.scope, whole, condition)?;
        if holds {
            term_of(alloc, among, branch)
        } else {
            other_branch(alloc, among, otherwise)
        }
    }
}

/// Returns the term of the `else` branch; a missing one is 0.
#[cycle(forms)]
#[tactic(auto, using(net_tree::proofs::Views::views))]
fn other_branch<'s>(
    alloc: Global,
    among: &FormEnv<'_, '_, 's>,
    otherwise: &Option<Boxed<Part<'s>>>,
) -> Result<Option<Affine>, Fault>
    ensures { Refines (objectives.otherwise among.now.arcs.now among.now.env.now among.now.scope.now (option_part otherwise.now)) result }
{
    match otherwise {
        None => Ok(Some(Affine::zero(alloc))),
        Some(part) => term_of(alloc, among, &part.get().value),
    }
}

fn form_of<'s>(
    alloc: Global,
    arcs: &NumberedNames<'s>,
    env: &Env<'_, 's>,
    scope: &Scope<'s>,
    expr: &Expr<'s>,
) -> Result<Affine, Fault>
    ensures { Refines (objectives.objective_form arcs.now env.now scope.now (tree expr.now)) result }
{
    let among = FormEnv { arcs, env, scope };
    match term_of(alloc, &among, expr)? {
        Some(form) => Ok(form),
        None => Err(reject_tree(ErrorCode::KindMismatch, expr)),
    }
}

/// Returns the linear form of an objective's expression: a constant, and arcs with their
/// coefficients. At each assignment, its value is the value of the expression with each arc
/// replaced by its value.
///
/// Errors: `NotLinear` at a part with an arc in a position that does not allow one, before its
/// operands are evaluated; `ValueTooLarge` at the first result of arithmetic with a constant or
/// coefficient of absolute value above 1,000,000,000,000 (a `sum` is checked as a total);
/// `OutsideSet` at a reference to an arc with a key that does not exist; `KindMismatch` at the
/// expression if it is not numeric.
pub fn objective<'s>(
    alloc: Global,
    arcs: &NumberedNames<'s>,
    env: &Env<'_, 's>,
    scope: &Scope<'s>,
    expr: &Expr<'s>,
) -> Result<Affine, Fault>
    ensures value { Refines (objectives.objective_form arcs.now env.now scope.now (tree expr.now)) result }
    ensures value_of_tree { IfOk result (λ form. (x : ℕ → ℤ) → forms.form_at x form ≡ value_of_tree arcs.now env.now scope.now (tree expr.now) x) }
{
    form_of(alloc, arcs, env, scope, expr)
}

/// Evaluates the subscripts of a reference to a key, all of them first. Returns `KindMismatch` at
/// the reference if one is not a member, and `Arity` if there are more than four.
pub fn key_of<'s>(
    alloc: Global,
    env: &Env<'_, 's>,
    scope: &Scope<'s>,
    whole: &Expr<'s>,
    first: &Expr<'s>,
    more: &[LinkedOperand<'s>],
) -> Result<Tuple<'s>, Fault>
    ensures { Refines (objectives.key_of env.now scope.now (trees.span_of (tree whole.now)) (tree first.now) (links_of more.now)) result }
{
    net_expr::key_of(alloc, env, scope, whole, first, more)
}
