//! Arithmetic on the terms of expressions: linear forms, or `None` if they are not numeric.

ghost use Rattle.std.specs.Prelude.{◌≡◌, ◌≤◌, ◌+◌, ◌^◌, ◌&&◌, ℕ, pos, true, IfOk, int_div, int_rem};
ghost use Rattle.net_tree.specs.Spans as trees;
ghost use Rattle.net_tree.specs.View.{tree};
ghost use Rattle.net_expr.specs.Limits.{is_small};
ghost use Rattle.net_expr.specs.Numbers as numbers;
ghost use Rattle.net_linear.specs.Forms as forms;
ghost use Rattle.net_linear.specs.Objectives as objectives;
ghost use Rattle.net_base.specs.Outcomes.{Refines};

use crate::form::{Affine, Sum};
use net_base::{ErrorCode, Fault};
use net_expr::{is_small_wide, reject_tree};
use net_tree::{BinOp, Expr};
use std::alloc::Global;

fn within(whole: &Expr<'_>, form: Option<Affine>) -> Result<Option<Affine>, Fault>
    ensures { Refines (forms.within (trees.span_of (tree whole.now)) form) result }
{
    match form {
        Some(form) => Ok(Some(form)),
        None => Err(reject_tree(ErrorCode::ValueTooLarge, whole)),
    }
}

/// Returns a constant as a term.
fn number_term(alloc: Global, whole: &Expr<'_>, number: &i128) -> Result<Option<Affine>, Fault>
    ensures { Refines (forms.sized (trees.span_of (tree whole.now)) (forms.just number.now)) result }
{
    if is_small_wide(number) {
        Ok(Some(Affine::number(alloc, number)))
    } else {
        Err(reject_tree(ErrorCode::ValueTooLarge, whole))
    }
}

/// Returns the term of an expression without arcs.
pub(crate) fn plain_term(
    alloc: Global,
    whole: &Expr<'_>,
    number: &Option<i64>,
) -> Result<Option<Affine>, Fault>
    ensures { Refines (objectives.plain_term (trees.span_of (tree whole.now)) number.now) result }
{
    match number {
        None => Ok(None),
        Some(number) => number_term(alloc, whole, &i128::from(*number)),
    }
}

/// Returns `left + factor * right`.
fn added(
    whole: &Expr<'_>,
    left: Affine,
    factor: &i128,
    right: &Affine,
) -> Result<Option<Affine>, Fault>
    requires { is_small factor.now ≡ true }
    ensures { Refines (forms.sized (trees.span_of (tree whole.now)) (forms.combined left factor.now right.now)) result }
{
    let sum = left.plus(factor, right)?;
    within(whole, sum)
}

fn scaled(
    alloc: Global,
    whole: &Expr<'_>,
    factor: &i128,
    form: &Affine,
) -> Result<Option<Affine>, Fault>
    requires { is_small factor.now ≡ true }
    ensures { Refines (forms.scaled (trees.span_of (tree whole.now)) factor.now form.now) result }
{
    added(whole, Affine::zero(alloc), factor, form)
}

fn times(
    alloc: Global,
    whole: &Expr<'_>,
    left: &Affine,
    right: &Affine,
) -> Result<Option<Affine>, Fault>
    ensures { Refines (forms.times (trees.span_of (tree whole.now)) left.now right.now) result }
{
    if left.is_number() {
        let factor = left.wide_constant();
        scaled(alloc, whole, &factor, right)
    } else if right.is_number() {
        let factor = right.wide_constant();
        scaled(alloc, whole, &factor, left)
    } else {
        Err(reject_tree(ErrorCode::NotLinear, whole))
    }
}

fn divides(a: &i128, b: &i128) -> bool
    ensures { result ≡ numbers.divides a.now b.now }
{
    *a >= 0 && *b >= 1
}

fn quotient_of(a: &i128, b: &i128) -> i128
    requires { numbers.divides a.now b.now ≡ true }
    ensures { result ≡ int_div a.now b.now }
{
    *a / *b
}

fn remainder_of(a: &i128, b: &i128) -> i128
    requires { numbers.divides a.now b.now ≡ true }
    ensures { result ≡ int_rem a.now b.now }
{
    *a % *b
}

fn quotient(alloc: Global, whole: &Expr<'_>, a: &i128, b: &i128) -> Result<Option<Affine>, Fault>
    ensures { Refines (forms.quotient (trees.span_of (tree whole.now)) int_div a.now b.now) result }
{
    if divides(a, b) {
        number_term(alloc, whole, &quotient_of(a, b))
    } else {
        Err(reject_tree(ErrorCode::DivMod, whole))
    }
}

fn remainder(alloc: Global, whole: &Expr<'_>, a: &i128, b: &i128) -> Result<Option<Affine>, Fault>
    ensures { Refines (forms.quotient (trees.span_of (tree whole.now)) int_rem a.now b.now) result }
{
    if divides(a, b) {
        number_term(alloc, whole, &remainder_of(a, b))
    } else {
        Err(reject_tree(ErrorCode::DivMod, whole))
    }
}

fn are_numbers(left: &Affine, right: &Affine) -> bool
    ensures { result ≡ (forms.is_number left.now.products && forms.is_number right.now.products) }
{
    left.is_number() && right.is_number()
}

fn div(
    alloc: Global,
    whole: &Expr<'_>,
    left: &Affine,
    right: &Affine,
) -> Result<Option<Affine>, Fault>
    ensures { Refines (forms.divided (trees.span_of (tree whole.now)) int_div left.now right.now) result }
{
    if are_numbers(left, right) {
        let (a, b) = (left.wide_constant(), right.wide_constant());
        quotient(alloc, whole, &a, &b)
    } else {
        Err(reject_tree(ErrorCode::NotLinear, whole))
    }
}

fn modulo(
    alloc: Global,
    whole: &Expr<'_>,
    left: &Affine,
    right: &Affine,
) -> Result<Option<Affine>, Fault>
    ensures { Refines (forms.divided (trees.span_of (tree whole.now)) int_rem left.now right.now) result }
{
    if are_numbers(left, right) {
        let (a, b) = (left.wide_constant(), right.wide_constant());
        remainder(alloc, whole, &a, &b)
    } else {
        Err(reject_tree(ErrorCode::NotLinear, whole))
    }
}

/// Returns the difference of two forms.
#[tactic(auto, unfolding(net_expr::specs::Limits::is_small))]
fn less(whole: &Expr<'_>, left: Affine, right: &Affine) -> Result<Option<Affine>, Fault>
    ensures { Refines (forms.sized (trees.span_of (tree whole.now)) (forms.combined left forms.minus_one right.now)) result }
{
    added(whole, left, &-1, right)
}

#[tactic(auto, unfolding(net_expr::specs::Limits::is_small))]
fn joined(
    alloc: Global,
    op: BinOp,
    whole: &Expr<'_>,
    left: Affine,
    right: &Affine,
) -> Result<Option<Affine>, Fault>
    ensures { Refines (forms.joined op (trees.span_of (tree whole.now)) left right.now) result }
{
    match op {
        BinOp::Plus => added(whole, left, &1, right),
        BinOp::Minus => less(whole, left, right),
        BinOp::Times => times(alloc, whole, &left, right),
        BinOp::Div => div(alloc, whole, &left, right),
        BinOp::Mod => modulo(alloc, whole, &left, right),
        _ => Err(reject_tree(ErrorCode::NotLinear, whole)),
    }
}

/// Applies an operator to two terms.
pub(crate) fn join(
    alloc: Global,
    op: BinOp,
    whole: &Expr<'_>,
    left: Option<Affine>,
    right: &Option<Affine>,
) -> Result<Option<Affine>, Fault>
    ensures { Refines (forms.join op (trees.span_of (tree whole.now)) left right.now) result }
{
    match left {
        None => Err(reject_tree(ErrorCode::KindMismatch, whole)),
        Some(left) => match right {
            None => Err(reject_tree(ErrorCode::KindMismatch, whole)),
            Some(right) => joined(alloc, op, whole, left, right),
        },
    }
}

#[tactic(auto, unfolding(net_expr::specs::Limits::is_small))]
fn turned(alloc: Global, whole: &Expr<'_>, form: &Affine) -> Result<Option<Affine>, Fault>
    ensures { Refines (forms.scaled (trees.span_of (tree whole.now)) forms.minus_one form.now) result }
{
    scaled(alloc, whole, &-1, form)
}

/// Returns a term with an optional minus sign.
pub(crate) fn turn(
    alloc: Global,
    minus: bool,
    whole: &Expr<'_>,
    term: Option<Affine>,
) -> Result<Option<Affine>, Fault>
    ensures { Refines (forms.turn minus (trees.span_of (tree whole.now)) term) result }
{
    match term {
        None => Err(reject_tree(ErrorCode::KindMismatch, whole)),
        Some(form) => {
            if minus {
                turned(alloc, whole, &form)
            } else {
                Ok(Some(form))
            }
        }
    }
}

/// Adds a term to a sum.
pub(crate) fn gather(whole: &Expr<'_>, sum: Sum, term: Option<Affine>) -> Result<Sum, Fault>
    requires { forms.AreWithin (2 ^ 125) sum }
    ensures value { Refines (forms.gathered (trees.span_of (tree whole.now)) sum term) result }
    ensures room { IfOk result (λ r. (n : ℕ) → forms.AreWithin n sum → forms.AreWithin (n + 1000000000000) r) }
{
    match term {
        None => Err(reject_tree(ErrorCode::KindMismatch, whole)),
        Some(form) => {
            let (sum, _) = sum.with(&1, &form)?;
            Ok(sum)
        }
    }
}

/// Returns a sum as a term; its total must be within the limit.
pub(crate) fn sized(whole: &Expr<'_>, sum: Sum) -> Result<Option<Affine>, Fault>
    ensures { Refines (forms.sized (trees.span_of (tree whole.now)) sum) result }
{
    within(whole, Affine::of(sum))
}
