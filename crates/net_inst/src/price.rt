//! The contributions of arcs to the chosen objective.

ghost use Rattle.std.specs.Prelude.{◌≡◌, map};
ghost use Rattle.net_tree.specs.Spans as trees;
ghost use Rattle.net_tree.specs.View.{tree, body_of, phrase_of};
ghost use Rattle.net_linear.specs.Forms as forms;
ghost use Rattle.net_inst.specs.Arcs as found;
ghost use Rattle.net_base.specs.Outcomes.{Updates, Refines};
ghost use Rattle.net_inst.specs.Numbers as numbers;

use crate::arc::ArcEnv;
use crate::draft::ChosenObjective;
use net_base::{ErrorCode, Excerpt, Fault};
use net_expr::{Env, Scope, is_small, member, reject_tree};
use net_linear::{Affine, with_price};
use net_sets::Member;
use net_tree::{Body, Expr, Phrase};
use std::alloc::Global;
use std::mem;

/// Returns whether a name is that of the chosen objective.
fn is_goal<'s>(goal: &Option<ChosenObjective<'s>>, name: &Excerpt<'s>) -> bool
    ensures { result ≡ found.is_goal goal.now name.now }
{
    match goal {
        None => false,
        Some(goal) => goal.name.as_str() == name.as_str(),
    }
}

/// Adds to the coefficient of an arc.
fn add_price(
    alloc: Global,
    arc: usize,
    whole: &Expr<'_>,
    price: &i64,
    form: &mut Affine,
) -> Result<(), Fault>
    ensures { Updates (forms.priced (trees.span_of (tree whole.now)) form.old arc price.now) result form.new }
{
    let before = mem::replace(form, Affine::zero(alloc));
    *form = with_price(before, arc, whole, price)?;
    Ok(())
}

/// Adds the value of an expression to the coefficient of an arc.
fn add_value<'s>(
    alloc: Global,
    env: &Env<'_, 's>,
    scope: &Scope<'s>,
    arc: usize,
    expr: &Expr<'s>,
    form: &mut Affine,
) -> Result<(), Fault>
    ensures { Updates (found.priced_by env.now scope.now arc (tree expr.now) form.old) result form.new }
{
    let price = number_of(alloc, env, scope, expr)?;
    add_price(alloc, arc, expr, &price, form)
}

/// Adds the contribution of a phrase to the coefficient of an arc; skips phrases for other
/// objectives.
fn add_phrase<'s>(
    alloc: Global,
    visible: &ArcEnv<'_, 's>,
    scope: &Scope<'s>,
    arc: usize,
    body: &Body<'s>,
    form: &mut Affine,
) -> Result<(), Fault>
    ensures { Updates (found.price_in visible.now.goal.now visible.now.env.now scope.now arc (body_of body.now) form.old) result form.new }
{
    match body {
        Body::Plain => Ok(()),
        Body::Valued(_) => Ok(()),
        Body::Priced(name, expr) => {
            if is_goal(visible.goal, &name.text) {
                add_value(alloc, visible.env, scope, arc, expr, form)
            } else {
                Ok(())
            }
        }
    }
}

/// Adds the contributions of all phrases to the coefficient of an arc, in text order.
pub(crate) fn add_phrases<'s>(
    alloc: Global,
    visible: &ArcEnv<'_, 's>,
    scope: &Scope<'s>,
    arc: usize,
    phrases: &[Phrase<'s>],
    form: &mut Affine,
) -> Result<(), Fault>
    ensures { Updates (found.prices_in visible.now.goal.now visible.now.env.now scope.now arc (map phrase_of phrases.now) form.old) result form.new }
{
    for phrase in phrases {
        add_phrase(alloc, visible, scope, arc, &phrase.body, form)?;
    }
    Ok(())
}

/// Returns a member as a number within the limit, or an error.
fn number_in(whole: &Expr<'_>, member: &Member<'_>) -> Result<i64, Fault>
    ensures { Refines (numbers.number_in (trees.span_of (tree whole.now)) member.now) result }
{
    match member {
        Member::Number(number) => {
            if is_small(number) {
                Ok(*number)
            } else {
                Err(reject_tree(ErrorCode::ValueTooLarge, whole))
            }
        }
        Member::Name(_) => Err(reject_tree(ErrorCode::KindMismatch, whole)),
    }
}

/// Evaluates an expression to a number; any other value is an error of the expression.
pub(crate) fn number_of<'s>(
    alloc: Global,
    env: &Env<'_, 's>,
    scope: &Scope<'s>,
    expr: &Expr<'s>,
) -> Result<i64, Fault>
    ensures { Refines (numbers.number env.now scope.now (tree expr.now)) result }
{
    let member = member(alloc, env, scope, expr)?;
    number_in(expr, &member)
}
