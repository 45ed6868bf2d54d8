//! Coefficients that arcs add to an objective.

ghost use Rattle.std.specs.Prelude.{◌≡◌, ◌+ℤ◌, ◌*ℤ◌, IfOk, ℕ, ℤ};
ghost use Rattle.net_tree.specs.Spans as trees;
ghost use Rattle.net_tree.specs.View.{tree};
ghost use Rattle.net_linear.specs.Forms as forms;
ghost use Rattle.net_base.specs.Outcomes.{Refines};

use crate::form::Affine;
use net_base::{ErrorCode, Fault};
use net_expr::{is_small_wide, reject_tree};
use net_tree::Expr;

fn or_too_large(whole: &Expr<'_>, form: Option<Affine>) -> Result<Affine, Fault>
    ensures { Refines (forms.or_too_large (trees.span_of (tree whole.now)) form) result }
{
    match form {
        Some(form) => Ok(form),
        None => Err(reject_tree(ErrorCode::ValueTooLarge, whole)),
    }
}

fn priced_wide(form: Affine, arc: usize, whole: &Expr<'_>, price: &i128) -> Result<Affine, Fault>
    ensures { Refines (forms.priced (trees.span_of (tree whole.now)) form arc price.now) result }
{
    if is_small_wide(price) {
        let sum = form.plus_arc(price, arc)?;
        or_too_large(whole, sum)
    } else {
        Err(reject_tree(ErrorCode::ValueTooLarge, whole))
    }
}

fn priced(form: Affine, arc: usize, whole: &Expr<'_>, price: &i64) -> Result<Affine, Fault>
    ensures { Refines (forms.priced (trees.span_of (tree whole.now)) form arc price.now) result }
{
    priced_wide(form, arc, whole, &i128::from(*price))
}

/// Adds a cost coefficient of an arc, as an `obj` phrase gives one; several coefficients of an arc
/// are added. Returns `ValueTooLarge` at the phrase's expression if the absolute value of the arc's
/// coefficient exceeds 1,000,000,000,000.
pub fn with_price(form: Affine, arc: usize, whole: &Expr<'_>, price: &i64) -> Result<Affine, Fault>
    ensures value { Refines (forms.priced (trees.span_of (tree whole.now)) form arc price.now) result }
    ensures value_of_tree { IfOk result (λ r. (x : ℕ → ℤ) → forms.form_at x r ≡ (forms.form_at x form +ℤ price.now *ℤ x arc)) }
{
    priced(form, arc, whole, price)
}
