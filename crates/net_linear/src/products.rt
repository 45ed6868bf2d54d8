//! Sums of products of arcs and coefficients.

ghost use Rattle.std.specs.Prelude.{◌≡◌, ◌&&◌, ◌+◌, ◌<◌, ◌≤◌, ◌^◌, ◌+ℤ◌, ◌*ℤ◌, ℕ, ℤ, true, OnOk, IfOk, unsigned_abs};
ghost use Rattle.net_expr.specs.Limits.{is_small};
ghost use Rattle.net_linear.specs.Forms as forms;

use crate::coefficient_list::Coefficients;
use net_expr::is_small_wide;
use std::alloc::AllocError;

pub(crate) fn sum_of(a: &i128, b: &i128) -> i128
    requires { unsigned_abs a.now + unsigned_abs b.now < 2 ^ 127 }
    ensures { result ≡ a.now +ℤ b.now }
{
    *a + *b
}

/// Returns the product of a factor and a number within the limit.
pub(crate) fn product_of(factor: &i128, number: &i128) -> i128
    requires factor { unsigned_abs factor.now ≤ 2 ^ 40 }
    requires number { is_small number.now ≡ true }
    ensures { result ≡ factor.now *ℤ number.now }
{
    *factor * *number
}

/// Returns whether both are true.
pub(crate) fn both(a: bool, b: bool) -> bool
    ensures { result ≡ (a && b) }
{
    a && b
}

/// Adds to the coefficient of an arc; returns whether the result is within the limit. Fails only if
/// memory runs out.
pub(crate) fn add_product(
    products: &mut Coefficients,
    arc: usize,
    by: &i128,
) -> Result<bool, AllocError>
    requires { unsigned_abs (forms.coefficient products.now arc) + unsigned_abs by.now < 2 ^ 127 }
    ensures adds { OnOk result (products.new ≡ forms.more products.old arc by.now) }
    ensures fits { IfOk result (λ fits. fits ≡ is_small (forms.coefficient products.old arc +ℤ by.now)) }
{
    let sum = sum_of(&products.get(arc), by);
    let fits = is_small_wide(&sum);
    products.insert(arc, sum)?;
    Ok(fits)
}

/// Adds `factor * right`; returns whether each coefficient is within the limit, if each was before.
/// Fails only if memory runs out.
pub(crate) fn add_times(
    left: &mut Coefficients,
    factor: &i128,
    right: &Coefficients,
) -> Result<bool, AllocError>
    requires factor { unsigned_abs factor.now ≤ 2 ^ 40 }
    requires left { (a : ℕ) → unsigned_abs (forms.coefficient left.now a) ≤ 2 ^ 125 }
    requires small { forms.all_small right.now ≡ true }
    requires apart { forms.all_apart right.now ≡ true }
    ensures adds { OnOk result (left.new ≡ forms.with_times left.old factor.now right.now) }
    ensures fits { IfOk result (λ fits. forms.all_small left.old ≡ true → fits ≡ forms.all_small left.new) }
{
    let mut fits = true;
    for index in 0..right.len() {
        if let Some((arc, coefficient)) = right.entry(index) {
            let by = product_of(factor, coefficient);
            let here = add_product(left, arc, &by)?;
            fits = both(here, fits);
        }
    }
    Ok(fits)
}

/// Returns whether each coefficient is within the limit.
pub(crate) fn are_small(products: &Coefficients) -> bool
    ensures { result ≡ forms.all_small products.now }
{
    for index in 0..products.len() {
        if let Some((_, coefficient)) = products.entry(index) {
            if !is_small_wide(coefficient) {
                return false;
            }
        }
    }
    true
}
