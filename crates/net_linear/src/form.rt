//! Sums of arcs with their coefficients.

ghost use Rattle.std.specs.Prelude.{◌≡◌, [], ◌≤◌, ◌<◌, ◌+◌, ◌^◌, ◌&&◌, ℕ, pos, true, OnOk, IfOk, unsigned_abs};
ghost use Rattle.net_expr.specs.Limits.{is_small};
ghost use Rattle.net_normal.specs.Limits.{IsSized, value_limit};
ghost use Rattle.net_linear.specs.Forms as forms;
ghost use Rattle.net_linear.specs.Laws.{HaveValue};
ghost use Rattle.net_linear.specs.Soundness.{ConditionsAreSound, ObjectivesAreSound};

use crate::coefficient_list::Coefficients;
use crate::products::{add_product, add_times, are_small, both, product_of, sum_of};
use net_expr::is_small_wide;
use std::alloc::{AllocError, Global};
use std::marker::Model;

/// A constant plus products of arcs and coefficients.
#[derive(Drop)]
pub(crate) struct Sum {
    constant: i128,
    products: Coefficients,
}

impl Model for Sum {
    ghost use Rattle.std.specs.Prelude.{◌≡◌, true};
    ghost use Rattle.net_linear.specs.Forms.{Linear, all_apart};

    ghost Value = { Linear };

    ghost view = { λ s. record { constant = s.constant; products = s.products } };

    ghost invariant = { λ s. all_apart s.products ≡ true };
}

/// Returns `constant + factor * other`.
fn next_constant(constant: &i128, factor: &i128, other: &i128) -> i128
    requires constant { unsigned_abs constant.now ≤ 2 ^ 125 }
    requires factor { unsigned_abs factor.now ≤ 2 ^ 40 }
    requires other { is_small other.now ≡ true }
    ensures { result ≡ forms.scaled_onto constant.now factor.now other.now }
{
    let product = product_of(factor, other);
    sum_of(constant, &product)
}

/// Converts a number within the limit to `i64`.
fn narrow(number: &i128) -> i64
    requires { is_small number.now ≡ true }
    ensures value { result ≡ number.now }
    ensures size { IsSized value_limit number.now }
{
    *number as i64
}

impl Sum {
    /// Builds a constant.
    pub(crate) fn number(alloc: Global, number: &i128) -> Sum
        ensures { result ≡ forms.just number.now }
    {
        Sum {
            constant: *number,
            products: Coefficients::new(alloc),
        }
    }

    /// Builds the sum of one arc with coefficient 1. Fails only if memory runs out.
    fn arc(alloc: Global, arc: usize) -> Result<Sum, AllocError>
        ensures { IfOk result (λ sum. sum ≡ forms.one_arc arc) }
    {
        let mut products = Coefficients::new(alloc);
        products.insert(arc, 1)?;
        Ok(Sum {
            constant: 0,
            products,
        })
    }

    /// Adds `factor * form`; also returns whether all numbers are within the limit, if they were
    /// before. Fails only if memory runs out.
    pub(crate) fn with(self, factor: &i128, form: &Affine) -> Result<(Sum, bool), AllocError>
        requires factor { unsigned_abs factor.now ≤ 2 ^ 40 }
        requires room { forms.AreWithin (2 ^ 125) self }
        ensures value { IfOk result (λ r. r.0 ≡ forms.combined self factor.now form.now) }
        ensures fits { IfOk result (λ r. forms.is_sized self ≡ true → r.1 ≡ forms.is_sized (forms.combined self factor.now form.now)) }
        ensures other { (forms.is_sized form.now ≡ true) × (forms.all_apart form.now.products ≡ true) }
    {
        let Sum {
            constant,
            mut products,
        } = self;
        let small = add_times(&mut products, factor, &form.sum.products)?;
        let constant = next_constant(&constant, factor, &form.sum.constant);
        let fits = both(is_small_wide(&constant), small);
        Ok((Sum { constant, products }, fits))
    }

    /// Adds `factor` times an arc; also returns whether all numbers are within the limit, if they
    /// were before. Fails only if memory runs out.
    fn with_arc(self, factor: &i128, arc: usize) -> Result<(Sum, bool), AllocError>
        requires { unsigned_abs (forms.coefficient self.products arc) + unsigned_abs factor.now < 2 ^ 127 }
        ensures value { IfOk result (λ r. r.0 ≡ forms.combined self factor.now (forms.one_arc arc)) }
        ensures fits { IfOk result (λ r. forms.is_sized self ≡ true → r.1 ≡ forms.is_sized (forms.combined self factor.now (forms.one_arc arc))) }
    {
        let Sum {
            constant,
            mut products,
        } = self;
        let fits = add_product(&mut products, arc, factor)?;
        Ok((Sum { constant, products }, fits))
    }

    /// Returns the coefficient of an arc.
    fn coefficient(&self, arc: usize) -> i128
        ensures { result ≡ forms.coefficient self.now.products arc }
    {
        self.products.get(arc)
    }

    /// Returns whether all numbers are within the limit.
    fn is_sized(&self) -> bool
        ensures { result ≡ forms.is_sized self.now }
    {
        is_small_wide(&self.constant) && are_small(&self.products)
    }
}

/// A linear form: a constant and arcs with their coefficients. The absolute value of each number is
/// at most 1,000,000,000,000.
#[derive(Drop)]
pub struct Affine {
    sum: Sum,
}

impl Model for Affine {
    ghost use Rattle.std.specs.Prelude.{◌≡◌, true};
    ghost use Rattle.net_linear.specs.Forms.{Linear, is_sized};

    ghost Value = { Linear };

    ghost view = { λ f. f.sum };

    ghost invariant = { λ f. is_sized f.sum ≡ true };
}

impl Affine {
    /// Builds a constant.
    pub(crate) fn number(alloc: Global, number: &i128) -> Affine
        requires { is_small number.now ≡ true }
        ensures { result ≡ forms.just number.now }
    {
        Affine {
            sum: Sum::number(alloc, number),
        }
    }

    /// Builds the form 0, without arcs.
    #[tactic(auto, unfolding(net_expr::specs::Limits::is_small))]
    pub fn zero(alloc: Global) -> Affine
        ensures { result ≡ forms.just (pos 0) }
    {
        Affine::number(alloc, &0)
    }

    /// Builds the form of one arc with coefficient 1. Fails only if memory runs out.
    pub(crate) fn arc(alloc: Global, arc: usize) -> Result<Affine, AllocError>
        ensures { IfOk result (λ form. form ≡ forms.one_arc arc) }
    {
        Ok(Affine {
            sum: Sum::arc(alloc, arc)?,
        })
    }

    /// Converts a sum to a form. Returns `None` if a number exceeds the limit.
    pub(crate) fn of(sum: Sum) -> Option<Affine>
        ensures { result ≡ forms.if_sized sum }
    {
        let fits = sum.is_sized();
        Affine::if_fits(sum, fits)
    }

    /// Converts a sum to a form if all its numbers are within the limit.
    fn if_fits(sum: Sum, fits: bool) -> Option<Affine>
        requires { fits ≡ forms.is_sized sum }
        ensures { result ≡ forms.if_sized sum }
    {
        if fits { Some(Affine { sum }) } else { None }
    }

    /// Adds `factor * other`. Returns `None` if a number exceeds the limit.
    pub(crate) fn plus(self, factor: &i128, other: &Affine) -> Result<Option<Affine>, AllocError>
        requires { is_small factor.now ≡ true }
        ensures { IfOk result (λ r. r ≡ forms.if_sized (forms.combined self factor.now other.now)) }
    {
        let Affine { sum } = self;
        let (sum, fits) = sum.with(factor, other)?;
        Ok(Affine::if_fits(sum, fits))
    }

    /// Adds `factor` times an arc. Returns `None` if the arc's coefficient exceeds the limit.
    pub(crate) fn plus_arc(self, factor: &i128, arc: usize) -> Result<Option<Affine>, AllocError>
        requires { is_small factor.now ≡ true }
        ensures { IfOk result (λ r. r ≡ forms.if_sized (forms.combined self factor.now (forms.one_arc arc))) }
    {
        let Affine { sum } = self;
        let (sum, fits) = sum.with_arc(factor, arc)?;
        Ok(Affine::if_fits(sum, fits))
    }

    /// Returns whether the form contains no arc.
    pub(crate) fn is_number(&self) -> bool
        ensures { result ≡ forms.is_number self.now.products }
    {
        self.sum.products.is_empty()
    }

    /// Returns the constant.
    pub(crate) fn wide_constant(&self) -> i128
        ensures value { result ≡ self.now.constant }
        ensures small { is_small result ≡ true }
    {
        self.sum.constant
    }

    /// Returns the constant, of absolute value at most 1,000,000,000,000.
    pub fn constant(&self) -> i64
        ensures value { result ≡ self.now.constant }
        ensures size { IsSized value_limit result }
    {
        narrow(&self.sum.constant)
    }

    /// Returns the coefficient of an arc, of absolute value at most 1,000,000,000,000; 0 if the
    /// form does not contain the arc.
    pub fn coefficient(&self, arc: usize) -> i64
        ensures value { result ≡ forms.coefficient self.now.products arc }
        ensures size { IsSized value_limit result }
    {
        let coefficient = self.sum.coefficient(arc);
        narrow(&coefficient)
    }
}

/// Theorem: at each assignment, the value of an objective's linear form is the value of its
/// expression.
pub fn forms_have_value()
    ensures value_of_tree { HaveValue }
{}

/// Theorem: at each assignment, the value of an objective's linear form is a value of its
/// expression.
pub fn objectives_are_sound()
    ensures value { ObjectivesAreSound }
{}

/// Theorem: a condition is true of a net inflow exactly when its linear form holds for it.
pub fn conditions_are_sound()
    ensures value { ConditionsAreSound }
{}
