//! Products after `within`, represented by their factors.

ghost use Rattle.std.specs.Prelude.{◌≡◌};
ghost use Rattle.net_base.specs.Outcomes.{Refines};
ghost use Rattle.net_tree.specs.Spans as trees;
ghost use Rattle.net_tree.specs.View.{tree, links_of};
ghost use Rattle.net_expr.specs.Sets as sets;
ghost use Rattle.net_bind.specs.Factors as forms;
ghost use Rattle.net_tree.specs.Operations.{operation};

use crate::boxed_values::{StoredSet, unboxed, value_of};
use crate::superset::Superset;
use net_base::{ErrorCode, Fault, Span};
use net_expr::{Env, Value};
use net_sets::{ARITY_LIMIT, TupleSet, narrowest, widest};
use net_tree::{BinOp, Expr, LinkedOperand, Operator, span_of};
use std::alloc::Global;
use std::marker::Model;

/// A set whose tuples have its dimension, as a factor of a product.
#[derive(Drop)]
struct Factor<'w, 's> {
    dimension: Option<u8>,
    set: StoredSet<'w, 's>,
}

impl<'w, 's> Model for Factor<'w, 's> {
    ghost use Rattle.net_sets.specs.Operations.{AreLong};
    ghost use Rattle.net_expr.specs.Sets.{counted};
    ghost use Rattle.net_bind.specs.Factors.{SizedSet};

    ghost Value = { SizedSet };

    ghost view = { λ f. record { dimension = f.dimension; tuples = f.set } };

    ghost invariant = { λ f. AreLong (counted f.dimension) f.set };
}

/// A set whose tuples have its dimension, represented by its factors.
#[derive(Drop)]
pub(crate) struct Product<'w, 's> {
    dimension: Option<u8>,
    tuples: Superset<'w, 's>,
}

impl<'w, 's> Model for Product<'w, 's> {
    ghost use Rattle.net_sets.specs.Operations.{AreLong};
    ghost use Rattle.net_expr.specs.Sets.{counted};
    ghost use Rattle.net_bind.specs.Factors.{SizedSet};

    ghost Value = { SizedSet };

    ghost view = { λ p. record { dimension = p.dimension; tuples = p.tuples } };

    ghost invariant = { λ p. AreLong (counted p.dimension) p.tuples };
}

fn is_cross(operator: &Operator<'_>) -> bool
    ensures { result ≡ forms.is_cross (operation operator.now) }
{
    matches!(operator.op(), BinOp::Cross)
}

fn are_crosses(links: &[LinkedOperand<'_>]) -> bool
    ensures { result ≡ forms.are_crosses (links_of links.now) }
{
    for link in links {
        if !is_cross(&link.operator) {
            return false;
        }
    }
    true
}

/// Returns whether an expression is a product by its form, in parentheses or not.
#[tactic(auto, using(net_tree::proofs::Views::views))]
pub(crate) fn is_product(expr: &Expr<'_>) -> bool
    ensures { result ≡ forms.is_product (tree expr.now) }
{
    match expr {
        Expr::Parens(parts) => is_product(&parts.get().1),
        Expr::Chain(_, operands) => are_crosses(operands.get().more.as_slice()),
        Expr::Leaf(_) | Expr::Indexed(_) | Expr::Tuple(_) | Expr::Negated(_) => false,
        Expr::Braced(_) | Expr::Signed(_) | Expr::Reduction(_, _) => false,
        Expr::If(_, _, _) | Expr::Net(_) => false,
    }
}

/// Returns the dimension; `{}` counts as one component.
fn counted(dimension: Option<u8>) -> usize
    ensures { result ≡ sets.counted dimension }
{
    match dimension {
        None => 1,
        Some(dimension) => usize::from(dimension),
    }
}

fn have_size(size: usize, set: &TupleSet<'_>) -> bool
    ensures { result ≡ forms.have_size size set.now }
{
    widest(set) <= size && size <= narrowest(set)
}

fn as_factor<'w, 's>(
    alloc: Global,
    at: Span,
    value: Value<'w, 's>,
) -> Result<Option<Factor<'w, 's>>, Fault>
    ensures { Refines (forms.as_factor at value.entry) result }
{
    match value.into_set() {
        None => Ok(None),
        Some((dimension, set)) => {
            let set = StoredSet::new(alloc, set)?;
            if have_size(counted(dimension), set.get()) {
                Ok(Some(Factor { dimension, set }))
            } else {
                Err(Fault::of_model(ErrorCode::Arity, at))
            }
        }
    }
}

/// Evaluates a factor. Returns `None` if it is no set.
fn factor_of<'w, 's>(
    alloc: Global,
    env: &Env<'w, 's>,
    expr: &Expr<'s>,
) -> Result<Option<Factor<'w, 's>>, Fault>
    ensures { Refines (forms.factor env.now (tree expr.now)) result }
{
    let value = value_of(alloc, env, expr)?;
    as_factor(alloc, span_of(expr), unboxed(value))
}

impl<'w, 's> Product<'w, 's> {
    ghost use Rattle.std.specs.Prelude.{Some};

    fn of_factor(alloc: Global, factor: Factor<'w, 's>) -> Product<'w, 's>
        ensures { result ≡ factor.entry }
    {
        let Factor { dimension, set } = factor;
        let tuples = Superset::whole(alloc, set);
        Product { dimension, tuples }
    }

    /// Returns the dimension and the tuples.
    pub(crate) fn into_parts(self) -> (Option<u8>, Superset<'w, 's>)
        ensures dimension { result.0 ≡ self.entry.dimension }
        ensures tuples { result.1 ≡ self.entry.tuples }
    {
        let Product { dimension, tuples } = self;
        (dimension, tuples)
    }

    fn crossed(self, at: Span, factor: Factor<'w, 's>) -> Result<Option<Product<'w, 's>>, Fault>
        ensures { Refines (forms.crossed at (Some self.entry) (Some factor.entry)) result }
    {
        let Product { dimension, tuples } = self;
        let start = counted(dimension);
        let size = start + counted(factor.dimension);
        if size > ARITY_LIMIT {
            return Err(Fault::of_model(ErrorCode::Arity, at));
        }
        let tuples = tuples.crossed(start, factor.set)?;
        let dimension = Some(size as u8);
        Ok(Some(Product { dimension, tuples }))
    }
}

fn crossed<'w, 's>(
    at: Span,
    first: Option<Product<'w, 's>>,
    second: Option<Factor<'w, 's>>,
) -> Result<Option<Product<'w, 's>>, Fault>
    ensures { Refines (forms.crossed at first.entry second.entry) result }
{
    match (first, second) {
        (Some(first), Some(second)) => first.crossed(at, second),
        (Some(_), None) | (None, _) => Err(Fault::of_model(ErrorCode::KindMismatch, at)),
    }
}

/// Evaluates a set that is the only factor. Returns `None` if it is no set.
fn single<'w, 's>(
    alloc: Global,
    env: &Env<'w, 's>,
    expr: &Expr<'s>,
) -> Result<Option<Product<'w, 's>>, Fault>
    ensures { Refines (forms.factor env.now (tree expr.now)) result }
{
    match factor_of(alloc, env, expr)? {
        Some(factor) => Ok(Some(Product::of_factor(alloc, factor))),
        None => Ok(None),
    }
}

/// Returns the product of a set with the factors after it, from left to right.
fn with_factors<'w, 's>(
    alloc: Global,
    env: &Env<'w, 's>,
    at: Span,
    links: &[LinkedOperand<'s>],
    first: Option<Product<'w, 's>>,
) -> Result<Option<Product<'w, 's>>, Fault>
    ensures { Refines (forms.with_factors at env.now (links_of links.now) first.entry) result }
{
    let mut all = first;
    for link in links {
        let factor = factor_of(alloc, env, &link.operand)?;
        all = crossed(at, all, factor)?;
    }
    Ok(all)
}

/// Evaluates the factors of an expression that is a product by its form, and any other expression
/// as one factor. Returns `None` if it is no set.
#[tactic(auto, using(net_tree::proofs::Views::views))]
pub(crate) fn product_of<'w, 's>(
    alloc: Global,
    env: &Env<'w, 's>,
    expr: &Expr<'s>,
) -> Result<Option<Product<'w, 's>>, Fault>
    ensures { Refines (forms.product_of env.now (tree expr.now)) result }
{
    match expr {
        Expr::Parens(parts) => product_of(alloc, env, &parts.get().1),
        Expr::Chain(_, operands) => {
            let series = operands.get();
            let links = series.more.as_slice();
            if are_crosses(links) {
                let first = product_of(alloc, env, &series.first)?;
                with_factors(alloc, env, span_of(expr), links, first)
            } else {
                single(alloc, env, expr)
            }
        }
        Expr::Leaf(_) | Expr::Indexed(_) | Expr::Tuple(_) | Expr::Negated(_) => {
            single(alloc, env, expr)
        }
        Expr::Braced(_) | Expr::Signed(_) | Expr::Reduction(_, _) => single(alloc, env, expr),
        Expr::If(_, _, _) | Expr::Net(_) => single(alloc, env, expr),
    }
}
