//! The form of items in an indexing expression.

ghost use Rattle.std.specs.Prelude.{◌≡◌, ◌+◌, Some};
ghost use Rattle.std.specs.Option.{option_map};
ghost use Rattle.net_tree.specs.Spans as trees;
ghost use Rattle.net_tree.specs.View.{tree, links_of, option_part};
ghost use Rattle.net_expr.specs.Items as items;
ghost use Rattle.net_tree.specs.Operations as operations;
ghost use Rattle.net_base.specs.Outcomes.{Refines, Outcome, and_then, Yields};
ghost use Rattle.net_expr.specs.declared.value.Value.{Value as Found};
ghost use Rattle.net_expr.specs.declared.value.Value.TheVariants.{Many};
ghost use Rattle.net_expr.specs.Worlds as worlds;

use crate::scope::Scope;
use crate::value::{Value, reject_tree};
use crate::world::Env;
use net_base::{Boxed, ErrorCode, Excerpt, Fault, Span};
use net_sets::{ARITY_LIMIT, Cow};
use net_tree::{BinOp, Expr, LinkedOperand, Operator, Part, sides_of, single_name};

pub(crate) fn has_in(item: &Expr<'_>) -> bool
    ensures { result ≡ items.has_in (tree item.now) }
{
    sides_of(item).is_some()
}

pub(crate) fn any_in(links: &[LinkedOperand<'_>]) -> bool
    ensures { result ≡ items.any_in (links_of links.now) }
{
    for link in links {
        if has_in(&link.operand) {
            return true;
        }
    }
    false
}

fn is_range(operator: &Operator<'_>) -> bool
    ensures { result ≡ operations.is_range (operations.operation operator.now) }
{
    matches!(operator.op(), BinOp::Range)
}

/// Returns whether a chain is a range.
pub(crate) fn begins_range(links: &[LinkedOperand<'_>]) -> bool
    ensures { result ≡ items.begins_range (links_of links.now) }
{
    match links {
        [] => false,
        [link, ..] => is_range(&link.operator),
    }
}

pub(crate) fn has_part(part: &Option<Boxed<Part<'_>>>) -> bool
    ensures { result ≡ items.has_part (option_part part.now) }
{
    match part {
        None => false,
        Some(_) => true,
    }
}

/// Returns the text of a simple name.
pub(crate) fn bare<'a, 's>(component: &'a Expr<'s>) -> Option<&'a Excerpt<'s>>
    ensures { option_map (λ t. t.now) result ≡ items.bare (tree component.entry.now) }
{
    match single_name(component) {
        None => None,
        Some(name) => Some(&name.text),
    }
}

fn is_known<'s>(env: &Env<'_, 's>, scope: &Scope<'s>, name: &Excerpt<'s>) -> bool
    ensures { result ≡ worlds.is_known env.now scope.now name.now }
{
    scope.get(name).is_some() || env.find(name).is_some()
}

/// Returns the name of a new dummy: a simple name that is not declared.
pub(crate) fn new_dummy<'a, 's>(
    env: &Env<'_, 's>,
    scope: &Scope<'s>,
    component: &'a Expr<'s>,
) -> Option<&'a Excerpt<'s>>
    ensures { option_map (λ t. t.now) result ≡ items.new_dummy env.now scope.now (tree component.entry.now) }
{
    match bare(component) {
        None => None,
        Some(name) => {
            if is_known(env, scope, name) {
                None
            } else {
                Some(name)
            }
        }
    }
}

pub(crate) fn links_len(links: &[LinkedOperand<'_>]) -> usize
    ensures { result ≡ items.size (links_of links.now) }
{
    links.len()
}

/// Returns whether a set of this dimension matches the left side of an item, by its form.
/// Dimensions above four are equivalent.
#[tactic(auto, using(net_tree::proofs::Views::views))]
pub(crate) fn fits_needed(dimension: Option<u8>, left: &Expr<'_>) -> bool
    ensures { result ≡ items.fits_needed dimension (items.needed (tree left.now)) }
{
    match left {
        Expr::Tuple(parts) => fits_size(dimension, links_len(parts.get().1.more.as_slice())),
        Expr::Leaf(_) => fits_size(dimension, 0),
        Expr::Indexed(_) | Expr::Parens(_) | Expr::Negated(_) | Expr::Braced(_) => true,
        Expr::Signed(_) | Expr::Reduction(_, _) | Expr::Chain(_, _) => true,
        Expr::If(_, _, _) | Expr::Net(_) => true,
    }
}

/// Returns whether a set of this dimension has tuples of `more + 1` members.
fn fits_size(dimension: Option<u8>, more: usize) -> bool
    ensures { result ≡ items.fits_needed dimension (Some (1 + more)) }
{
    match dimension {
        None => more < ARITY_LIMIT,
        Some(dimension) => more < ARITY_LIMIT && usize::from(dimension) == more + 1,
    }
}

/// Returns the tuples of a set if their length is what the left side of `in` requires, or an error.
fn fitting<'w, 's>(
    item: &Expr<'_>,
    left: &Expr<'_>,
    dimension: Option<u8>,
    tuples: Cow<'w, 's>,
) -> Result<Cow<'w, 's>, Fault>
    ensures { Yields (items.chosen (trees.span_of (tree item.now)) (items.needed (tree left.now)) (Many dimension tuples.entry)) result }
{
    if fits_needed(dimension, left) {
        Ok(tuples)
    } else {
        Err(reject_tree(ErrorCode::Arity, item))
    }
}

/// Returns the tuples of the set after `in`.
pub(crate) fn chosen<'w, 's>(
    item: &Expr<'_>,
    left: &Expr<'_>,
    value: Result<Value<'w, 's>, Fault>,
) -> Result<Cow<'w, 's>, Fault>
    ensures { (wanted : Outcome Found) → Refines wanted value.entry
        → Refines (and_then wanted (items.chosen (trees.span_of (tree item.now)) (items.needed (tree left.now)))) result }
{
    match value {
        Ok(value) => match value.into_set() {
            Some((dimension, tuples)) => fitting(item, left, dimension, tuples),
            None => Err(reject_tree(ErrorCode::KindMismatch, item)),
        },
        Err(fault) => Err(fault),
    }
}

/// Returns the tuples of an item that is a set.
pub(crate) fn tuples_of<'w, 's>(
    at: Span,
    value: Result<Value<'w, 's>, Fault>,
) -> Result<Cow<'w, 's>, Fault>
    ensures { (wanted : Outcome Found) → Refines wanted value.entry → Refines (and_then wanted (items.tuples_of at)) result }
{
    match value {
        Ok(value) => match value.into_set() {
            Some((_dimension, tuples)) => Ok(tuples),
            None => Err(Fault::of_model(ErrorCode::KindMismatch, at)),
        },
        Err(fault) => Err(fault),
    }
}

pub(crate) fn is_set(value: &Value<'_, '_>) -> bool
    ensures { result ≡ items.is_set value.now }
{
    matches!(value, Value::Many(_, _))
}
