//! The results of operators on sets.

ghost use Rattle.std.specs.Prelude.{◌≡◌, IfOk, List, Ok};
ghost use Rattle.net_sets.specs.Limits.{tuples_limit};
ghost use Rattle.net_sets.specs.Made.{IsMade, IsCrossed};
ghost use Rattle.net_sets.specs.Sets.{Tuple as Members};
ghost use Rattle.net_base.specs.declared.diagnostic.Span.{Span as Position};
ghost use Rattle.net_tree.specs.Spans as trees;
ghost use Rattle.net_tree.specs.View.{tree};
ghost use Rattle.net_expr.specs.Operators as operators;
ghost use Rattle.net_base.specs.Outcomes.{Refines, Yields};
ghost use Rattle.net_expr.specs.Sets as sets;
ghost use Rattle.net_expr.specs.declared.value.Value.TheVariants.{Many};

use crate::value::{Value, reject_tree};
use net_base::{ErrorCode, Fault};
use net_sets::{
    ARITY_LIMIT, Cow, SetFault, Tuple, TupleSet, cross, difference, intersection, is_within,
    symmetric_difference, union, widest,
};
use net_tree::{BinOp, Expr};
use std::alloc::{AllocError, Global};

/// Returns the dimension; `{}` counts as one component.
fn counted(dimension: Option<u8>) -> usize
    ensures { result ≡ sets.counted dimension }
{
    match dimension {
        None => 1,
        Some(dimension) => usize::from(dimension),
    }
}

/// Returns whether a dimension matches; `{}` matches every dimension.
fn fits(dimension: Option<u8>, size: usize) -> bool
    ensures { result ≡ sets.fits dimension size }
{
    match dimension {
        None => true,
        Some(dimension) => usize::from(dimension) == size,
    }
}

/// Returns the common dimension of two sets, if they have one.
fn shared(first: Option<u8>, second: Option<u8>) -> Option<u8>
    ensures { result ≡ sets.shared first second }
{
    match first {
        None => Some(second.unwrap_or(1)),
        Some(dimension) => {
            if fits(second, usize::from(dimension)) {
                Some(dimension)
            } else {
                None
            }
        }
    }
}

/// Builds a value from a set, which is within the size limit like every set. Fails only if memory
/// runs out.
fn set_value<'w, 's>(
    alloc: Global,
    dimension: u8,
    set: TupleSet<'s>,
) -> Result<Value<'w, 's>, AllocError>
    ensures { (at : Position) → IfOk result (λ value. sets.within_size at dimension set.entry ≡ Ok value) }
{
    let _few = set.len();
    Ok(Value::Many(Some(dimension), Cow::owned(alloc, set)?))
}

/// Returns a computed set as a value, or an error if it is too large.
pub(crate) fn made<'w, 's>(
    alloc: Global,
    whole: &Expr<'_>,
    dimension: u8,
    set: Result<TupleSet<'s>, SetFault>,
) -> Result<Value<'w, 's>, Fault>
    ensures { (wanted : List Members) → IsMade wanted set.entry → Refines (sets.within_size (trees.span_of (tree whole.now)) dimension wanted) result }
{
    match set {
        Ok(set) => Ok(set_value(alloc, dimension, set)?),
        Err(SetFault::TooMany) => Err(reject_tree(ErrorCode::TooMany, whole)),
        Err(SetFault::OutOfMemory) => Err(Fault::OutOfMemory),
    }
}

/// Returns a set, which is within the size limit like every set.
fn few<'s>(set: TupleSet<'s>) -> Result<TupleSet<'s>, SetFault>
    ensures { IsMade set.entry result }
{
    let _few = set.len();
    Ok(set)
}

/// Applies a set operator to two sets.
fn mixed<'s>(
    alloc: Global,
    operation: BinOp,
    first: TupleSet<'s>,
    second: &TupleSet<'s>,
) -> Result<TupleSet<'s>, SetFault>
    ensures { IsMade (sets.mixed operation first.entry second.now) result }
{
    match operation {
        BinOp::Union => union(first, second),
        BinOp::Diff => few(difference(alloc, first, second)?),
        BinOp::Inter => few(intersection(alloc, first, second)?),
        _ => symmetric_difference(alloc, first, second),
    }
}

/// Applies a set operator to two sets as values, if they have the same dimension. Copies the first
/// only if it is borrowed.
fn set_of<'w, 's>(
    alloc: Global,
    operation: BinOp,
    whole: &Expr<'_>,
    dimension: Option<u8>,
    first: Cow<'_, 's>,
    second: &TupleSet<'s>,
) -> Result<Value<'w, 's>, Fault>
    ensures { Refines (sets.set_of (trees.span_of (tree whole.now)) dimension (sets.mixed operation first.entry second.now)) result }
{
    match dimension {
        None => Err(reject_tree(ErrorCode::Arity, whole)),
        Some(dimension) => {
            let first = first.into_set(alloc)?;
            made(
                alloc,
                whole,
                dimension,
                mixed(alloc, operation, first, second),
            )
        }
    }
}

/// Applies a set operator to a value that must be a set, and a set of the dimension `e`.
fn with_set<'w, 's>(
    alloc: Global,
    operation: BinOp,
    whole: &Expr<'_>,
    x: Value<'_, 's>,
    e: Option<u8>,
    second: &TupleSet<'s>,
) -> Result<Value<'w, 's>, Fault>
    ensures { Refines (operators.of_sets (trees.span_of (tree whole.now)) (sets.mixed operation) x.entry (Many e second.now)) result }
{
    match x.into_set() {
        None => Err(reject_tree(ErrorCode::KindMismatch, whole)),
        Some((d, first)) => set_of(alloc, operation, whole, shared(d, e), first, second),
    }
}

/// Applies a set operator to two values that must be sets.
pub(crate) fn of_sets<'w, 's>(
    alloc: Global,
    operation: BinOp,
    whole: &Expr<'_>,
    x: Value<'_, 's>,
    y: &Value<'_, 's>,
) -> Result<Value<'w, 's>, Fault>
    ensures { Refines (operators.of_sets (trees.span_of (tree whole.now)) (sets.mixed operation) x.entry y.now) result }
{
    match y {
        Value::Many(e, second) => with_set(alloc, operation, whole, x, *e, second.get()),
        _ => Err(reject_tree(ErrorCode::KindMismatch, whole)),
    }
}

fn crossed<'w, 's>(
    alloc: Global,
    whole: &Expr<'_>,
    d: Option<u8>,
    first: &TupleSet<'s>,
    e: Option<u8>,
    second: &TupleSet<'s>,
) -> Result<Value<'w, 's>, Fault>
    ensures { Refines (sets.cross (trees.span_of (tree whole.now)) d first.now e second.now) result }
{
    let size = counted(d) + counted(e);
    if size <= ARITY_LIMIT && widest(first) + widest(second) <= ARITY_LIMIT {
        match cross(alloc, first, second) {
            Ok(set) => Ok(Value::Many(Some(size as u8), Cow::owned(alloc, set)?)),
            Err(SetFault::TooMany) => Err(reject_tree(ErrorCode::TooMany, whole)),
            Err(SetFault::OutOfMemory) => Err(Fault::OutOfMemory),
        }
    } else {
        Err(reject_tree(ErrorCode::Arity, whole))
    }
}

pub(crate) fn cross_values<'w, 's>(
    alloc: Global,
    whole: &Expr<'_>,
    x: &Value<'_, 's>,
    y: &Value<'_, 's>,
) -> Result<Value<'w, 's>, Fault>
    ensures { Refines (operators.crossed (trees.span_of (tree whole.now)) x.now y.now) result }
{
    match (x, y) {
        (Value::Many(d, first), Value::Many(e, second)) => {
            crossed(alloc, whole, *d, first.get(), *e, second.get())
        }
        _ => Err(reject_tree(ErrorCode::KindMismatch, whole)),
    }
}

fn among<'s>(
    whole: &Expr<'_>,
    tuple: &Tuple<'s>,
    dimension: Option<u8>,
    set: &TupleSet<'s>,
) -> Result<bool, Fault>
    ensures { Yields (sets.membership (trees.span_of (tree whole.now)) tuple.now dimension set.now) result }
{
    if fits(dimension, tuple.len()) {
        Ok(set.contains(tuple))
    } else {
        Err(reject_tree(ErrorCode::Arity, whole))
    }
}

/// Returns whether a set contains a member or tuple.
pub(crate) fn belongs<'s>(
    whole: &Expr<'_>,
    x: &Value<'_, 's>,
    y: &Value<'_, 's>,
) -> Result<bool, Fault>
    ensures { Refines (operators.belongs (trees.span_of (tree whole.now)) x.now y.now) result }
{
    match (x, y) {
        (Value::One(member), Value::Many(dimension, set)) => {
            among(
                whole,
                &Tuple::single(member.copied()),
                *dimension,
                set.get(),
            )
        }
        (Value::Several(tuple), Value::Many(dimension, set)) => {
            among(whole, tuple.get(), *dimension, set.get())
        }
        _ => Err(reject_tree(ErrorCode::KindMismatch, whole)),
    }
}

fn inside<'s>(
    whole: &Expr<'_>,
    dimension: Option<u8>,
    first: &TupleSet<'s>,
    second: &TupleSet<'s>,
) -> Result<bool, Fault>
    ensures { Yields (sets.inclusion (trees.span_of (tree whole.now)) dimension first.now second.now) result }
{
    match dimension {
        None => Err(reject_tree(ErrorCode::Arity, whole)),
        Some(_) => Ok(is_within(first, second)),
    }
}

/// Returns whether a set is a subset of another.
pub(crate) fn contained<'s>(
    whole: &Expr<'_>,
    x: &Value<'_, 's>,
    y: &Value<'_, 's>,
) -> Result<bool, Fault>
    ensures { Refines (operators.contained (trees.span_of (tree whole.now)) x.now y.now) result }
{
    match (x, y) {
        (Value::Many(d, first), Value::Many(e, second)) => {
            inside(whole, shared(*d, *e), first.get(), second.get())
        }
        _ => Err(reject_tree(ErrorCode::KindMismatch, whole)),
    }
}
