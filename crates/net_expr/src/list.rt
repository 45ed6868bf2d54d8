//! Braces that list members and tuples, and the keys of an indexing expression as a set.

ghost use Rattle.std.specs.Prelude.{◌≡◌, ◌++◌, ◌∷◌, [], List, Ok, IfOk, length};
ghost use Rattle.net_sets.specs.Made.{IsMade};
ghost use Rattle.net_sets.specs.Operations.{union};
ghost use Rattle.net_base.specs.Outcomes.{Refines, Outcome, and_then, Yields};
ghost use Rattle.net_expr.specs.declared.value.Value.{Value as Found};
ghost use Rattle.net_expr.specs.Rows as rows;
ghost use Rattle.net_expr.specs.Walks as walks;

use crate::row::{Keys, Row, key_set};
use crate::scope::Scope;
use crate::value::Value;
use crate::world::Env;
use net_base::{ErrorCode, Fault, Items, Span};
use net_sets::{Cow, HashKey, SetFault, Tuple, TupleSet};
use std::alloc::{AllocError, Global};

/// Returns a value as a tuple: a single member, or a tuple.
fn tuple_in<'s>(at: Span, value: &Value<'_, 's>) -> Result<Tuple<'s>, Fault>
    ensures { Yields (rows.tuple_in at value.now) result }
{
    match value {
        Value::One(member) => Ok(Tuple::single(member.copied())),
        Value::Several(tuple) => Ok(tuple.get().copied()),
        _ => Err(Fault::of_model(ErrorCode::KindMismatch, at)),
    }
}

fn tuples_in<'s>(
    alloc: Global,
    at: Span,
    values: &[Value<'_, 's>],
) -> Result<Items<Tuple<'s>>, Fault>
    ensures { Refines (rows.tuples_in at values.now []) result }
{
    let mut found = Vec::new(alloc);
    for value in values {
        let tuple = tuple_in(at, value)?;
        found.push(tuple)?;
    }
    Ok(Items::new(found))
}

fn all_of(size: usize, tuples: &[Tuple<'_>]) -> bool
    ensures { result ≡ rows.all_of size tuples.now }
{
    for tuple in tuples {
        if tuple.len() != size {
            return false;
        }
    }
    true
}

fn rows_of<'s>(
    alloc: Global,
    scope: &Scope<'s>,
    set: &TupleSet<'s>,
) -> Result<Items<Row<'s>>, AllocError>
    ensures { IfOk result (λ all. all ≡ rows.rows_of scope.now set.now) }
{
    let mut all = Vec::new(alloc);
    for place in 0..set.len() {
        let scope = scope.copied(alloc)?;
        let key = set.tuple_at(place);
        all.push(Row { key, scope })?;
    }
    Ok(Items::new(all))
}

fn no_keys<'s>(alloc: Global) -> Keys<'s>
    ensures { result ≡ rows.no_keys }
{
    Keys {
        width: None,
        rows: Items::new(Vec::new(alloc)),
    }
}

/// Returns the keys of braces without items.
pub(crate) fn no_items<'s>(alloc: Global, at: Span, conditioned: bool) -> Result<Keys<'s>, Fault>
    ensures { Refines (walks.no_items at conditioned) result }
{
    if conditioned {
        Err(Fault::of_model(ErrorCode::KindMismatch, at))
    } else {
        Ok(no_keys(alloc))
    }
}

/// Returns the rows of tuples of equal length, each once.
fn rows_once<'s>(
    alloc: Global,
    hash_key: HashKey,
    at: Span,
    scope: &Scope<'s>,
    first: &Tuple<'s>,
    tuples: &[Tuple<'s>],
) -> Result<Keys<'s>, Fault>
    ensures { Refines (rows.keys_within at scope.now (length first.now) (union [] tuples.now)) result }
{
    match TupleSet::from_tuples(alloc, hash_key, tuples) {
        Ok(set) => Ok(Keys {
            width: Some(first.len() as u8),
            rows: rows_of(alloc, scope, &set)?,
        }),
        Err(SetFault::TooMany) => Err(Fault::of_model(ErrorCode::TooMany, at)),
        Err(SetFault::OutOfMemory) => Err(Fault::OutOfMemory),
    }
}

fn listed_as<'s>(
    alloc: Global,
    hash_key: HashKey,
    at: Span,
    scope: &Scope<'s>,
    tuples: &[Tuple<'s>],
) -> Result<Keys<'s>, Fault>
    ensures { Refines (rows.listed_as at scope.now tuples.now (union [] tuples.now)) result }
{
    match tuples {
        [] => Ok(no_keys(alloc)),
        [first, rest @ ..] => {
            if all_of(first.len(), rest) {
                rows_once(alloc, hash_key, at, scope, first, tuples)
            } else {
                Err(Fault::of_model(ErrorCode::Arity, at))
            }
        }
    }
}

/// Returns the keys of braces that list members and tuples.
pub(crate) fn listed<'s>(
    alloc: Global,
    env: &Env<'_, 's>,
    at: Span,
    scope: &Scope<'s>,
    conditioned: bool,
    values: Result<Items<Value<'_, 's>>, Fault>,
) -> Result<Keys<'s>, Fault>
    ensures { (wanted : Outcome (List Found)) → Refines wanted values.entry → Refines (and_then wanted (rows.listed at scope.now conditioned)) result }
{
    let values = values?;
    if conditioned {
        Err(Fault::of_model(ErrorCode::KindMismatch, at))
    } else {
        let tuples = tuples_in(alloc, at, values.as_slice())?;
        listed_as(alloc, env.hash_key(), at, scope, tuples.as_slice())
    }
}

/// Returns the keys of an indexing expression as a set.
pub(crate) fn as_value<'w, 's>(
    alloc: Global,
    env: &Env<'_, 's>,
    at: Span,
    keys: &Keys<'s>,
) -> Result<Value<'w, 's>, Fault>
    ensures { Refines (rows.as_set at keys.now) result }
{
    match key_set(alloc, env.hash_key(), keys.rows.as_slice()) {
        Ok(set) => Ok(Value::Many(keys.width, Cow::owned(alloc, set)?)),
        Err(SetFault::TooMany) => Err(Fault::of_model(ErrorCode::TooMany, at)),
        Err(SetFault::OutOfMemory) => Err(Fault::OutOfMemory),
    }
}
