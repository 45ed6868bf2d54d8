//! Iteration over an indexing expression: its state, and the keys that it produces.

ghost use Rattle.std.specs.Prelude.{◌≡◌, ◌∷◌, [], Bool, Ok, Some, IfOk};
ghost use Rattle.net_tree.specs.Spans as trees;
ghost use Rattle.net_tree.specs.View.{tree};
ghost use Rattle.net_expr.specs.Operators as operators;
ghost use Rattle.net_sets.specs.Made.{IsMade};
ghost use Rattle.net_sets.specs.Operations.{union};
ghost use Rattle.net_expr.specs.Rows as rows;
ghost use Rattle.net_expr.specs.Rows.{keys_of};
ghost use Rattle.net_base.specs.Outcomes.{Refines, Updates, Outcome, and_then, Yields};
ghost use Rattle.net_expr.specs.declared.value.Value.{Value as Found};

use crate::scope::Scope;
use crate::value::{Value, reject_tree};
use net_base::{ErrorCode, Excerpt, Fault, Items, Span};
use net_sets::{ARITY_LIMIT, HashKey, Member, SetFault, TUPLES_LIMIT, Tuple, TupleSet};
use net_tree::Expr;
use std::alloc::{AllocError, Global};

/// A row that an iteration over an indexing expression has begun: the state of the iteration. Its
/// drop is one call, to keep the proofs of functions with many exits small.
pub(crate) struct PartialRow<'s> {
    pub(crate) scope: Scope<'s>,
    /// The key so far; `None` if it has more than four members.
    pub(crate) key: Option<Tuple<'s>>,
}

impl<'s> Drop for PartialRow<'s> {
    fn drop(self) {
        let PartialRow {
            scope: _scope,
            key: _key,
        } = self;
    }
}

/// A key of an indexing expression, and the dummies in scope.
#[derive(Drop)]
pub struct Row<'s> {
    pub key: Tuple<'s>,
    pub scope: Scope<'s>,
}

/// The keys of an indexing expression in order, and the number of members of each; `{}` has no such
/// number.
#[derive(Drop)]
pub struct Keys<'s> {
    pub width: Option<u8>,
    pub rows: Items<Row<'s>>,
}

/// Returns the set of the keys of rows, under the hash key of the run. Returns `TooMany` if there are more than a set can have.
pub(crate) fn key_set<'s>(
    alloc: Global,
    hash_key: HashKey,
    rows: &[Row<'s>],
) -> Result<TupleSet<'s>, SetFault>
    ensures { IsMade (union [] (keys_of rows.now)) result }
{
    let mut keys = TupleSet::with_room(alloc, hash_key, rows.len().min(TUPLES_LIMIT));
    for row in rows {
        keys.add(row.key.copied())?;
    }
    Ok(keys)
}

/// Appends a row if the condition holds.
pub(crate) fn keep_if<'s>(
    holds: Result<bool, Fault>,
    row: Row<'s>,
    found: &mut Vec<Row<'s>>,
) -> Result<(), Fault>
    ensures { (wanted : Outcome Bool) → Refines wanted holds → Updates
        (and_then wanted (λ b. Ok (rows.keep row.entry found.old.items b))) result found.new.items }
{
    let holds = holds?;
    if holds {
        found.push(row)?;
    }
    Ok(())
}

/// Builds keys of `width` members.
pub(crate) fn as_keys<'s>(width: u8, found: Items<Row<'s>>) -> Keys<'s>
    ensures { result ≡ rows.keys width found.entry }
{
    Keys {
        width: Some(width),
        rows: found,
    }
}

/// Returns the state before the first item.
pub(crate) fn start<'s>(alloc: Global, scope: &Scope<'s>) -> Result<PartialRow<'s>, Fault>
    ensures { Refines (Ok (rows.start scope.now)) result }
{
    Ok(PartialRow {
        scope: scope.copied(alloc)?,
        key: Some(Tuple::new()),
    })
}

fn key_again<'s>(key: &Option<Tuple<'s>>) -> Option<Tuple<'s>>
    ensures { result ≡ key.now }
{
    match key {
        None => None,
        Some(key) => Some(key.copied()),
    }
}

/// Appends a member to a key, if it then has at most four.
pub(crate) fn longer_by_one<'s>(key: Option<Tuple<'s>>, member: &Member<'s>) -> Option<Tuple<'s>>
    ensures { result ≡ operators.longer (member.now ∷ []) key.entry }
{
    match key {
        None => None,
        Some(key) => {
            if key.len() < ARITY_LIMIT {
                let mut longer = key;
                longer.add(member.copied());
                Some(longer)
            } else {
                None
            }
        }
    }
}

/// Appends members to a key, if it then has at most four.
fn longer<'s>(key: &Option<Tuple<'s>>, more: &Tuple<'s>) -> Option<Tuple<'s>>
    ensures { result ≡ operators.longer more.now key.now }
{
    match key {
        None => None,
        Some(key) => {
            if key.len() + more.len() <= ARITY_LIMIT {
                Some(key.beside(more))
            } else {
                None
            }
        }
    }
}

impl<'s> PartialRow<'s> {
    /// Returns a copy of the state. Fails only if memory runs out.
    pub(crate) fn copied(&self, alloc: Global) -> Result<PartialRow<'s>, AllocError>
        ensures { IfOk result (λ p. p ≡ self.now) }
    {
        Ok(PartialRow {
            scope: self.scope.copied(alloc)?,
            key: key_again(&self.key),
        })
    }

    /// Binds a new dummy to a member, which is appended to the key.
    pub(crate) fn bind(
        self,
        name: &Excerpt<'s>,
        member: &Member<'s>,
    ) -> Result<Option<PartialRow<'s>>, Fault>
        ensures { Refines (Ok (Some (rows.bind name.now member.now self.entry))) result }
    {
        let PartialRow { scope, key } = self;
        let scope = scope.extended(name.copied(), member.copied())?;
        let key = longer_by_one(key, member);
        Ok(Some(PartialRow { scope, key }))
    }

    /// Adds a complete key.
    pub(crate) fn finish(self, at: Span, found: &mut Vec<Row<'s>>) -> Result<(), Fault>
        ensures { Updates (rows.finished at self.entry found.old.items) result found.new.items }
    {
        let PartialRow { scope, key } = self;
        match key {
            None => Err(Fault::of_model(ErrorCode::Arity, at)),
            Some(key) => add_row(at, scope, key, found),
        }
    }
}

/// Returns a copy of the state, which is unchanged.
pub(crate) fn stay<'s>(
    alloc: Global,
    partial: &PartialRow<'s>,
) -> Result<Option<PartialRow<'s>>, Fault>
    ensures { Refines (Ok (Some partial.now)) result }
{
    Ok(Some(partial.copied(alloc)?))
}

/// Returns the state with a tuple appended to its key.
pub(crate) fn with_key<'s>(
    alloc: Global,
    tuple: &Tuple<'s>,
    partial: &PartialRow<'s>,
) -> Result<Option<PartialRow<'s>>, Fault>
    ensures { Refines (Ok (Some (rows.with_key tuple.now partial.now))) result }
{
    let scope = partial.scope.copied(alloc)?;
    let key = longer(&partial.key, tuple);
    Ok(Some(PartialRow { scope, key }))
}

/// Returns the state if a value equals the member.
fn matches_value<'s>(
    whole: &Expr<'_>,
    member: &Member<'s>,
    partial: PartialRow<'s>,
    value: &Value<'_, 's>,
) -> Result<Option<PartialRow<'s>>, Fault>
    ensures { Yields (rows.matches_member (trees.span_of (tree whole.now)) member.now partial.entry value.now) result }
{
    match value {
        Value::One(found) if *found == *member => Ok(Some(partial)),
        Value::One(_) => Ok(None),
        _ => Err(reject_tree(ErrorCode::KindMismatch, whole)),
    }
}

/// Returns the state if the value of a component equals the member.
pub(crate) fn matches_member<'s>(
    whole: &Expr<'_>,
    member: &Member<'s>,
    partial: PartialRow<'s>,
    value: Result<Value<'_, 's>, Fault>,
) -> Result<Option<PartialRow<'s>>, Fault>
    ensures { (wanted : Outcome Found) → Refines wanted value.entry
        → Refines (and_then wanted (rows.matches_member (trees.span_of (tree whole.now)) member.now partial.entry)) result }
{
    match value {
        Ok(value) => matches_value(whole, member, partial, &value),
        Err(fault) => Err(fault),
    }
}

fn matches_tuple<'s>(
    alloc: Global,
    whole: &Expr<'_>,
    tuple: &Tuple<'s>,
    partial: &PartialRow<'s>,
    found: &Tuple<'s>,
) -> Result<Option<PartialRow<'s>>, Fault>
    ensures { Refines (rows.matches_tuple (trees.span_of (tree whole.now)) tuple.now partial.now found.now) result }
{
    if found.len() == tuple.len() {
        if *found == *tuple {
            stay(alloc, partial)
        } else {
            Ok(None)
        }
    } else {
        Err(reject_tree(ErrorCode::Arity, whole))
    }
}

/// Returns the state if a value equals the tuple, or its single member.
fn matches_tuple_value<'s>(
    alloc: Global,
    whole: &Expr<'_>,
    tuple: &Tuple<'s>,
    partial: &PartialRow<'s>,
    value: &Value<'_, 's>,
) -> Result<Option<PartialRow<'s>>, Fault>
    ensures { Refines (rows.matches_as_tuple (trees.span_of (tree whole.now)) tuple.now partial.now value.now) result }
{
    match value {
        Value::One(found) => {
            matches_tuple(alloc, whole, tuple, partial, &Tuple::single(found.copied()))
        }
        Value::Several(found) => matches_tuple(alloc, whole, tuple, partial, found.get()),
        _ => Err(reject_tree(ErrorCode::KindMismatch, whole)),
    }
}

/// Returns where a tuple matches the value of an expression that is not a tuple by its form.
pub(crate) fn matches_as_tuple<'s>(
    alloc: Global,
    whole: &Expr<'_>,
    tuple: &Tuple<'s>,
    partial: &PartialRow<'s>,
    value: Result<Value<'_, 's>, Fault>,
) -> Result<Option<PartialRow<'s>>, Fault>
    ensures { (wanted : Outcome Found) → Refines wanted value.entry
        → Refines (and_then wanted (rows.matches_as_tuple (trees.span_of (tree whole.now)) tuple.now partial.now)) result }
{
    match value {
        Ok(value) => matches_tuple_value(alloc, whole, tuple, partial, &value),
        Err(fault) => Err(fault),
    }
}

/// Binds a new dummy on the left side of `in` to the single member of a tuple.
pub(crate) fn bind_first<'s>(
    alloc: Global,
    name: &Excerpt<'s>,
    members: &[Member<'s>],
    partial: &PartialRow<'s>,
) -> Result<Option<PartialRow<'s>>, Fault>
    ensures { Refines (rows.bound_first name.now members.now partial.now) result }
{
    match members {
        [] => stay(alloc, partial),
        [member, ..] => partial.copied(alloc)?.bind(name, member),
    }
}

fn same_arity<'s>(key: &Tuple<'s>, found: &[Row<'s>]) -> bool
    ensures { result ≡ rows.same_arity key.now found.now }
{
    match found {
        [] => true,
        [row, ..] => row.key.len() == key.len(),
    }
}

fn add_row<'s>(
    at: Span,
    scope: Scope<'s>,
    key: Tuple<'s>,
    found: &mut Vec<Row<'s>>,
) -> Result<(), Fault>
    ensures { Updates (rows.add_row at scope.entry key.entry found.old.items) result found.new.items }
{
    if same_arity(&key, found.as_slice()) {
        if found.len() < TUPLES_LIMIT {
            found.push(Row { key, scope })?;
            Ok(())
        } else {
            Err(Fault::of_model(ErrorCode::TooMany, at))
        }
    } else {
        Err(Fault::of_model(ErrorCode::Arity, at))
    }
}
