//! Values of types with many forms, each in a box.

ghost use Rattle.std.specs.Prelude.{◌≡◌, [], IfOk};
ghost use Rattle.net_tree.specs.View.{tree};
ghost use Rattle.net_base.specs.Outcomes.{Refines};
ghost use Rattle.net_expr.specs.Values.{value};

use net_base::{Boxed, Fault};
use net_expr::{Env, Scope, Value, evaluate};
use net_sets::{Cow, TupleSet};
use net_tree::Expr;
use std::alloc::{AllocError, Global};
use std::marker::Model;

/// Allocates a box for the value. Fails only if memory runs out.
pub(crate) fn boxed<T: Drop>(alloc: Global, inner: T) -> Result<Boxed<T>, AllocError>
    ensures { IfOk result (λ b. b ≡ inner) }
{
    Ok(Boxed::new(Box::new(alloc, inner)?))
}

/// Moves the value out of its box.
pub(crate) fn unboxed<T>(boxed: Boxed<T>) -> T
    ensures { result ≡ boxed }
{
    Box::into_inner(boxed.into_box())
}

/// Evaluates an expression, with the result in a box.
pub(crate) fn value_of<'w, 's>(
    alloc: Global,
    env: &Env<'w, 's>,
    expr: &Expr<'s>,
) -> Result<Boxed<Value<'w, 's>>, Fault>
    ensures { Refines (value env.now [] (tree expr.now)) result }
{
    match evaluate(alloc, env, &Scope::new(alloc), expr) {
        Ok(value) => Ok(boxed(alloc, value)?),
        Err(fault) => Err(fault),
    }
}

/// A boxed set, which contracts see as the list of its tuples. The box keeps the values of phrases
/// small.
#[derive(Drop)]
pub(crate) struct StoredSet<'w, 's> {
    set: Boxed<Cow<'w, 's>>,
}

impl<'w, 's> Model for StoredSet<'w, 's> {
    ghost use Rattle.std.specs.Prelude.{List};
    ghost use Rattle.net_sets.specs.declared.member.Member.{Member};

    ghost Value = { List (List Member) };

    ghost view = { λ s. s.set };
}

impl<'w, 's> StoredSet<'w, 's> {
    pub(crate) fn new(alloc: Global, set: Cow<'w, 's>) -> Result<StoredSet<'w, 's>, AllocError>
        ensures { IfOk result (λ s. s ≡ set.entry) }
    {
        let set = boxed(alloc, set)?;
        Ok(StoredSet { set })
    }

    pub(crate) fn get(&self) -> &TupleSet<'s>
        ensures { result.now ≡ self.now }
    {
        self.set.get().get()
    }

    /// Returns the set as an owned one. Copies it only if it is borrowed.
    pub(crate) fn into_set(self, alloc: Global) -> Result<TupleSet<'s>, AllocError>
        ensures { IfOk result (λ set. set ≡ self.entry) }
    {
        let StoredSet { set } = self;
        unboxed(set).into_set(alloc)
    }
}
