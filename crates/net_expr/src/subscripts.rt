//! Evaluating subscripts to a key, without a list of their values.

ghost use Rattle.std.specs.Prelude.{◌≡◌, [], ◌∷◌, Ok};
ghost use Rattle.std.specs.Option.{option_copied};
ghost use Rattle.net_tree.specs.Spans as trees;
ghost use Rattle.net_tree.specs.View.{tree, links_of};
ghost use Rattle.net_base.specs.Outcomes.{Refines, Updates, Yields, and_then};
ghost use Rattle.net_sets.specs.declared.member.Member.TheVariants.{Number};
ghost use Rattle.net_expr.specs.Items as items;
ghost use Rattle.net_expr.specs.Operators as operators;
ghost use Rattle.net_expr.specs.Selecting as select;
ghost use Rattle.net_expr.specs.Subscripts as subscripts;
ghost use Rattle.net_expr.specs.Values as values;
ghost use Rattle.net_expr.specs.declared.value.Value.TheVariants.{One};

use crate::eval::evaluate;
use crate::index_item::bare;
use crate::scope::Scope;
use crate::value::{Value, reject_tree};
use crate::world::Env;
use net_base::{ErrorCode, Fault};
use net_sets::{Member, Tuple};
use net_tree::{Expr, LinkedOperand};
use std::alloc::Global;

/// A key, as far as its subscripts have been evaluated.
#[derive(Drop)]
pub(crate) struct Subscripts<'s> {
    /// The first members.
    key: Tuple<'s>,
    /// Whether there are more members than a key can have.
    too_many: bool,
    /// Whether a subscript was not a member.
    unfit: bool,
}

impl<'s> Subscripts<'s> {
    /// Creates a key without subscripts.
    fn new() -> Subscripts<'s>
        ensures { result ≡ subscripts.none_yet }
    {
        Subscripts {
            key: Tuple::new(),
            too_many: false,
            unfit: false,
        }
    }

    /// Adds a member.
    fn add(&mut self, member: &Member<'s>)
        ensures { self.new ≡ subscripts.with_value (One member.now) self.old }
    {
        if self.key.has_room() {
            self.key.add(member.copied());
        } else {
            self.too_many = true;
        }
    }

    /// Adds a value.
    fn add_value(&mut self, value: &Value<'_, 's>)
        ensures { self.new ≡ subscripts.with_value value.now self.old }
    {
        match value {
            Value::One(member) => self.add(member),
            _ => self.unfit = true,
        }
    }

    /// Returns the complete key. Returns `KindMismatch` at the whole if a subscript is not a
    /// member, and `Arity` if there are more than four.
    fn into_key(self, whole: &Expr<'_>) -> Result<Tuple<'s>, Fault>
        ensures { Yields (and_then (subscripts.so_far (trees.span_of (tree whole.now)) self.entry)
            (operators.short_enough (trees.span_of (tree whole.now)))) result }
    {
        let Subscripts {
            key,
            too_many,
            unfit,
        } = self;
        if unfit {
            return Err(reject_tree(ErrorCode::KindMismatch, whole));
        }
        if too_many {
            return Err(reject_tree(ErrorCode::Arity, whole));
        }
        Ok(key)
    }
}

/// Returns the member of a simple name that is a dummy in scope.
fn dummy_at<'a, 's>(scope: &'a Scope<'s>, component: &Expr<'s>) -> Option<&'a Member<'s>>
    ensures { option_copied result ≡ select.dummy_alone scope.entry.now (items.bare (tree component.now)) }
{
    match bare(component) {
        None => None,
        Some(name) => scope.get(name),
    }
}

/// Evaluates one more subscript. Most are dummies, whose member is used directly.
#[cycle(eval)]
fn put<'s>(
    alloc: Global,
    env: &Env<'_, 's>,
    scope: &Scope<'s>,
    component: &Expr<'s>,
    so_far: &mut Subscripts<'s>,
) -> Result<(), Fault>
    ensures { Updates (and_then (values.value env.now scope.now (tree component.now)) (λ v. Ok (subscripts.with_value v so_far.old))) result so_far.new }
{
    match dummy_at(scope, component) {
        Some(member) => {
            so_far.add(member);
            Ok(())
        }
        None => {
            let value = evaluate(alloc, env, scope, component)?;
            so_far.add_value(&value);
            Ok(())
        }
    }
}

/// Evaluates subscripts to a key, all of them from left to right. Returns `KindMismatch` at the
/// whole if one is not a member, and `Arity` if there are more than four.
#[cycle(eval)]
pub fn key_of<'s>(
    alloc: Global,
    env: &Env<'_, 's>,
    scope: &Scope<'s>,
    whole: &Expr<'s>,
    first: &Expr<'s>,
    more: &[LinkedOperand<'s>],
) -> Result<Tuple<'s>, Fault>
    ensures { Refines (and_then (and_then (values.value env.now scope.now (tree first.now))
        (λ v. values.values env.now scope.now (links_of more.now) (v ∷ []))) (operators.tuple_of (trees.span_of (tree whole.now)))) result }
{
    let mut so_far = Subscripts::new();
    put(alloc, env, scope, first, &mut so_far)?;
    for link in more {
        put(alloc, env, scope, &link.operand, &mut so_far)?;
    }
    so_far.into_key(whole)
}
