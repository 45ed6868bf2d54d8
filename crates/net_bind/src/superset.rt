//! The supersets of a declared set.

ghost use Rattle.std.specs.Prelude.{◌≡◌, ◌≤◌, [], IfOk, length};
ghost use Rattle.net_sets.specs.Limits.{arity_limit};
ghost use Rattle.net_sets.specs.Operations.{AreLong, union, product, is_within};
ghost use Rattle.net_sets.specs.Sets.{has};
ghost use Rattle.net_bind.specs.Supersets.{crossed_by, AreParted};

use crate::boxed_values::StoredSet;
use net_base::Items;
use net_sets::{Member, Tuple, TupleSet};
use std::alloc::{AllocError, Global};
use std::marker::Model;

/// A further factor of a product, and the number of members before its own in each tuple.
#[derive(Drop)]
struct Crossed<'w, 's> {
    start: usize,
    set: StoredSet<'w, 's>,
}

/// A superset of a declared set, which contracts see as the list of its tuples. A product is
/// represented by its factors.
#[derive(Drop)]
pub(crate) struct Superset<'w, 's> {
    first: StoredSet<'w, 's>,
    more: Items<Crossed<'w, 's>>,
}

impl<'w, 's> Model for Superset<'w, 's> {
    ghost use Rattle.std.specs.Prelude.{List};
    ghost use Rattle.net_sets.specs.declared.member.Member.{Member};
    ghost use Rattle.net_bind.specs.Supersets.{crossed_by, AreParted};

    ghost Value = { List (List Member) };

    ghost view = { λ s. crossed_by s.first s.more };

    ghost invariant = { λ s. AreParted s.first s.more };
}

/// Returns whether a product contains these members: its last factor has to contain the last of
/// them, and the product of the others the rest.
fn has_members<'s>(first: &TupleSet<'s>, more: &[Crossed<'_, 's>], members: &[Member<'s>]) -> bool
    requires parted { AreParted first.now more.now }
    requires few { length members.now ≤ arity_limit }
    ensures { result ≡ has (crossed_by first.now more.now) members.now }
{
    match more.split_last() {
        None => first.contains(&Tuple::of_members(members)),
        Some((last, before)) => {
            let (front, back) = members.split_at(last.start.min(members.len()));
            last.set.get().contains(&Tuple::of_members(back)) && has_members(first, before, front)
        }
    }
}

impl<'w, 's> Superset<'w, 's> {
    pub(crate) fn whole(alloc: Global, set: StoredSet<'w, 's>) -> Superset<'w, 's>
        ensures { result ≡ set.entry }
    {
        Superset {
            first: set,
            more: Items::new(Vec::new(alloc)),
        }
    }

    /// Builds the product with a set; the tuples so far have `start` members. Fails only if memory
    /// runs out.
    pub(crate) fn crossed(
        self,
        start: usize,
        set: StoredSet<'w, 's>,
    ) -> Result<Superset<'w, 's>, AllocError>
        requires { AreLong start self }
        ensures { IfOk result (λ s. s ≡ union [] (product self.entry set.entry)) }
    {
        let Superset { first, more } = self;
        let mut more = more.into_vec();
        more.push(Crossed { start, set })?;
        Ok(Superset {
            first,
            more: Items::new(more),
        })
    }

    fn contains(&self, tuple: &Tuple<'s>) -> bool
        ensures { result ≡ has self.now tuple.now }
    {
        has_members(self.first.get(), self.more.as_slice(), tuple.as_slice())
    }

    /// Returns whether the superset contains each tuple of a set.
    pub(crate) fn contains_all(&self, set: &TupleSet<'s>) -> bool
        ensures { result ≡ is_within set.now self.now }
    {
        for place in 0..set.len() {
            if !self.contains(&set.tuple_at(place)) {
                return false;
            }
        }
        true
    }
}
