//! Copies of the tuples in a form in which one more fits.

ghost use Rattle.std.specs.Prelude.{◌≡◌, ◌≤◌, length, IfOk, MatchOption};
ghost use Rattle.net_sets.specs.Forms.{AreShort};
ghost use Rattle.net_sets.specs.TupleStores.{IsWith};

use crate::kept::add;
use crate::key::HashKey;
use crate::short_tuple::{ShortTuple, add_short};
use crate::tuple::Tuple;
use crate::tuple_store::TupleStore;
use indexmap::IndexSet;
use std::alloc::AllocError;

impl<'s> TupleStore<'s> {
    /// Copies the tuples into a set of tuples of at most `N` members; returns `None` if one of them has more.
    pub(super) fn shorts<const N: usize>(
        &self,
    ) -> Result<Option<IndexSet<ShortTuple<'s, N>, HashKey>>, AllocError>
        ensures { IfOk result (λ all. MatchOption all (AreShort N self.now → ⊥) (λ set. (set.keys ≡ self.now) × AreShort N self.now)) }
    {
        let mut all = IndexSet::with_hasher(self.alloc, self.key);
        all.reserve_exact(self.len().saturating_add(1).max(self.room))?;
        for position in 0..self.len() {
            match ShortTuple::of(&self.tuple_at(position)) {
                None => return Ok(None),
                Some(short) => {
                    add_short(&mut all, short)?;
                }
            }
        }
        Ok(Some(all))
    }

    /// Copies the tuples into a set of tuples of any length.
    pub(super) fn tuples(&self) -> Result<IndexSet<Tuple<'s>, HashKey>, AllocError>
        ensures { IfOk result (λ all. all.keys ≡ self.now) }
    {
        let mut all = IndexSet::with_hasher(self.alloc, self.key);
        all.reserve_exact(self.len().saturating_add(1).max(self.room))?;
        for position in 0..self.len() {
            add(&mut all, self.tuple_at(position))?;
        }
        Ok(all)
    }

    /// Copies the tuples and one more, unless it is there, into a set of tuples of at most `N` members, and returns whether that one was
    /// new. Returns `None` if one of them has more members.
    pub(super) fn with_short<const N: usize>(
        &self,
        tuple: &Tuple<'s>,
    ) -> Result<Option<(IndexSet<ShortTuple<'s, N>, HashKey>, bool)>, AllocError>
        ensures { IfOk result (λ more. MatchOption more
            (AreShort N self.now → length tuple.now ≤ N → ⊥)
            (λ r. IsWith N self.now tuple.now r.0.keys r.1)) }
    {
        let Some(short) = ShortTuple::of(tuple) else {
            return Ok(None);
        };
        match self.shorts()? {
            None => Ok(None),
            Some(mut set) => {
                let is_new = add_short(&mut set, short)?;
                Ok(Some((set, is_new)))
            }
        }
    }
}
