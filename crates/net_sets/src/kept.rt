//! Distinct tuples by the number of their members.

ghost use Rattle.std.specs.Prelude.{◌≡◌, ◌∷◌, [], not, length, IfOk, OnOk, OnErr};
ghost use Rattle.std.specs.List.{IsDistinct, items_where_true, list_all};
ghost use Rattle.net_sets.specs.Sets.{added, has, same_tuple};
ghost use Rattle.net_sets.specs.TupleStores.{AreKept, tuples_in};

use crate::key::HashKey;
use crate::number_run::NumberRun;
use crate::short_tuple::ShortTuple;
use crate::tuple::Tuple;
use indexmap::IndexSet;
use std::alloc::{AllocError, Global};
use std::hash::Hash;

/// Distinct tuples.
pub(crate) enum Kept<'s> {
    Nothing,
    /// Consecutive numbers.
    Run(NumberRun),
    Singles(IndexSet<ShortTuple<'s, 1>, HashKey>),
    Pairs(IndexSet<ShortTuple<'s, 2>, HashKey>),
    /// Tuples of any length.
    Tuples(IndexSet<Tuple<'s>, HashKey>),
}

/// To the prover, a `drop` of its own is one call; a derived one is five cases at each drop of a set.
impl<'s> Drop for Kept<'s> {
    fn drop(self) {
        match self {
            Kept::Nothing => {}
            Kept::Run(_run) => {}
            Kept::Singles(_set) => {}
            Kept::Pairs(_set) => {}
            Kept::Tuples(_set) => {}
        }
    }
}

/// Creates a set of one value, with memory for `room` values.
pub(crate) fn set_of<T: Eq + Hash + Drop>(
    alloc: Global,
    key: HashKey,
    room: usize,
    first: T,
) -> Result<IndexSet<T, HashKey>, AllocError>
    ensures { IfOk result (λ set. set.keys ≡ first ∷ []) }
{
    let mut set = IndexSet::with_hasher(alloc, key);
    set.reserve_exact(room)?;
    set.insert(first)?;
    Ok(set)
}

/// Returns whether all answers are true.
pub(crate) fn are_all_true(answers: &[bool]) -> bool
    ensures { result ≡ list_all (λ answer. answer) answers.now }
{
    for answer in answers {
        if !*answer {
            return false;
        }
    }
    true
}

/// Keeps the values at the positions where `answers` is true, in their order.
pub(crate) fn keep_at<T: Eq + Hash + Drop>(set: &mut IndexSet<T, HashKey>, answers: &[bool])
    requires { length answers.now ≡ length set.old.keys }
    ensures { set.new.keys ≡ items_where_true answers.now set.old.keys }
{
    let mut rest = answers.iter();
    set.retain(move |_| match rest.next() {
        None => false,
        Some(answer) => *answer,
    });
}

/// Appends a tuple unless it is there, and returns whether it was new.
pub(crate) fn add<'s>(
    set: &mut IndexSet<Tuple<'s>, HashKey>,
    tuple: Tuple<'s>,
) -> Result<bool, AllocError>
    ensures new { IfOk result (λ is_new. is_new ≡ not (has set.old.keys tuple.entry)) }
    ensures ok { OnOk result (set.new.keys ≡ added set.old.keys tuple.entry) }
    ensures err { OnErr result (set.new.keys ≡ set.old.keys) }
    ensures distinct { IsDistinct same_tuple set.new.keys }
{
    Ok(set.insert(tuple)?)
}

impl<'s> Kept<'s> {
    /// Stores one tuple, with memory for `room` tuples of its form.
    pub(crate) fn of_first(
        alloc: Global,
        key: HashKey,
        room: usize,
        first: Tuple<'s>,
    ) -> Result<Kept<'s>, AllocError>
        ensures value { IfOk result (λ kept. tuples_in kept ≡ first.entry ∷ []) }
        ensures shape { IfOk result AreKept }
    {
        if let Some(run) = NumberRun::of(&first) {
            return Ok(Kept::Run(run));
        }
        if let Some(single) = ShortTuple::of(&first) {
            return Ok(Kept::Singles(set_of(alloc, key, room, single)?));
        }
        if let Some(pair) = ShortTuple::of(&first) {
            return Ok(Kept::Pairs(set_of(alloc, key, room, pair)?));
        }
        Ok(Kept::Tuples(set_of(alloc, key, room, first)?))
    }
}
