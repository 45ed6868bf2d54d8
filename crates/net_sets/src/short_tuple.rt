//! Tuples of at most `N` members, which take no memory for more, and sets of them.

ghost use Rattle.std.specs.Prelude.{◌≡◌, ◌<◌, ◌≤◌, [], get_or, length, not, slice_get, IfOk, IfSome, MatchOption, OnErr, OnOk};
ghost use Rattle.std.specs.List.{IsDistinct};
ghost use Rattle.net_sets.specs.Forms.{AreShort};
ghost use Rattle.net_sets.specs.Limits.{arity_limit};
ghost use Rattle.net_sets.specs.Sets.{added, has, place_of, same_tuple};
ghost use Rattle.net_sets.specs.TupleSets.{is_at};

use crate::key::HashKey;
use crate::member::Member;
use crate::tuple::{Tuple, are_same};
use arrayvec::ArrayVec;
use indexmap::IndexSet;
use std::alloc::AllocError;
use std::hash::{Hash, Hasher};
use std::marker::Model;

/// At most `N` members, which contracts see as a list.
#[derive(PartialEq, Eq, Drop)]
pub(crate) struct ShortTuple<'s, const N: usize> {
    members: ArrayVec<Member<'s>, N>,
}

impl<'s, const N: usize> Model for ShortTuple<'s, N> {
    ghost use Rattle.std.specs.Prelude.{List};
    ghost use Rattle.net_sets.specs.declared.member.Member.{Member};

    ghost Value = { List Member };

    ghost view = { λ t. t.members.items };

    ghost inverse = { λ xs. record { members = record { items = xs } } };
}

impl<'s, const N: usize> ShortTuple<'s, N> {
    /// Copies a tuple; returns `None` if it has more than `N` members.
    pub(crate) fn of(tuple: &Tuple<'s>) -> Option<ShortTuple<'s, N>>
        ensures { MatchOption result (N < length tuple.now) (λ short. (short ≡ tuple.now) × (length tuple.now ≤ N)) }
    {
        if tuple.len() > N {
            return None;
        }
        let mut members = ArrayVec::new();
        for member in tuple.as_slice() {
            members.push(member.copied());
        }
        Some(ShortTuple { members })
    }

    /// Returns the members in order.
    pub(crate) fn as_slice(&self) -> &[Member<'s>]
        ensures members { result.now ≡ self.now }
        ensures fits { length result.now ≤ N }
    {
        self.members.as_slice()
    }

    /// Returns a copy of the member at a component, counted from 0.
    pub(crate) fn member(&self, component: usize) -> Option<Member<'s>>
        ensures { result ≡ slice_get self.now component }
    {
        match self.as_slice().get(component) {
            None => None,
            Some(member) => Some(member.copied()),
        }
    }
}

impl<'s, const N: usize> Hash for ShortTuple<'s, N> {
    ghost use Rattle.std.proofs.Common.{refl};
    ghost use Rattle.net_sets.specs.Hashes.{tuple_writes};
    ghost use Rattle.net_sets.specs.EqualHashes.{equal_member_writes, equal_tuple_writes, equal_numbers, equal_texts};

    ghost hash_input = { tuple_writes };

    ghost respects_eq = { equal_tuple_writes _ (equal_member_writes _ equal_numbers equal_texts (λ a b. refl) (λ a b. refl)) };

    fn hash<H: Hasher>(&self, state: &mut H) {
        Hash::hash_slice(self.as_slice(), state);
    }
}

/// Returns the tuple at a position, counted from 0.
pub(crate) fn tuple_in<'s, const N: usize>(
    set: &IndexSet<ShortTuple<'s, N>, HashKey>,
    position: usize,
) -> Option<Tuple<'s>>
    requires { N ≤ arity_limit }
    ensures { result ≡ slice_get set.now.keys position }
{
    match set.get_index(position) {
        None => None,
        Some(short) => Some(Tuple::of_members(short.as_slice())),
    }
}

/// Returns the number of members of the tuple at a position, counted from 0; 0 if there is none.
pub(crate) fn width_in<'s, const N: usize>(
    set: &IndexSet<ShortTuple<'s, N>, HashKey>,
    position: usize,
) -> usize
    ensures value { result ≡ length (get_or set.now.keys position []) }
    ensures fits { result ≤ N }
{
    match set.get_index(position) {
        None => 0,
        Some(short) => short.as_slice().len(),
    }
}

/// Returns the member at a component of the tuple at a position, both counted from 0.
pub(crate) fn member_in<'s, const N: usize>(
    set: &IndexSet<ShortTuple<'s, N>, HashKey>,
    position: usize,
    component: usize,
) -> Option<Member<'s>>
    ensures { result ≡ slice_get (get_or set.now.keys position []) component }
{
    match set.get_index(position) {
        None => None,
        Some(short) => short.member(component),
    }
}

/// Returns whether the tuple of these members is at `position`.
pub(crate) fn is_in<'s, const N: usize>(
    set: &IndexSet<ShortTuple<'s, N>, HashKey>,
    position: usize,
    members: &[Member<'s>],
) -> bool
    ensures { result ≡ is_at set.now.keys position members.now }
{
    match set.get_index(position) {
        None => false,
        Some(short) => are_same(members, short.as_slice()),
    }
}

/// Returns the position of a tuple, counted from 0.
pub(crate) fn position_in<'s, const N: usize>(
    set: &IndexSet<ShortTuple<'s, N>, HashKey>,
    tuple: &Tuple<'s>,
) -> Option<usize>
    requires { AreShort N set.now.keys }
    ensures { result ≡ place_of set.now.keys tuple.now }
{
    match ShortTuple::of(tuple) {
        None => None,
        Some(short) => set.get_index_of(&short),
    }
}

/// Appends a tuple unless it is there, and returns whether it was new.
pub(crate) fn add_short<'s, const N: usize>(
    set: &mut IndexSet<ShortTuple<'s, N>, HashKey>,
    short: ShortTuple<'s, N>,
) -> Result<bool, AllocError>
    ensures new { IfOk result (λ is_new. is_new ≡ not (has set.old.keys short.entry)) }
    ensures ok { OnOk result (set.new.keys ≡ added set.old.keys short.entry) }
    ensures err { OnErr result (set.new.keys ≡ set.old.keys) }
    ensures distinct { IsDistinct same_tuple set.new.keys }
{
    Ok(set.insert(short)?)
}

/// Appends a tuple unless it is there, and returns whether it was new; returns `None` if it has more than `N` members.
pub(crate) fn insert_in<'s, const N: usize>(
    set: &mut IndexSet<ShortTuple<'s, N>, HashKey>,
    tuple: &Tuple<'s>,
) -> Result<Option<bool>, AllocError>
    ensures new { IfOk result (λ known. IfSome known (λ is_new. is_new ≡ not (has set.old.keys tuple.now))) }
    ensures ok { IfOk result (λ known. MatchOption known (set.new.keys ≡ set.old.keys) (λ _. set.new.keys ≡ added set.old.keys tuple.now)) }
    ensures err { OnErr result (set.new.keys ≡ set.old.keys) }
    ensures short { AreShort N set.old.keys → AreShort N set.new.keys }
    ensures distinct { IfOk result (λ known. IfSome known (λ _. IsDistinct same_tuple set.new.keys)) }
{
    match ShortTuple::of(tuple) {
        None => Ok(None),
        Some(short) => Ok(Some(add_short(set, short)?)),
    }
}
