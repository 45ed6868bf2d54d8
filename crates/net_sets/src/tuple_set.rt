//! Sets of tuples in the order of their first appearance.

ghost use Rattle.std.specs.Prelude.{◌≡◌, ◌<◌, ◌≤◌, ◌++◌, ◌∷◌, [], false, get_or, length, slice_get, not, IfOk, OnOk, OnErr, IsErrOf};
ghost use Rattle.std.specs.List.{IsDistinct, items_where_true};
ghost use Rattle.net_sets.specs.Limits.{arity_limit, tuples_limit};
ghost use Rattle.net_sets.specs.Made.{IsMade, with_set};
ghost use Rattle.net_sets.specs.Operations.{union};
ghost use Rattle.net_sets.specs.Sets.{has, added, place_of, same_tuple};

use crate::key::HashKey;
use crate::member::Member;
use crate::tuple::Tuple;
use crate::tuple_store::TupleStore;
use std::alloc::{AllocError, AllocFailed, Global};
use std::marker::Model;

/// The greatest number of tuples of a set.
pub const TUPLES_LIMIT: usize = 1_000_000;

/// Distinct tuples in the order of their first appearance. Contracts see the list of the tuples.
#[derive(Drop)]
pub struct TupleSet<'s> {
    tuples: TupleStore<'s>,
}

impl<'s> Model for TupleSet<'s> {
    ghost use Rattle.std.specs.Prelude.{List};
    ghost use Rattle.net_sets.specs.declared.member.Member.{Member};
    ghost use Rattle.net_sets.specs.TupleSets.{IsTupleSet};

    ghost Value = { List (List Member) };

    ghost view = { λ s. s.tuples };

    ghost invariant = { λ s. IsTupleSet s.tuples };
}

impl<'s> TupleSet<'s> {
    /// Creates an empty set. The key has to be that of the run: under another one, the author of an input can choose tuples with
    /// equal hashes, which are slow to add and to find.
    pub fn new(alloc: Global, key: HashKey) -> TupleSet<'s>
        ensures { result ≡ [] }
    {
        TupleSet {
            tuples: TupleStore::new(alloc, key, 0),
        }
    }

    /// Creates an empty set that reserves memory for `count` tuples when its hash table is made; a set that grows is copied again and
    /// again. The key has to be that of the run.
    pub fn with_room(alloc: Global, key: HashKey, count: usize) -> TupleSet<'s>
        ensures { result ≡ [] }
    {
        TupleSet {
            tuples: TupleStore::new(alloc, key, count),
        }
    }

    /// Creates the set of `tuples`, each at its first position. Returns `TooMany` if the set would exceed its limit.
    pub fn from_tuples(
        alloc: Global,
        key: HashKey,
        tuples: &[Tuple<'s>],
    ) -> Result<TupleSet<'s>, SetFault>
        ensures { IsMade (union [] tuples.now) result }
    {
        let mut all = TupleSet::new(alloc, key);
        all.add_all(tuples)?;
        Ok(all)
    }

    /// Returns the key of the hashes.
    pub(crate) fn key(&self) -> HashKey {
        self.tuples.key()
    }

    /// Returns the number of tuples.
    pub fn len(&self) -> usize
        ensures value { result ≡ length self.now }
        ensures few { result ≤ tuples_limit }
        ensures distinct { IsDistinct same_tuple self.now }
    {
        self.tuples.len()
    }

    /// Returns the tuple at a position, counted from 0.
    pub fn get(&self, position: usize) -> Option<Tuple<'s>>
        ensures { result ≡ slice_get self.now position }
    {
        self.tuples.get(position)
    }

    /// Returns the tuple at a position, counted from 0; the empty tuple if there is none.
    pub fn tuple_at(&self, position: usize) -> Tuple<'s>
        ensures { result ≡ get_or self.now position [] }
    {
        self.tuples.tuple_at(position)
    }

    /// Returns the number of members of the tuple at a position, counted from 0; 0 if there is none.
    pub(crate) fn width_at(&self, position: usize) -> usize
        ensures value { result ≡ length (get_or self.now position []) }
        ensures fits { result ≤ arity_limit }
    {
        self.tuples.width_at(position)
    }

    /// Returns the member at a component of the tuple at a position, both counted from 0.
    pub(crate) fn member_at(&self, position: usize, component: usize) -> Option<Member<'s>>
        ensures { result ≡ slice_get (get_or self.now position []) component }
    {
        self.tuples.member_at(position, component)
    }

    /// Returns the position of a tuple, counted from 0.
    pub fn position(&self, tuple: &Tuple<'s>) -> Option<usize>
        ensures { result ≡ place_of self.now tuple.now }
    {
        self.tuples.position(tuple)
    }

    /// Returns the position of a tuple that is probably at `near`. The set is searched only if it is not.
    pub fn position_with_hint(&self, near: usize, tuple: &Tuple<'s>) -> Option<usize>
        ensures { result ≡ place_of self.now tuple.now }
    {
        if self.tuples.is_at(near, tuple.as_slice()) {
            Some(near)
        } else {
            self.position(tuple)
        }
    }

    /// Returns the position of the tuple of these members, which is probably `near`.
    pub(crate) fn position_of(&self, near: usize, members: &[Member<'s>]) -> Option<usize>
        requires { length members.now ≤ arity_limit }
        ensures { result ≡ place_of self.now members.now }
    {
        if self.tuples.is_at(near, members) {
            Some(near)
        } else {
            self.position(&Tuple::of_members(members))
        }
    }

    /// Returns whether the set has a tuple.
    pub fn contains(&self, tuple: &Tuple<'s>) -> bool
        ensures { result ≡ has self.now tuple.now }
    {
        self.position(tuple).is_some()
    }

    /// Appends a tuple that the set does not have.
    pub(crate) fn push(&mut self, tuple: Tuple<'s>) -> Result<(), AllocError>
        requires fresh { has self.old tuple ≡ false }
        requires room { length self.old < tuples_limit }
        ensures ok { OnOk result (self.new ≡ self.old ++ tuple.entry ∷ []) }
        ensures err { OnErr result (self.new ≡ self.old) }
    {
        self.tuples.insert(tuple)?;
        Ok(())
    }

    /// Appends a tuple unless the set has it, and returns whether it was new. Returns `TooMany` for a new tuple if the set is at
    /// its limit.
    pub fn add_new(&mut self, tuple: Tuple<'s>) -> Result<bool, SetFault>
        ensures new { IfOk result (λ is_new. is_new ≡ not (has self.old tuple.entry)) }
        ensures ok { OnOk result (self.new ≡ added self.old tuple.entry) }
        ensures err { OnErr result (self.new ≡ self.old) }
        ensures made { IsMade (added self.old tuple.entry) (with_set result self.new) }
        // A set that would be too large is reported as such, and not as out of memory.
        ensures memory { IsErrOf result SetFault.OutOfMemory → length (added self.old tuple.entry) ≤ tuples_limit }
    {
        if self.tuples.len() < TUPLES_LIMIT {
            Ok(self.tuples.insert(tuple)?)
        } else if self.contains(&tuple) {
            Ok(false)
        } else {
            Err(SetFault::TooMany)
        }
    }

    /// Appends a tuple unless the set has it, for callers that do not need to know whether it was new.
    pub fn add(&mut self, tuple: Tuple<'s>) -> Result<(), SetFault>
        ensures ok { OnOk result (self.new ≡ added self.old tuple.entry) }
        ensures err { OnErr result (self.new ≡ self.old) }
        ensures made { IsMade (added self.old tuple.entry) (with_set result self.new) }
        ensures memory { IsErrOf result SetFault.OutOfMemory → length (added self.old tuple.entry) ≤ tuples_limit }
    {
        match self.add_new(tuple) {
            Ok(_) => Ok(()),
            Err(rejected) => Err(rejected),
        }
    }

    /// Appends each of `tuples` that the set does not have. Returns `TooMany` if the set would exceed its limit.
    pub(crate) fn add_all(&mut self, tuples: &[Tuple<'s>]) -> Result<(), SetFault>
        ensures { IsMade (union self.old tuples.now) (with_set result self.new) }
    {
        let _few = self.len();
        for tuple in tuples {
            self.add(tuple.copied())?;
        }
        Ok(())
    }

    /// Appends each tuple of another set that the set does not have. Returns `TooMany` if the set would exceed its limit.
    pub(crate) fn add_set(&mut self, other: &TupleSet<'s>) -> Result<(), SetFault>
        ensures { IsMade (union self.old other.now) (with_set result self.new) }
    {
        let _few = self.len();
        for place in 0..other.len() {
            self.add(other.tuple_at(place))?;
        }
        Ok(())
    }

    /// Keeps the tuples at the positions where `answers` is true, in their order.
    pub(crate) fn retain_at(&mut self, answers: &[bool]) -> Result<(), AllocError>
        requires { length answers.now ≡ length self.old }
        ensures ok { OnOk result (self.new ≡ items_where_true answers.now self.old) }
        ensures err { OnErr result (self.new ≡ self.old) }
    {
        self.tuples.retain_at(answers)?;
        Ok(())
    }

    /// Frees the memory that is reserved for more tuples.
    pub fn shrink_to_fit(&mut self)
        ensures { self.new ≡ self.old }
    {
        self.tuples.shrink_to_fit();
    }

    /// Copies the set.
    pub fn copied(&self, alloc: Global) -> Result<TupleSet<'s>, AllocError>
        ensures { IfOk result (λ copy. copy ≡ self.now) }
    {
        let mut copy = TupleSet::with_room(alloc, self.key(), self.len());
        for place in 0..self.len() {
            copy.push(self.tuple_at(place))?;
        }
        Ok(copy)
    }
}

/// Why a set cannot be built.
#[derive(Drop)]
pub enum SetFault {
    OutOfMemory,
    /// It would have more tuples than the limit.
    TooMany,
}

impl From<AllocError> for SetFault {
    ghost use Rattle.std.specs.Prelude.{◌≡◌};
    ghost use Rattle.net_sets.specs.declared.tuple_set.SetFault.TheVariants.{OutOfMemory};

    ghost from_gives = { λ _ e. e ≡ OutOfMemory };

    fn from(_rejected: AllocError) -> SetFault {
        SetFault::OutOfMemory
    }
}

impl<T: Drop> From<AllocFailed<T>> for SetFault {
    ghost use Rattle.std.specs.Prelude.{◌≡◌};
    ghost use Rattle.net_sets.specs.declared.tuple_set.SetFault.TheVariants.{OutOfMemory};

    ghost from_gives = { λ _ e. e ≡ OutOfMemory };

    fn from(_rejected: AllocFailed<T>) -> SetFault {
        SetFault::OutOfMemory
    }
}
