//! Storage of distinct tuples: consecutive numbers by the first one and their count, single members and pairs without room for more.

ghost use Rattle.std.specs.Prelude.{◌≡◌, ◌≤◌, [], ◌∷◌, not, get_or, length, slice_get, IfOk, IfSome, MatchOption, OnOk, OnErr};
ghost use Rattle.std.specs.List.{IsDistinct, items_where_true};
ghost use Rattle.net_sets.specs.Forms.{AreShort};
ghost use Rattle.net_sets.specs.Limits.{arity_limit};
ghost use Rattle.net_sets.specs.Sets.{added, has, place_of, same_tuple};
ghost use Rattle.net_sets.specs.TupleSets.{is_at};
ghost use Rattle.net_sets.specs.TupleStores.{IsStore, tuples_in};

mod widened;

use crate::kept::{Kept, add, are_all_true, keep_at};
use crate::key::HashKey;
use crate::member::Member;
use crate::short_tuple::{insert_in, is_in, member_in, position_in, tuple_in, width_in};
use crate::tuple::Tuple;
use std::alloc::{AllocError, Global};
use std::marker::Model;

/// Distinct tuples in the order in which they were added; contracts see their list.
#[derive(Drop)]
pub(crate) struct TupleStore<'s> {
    alloc: Global,
    key: HashKey,
    /// The number of tuples for which a hash table reserves memory when it is made.
    room: usize,
    kept: Kept<'s>,
}

impl<'s> Model for TupleStore<'s> {
    ghost use Rattle.std.specs.Prelude.{List};
    ghost use Rattle.net_sets.specs.declared.member.Member.{Member};
    ghost use Rattle.net_sets.specs.TupleStores.{IsStore, tuples_in};

    ghost Value = { List (List Member) };

    ghost view = { λ s. tuples_in s.kept };

    ghost invariant = { λ s. IsStore s.kept };
}

impl<'s> TupleStore<'s> {
    /// Creates an empty store, whose hash table reserves memory for `room` tuples when it is made; consecutive numbers need none.
    pub(crate) fn new(alloc: Global, key: HashKey, room: usize) -> TupleStore<'s>
        ensures { result ≡ [] }
    {
        TupleStore {
            alloc,
            key,
            room,
            kept: Kept::Nothing,
        }
    }

    /// Returns the key of the hashes.
    pub(crate) fn key(&self) -> HashKey {
        self.key
    }

    /// Returns the number of tuples.
    pub(crate) fn len(&self) -> usize
        ensures value { result ≡ length self.now }
        ensures distinct { IsDistinct same_tuple self.now }
    {
        match &self.kept {
            Kept::Nothing => 0,
            Kept::Run(run) => run.len(),
            Kept::Singles(set) => set.len(),
            Kept::Pairs(set) => set.len(),
            Kept::Tuples(set) => set.len(),
        }
    }

    /// Returns the tuple at a position, counted from 0.
    pub(crate) fn get(&self, position: usize) -> Option<Tuple<'s>>
        ensures { result ≡ slice_get self.now position }
    {
        match &self.kept {
            Kept::Nothing => None,
            Kept::Run(run) => run.tuple(position),
            Kept::Singles(set) => tuple_in(set, position),
            Kept::Pairs(set) => tuple_in(set, position),
            Kept::Tuples(set) => match set.get_index(position) {
                None => None,
                Some(tuple) => Some(tuple.copied()),
            },
        }
    }

    /// Returns the tuple at a position, counted from 0; the empty tuple if there is none.
    pub(crate) fn tuple_at(&self, position: usize) -> Tuple<'s>
        ensures { result ≡ get_or self.now position [] }
    {
        match self.get(position) {
            None => Tuple::new(),
            Some(tuple) => tuple,
        }
    }

    /// Returns the number of members of the tuple at a position, counted from 0; 0 if there is none.
    pub(crate) fn width_at(&self, position: usize) -> usize
        ensures value { result ≡ length (get_or self.now position []) }
        ensures fits { result ≤ arity_limit }
    {
        match &self.kept {
            Kept::Nothing => 0,
            Kept::Run(run) => run.width_at(position),
            Kept::Singles(set) => width_in(set, position),
            Kept::Pairs(set) => width_in(set, position),
            Kept::Tuples(set) => match set.get_index(position) {
                None => 0,
                Some(tuple) => tuple.len(),
            },
        }
    }

    /// Returns the member at a component of the tuple at a position, both counted from 0.
    pub(crate) fn member_at(&self, position: usize, component: usize) -> Option<Member<'s>>
        ensures { result ≡ slice_get (get_or self.now position []) component }
    {
        match &self.kept {
            Kept::Nothing => None,
            Kept::Run(run) => run.member_at(position, component),
            Kept::Singles(set) => member_in(set, position, component),
            Kept::Pairs(set) => member_in(set, position, component),
            Kept::Tuples(set) => match set.get_index(position) {
                None => None,
                Some(tuple) => tuple.member(component),
            },
        }
    }

    /// Returns whether the tuple of these members is at `position`.
    pub(crate) fn is_at(&self, position: usize, members: &[Member<'s>]) -> bool
        ensures { result ≡ is_at self.now position members.now }
    {
        match &self.kept {
            Kept::Nothing => false,
            Kept::Run(run) => run.is_at(position, members),
            Kept::Singles(set) => is_in(set, position, members),
            Kept::Pairs(set) => is_in(set, position, members),
            Kept::Tuples(set) => match set.get_index(position) {
                None => false,
                Some(tuple) => tuple.consists_of(members),
            },
        }
    }

    /// Returns the position of a tuple, counted from 0.
    pub(crate) fn position(&self, tuple: &Tuple<'s>) -> Option<usize>
        ensures { result ≡ place_of self.now tuple.now }
    {
        match &self.kept {
            Kept::Nothing => None,
            Kept::Run(run) => run.position_of(tuple),
            Kept::Singles(set) => position_in(set, tuple),
            Kept::Pairs(set) => position_in(set, tuple),
            Kept::Tuples(set) => set.get_index_of(tuple),
        }
    }

    /// Appends a tuple unless it is there, and returns whether it was new.
    pub(crate) fn insert(&mut self, tuple: Tuple<'s>) -> Result<bool, AllocError>
        ensures new { IfOk result (λ is_new. is_new ≡ not (has self.old tuple.entry)) }
        ensures ok { OnOk result (self.new ≡ added self.old tuple.entry) }
        ensures err { OnErr result (self.new ≡ self.old) }
        ensures distinct { IsDistinct same_tuple self.new }
    {
        if let Kept::Tuples(set) = &mut self.kept {
            return add(set, tuple);
        }
        match self.insert_short(&tuple)? {
            Some(is_new) => Ok(is_new),
            None => self.insert_anew(tuple),
        }
    }

    /// Appends a tuple of the form that is stored unless it is there, and returns whether it was new; returns `None` for a tuple of
    /// another form and if tuples of any length are stored.
    fn insert_short(&mut self, tuple: &Tuple<'s>) -> Result<Option<bool>, AllocError>
        ensures new { IfOk result (λ known. IfSome known (λ is_new. is_new ≡ not (has self.old tuple.now))) }
        ensures ok { IfOk result (λ known. MatchOption known (self.new ≡ self.old) (λ _. self.new ≡ added self.old tuple.now)) }
        ensures err { OnErr result (self.new ≡ self.old) }
        ensures distinct { IsDistinct same_tuple self.new }
    {
        match &mut self.kept {
            Kept::Nothing | Kept::Tuples(_) => Ok(None),
            Kept::Run(run) => Ok(run.insert(tuple)),
            Kept::Singles(set) => insert_in(set, tuple),
            Kept::Pairs(set) => insert_in(set, tuple),
        }
    }

    /// Replaces the tuples.
    fn put(&mut self, kept: Kept<'s>)
        requires { IsStore kept }
        ensures value { self.new ≡ tuples_in kept.entry }
        ensures distinct { IsDistinct same_tuple self.new }
    {
        self.kept = kept;
    }

    /// Appends a tuple unless it is there, after copying all tuples into a hash table for single members, and returns whether it was
    /// new. Returns `None` if one of them has more members.
    fn insert_as_single(&mut self, tuple: &Tuple<'s>) -> Result<Option<bool>, AllocError>
        ensures new { IfOk result (λ known. IfSome known (λ is_new. is_new ≡ not (has self.old tuple.now))) }
        ensures ok { IfOk result (λ known. MatchOption known (self.new ≡ self.old) (λ _. self.new ≡ added self.old tuple.now)) }
        ensures err { OnErr result (self.new ≡ self.old) }
        ensures distinct { IfOk result (λ known. IfSome known (λ _. IsDistinct same_tuple self.new)) }
    {
        match self.with_short(tuple)? {
            None => Ok(None),
            Some((set, is_new)) => {
                self.put(Kept::Singles(set));
                Ok(Some(is_new))
            }
        }
    }

    /// Appends a tuple unless it is there, after copying all tuples into a hash table for pairs, and returns whether it was new.
    /// Returns `None` if one of them has more members.
    fn insert_as_pair(&mut self, tuple: &Tuple<'s>) -> Result<Option<bool>, AllocError>
        ensures new { IfOk result (λ known. IfSome known (λ is_new. is_new ≡ not (has self.old tuple.now))) }
        ensures ok { IfOk result (λ known. MatchOption known (self.new ≡ self.old) (λ _. self.new ≡ added self.old tuple.now)) }
        ensures err { OnErr result (self.new ≡ self.old) }
        ensures distinct { IfOk result (λ known. IfSome known (λ _. IsDistinct same_tuple self.new)) }
    {
        match self.with_short(tuple)? {
            None => Ok(None),
            Some((set, is_new)) => {
                self.put(Kept::Pairs(set));
                Ok(Some(is_new))
            }
        }
    }

    /// Stores the first tuple.
    fn insert_first(&mut self, tuple: Tuple<'s>) -> Result<(), AllocError>
        requires { self.old ≡ [] }
        ensures ok { OnOk result (self.new ≡ tuple.entry ∷ []) }
        ensures err { OnErr result (self.new ≡ self.old) }
        ensures distinct { OnOk result (IsDistinct same_tuple self.new) }
    {
        let kept = Kept::of_first(self.alloc, self.key, self.room, tuple)?;
        self.put(kept);
        Ok(())
    }

    /// Appends a tuple unless it is there, after copying all tuples into a hash table for tuples of any length; returns whether it
    /// was new.
    fn insert_as_any(&mut self, tuple: Tuple<'s>) -> Result<bool, AllocError>
        ensures new { IfOk result (λ is_new. is_new ≡ not (has self.old tuple.entry)) }
        ensures ok { OnOk result (self.new ≡ added self.old tuple.entry) }
        ensures err { OnErr result (self.new ≡ self.old) }
        ensures distinct { OnOk result (IsDistinct same_tuple self.new) }
    {
        let mut all = self.tuples()?;
        let is_new = add(&mut all, tuple)?;
        self.put(Kept::Tuples(all));
        Ok(is_new)
    }

    /// Appends a tuple unless it is there, after making a set in which it fits; returns whether it was new.
    fn insert_anew(&mut self, tuple: Tuple<'s>) -> Result<bool, AllocError>
        ensures new { IfOk result (λ is_new. is_new ≡ not (has self.old tuple.entry)) }
        ensures ok { OnOk result (self.new ≡ added self.old tuple.entry) }
        ensures err { OnErr result (self.new ≡ self.old) }
        ensures distinct { IsDistinct same_tuple self.new }
    {
        if self.len() == 0 {
            self.insert_first(tuple)?;
            return Ok(true);
        }
        if let Some(is_new) = self.insert_as_single(&tuple)? {
            return Ok(is_new);
        }
        if let Some(is_new) = self.insert_as_pair(&tuple)? {
            return Ok(is_new);
        }
        self.insert_as_any(tuple)
    }

    /// Keeps the tuples at the positions where `answers` is true, in their order.
    pub(crate) fn retain_at(&mut self, answers: &[bool]) -> Result<(), AllocError>
        requires { length answers.now ≡ length self.old }
        ensures ok { OnOk result (self.new ≡ items_where_true answers.now self.old) }
        ensures err { OnErr result (self.new ≡ self.old) }
    {
        match &mut self.kept {
            Kept::Nothing => {}
            Kept::Run(_) => return self.retain_run(answers),
            Kept::Singles(set) => keep_at(set, answers),
            Kept::Pairs(set) => keep_at(set, answers),
            Kept::Tuples(set) => keep_at(set, answers),
        }
        Ok(())
    }

    /// Keeps the numbers at the positions where `answers` is true, in their order. If these are not all, the numbers are first copied
    /// into a hash table.
    fn retain_run(&mut self, answers: &[bool]) -> Result<(), AllocError>
        requires size { length answers.now ≡ length self.old }
        requires short { AreShort 1 self.old }
        ensures ok { OnOk result (self.new ≡ items_where_true answers.now self.old) }
        ensures err { OnErr result (self.new ≡ self.old) }
    {
        if are_all_true(answers) {
            return Ok(());
        }
        let _distinct = self.len();
        if let Some(mut set) = self.shorts()? {
            keep_at(&mut set, answers);
            self.put(Kept::Singles(set));
        }
        Ok(())
    }

    /// Frees the memory that is reserved for more tuples.
    pub(crate) fn shrink_to_fit(&mut self)
        ensures { self.new ≡ self.old }
    {
        match &mut self.kept {
            Kept::Nothing | Kept::Run(_) => {}
            Kept::Singles(set) => set.shrink_to_fit(),
            Kept::Pairs(set) => set.shrink_to_fit(),
            Kept::Tuples(set) => set.shrink_to_fit(),
        }
    }
}
