//! Consecutive numbers, which take no memory each.

ghost use Rattle.std.specs.Prelude.{◌≡◌, ◌≤◌, ◌++◌, ◌∷◌, [], None, Some, true, false, get_or, length, not, slice_get, IfSome, MatchOption};
ghost use Rattle.std.specs.List.{IsDistinct};
ghost use Rattle.net_sets.specs.declared.member.Member.TheVariants.{Number};
ghost use Rattle.net_sets.specs.Forms.{AreShort};
ghost use Rattle.net_sets.specs.Runs.{AreNumbers, is_number};
ghost use Rattle.net_sets.specs.Sets.{added, has, place_of, same_tuple};
ghost use Rattle.net_sets.specs.TupleSets.{is_at};

use crate::member::Member;
use crate::tuple::Tuple;
use std::marker::Model;

/// The greatest absolute value of a number, and the greatest count of a run.
const NUMBER_LIMIT: u64 = net_lex::VALUE_LIMIT;

/// Returns the number that a tuple consists of; `None` if it is not one number.
pub(crate) fn number_of(tuple: &Tuple<'_>) -> Option<i64>
    ensures { MatchOption result (is_number tuple.now ≡ false) (λ n. tuple.now ≡ Number n ∷ []) }
{
    match tuple.as_slice() {
        [member] => match member {
            Member::Number(number) => Some(*number),
            Member::Name(_) => None,
        },
        _ => None,
    }
}

/// Numbers of which each is greater by 1 than the one before it. Contracts see a tuple for each.
#[derive(Drop)]
pub(crate) struct NumberRun {
    first: i64,
    count: usize,
}

impl Model for NumberRun {
    ghost use Rattle.std.specs.Prelude.{List};
    ghost use Rattle.net_sets.specs.declared.member.Member.{Member};
    ghost use Rattle.net_sets.specs.Runs.{IsRun, run};

    ghost Value = { List (List Member) };

    ghost view = { λ r. run r.first r.count };

    ghost invariant = { λ r. IsRun r.first r.count };
}

impl NumberRun {
    /// Starts a run with the number that a tuple consists of; returns `None` if it is not one number, or one beyond the limit.
    pub(crate) fn of(tuple: &Tuple<'_>) -> Option<NumberRun>
        ensures { IfSome result (λ run. run ≡ tuple.now ∷ []) }
    {
        let number = number_of(tuple)?;
        if number.unsigned_abs() > NUMBER_LIMIT {
            return None;
        }
        Some(NumberRun {
            first: number,
            count: 1,
        })
    }

    /// Returns the number of numbers.
    pub(crate) fn len(&self) -> usize
        ensures value { result ≡ length self.now }
        ensures distinct { IsDistinct same_tuple self.now }
        ensures short { AreShort 1 self.now }
        ensures numbers { AreNumbers self.now }
    {
        let _first = self.first;
        self.count
    }

    /// Returns the number at a position, counted from 0.
    fn number(&self, position: usize) -> Option<i64>
        ensures { MatchOption result (slice_get self.now position ≡ None) (λ n. slice_get self.now position ≡ Some (Number n ∷ [])) }
    {
        if position < self.count {
            Some(self.first + position as i64)
        } else {
            None
        }
    }

    /// Returns the tuple at a position, counted from 0.
    pub(crate) fn tuple<'s>(&self, position: usize) -> Option<Tuple<'s>>
        ensures { result ≡ slice_get self.now position }
    {
        match self.number(position) {
            None => None,
            Some(number) => Some(Tuple::single(Member::Number(number))),
        }
    }

    /// Returns the number of members of the tuple at a position, counted from 0: 1, or 0 if there is none.
    pub(crate) fn width_at(&self, position: usize) -> usize
        ensures value { result ≡ length (get_or self.now position []) }
        ensures fits { result ≤ 1 }
    {
        match self.number(position) {
            None => 0,
            Some(_) => 1,
        }
    }

    /// Returns the member at a component of the tuple at a position, both counted from 0.
    pub(crate) fn member_at<'s>(&self, position: usize, component: usize) -> Option<Member<'s>>
        ensures { result ≡ slice_get (get_or self.now position []) component }
    {
        match self.number(position) {
            None => None,
            Some(number) => {
                if component == 0 {
                    Some(Member::Number(number))
                } else {
                    None
                }
            }
        }
    }

    /// Returns whether the tuple of these members is at `position`.
    pub(crate) fn is_at(&self, position: usize, members: &[Member<'_>]) -> bool
        ensures { result ≡ is_at self.now position members.now }
    {
        match self.number(position) {
            None => false,
            Some(number) => match members {
                [member] => *member == Member::Number(number),
                _ => false,
            },
        }
    }

    /// Returns the position of a number, counted from 0.
    fn position(&self, number: i64) -> Option<usize>
        ensures { result ≡ place_of self.now (Number number ∷ []) }
    {
        if number < self.first {
            return None;
        }
        let distance = number.abs_diff(self.first);
        if distance < self.count as u64 {
            Some(distance as usize)
        } else {
            None
        }
    }

    /// Returns the position of a tuple, counted from 0.
    pub(crate) fn position_of(&self, tuple: &Tuple<'_>) -> Option<usize>
        ensures { result ≡ place_of self.now tuple.now }
    {
        let _numbers = self.len();
        match number_of(tuple) {
            None => None,
            Some(number) => self.position(number),
        }
    }

    /// Appends a number if it is the next one and the run has fewer than 10^12, and returns whether it did.
    fn append(&mut self, number: i64) -> bool
        ensures next { result ≡ true → self.new ≡ self.old ++ (Number number ∷ []) ∷ [] }
        ensures fresh { result ≡ true → has self.old (Number number ∷ []) ≡ false }
        ensures same { result ≡ false → self.new ≡ self.old }
    {
        let count = self.count as u64;
        if number < self.first || number.abs_diff(self.first) != count || count == NUMBER_LIMIT {
            return false;
        }
        self.count += 1;
        true
    }

    /// Appends a tuple unless it is there, and returns whether it was new; returns `None` if it is neither there nor the next number.
    pub(crate) fn insert(&mut self, tuple: &Tuple<'_>) -> Option<bool>
        ensures new { IfSome result (λ is_new. is_new ≡ not (has self.old tuple.now)) }
        ensures some { IfSome result (λ _. self.new ≡ added self.old tuple.now) }
        ensures none { result ≡ None → self.new ≡ self.old }
        ensures distinct { IfSome result (λ _. IsDistinct same_tuple self.new) }
        ensures short { IfSome result (λ _. AreShort 1 self.new) }
    {
        let number = number_of(tuple)?;
        if self.position(number).is_some() {
            let _numbers = self.len();
            return Some(false);
        }
        if !self.append(number) {
            return None;
        }
        let _numbers = self.len();
        Some(true)
    }
}
