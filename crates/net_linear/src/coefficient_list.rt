//! The storage of coefficients: a vector for the arcs of a run of consecutive numbers, and a map for others.

ghost use Rattle.std.specs.Prelude.{◌≡◌, ◌≤◌, ◌<◌, ◌+◌, ◌++◌, ◌^◌, [], if◌then◌else◌, length, nat_eq, option_map, slice_get, OnOk};
ghost use Rattle.indexmap.specs.IndexMap.{insert_entry};
ghost use Rattle.net_linear.specs.Forms as forms;
ghost use Rattle.net_linear.specs.Storage.{run_from};

use indexmap::IndexMap;
use std::alloc::{AllocError, Global};
use std::marker::Model;

/// Arcs with their coefficients, which contracts see as a list in the order in which the arcs were added. The first arcs, as
/// long as each has the next number, are a run, of which only the coefficients are stored.
#[derive(Drop)]
pub(crate) struct Coefficients {
    /// The first arc of the run.
    first: usize,
    /// The coefficients of the run's arcs.
    run: Vec<i128>,
    /// The arcs that were added after the run.
    others: IndexMap<usize, i128>,
}

impl Model for Coefficients {
    ghost use Rattle.std.specs.Prelude.{◌≤◌, ◌+◌, ◌++◌, ◌^◌, length};
    ghost use Rattle.net_linear.specs.Forms.{Products};
    ghost use Rattle.net_linear.specs.Storage.{run_from};

    ghost Value = { Products };

    ghost view = { λ c. run_from c.first c.run.items ++ c.others.entries };

    ghost invariant = { λ c. c.first + length c.run.items ≤ 2 ^ 64 };
}

/// Returns the position of an arc in a run from `first` on, possibly past its end; the maximum if the arc is before `first`.
fn position_from(first: usize, arc: usize) -> usize
    ensures from { first ≤ arc → first + result ≡ arc }
    ensures before { arc < first → result ≡ 18446744073709551615 }
{
    if arc < first { usize::MAX } else { arc - first }
}

/// Returns the first arc of a run to which an arc is added: this arc, if there is none yet.
fn first_arc(is_empty: bool, first: usize, arc: usize) -> usize
    ensures { result ≡ (if is_empty then arc else first) }
{
    if is_empty { arc } else { first }
}

fn copied(number: &i128) -> i128
    ensures { result ≡ number.now }
{
    *number
}

/// Returns the coefficient of an arc in a map.
fn coefficient_in(others: &IndexMap<usize, i128>, arc: usize) -> i128
    ensures { result ≡ forms.coefficient others.now.entries arc }
{
    others.get(&arc).copied().unwrap_or(0)
}

/// Returns the arc at a position of a map, with its coefficient.
fn entry_in(others: &IndexMap<usize, i128>, position: usize) -> Option<(usize, &i128)>
    ensures { option_map (λ p. (p.0, p.1.now)) result ≡ slice_get others.now.entries position }
{
    match others.get_index(position) {
        Some((arc, coefficient)) => Some((*arc, coefficient)),
        None => None,
    }
}

/// Sets the coefficient of an arc; a new arc is added to the run, if it is the next one of it, or to the others. Fails only if
/// memory runs out.
fn set(
    first: usize,
    run: &mut Vec<i128>,
    others: &mut IndexMap<usize, i128>,
    arc: usize,
    coefficient: i128,
) -> Result<(), AllocError>
    requires { first + length run.old.items ≤ 2 ^ 64 }
    ensures entries { OnOk result (run_from first run.new.items ++ others.new.entries
        ≡ insert_entry nat_eq (run_from first run.old.items ++ others.old.entries) arc coefficient) }
    ensures room { first + length run.new.items ≤ 2 ^ 64 }
{
    let position = position_from(first, arc);
    if position < run.len() {
        run[position] = coefficient;
    } else if position == run.len() && others.is_empty() {
        run.push(coefficient)?;
    } else {
        others.insert(arc, coefficient)?;
    }
    Ok(())
}

impl Coefficients {
    /// Creates an empty list.
    pub(crate) fn new(alloc: Global) -> Coefficients
        ensures { result ≡ [] }
    {
        Coefficients {
            first: 0,
            run: Vec::new(alloc),
            others: IndexMap::new(alloc),
        }
    }

    /// Returns the number of arcs.
    pub(crate) fn len(&self) -> usize
        ensures { result ≡ length self.now }
    {
        let run = self.run.len();
        let others = self.others.len();
        run + others
    }

    /// Returns whether there is no arc.
    pub(crate) fn is_empty(&self) -> bool
        ensures { result ≡ forms.is_number self.now }
    {
        self.len() == 0
    }

    /// Returns the arc at a position, with its coefficient.
    pub(crate) fn entry(&self, position: usize) -> Option<(usize, &i128)>
        ensures { option_map (λ p. (p.0, p.1.now)) result ≡ slice_get self.now position }
    {
        if position < self.run.len() {
            Some((self.first + position, &self.run[position]))
        } else {
            entry_in(&self.others, position - self.run.len())
        }
    }

    /// Returns the coefficient of an arc, or 0 if the list does not contain it.
    pub(crate) fn get(&self, arc: usize) -> i128
        ensures { result ≡ forms.coefficient self.now arc }
    {
        let position = position_from(self.first, arc);
        if position < self.run.len() {
            copied(&self.run[position])
        } else {
            coefficient_in(&self.others, arc)
        }
    }

    /// Sets the coefficient of an arc; a new arc is added at the end. Fails only if memory runs out.
    pub(crate) fn insert(&mut self, arc: usize, coefficient: i128) -> Result<(), AllocError>
        ensures { OnOk result (self.new ≡ insert_entry nat_eq self.old arc coefficient) }
    {
        self.first = first_arc(self.is_empty(), self.first, arc);
        set(
            self.first,
            &mut self.run,
            &mut self.others,
            arc,
            coefficient,
        )?;
        Ok(())
    }
}
