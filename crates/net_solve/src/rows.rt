//! Adjacency lists: the arcs out of and into each node, contiguous in one array.

ghost use Rattle.std.specs.Prelude.{IfOk, IfSome};
ghost use Rattle.net_solve.specs.Rows.{AreRows};

use crate::row_tests::{are_rows, entry_of};
use net_normal::Problem;
use std::alloc::{AllocError, Global};

/// An arc as seen from the tail of its residual arc.
#[derive(Clone, Copy, PartialEq, Eq)]
pub struct Entry {
    /// The other end.
    pub head: u32,
    /// The arc's index.
    pub index: u32,
    /// Whether the residual arc is forward.
    pub forwards: bool,
    /// The scaled cost of a unit sent to the head.
    pub cost: i64,
    /// The flow at which there is no residual capacity.
    pub bound: i64,
}

/// The adjacency lists of all nodes; the entries of a node are contiguous.
#[derive(Drop)]
pub struct Rows {
    /// The start of each node's entries, and the end of the last.
    pub starts: Vec<u32>,
    /// The entries.
    pub entries: Vec<Entry>,
}

/// Returns the number at an index, or 0 if the index is out of range.
fn at(numbers: &[u32], index: usize) -> u32 {
    numbers.get(index).copied().unwrap_or(0)
}

/// Increments the number at an index, if it is in range. Returns the old number.
fn count(numbers: &mut Vec<u32>, index: usize) -> u32 {
    let old = at(numbers, index);
    if let Some(number) = numbers.get_mut(index) {
        *number = old.wrapping_add(1);
    }
    old
}

/// Stores an entry at a position, if it is in range.
fn put(entries: &mut Vec<Entry>, place: u32, entry: Entry) {
    if let Some(old) = entries.get_mut(place as usize) {
        *old = entry;
    }
}

/// Returns the start of each node's adjacency list, and the end of the last. Fails only if memory
/// runs out.
fn starts_of(alloc: Global, problem: &Problem) -> Result<Vec<u32>, AllocError> {
    let mut starts = vec![in alloc; 0_u32; problem.supplies.len().saturating_add(1)]?;
    for arc in &problem.arcs {
        count(&mut starts, (arc.src as usize).saturating_add(1));
        count(&mut starts, (arc.dst as usize).saturating_add(1));
    }
    let mut end = 0_u32;
    for start in &mut starts {
        end = end.wrapping_add(*start);
        *start = end;
    }
    Ok(starts)
}

/// Returns the adjacency lists of all nodes. Fails only if memory runs out.
pub fn rows_of(alloc: Global, problem: &Problem) -> Result<Option<Rows>, AllocError>
    ensures { IfOk result (λ found. IfSome found (λ rows. AreRows problem.now rows.starts.items rows.entries.items)) }
{
    let starts = starts_of(alloc, problem)?;
    let mut next = starts.clone()?;
    let none = Entry {
        head: 0,
        index: 0,
        forwards: false,
        cost: 0,
        bound: 0,
    };
    let mut entries = vec![in alloc; none; problem.arcs.len().saturating_mul(2)]?;
    let mut ahead = Vec::with_capacity(alloc, problem.arcs.len())?;
    let mut back = Vec::with_capacity(alloc, problem.arcs.len())?;
    for index in 0..problem.arcs.len() {
        let arc = problem.arcs[index];
        let place = count(&mut next, arc.src as usize);
        put(&mut entries, place, entry_of(problem, index as u32, true));
        ahead.push(place)?;
        let place = count(&mut next, arc.dst as usize);
        put(&mut entries, place, entry_of(problem, index as u32, false));
        back.push(place)?;
    }
    let rows = Rows { starts, entries };
    if !are_rows(problem, &rows, &ahead, &back) {
        return Ok(None);
    }
    Ok(Some(rows))
}
