//! Checking adjacency lists: each entry describes its arc, and each arc is in the lists of both
//! ends.

ghost use Rattle.std.specs.Prelude.{◌≡◌, ℕ, ◌+◌, ◌<◌, ◌≤◌, true, false, length, vec_len, slice_index_or};
ghost use Rattle.net_solve.specs.Rows.{AreRows, IsEntry, IsListed, entry_at, entry_of};

use crate::amounts::tail_of;
use crate::rows::{Entry, Rows};
use net_normal::Problem;

/// Returns an arc as seen from the tail of its residual arc.
pub fn entry_of(problem: &Problem, index: u32, forwards: bool) -> Entry
    requires { index < vec_len problem.now.arcs }
    ensures { result ≡ entry_of problem.now index forwards }
{
    let arc = problem.arcs[index as usize];
    let cost = arc.cost * (problem.supplies.len() as i64 + 1);
    if forwards {
        Entry {
            head: arc.dst,
            index,
            forwards,
            cost,
            bound: arc.cap,
        }
    } else {
        Entry {
            head: arc.src,
            index,
            forwards,
            cost: -cost,
            bound: arc.low,
        }
    }
}

/// Returns whether two entries are equal.
fn are_same(a: &Entry, b: &Entry) -> bool
    ensures { result ≡ true → a.now ≡ b.now }
{
    *a == *b
}

/// Returns whether an entry describes its arc.
fn is_entry(problem: &Problem, entry: &Entry) -> bool
    ensures { result ≡ true → IsEntry problem.now entry.now }
{
    if entry.index as usize >= problem.arcs.len() {
        return false;
    }
    let own = entry_of(problem, entry.index, entry.forwards);
    are_same(entry, &own)
}

/// Returns whether all entries describe their arcs.
fn are_entries(problem: &Problem, entries: &[Entry]) -> bool
    ensures { result ≡ true → (place : ℕ) → place < length entries.now → IsEntry problem.now (entry_at entries.now place) }
{
    for entry in entries {
        if !is_entry(problem, entry) {
            return false;
        }
    }
    true
}

/// Returns whether all lists start within the entries.
fn are_within(starts: &[u32], entries: usize) -> bool
    ensures { result ≡ true → (v : ℕ) → v < length starts.now → slice_index_or starts.now v 0 ≤ entries }
{
    for start in starts {
        if *start as usize > entries {
            return false;
        }
    }
    true
}

/// Returns whether the arc in this direction is at this position in the list of its tail.
fn is_listed(problem: &Problem, rows: &Rows, index: u32, forwards: bool, place: u32) -> bool
    requires index { index < vec_len problem.now.arcs }
    requires starts { vec_len rows.now.starts ≡ vec_len problem.now.supplies + 1 }
    ensures { result ≡ true → IsListed problem.now rows.now.starts.items rows.now.entries.items index forwards }
{
    let tail = tail_of(&problem.arcs[index as usize], forwards) as usize;
    if place < rows.starts[tail] {
        return false;
    }
    if place >= rows.starts[tail + 1] {
        return false;
    }
    if place as usize >= rows.entries.len() {
        return false;
    }
    let entry = entry_of(problem, index, forwards);
    are_same(&rows.entries[place as usize], &entry)
}

/// Returns whether all arcs in this direction are at these positions in the lists of their tails.
fn are_listed(problem: &Problem, rows: &Rows, forwards: bool, places: &[u32]) -> bool
    requires starts { vec_len rows.now.starts ≡ vec_len problem.now.supplies + 1 }
    ensures { result ≡ true → (i : ℕ) → i < vec_len problem.now.arcs → IsListed problem.now rows.now.starts.items rows.now.entries.items i forwards }
{
    if places.len() != problem.arcs.len() {
        return false;
    }
    for index in 0..problem.arcs.len() {
        if !is_listed(problem, rows, index as u32, forwards, places[index]) {
            return false;
        }
    }
    true
}

/// Returns whether the lists contain all arcs in both directions: forward arcs at the positions
/// `ahead`, backward arcs at the positions `back`.
pub fn are_rows(problem: &Problem, rows: &Rows, ahead: &[u32], back: &[u32]) -> bool
    ensures { result ≡ true → AreRows problem.now rows.now.starts.items rows.now.entries.items }
{
    if rows.starts.len() != problem.supplies.len() + 1 {
        return false;
    }
    if !are_within(&rows.starts, rows.entries.len()) {
        return false;
    }
    if !are_entries(problem, &rows.entries) {
        return false;
    }
    if !are_listed(problem, rows, true, ahead) {
        return false;
    }
    are_listed(problem, rows, false, back)
}
