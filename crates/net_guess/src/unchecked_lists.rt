//! Access to lists by unverified indices.
//!
//! The heuristic's indices are unverified, except the ends of priced arcs. So each read and write
//! is bounds-checked. Outside a list, a read returns a default value, and a write does nothing; in
//! the innermost loops the heuristic gives up instead. All loops are bounded, and callers check the
//! results.

use crate::guess::Halt;
use net_normal::{FlowArc, Problem};

/// Returns the item at an index, or `nothing` if it is out of range.
#[inline]
pub fn at<T: Copy>(items: &Vec<T>, place: u32, nothing: T) -> T {
    match items.get(place as usize) {
        Some(item) => *item,
        None => nothing,
    }
}

/// Returns the item at an index. Returns `OutOfRange` if it is out of range.
#[inline]
pub fn try_at<T: Copy>(items: &Vec<T>, place: u32) -> Result<T, Halt> {
    match items.get(place as usize) {
        Some(item) => Ok(*item),
        None => Err(Halt::OutOfRange),
    }
}

/// Returns an arc of a problem by its index.
#[inline]
pub fn arc_at(problem: &Problem, number: u32) -> FlowArc {
    match problem.arcs.get(number as usize) {
        Some(arc) => *arc,
        None => FlowArc {
            src: 0,
            dst: 0,
            low: 0,
            cap: 0,
            cost: 0,
        },
    }
}

/// Converts an index or a length to 32 bits; returns the maximum if it does not fit.
#[inline]
pub fn index(place: usize) -> u32 {
    u32::try_from(place).unwrap_or(u32::MAX)
}

/// Stores an item at an index, if it is in range.
#[inline]
pub fn put<T: Copy>(items: &mut Vec<T>, place: u32, item: T) {
    if let Some(slot) = items.get_mut(place as usize) {
        *slot = item;
    }
}

/// Adds to the number at an index, if it is in range.
pub fn add_at(numbers: &mut Vec<i128>, place: u32, amount: i128) {
    let sum = at(numbers, place, 0).wrapping_add(amount);
    put(numbers, place, sum);
}
