//! Pricing data of a network simplex: the cost of a unit on each arc, and the potential of each
//! node.
//!
//! Pricing takes most of the time, and most of that is memory access. So if all numbers fit, they
//! are stored in 32 bits, which doubles the number of them in the cache.

use crate::guess::Halt;
use crate::price_lists::PriceLists;
use crate::simplex_arc::PricedArc;
use crate::tree::Thread;
use std::alloc::{AllocError, Global};

/// The maximum cost of a unit from the root with which no potential and no reduced cost exceeds 32
/// bits.
pub const NARROW_LIMIT: i64 = 1 << 29;

/// The maximum distance of the root's potential from 0, in 32 and in 64 bits.
const NARROW_DRIFT: i64 = 1 << 29;

const WIDE_DRIFT: i64 = 1 << 59;

/// Consecutive nodes in the cyclic order: the first and the last, and their number.
#[derive(Clone, Copy)]
pub struct Segment {
    pub first: u32,
    pub last: u32,
    pub count: u32,
}

/// The arcs and the potentials.
#[derive(Drop)]
pub enum Prices {
    Narrow(PriceLists<i32>),
    Wide(PriceLists<i64>),
}

impl Prices {
    /// Creates lists for this many nodes, including the root, and this many arcs, which have to be
    /// added, given the cost of a unit from the root. Fails only if memory runs out.
    pub fn with_room(
        alloc: Global,
        root_cost: i64,
        node_count: usize,
        arc_count: usize,
    ) -> Result<Prices, AllocError> {
        if root_cost <= NARROW_LIMIT {
            let lists = PriceLists::with_room(alloc, node_count, arc_count)?;
            Ok(Prices::Narrow(lists))
        } else {
            let lists = PriceLists::with_room(alloc, node_count, arc_count)?;
            Ok(Prices::Wide(lists))
        }
    }

    /// Returns the arc at an index.
    #[inline]
    pub fn arc(&self, place: u32) -> PricedArc {
        match self {
            Prices::Narrow(lists) => lists.arc(place),
            Prices::Wide(lists) => lists.arc(place),
        }
    }

    /// Adds the next arc.
    #[inline]
    pub fn push_arc(&mut self, arc: PricedArc) -> Result<(), Halt> {
        match self {
            Prices::Narrow(lists) => lists.push(arc),
            Prices::Wide(lists) => lists.push(arc),
        }
    }

    /// Stores an arc at an index.
    #[inline]
    pub fn put_arc(&mut self, place: u32, arc: PricedArc) {
        match self {
            Prices::Narrow(lists) => lists.put(place, arc),
            Prices::Wide(lists) => lists.put(place, arc),
        }
    }

    /// Returns a node's potential.
    #[inline]
    pub fn potential(&self, node: u32) -> i64 {
        match self {
            Prices::Narrow(lists) => lists.potential(node),
            Prices::Wide(lists) => lists.potential(node),
        }
    }

    /// Sets a node's potential.
    #[inline]
    pub fn put_potential(&mut self, node: u32, potential: i64) {
        match self {
            Prices::Narrow(lists) => lists.put_potential(node, potential),
            Prices::Wide(lists) => lists.put_potential(node, potential),
        }
    }

    /// Returns whether the root's potential is close enough to 0 to be changed.
    pub fn may_move(&self, root: u32) -> bool {
        let drift = match self {
            Prices::Narrow(_) => NARROW_DRIFT,
            Prices::Wide(_) => WIDE_DRIFT,
        };
        self.potential(root).wrapping_abs() < drift
    }

    /// Returns the reduced cost of an arc: the cost of a unit of flow over it and back through the
    /// tree.
    pub fn price(&self, place: u32) -> i64 {
        let arc = self.arc(place);
        arc.cost
            .wrapping_add(self.potential(arc.src))
            .wrapping_sub(self.potential(arc.dst))
    }

    /// Adds to the potentials of consecutive nodes.
    pub fn raise(
        &mut self,
        threads: &Vec<Thread>,
        segment: Segment,
        amount: i64,
    ) -> Result<(), Halt> {
        match self {
            Prices::Narrow(lists) => lists.raise(threads, segment, amount),
            Prices::Wide(lists) => lists.raise(threads, segment, amount),
        }
    }

    /// Returns the index of the arc with the most negative reduced cost in this range.
    pub fn cheapest_between(&self, from: usize, to: usize) -> Result<Option<u32>, Halt> {
        match self {
            Prices::Narrow(lists) => lists.cheapest(from, to),
            Prices::Wide(lists) => lists.cheapest(from, to),
        }
    }
}
