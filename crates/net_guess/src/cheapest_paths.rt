//! Shortest paths to the nodes with a deficit, over nonnegative costs (Dijkstra 1959).

use crate::by_node::ByNode;
use crate::unchecked_lists::{at, index, put};
use std::alloc::{AllocError, Global};
use std::cmp::Reverse;
use std::collections::BinaryHeap;

/// The index of no arc.
pub const NO_PLACE: u32 = u32::MAX;

/// The cost of a path that does not exist.
const FAR: i64 = i64::MAX;

/// The cost of a node from which no path is searched.
const BARRED: i64 = i64::MIN;

/// An arc into a node, with its index and its nonnegative cost.
#[derive(Clone, Copy)]
pub struct Arrival {
    pub tail: u32,
    pub place: u32,
    pub cost: i64,
}

impl Arrival {
    /// No arc.
    pub const NONE: Arrival = Arrival {
        tail: 0,
        place: NO_PLACE,
        cost: 0,
    };
}

/// The shortest paths.
#[derive(Drop)]
pub struct CheapestPaths {
    arrivals: ByNode<Arrival>,
    /// The cost of the path from each node.
    costs: Vec<i64>,
    /// The index of the first arc of each node's path.
    firsts: Vec<u32>,
    /// The nodes with a path, nearest first.
    pub order: Vec<u32>,
    waiting: BinaryHeap<Reverse<(i64, u32)>>,
}

impl CheapestPaths {
    /// Creates the paths of nodes with these arcs into them, before `find`. Fails only if memory runs
    /// out.
    pub fn new(
        alloc: Global,
        node_count: usize,
        arrivals: ByNode<Arrival>,
    ) -> Result<CheapestPaths, AllocError> {
        let costs = vec![in alloc; FAR; node_count]?;
        let firsts = vec![in alloc; NO_PLACE; node_count]?;
        Ok(CheapestPaths {
            arrivals,
            costs,
            firsts,
            order: Vec::with_capacity(alloc, node_count)?,
            waiting: BinaryHeap::new(alloc),
        })
    }

    /// Returns the index of the first arc of a node's path, or `NO_PLACE` if the path is empty or
    /// does not exist.
    pub fn first(&self, node: u32) -> u32 {
        at(&self.firsts, node, NO_PLACE)
    }

    /// Computes the paths from nodes without excess to those with a deficit.
    pub fn find(&mut self, excess: &[i128]) -> Result<(), AllocError> {
        for (place, amount) in excess.iter().enumerate() {
            let node = index(place);
            if *amount > 0 {
                put(&mut self.costs, node, BARRED);
            }
            if *amount < 0 {
                put(&mut self.costs, node, 0);
                self.waiting.push(Reverse((0i64, node)))?;
            }
        }
        for _ in 0..self.arrivals.items.len().saturating_add(excess.len()) {
            let Some(Reverse((cost, node))) = self.waiting.pop() else {
                break;
            };
            if at(&self.costs, node, FAR) == cost {
                self.order.push(node)?;
                self.reach_back(node, cost)?;
            }
        }
        Ok(())
    }

    /// Relaxes the arcs into a node.
    fn reach_back(&mut self, node: u32, cost: i64) -> Result<(), AllocError> {
        for place in self.arrivals.row(node) {
            let arrival = at(&self.arrivals.items, place, Arrival::NONE);
            let own = cost.wrapping_add(arrival.cost);
            if own < at(&self.costs, arrival.tail, 0) {
                put(&mut self.costs, arrival.tail, own);
                put(&mut self.firsts, arrival.tail, arrival.place);
                self.waiting.push(Reverse((own, arrival.tail)))?;
            }
        }
        Ok(())
    }
}
