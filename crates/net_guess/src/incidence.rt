//! Adjacency lists: the arcs out of and into each node, with their residual capacities in both
//! directions.

use crate::by_node::ByNode;
use crate::unchecked_lists::{arc_at, at, index, put};
use net_normal::{FlowArc, Problem};
use std::alloc::{AllocError, Global};

/// An arc as seen from one of its ends.
#[derive(Clone, Copy)]
pub struct Incident {
    /// The other end.
    pub head: u32,
    /// The index of the residual capacity towards the other end; `back_of` is that of the opposite
    /// direction.
    pub place: u32,
}

impl Incident {
    const NONE: Incident = Incident { head: 0, place: 0 };
}

/// Returns the index of the residual capacity in the opposite direction.
#[inline]
pub fn back_of(place: u32) -> u32 {
    place ^ 1
}

/// The adjacency lists of all nodes; the arcs of a node are contiguous.
#[derive(Drop)]
pub struct Incidence {
    pub ends: ByNode<Incident>,
    /// The forward and the backward residual capacity of each arc of the problem.
    pub rooms: Vec<i64>,
}

impl Incidence {
    /// Builds the lists for a flow; if `is_by_cost`, each begins with the cheapest arcs. Fails only
    /// if memory runs out.
    pub fn new(
        alloc: Global,
        problem: &Problem,
        flows: &Vec<i64>,
        is_by_cost: bool,
    ) -> Result<Incidence, AllocError> {
        let count = problem.arcs.len().saturating_mul(2);
        let ends = ByNode::with_room(alloc, problem.supplies.len(), Incident::NONE, count)?;
        let rooms = vec![in alloc; 0i64; count]?;
        let mut incidence = Incidence { ends, rooms };
        incidence.put_rooms(problem, flows);
        for arc in &problem.arcs {
            incidence.ends.count(arc.src);
            incidence.ends.count(arc.dst);
        }
        incidence.ends.end_count();
        if is_by_cost {
            incidence.add_by_cost(alloc, problem)?;
        } else {
            incidence.add_in_order(problem);
        }
        Ok(incidence)
    }

    /// Adds the arcs of a problem, the last of each node first: forwards from the most expensive
    /// one, then backwards from the cheapest.
    fn add_by_cost(&mut self, alloc: Global, problem: &Problem) -> Result<(), AllocError> {
        let mut order = Vec::with_capacity(alloc, problem.arcs.len())?;
        for (number, arc) in problem.arcs.iter().enumerate() {
            order.push((arc.cost, index(number)))?;
        }
        order.sort()?;
        for (_, number) in order.iter().rev() {
            self.add_forwards(problem, *number);
        }
        for (_, number) in &order {
            self.add_backwards(problem, *number);
        }
        Ok(())
    }

    /// Adds the arcs of a problem, the last of each node first: forwards from the last one, then
    /// backwards from the first.
    fn add_in_order(&mut self, problem: &Problem) {
        let count = index(problem.arcs.len());
        for behind in 0..count {
            self.add_forwards(problem, count - 1 - behind);
        }
        for number in 0..count {
            self.add_backwards(problem, number);
        }
    }

    /// Adds the arc with this number at its tail.
    #[inline]
    fn add_forwards(&mut self, problem: &Problem, number: u32) {
        let FlowArc { src, dst, .. } = arc_at(problem, number);
        let place = number.wrapping_mul(2);
        self.ends.put(src, Incident { head: dst, place });
    }

    /// Adds the arc with this number at its head.
    #[inline]
    fn add_backwards(&mut self, problem: &Problem, number: u32) {
        let FlowArc { src, dst, .. } = arc_at(problem, number);
        let place = back_of(number.wrapping_mul(2));
        self.ends.put(dst, Incident { head: src, place });
    }

    /// Sets the residual capacities.
    fn put_rooms(&mut self, problem: &Problem, flows: &Vec<i64>) {
        for (number, arc) in problem.arcs.iter().enumerate() {
            let flow = at(flows, index(number), arc.low);
            let place = index(number).wrapping_mul(2);
            put(&mut self.rooms, place, arc.cap.wrapping_sub(flow));
            put(&mut self.rooms, back_of(place), flow.wrapping_sub(arc.low));
        }
    }

    /// Returns the arc at a position.
    #[inline]
    pub fn end(&self, place: u32) -> Incident {
        at(&self.ends.items, place, Incident::NONE)
    }

    /// Returns the residual capacity at an index.
    #[inline]
    pub fn room(&self, place: u32) -> i64 {
        at(&self.rooms, place, 0)
    }

    /// Sends flow over an arc, in the direction of this index.
    pub fn send(&mut self, place: u32, amount: i64) {
        let ahead = self.room(place);
        put(&mut self.rooms, place, ahead.wrapping_sub(amount));
        let back = self.room(back_of(place));
        put(&mut self.rooms, back_of(place), back.wrapping_add(amount));
    }

    /// Returns the flow on each arc of the problem. Fails only if memory runs out.
    pub fn flows(&self, alloc: Global, problem: &Problem) -> Result<Vec<i64>, AllocError> {
        let mut flows = Vec::with_capacity(alloc, problem.arcs.len())?;
        for (number, arc) in problem.arcs.iter().enumerate() {
            let back = back_of(index(number).wrapping_mul(2));
            flows.push(arc.low.wrapping_add(self.room(back)))?;
        }
        Ok(flows)
    }
}
