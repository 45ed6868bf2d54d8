//! The excess or deficit of each node.

use crate::unchecked_lists::{add_at, arc_at, at, index, put};
use net_normal::{FlowArc, Problem};
use std::alloc::{AllocError, Global};

/// Returns the flow with each arc at its lower bound.
pub fn lows_of(alloc: Global, problem: &Problem) -> Result<Vec<i64>, AllocError> {
    problem.arcs.iter().map(|arc| arc.low).collect(alloc)
}

/// Returns each node's supply minus its net outflow; a negative excess is a deficit.
fn excess_of(alloc: Global, problem: &Problem, flows: &Vec<i64>) -> Result<Vec<i128>, AllocError> {
    let supplies = problem.supplies.iter();
    let mut excess: Vec<i128> = supplies.map(|supply| i128::from(*supply)).collect(alloc)?;
    for (arc, flow) in problem.arcs.iter().zip(flows) {
        if *flow != 0 {
            let flow = i128::from(*flow);
            add_at(&mut excess, arc.src, flow.wrapping_neg());
            add_at(&mut excess, arc.dst, flow);
        }
    }
    Ok(excess)
}

/// The greatest capacity above LOW with which an arc of negative cost starts full if no node has excess.
const FULL_ROOM: i64 = 1 << 40;

/// The most excess that a network simplex takes on at a node; its numbers leave room for one more arc.
pub const LARGE: i128 = 1 << 60;

/// How often all arcs are tried to bring nodes below that.
const RELIEF_PASSES: u32 = 64;

/// The flow with which a network simplex starts, and the excess of each node there.
#[derive(Drop)]
pub struct Start {
    pub flows: Vec<i64>,
    pub excess: Vec<i128>,
}

impl Start {
    /// Starts with a flow. Fails only if memory runs out.
    pub fn new(alloc: Global, problem: &Problem, flows: Vec<i64>) -> Result<Start, AllocError> {
        let excess = excess_of(alloc, problem, &flows)?;
        Ok(Start { flows, excess })
    }

    /// Chooses the bounds at which arcs start. Most arcs of negative cost start full, as most of
    /// them stay full, and so do arcs that relieve a node of large excess or deficit.
    pub fn choose_bounds(&mut self, problem: &Problem) {
        self.fill_saving(problem);
        self.relieve(problem);
    }

    /// Fills the arcs of negative cost, unless one carries more than all nodes together have too much of.
    fn fill_saving(&mut self, problem: &Problem) {
        let limit = full_limit(&self.excess);
        for number in 0..index(problem.arcs.len()) {
            let arc = arc_at(problem, number);
            if arc.cost < 0 && arc.cap.wrapping_sub(arc.low) <= limit {
                self.fill(number, &arc);
            }
        }
    }

    /// Moves an arc from its lower bound to its capacity.
    fn fill(&mut self, number: u32, arc: &FlowArc) {
        let room = i128::from(arc.cap.wrapping_sub(arc.low));
        put(&mut self.flows, number, arc.cap);
        add_at(&mut self.excess, arc.src, room.wrapping_neg());
        add_at(&mut self.excess, arc.dst, room);
    }

    /// Fills arcs out of nodes with large excess and into nodes with large deficits, as long as there are such nodes.
    fn relieve(&mut self, problem: &Problem) {
        for _ in 0..RELIEF_PASSES {
            if !self.excess.iter().any(|amount| is_large(*amount)) {
                return;
            }
            for number in 0..index(problem.arcs.len()) {
                let arc = arc_at(problem, number);
                let has_much = at(&self.excess, arc.src, 0) > LARGE;
                let lacks_much = at(&self.excess, arc.dst, 0) < LARGE.wrapping_neg();
                if (has_much || lacks_much) && at(&self.flows, number, arc.cap) != arc.cap {
                    self.fill(number, &arc);
                }
            }
        }
    }
}

/// Returns whether a node's excess or deficit is large.
pub fn is_large(amount: i128) -> bool {
    amount > LARGE || amount < LARGE.wrapping_neg()
}

/// The most that an arc of negative cost may carry above LOW to start full: what all nodes have too much of. More than that hardly flows
/// over one arc.
fn full_limit(excess: &[i128]) -> i64 {
    let amounts = excess.iter().map(|amount| (*amount).max(0));
    let total = amounts.fold(0i128, |sum, amount| sum.wrapping_add(amount));
    if total == 0 {
        return FULL_ROOM;
    }
    i64::try_from(total).unwrap_or(FULL_ROOM).min(FULL_ROOM)
}
