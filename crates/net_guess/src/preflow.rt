//! A maximum preflow towards the nodes with deficits (Goldberg, Tarjan 1988). It decides whether a problem has a feasible flow.

use crate::excess::Start;
use crate::guess::Halt;
use crate::incidence::{Incidence, Incident, back_of};
use crate::node_queue::NodeQueue;
use crate::unchecked_lists::{at, index, put};
use net_normal::Problem;
use std::alloc::{AllocError, Global};

/// The level of a node from which no deficit can be reached.
const NO_LEVEL: u32 = u32::MAX;

/// The number of no node.
const NO_NODE: u32 = u32::MAX;

/// How many arcs are inspected between two computations of all levels, for each node and arc.
const LEVEL_LOOKS: u64 = 4;

/// What a preflow shows.
#[derive(Clone, Copy)]
pub enum Feasibility {
    /// It is a flow that meets all supplies.
    Feasible,
    /// Excess is left that reaches no deficit.
    Infeasible,
    /// The work was used up first.
    Unknown,
}

/// A preflow: flow within its bounds that leaves some nodes with excess.
#[derive(Drop)]
pub struct Preflow {
    pub incidence: Incidence,
    excess: Vec<i128>,
    /// For each node, a lower bound on the number of residual arcs to the next deficit.
    levels: Vec<u32>,
    /// The arc of each node at which the search for a push continues.
    current: Vec<u32>,
    /// The first node with excess of each level, the next one after each node, and a level above which there is none.
    firsts: Vec<u32>,
    nexts: Vec<u32>,
    highest: u32,
    /// The nodes that a search has reached and not yet left.
    queue: NodeQueue,
    /// How many arcs and nodes were inspected, how many may be, and the count at which levels are computed next.
    pub work: u64,
    limit: u64,
    next_levels: u64,
}

impl Preflow {
    /// A preflow that starts with a flow within its bounds, and a limit on its work.
    pub fn new(
        alloc: Global,
        problem: &Problem,
        start: &Start,
        is_by_cost: bool,
        limit: u64,
    ) -> Result<Preflow, Halt> {
        let incidence = Incidence::new(alloc, problem, &start.flows, is_by_cost)?;
        let node_count = start.excess.len();
        let queue = NodeQueue::with_room(alloc, node_count)?;
        Ok(Preflow {
            incidence,
            excess: start.excess.iter().copied().collect(alloc)?,
            levels: vec![in alloc; NO_LEVEL; node_count]?,
            current: vec![in alloc; 0u32; node_count]?,
            firsts: vec![in alloc; NO_NODE; node_count]?,
            nexts: vec![in alloc; NO_NODE; node_count]?,
            highest: 0,
            queue,
            work: 0,
            limit,
            next_levels: 0,
        })
    }

    /// Pushes excess towards deficits until none can reach one.
    pub fn run(&mut self) -> Feasibility {
        self.set_levels();
        for _ in 0..self.limit {
            let Some(node) = self.pop_highest() else {
                return self.ended();
            };
            self.discharge(node);
            if self.work > self.limit {
                return Feasibility::Unknown;
            }
            if self.work > self.next_levels {
                self.set_levels();
            }
        }
        Feasibility::Unknown
    }

    /// What a preflow shows whose excess reaches no deficit.
    fn ended(&self) -> Feasibility {
        if self.excess.iter().any(|excess| *excess > 0) {
            Feasibility::Infeasible
        } else {
            Feasibility::Feasible
        }
    }

    /// The nodes that the first node with excess reaches. If none of them has a deficit, no more flow can leave them.
    pub fn reached(&mut self, alloc: Global) -> Result<Vec<bool>, AllocError> {
        let mut flags = vec![in alloc; false; self.excess.len()]?;
        if let Some(first) = self.excess.iter().position(|excess| *excess > 0) {
            put(&mut flags, index(first), true);
            self.queue.push(index(first));
        }
        for _ in 0..self.excess.len() {
            let Some(node) = self.queue.pop() else {
                break;
            };
            for place in self.incidence.ends.row(node) {
                let arc = self.incidence.end(place);
                if self.incidence.room(arc.place) > 0 && !at(&flags, arc.head, true) {
                    put(&mut flags, arc.head, true);
                    self.queue.push(arc.head);
                }
            }
        }
        Ok(flags)
    }

    fn excess(&self, node: u32) -> i128 {
        at(&self.excess, node, 0)
    }

    #[inline]
    fn level(&self, node: u32) -> u32 {
        at(&self.levels, node, NO_LEVEL)
    }

    /// Lets a node with excess that may reach a deficit wait at its level.
    fn wait(&mut self, node: u32) {
        let level = self.level(node);
        if level != NO_LEVEL {
            let next = at(&self.firsts, level, NO_NODE);
            put(&mut self.nexts, node, next);
            put(&mut self.firsts, level, node);
            self.highest = self.highest.max(level);
        }
    }

    /// Takes a waiting node of the highest level.
    fn pop_highest(&mut self) -> Option<u32> {
        for _ in 0..=self.highest {
            let node = at(&self.firsts, self.highest, NO_NODE);
            if node != NO_NODE {
                let next = at(&self.nexts, node, NO_NODE);
                put(&mut self.firsts, self.highest, next);
                return Some(node);
            }
            self.highest = self.highest.saturating_sub(1);
        }
        None
    }

    /// Computes the exact level of each node by a breadth-first search from the deficits.
    fn set_levels(&mut self) {
        self.highest = 0;
        for node in 0..index(self.levels.len()) {
            put(&mut self.firsts, node, NO_NODE);
            self.rewind(node);
            if self.excess(node) < 0 {
                put(&mut self.levels, node, 0);
                self.queue.push(node);
            } else {
                put(&mut self.levels, node, NO_LEVEL);
            }
        }
        for _ in 0..self.levels.len() {
            let Some(node) = self.queue.pop() else {
                break;
            };
            self.reach_back(node);
        }
        for node in 0..index(self.levels.len()) {
            if self.excess(node) > 0 {
                self.wait(node);
            }
        }
        let size = (self.levels.len() as u64).saturating_add(
            self.incidence.ends.items.len() as u64,
        );
        self.work = self.work.saturating_add(size);
        self.next_levels = self.work.saturating_add(size.saturating_mul(LEVEL_LOOKS));
    }

    /// Gives a level to the nodes without one from which a residual arc leads to this node.
    fn reach_back(&mut self, node: u32) {
        let level = self.level(node).saturating_add(1);
        for place in self.incidence.ends.row(node) {
            let arc = self.incidence.end(place);
            if self.level(arc.head) == NO_LEVEL && self.incidence.room(back_of(arc.place)) > 0 {
                put(&mut self.levels, arc.head, level);
                self.queue.push(arc.head);
            }
        }
    }

    /// Restarts the search for a push out of a node.
    fn rewind(&mut self, node: u32) {
        put(&mut self.current, node, self.incidence.ends.row(node).start);
    }

    /// Pushes a node's excess to lower levels and raises the node, until it has none or reaches no deficit.
    fn discharge(&mut self, node: u32) {
        for _ in 0..self.limit {
            if self.excess(node) <= 0 || self.level(node) == NO_LEVEL || self.work > self.limit {
                return;
            }
            match self.next_push(node) {
                Some(arc) => self.push(node, arc),
                None => self.raise(node),
            }
        }
    }

    /// The next residual arc from a node to one a level lower.
    fn next_push(&mut self, node: u32) -> Option<Incident> {
        let level = self.level(node);
        let row = self.incidence.ends.row(node);
        let from = at(&self.current, node, 0);
        let mut next = row.end;
        let mut found = None;
        for place in from..row.end {
            let arc = self.incidence.end(place);
            if self.level(arc.head) < level && self.incidence.room(arc.place) > 0 {
                next = place;
                found = Some(arc);
                break;
            }
        }
        let looked = u64::from(next.saturating_sub(from)).saturating_add(1);
        self.work = self.work.saturating_add(looked);
        put(&mut self.current, node, next);
        found
    }

    /// Pushes as much of a node's excess over an arc as its room takes.
    fn push(&mut self, node: u32, arc: Incident) {
        let excess = self.excess(node);
        let most = i64::try_from(excess).unwrap_or(i64::MAX);
        let amount = most.min(self.incidence.room(arc.place));
        self.incidence.send(arc.place, amount);
        put(
            &mut self.excess,
            node,
            excess.wrapping_sub(i128::from(amount)),
        );
        let before = self.excess(arc.head);
        let more = before.wrapping_add(i128::from(amount));
        put(&mut self.excess, arc.head, more);
        if before <= 0 && more > 0 {
            self.wait(arc.head);
        }
    }

    /// Raises a node to a level above the lowest one that a residual arc leads to.
    fn raise(&mut self, node: u32) {
        let mut lowest = NO_LEVEL;
        let row = self.incidence.ends.row(node);
        for place in row.start..row.end {
            let arc = self.incidence.end(place);
            if self.incidence.room(arc.place) > 0 {
                lowest = lowest.min(self.level(arc.head));
            }
        }
        let looked = u64::from(row.end.saturating_sub(row.start)).saturating_add(1);
        self.work = self.work.saturating_add(looked);
        let level = lowest.saturating_add(1);
        let is_far = level as usize >= self.levels.len();
        put(
            &mut self.levels,
            node,
            if is_far { NO_LEVEL } else { level },
        );
        self.rewind(node);
    }
}
