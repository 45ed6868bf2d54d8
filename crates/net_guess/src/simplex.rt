//! A network simplex, as a heuristic: callers check its result.
//!
//! A spanning tree contains the arcs whose flow is not at a bound; potentials make their reduced
//! costs 0. An arc with a favorable reduced cost enters, and the first arc of its cycle to run out
//! of residual capacity leaves. Among several such arcs, the last one around the cycle from its
//! join leaves, so that no basis repeats (Cunningham 1976; Ahuja, Magnanti, Orlin: Network Flows,
//! chapter 11).

use crate::block::Block;
use crate::cheapest_paths::NO_PLACE;
use crate::excess::{Start, is_large, lows_of};
use crate::guess::Halt;
use crate::prices::Prices;
use crate::simplex_arc::{PricedArc, put_priced_order};
use crate::starting::{first_tree, root_cost};
use crate::tree::Tree;
use crate::unchecked_lists::{arc_at, at, index, put};
use net_normal::Problem;
use std::alloc::{AllocError, Global};

/// The state of a network simplex.
#[derive(Drop)]
pub struct Simplex {
    /// The index in the problem of each arc, in pricing order.
    pub numbers: Vec<u32>,
    /// The arcs in that order, and the potentials of the nodes.
    pub prices: Prices,
    /// The residual capacity of each arc, in the same order.
    pub rooms: Vec<i64>,
    pub tree: Tree,
    /// The start of the next block of arcs.
    pub next: usize,
    /// The number of arcs in a block.
    pub block: Block,
    /// The number of arcs that the last search priced.
    pub looked: u64,
    /// The number of arcs and nodes examined.
    pub work: u64,
    /// Scratch space.
    pub turned: Vec<u32>,
    /// Whether excess is missing in the tree, because it was too large or its arc to the root left.
    pub is_short: bool,
}

impl Simplex {
    /// Creates a simplex before its first pivot, with the arcs at the bounds of `Start`. Each node
    /// with excess hangs below the root; the others are attached by the cheapest arcs or paths to
    /// nodes with a deficit.
    pub fn new(alloc: Global, problem: &Problem, start: &Start) -> Result<Simplex, Halt> {
        let is_bipartite = is_bipartite(alloc, problem)?;
        let mut simplex = Simplex::at_root(alloc, problem, start, is_bipartite)?;
        if is_bipartite {
            simplex.enter_cheapest(alloc, &start.excess)?;
        } else {
            simplex.hang_by_paths(alloc, &start.excess)?;
        }
        Ok(simplex)
    }

    /// Creates a simplex whose tree holds the arcs of a feasible flow that are not at a bound; the
    /// cycles that they close are cancelled. Starts with these potentials.
    pub fn from_flow(
        alloc: Global,
        problem: &Problem,
        start: &Start,
        potentials: &Vec<i64>,
    ) -> Result<Simplex, Halt> {
        let mut simplex = Simplex::at_root(alloc, problem, start, false)?;
        for (node, potential) in potentials.iter().enumerate() {
            simplex.prices.put_potential(index(node), *potential);
        }
        for place in 0..index(problem.arcs.len()) {
            let number = at(&simplex.numbers, place, NO_PLACE);
            let arc = arc_at(problem, number);
            let flow = at(&start.flows, number, arc.low);
            if flow != arc.low && flow != arc.cap {
                simplex.enter_between(place, flow.wrapping_sub(arc.low))?;
            }
        }
        Ok(simplex)
    }

    /// Lets an arc between its bounds enter, in the direction that saves.
    fn enter_between(&mut self, place: u32, sent: i64) -> Result<(), Halt> {
        if self.prices.price(place) > 0 {
            let room = at(&self.rooms, place, 0).wrapping_sub(sent);
            self.prices.put_arc(place, self.prices.arc(place).turned());
            self.enter(place, room)
        } else {
            self.enter(place, sent)
        }
    }

    /// Creates a simplex with each node below the root.
    fn at_root(
        alloc: Global,
        problem: &Problem,
        start: &Start,
        is_bipartite: bool,
    ) -> Result<Simplex, Halt> {
        let cost = root_cost(problem);
        let nodes = start.excess.len().saturating_add(1);
        let mut prices = Prices::with_room(alloc, cost, nodes, problem.arcs.len())?;
        let tree = first_tree(alloc, problem, &start.excess, &mut prices, cost)?;
        let mut simplex = Simplex {
            numbers: Vec::new(alloc),
            prices,
            rooms: Vec::new(alloc),
            tree,
            next: 0,
            block: Block::new(problem.arcs.len(), is_bipartite),
            looked: 0,
            work: 0,
            turned: Vec::new(alloc),
            is_short: start.excess.iter().any(|amount| is_large(*amount)),
        };
        simplex.take_arcs(alloc, problem, start)?;
        Ok(simplex)
    }

    /// Stores the arcs of a problem, each at its initial bound. Arcs without capacity are omitted,
    /// since they are never eligible.
    fn take_arcs(&mut self, alloc: Global, problem: &Problem, start: &Start) -> Result<(), Halt> {
        let count = problem.arcs.len();
        self.numbers = vec![in alloc; NO_PLACE; count]?;
        self.rooms.reserve(count)?;
        put_priced_order(&mut self.numbers, problem.supplies.len());
        for number in &self.numbers {
            let arc = arc_at(problem, *number);
            let room = arc.cap.wrapping_sub(arc.low);
            let ahead = PricedArc::of(&arc);
            let flow = at(&start.flows, *number, arc.low);
            self.prices.push_arc(if room == 0 {
                PricedArc::NONE
            } else if flow == arc.cap {
                ahead.turned()
            } else {
                ahead
            })?;
            self.rooms.push(room)?;
        }
        Ok(())
    }

    /// Returns the cheapest arc into each node with a deficit.
    fn cheapest(&self, alloc: Global, excess: &[i128]) -> Result<Vec<u32>, Halt> {
        let mut best = vec![in alloc; NO_PLACE; excess.len()]?;
        for place in 0..index(self.numbers.len()) {
            let arc = self.prices.arc(place);
            if excess
                .get(arc.dst as usize)
                .is_some_and(|amount| *amount < 0)
            {
                let other = at(&best, arc.dst, NO_PLACE);
                if other == NO_PLACE || arc.cost < self.prices.arc(other).cost {
                    put(&mut best, arc.dst, place);
                }
            }
        }
        Ok(best)
    }

    /// Lets the cheapest arc into each node with a deficit enter, if its reduced cost is negative.
    fn enter_cheapest(&mut self, alloc: Global, excess: &[i128]) -> Result<(), Halt> {
        let cheapest = self.cheapest(alloc, excess)?;
        for place in &cheapest {
            if self.prices.price(*place) < 0 {
                self.enter(*place, 0)?;
            }
        }
        Ok(())
    }

    /// Changes the tree until no arc's price is negative, or until there was so much work. Returns whether it came to the end.
    pub fn run(&mut self, limit: u64) -> Result<bool, Halt> {
        for _ in 0..limit {
            match self.entering_arc()? {
                Some(place) => self.enter(place, 0)?,
                None => return Ok(true),
            }
            if self.work > limit {
                return Ok(false);
            }
        }
        Ok(false)
    }

    /// Returns the flow left on arcs of the root: the excess and the deficits that are not met.
    pub fn excess(&self) -> u128 {
        let mut total = 0u128;
        for node in 0..index(self.tree.nodes.len()) {
            let number = self.tree.node(node).arc;
            if number as usize >= self.numbers.len() {
                let flow = self.root_flow(node, number).unsigned_abs();
                total = total.wrapping_add(u128::from(flow));
            }
        }
        total
    }

    /// Returns whether excess is left.
    pub fn has_excess(&self) -> bool {
        self.is_short || self.excess() != 0
    }

    /// Returns the flow over a node's arc to or from the root with this number: arcs from the root
    /// have the greater numbers.
    pub fn root_flow(&self, node: u32, number: u32) -> i64 {
        let first_down = self.numbers.len().saturating_add(self.tree.nodes.len());
        let rooms = self.tree.rooms(node);
        if (number as usize).saturating_add(1) < first_down {
            rooms.down
        } else {
            rooms.up
        }
    }

    /// Returns the flow on each arc of the problem. Fails only if memory runs out.
    pub fn flows(&self, alloc: Global, problem: &Problem) -> Result<Vec<i64>, AllocError> {
        let mut flows = lows_of(alloc, problem)?;
        self.add_bounds(problem, &mut flows);
        self.add_tree(problem, &mut flows);
        Ok(flows)
    }

    /// Sets reversed arcs to CAP; arcs without capacity are there anyway.
    fn add_bounds(&self, problem: &Problem, flows: &mut Vec<i64>) {
        for (place, number) in self.numbers.iter().enumerate() {
            let arc = arc_at(problem, *number);
            if !self.prices.arc(index(place)).is_ahead(&arc) {
                put(flows, *number, arc.cap);
            }
        }
    }

    /// Sets the flow on the arcs of the tree.
    fn add_tree(&self, problem: &Problem, flows: &mut Vec<i64>) {
        for (place, node) in self.tree.nodes.iter().enumerate() {
            if let Some(number) = self.numbers.get(node.arc as usize) {
                let arc = arc_at(problem, *number);
                let rooms = self.tree.rooms(index(place));
                let is_up = arc.src == index(place);
                let more = if is_up { rooms.down } else { rooms.up };
                put(flows, *number, arc.low.wrapping_add(more));
            }
        }
    }

    /// Returns the potential of each node of the problem. Fails only if memory runs out.
    pub fn potentials(&self, alloc: Global, problem: &Problem) -> Result<Vec<i64>, AllocError> {
        let nodes = 0..index(problem.supplies.len());
        nodes.map(|node| self.prices.potential(node)).collect(alloc)
    }
}

/// Returns whether no node has arcs both in and out. Fails only if memory runs out.
fn is_bipartite(alloc: Global, problem: &Problem) -> Result<bool, AllocError> {
    let mut leaves = vec![in alloc; false; problem.supplies.len()]?;
    for arc in &problem.arcs {
        put(&mut leaves, arc.src, true);
    }
    Ok(!problem.arcs.iter().any(|arc| at(&leaves, arc.dst, false)))
}

impl Simplex {
    /// Returns the arc with the most negative reduced cost in the first block with an eligible arc,
    /// starting at the end of the last search.
    pub fn entering_arc(&mut self) -> Result<Option<u32>, Halt> {
        let count = self.numbers.len();
        let mut left = count;
        self.looked = 0;
        for turn in 0..=count {
            let from = self.next.min(count);
            let to = from
                .saturating_add(self.block.length().min(left))
                .min(count);
            let looked = to.saturating_sub(from);
            let found = self.prices.cheapest_between(from, to)?;
            self.work = self.work.wrapping_add(looked as u64);
            self.looked = self.looked.wrapping_add(looked as u64);
            left = left.saturating_sub(looked);
            self.next = if to == count { 0 } else { to };
            if found.is_none() {
                self.block.shrink();
            } else if turn == 0 {
                self.block.grow();
            }
            if found.is_some() || left == 0 {
                return Ok(found);
            }
        }
        Err(Halt::OutOfRange)
    }
}
