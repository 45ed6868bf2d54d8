//! The initial tree of a network simplex.

use crate::by_node::ByNode;
use crate::cheapest_paths::{Arrival, CheapestPaths, NO_PLACE};
use crate::excess::LARGE;
use crate::guess::Halt;
use crate::prices::{NARROW_LIMIT, Prices};
use crate::simplex::Simplex;
use crate::tree::{NO_NODE, Residuals, Thread, Tree, TreeNode};
use crate::unchecked_lists::{at, index};
use net_normal::Problem;
use std::alloc::{AllocError, Global};

/// The capacity of an arc of the root. Numbers greater than half of it are not supported.
pub const ROOT_RESIDUAL: i64 = 1 << 61;

/// The maximum cost of an arc from the root.
const ROOT_COST_LIMIT: i64 = 1 << 58;

/// A number of arcs that shortest paths do not exceed in most problems.
const LONG_WAY: i64 = 2000;

/// Returns the maximum absolute value of a cost.
pub fn greatest_cost(problem: &Problem) -> i64 {
    let costs = problem.arcs.iter().map(|arc| arc.cost.wrapping_abs());
    costs.max().unwrap_or(0)
}

/// Returns the cost of a unit from the root: more than any path through the problem costs, unless
/// such a path is very long and its arcs are expensive.
pub fn root_cost(problem: &Problem) -> i64 {
    let past_all_costs = greatest_cost(problem).wrapping_add(1);
    let cost = past_all_costs.saturating_mul(problem.supplies.len() as i64);
    if past_all_costs.saturating_mul(LONG_WAY) <= NARROW_LIMIT {
        cost.min(NARROW_LIMIT)
    } else {
        cost.min(ROOT_COST_LIMIT)
    }
}

/// Returns the residual capacities of the arc between a node with this excess and the root.
fn root_rooms(excess: i64) -> Residuals {
    if excess >= 0 {
        Residuals {
            up: ROOT_RESIDUAL.wrapping_sub(excess),
            down: excess,
        }
    } else {
        Residuals {
            up: excess.wrapping_neg(),
            down: ROOT_RESIDUAL.wrapping_add(excess),
        }
    }
}

/// Returns the number of that arc, given the numbers of arcs and nodes: arcs to the root come
/// first, then those from it.
fn root_number(arcs: u32, nodes: u32, node: u32, excess: i64) -> u32 {
    if excess >= 0 {
        arcs.wrapping_add(node)
    } else {
        arcs.wrapping_add(nodes).wrapping_add(node)
    }
}

/// Builds the tree with each node below the root: its excess flows up, its deficit is supplied from
/// the root at this cost, which exceeds all others. Excess above `LARGE` is left out.
pub fn first_tree(
    alloc: Global,
    problem: &Problem,
    excess: &[i128],
    prices: &mut Prices,
    cost: i64,
) -> Result<Tree, Halt> {
    let root = index(excess.len());
    let mut tree = Tree::of_size(alloc, excess.len().saturating_add(1))?;
    for (place, excess) in excess.iter().enumerate() {
        let node = index(place);
        let bounded = (*excess).clamp(LARGE.wrapping_neg(), LARGE);
        let amount = i64::try_from(bounded).unwrap_or(0);
        let leaf = TreeNode {
            parent: root,
            size: 1,
            last: node,
            arc: root_number(index(problem.arcs.len()), root, node, amount),
        };
        prices.put_potential(node, if amount >= 0 { 0 } else { cost });
        tree.put_whole(node, leaf, root_rooms(amount), thread_at(node, root));
    }
    put_root(&mut tree, root);
    Ok(tree)
}

/// Returns a node's neighbors if all nodes are in order after the root.
fn thread_at(node: u32, root: u32) -> Thread {
    let previous = if node == 0 { root } else { node - 1 };
    let next = node.wrapping_add(1);
    Thread { next, previous }
}

/// Places the root, which has this number, above all nodes of the problem.
fn put_root(tree: &mut Tree, root: u32) {
    let last = root.wrapping_sub(1);
    let top = TreeNode {
        parent: NO_NODE,
        size: root.wrapping_add(1),
        last,
        arc: u32::MAX,
    };
    let thread = Thread {
        next: 0,
        previous: last,
    };
    tree.put_whole(root, top, Residuals::NONE, thread);
}

impl Simplex {
    /// Attaches nodes without excess below those with a deficit, each by its shortest path.
    pub fn hang_by_paths(&mut self, alloc: Global, excess: &[i128]) -> Result<(), Halt> {
        let ways = self.ways(alloc, excess)?;
        for node in &ways.order {
            self.hang(*node, ways.first(*node));
        }
        for node in ways.order.iter().rev() {
            if ways.first(*node) != NO_PLACE {
                self.tree.count_below_parent(*node);
            }
        }
        self.tree.end_at_last(index(excess.len()));
        Ok(())
    }

    /// Returns the shortest paths over arcs with residual capacity.
    fn ways(&self, alloc: Global, excess: &[i128]) -> Result<CheapestPaths, AllocError> {
        let count = self.numbers.len();
        let mut arrivals = ByNode::with_room(alloc, excess.len(), Arrival::NONE, count)?;
        for place in 0..index(count) {
            arrivals.count(self.prices.arc(place).dst);
        }
        arrivals.end_count();
        for place in 0..index(count) {
            let arc = self.prices.arc(place);
            let arrival = Arrival {
                tail: arc.src,
                place,
                cost: arc.cost.max(0),
            };
            arrivals.put(arc.dst, arrival);
        }
        let mut ways = CheapestPaths::new(alloc, excess.len(), arrivals)?;
        ways.find(excess)?;
        Ok(ways)
    }

    /// Attaches a leaf of the root by the arc with this index, without flow.
    fn hang(&mut self, node: u32, place: u32) {
        if place == NO_PLACE {
            return;
        }
        let arc = self.prices.arc(place);
        let rooms = Residuals {
            up: at(&self.rooms, place, 0),
            down: 0,
        };
        self.tree.hang_leaf(node, arc.dst, place, rooms);
        let potential = self.prices.potential(arc.dst).wrapping_sub(arc.cost);
        self.prices.put_potential(node, potential);
    }
}
