//! A minimum-cost flow problem, as defined by the First DIMACS Implementation Challenge.

ghost use Rattle.std.specs.Prelude.{◌≡◌, ◌≤◌, ◌↔◌, All, IsTrue, IsSome, IfSome, length, vec_len};
ghost use Rattle.net_normal.specs.Limits.{IsSized, IsFlowArcOf, IsWithinLimits, flow_node_limit};
ghost use Rattle.net_normal.specs.Limits.{flow_arc_limit, flow_limit, value_limit, constant_limit, total_cost_limit};
ghost use Rattle.net_normal.specs.Numbers.{CountUp};

use crate::instance::Sense;
use crate::limits::{COST_LIMIT, FLOW_ARC_LIMIT, FLOW_LIMIT, FLOW_NODE_LIMIT, is_sized};

/// An arc of a problem.
#[derive(Clone, Copy, Debug, PartialEq, Eq)]
pub struct FlowArc {
    /// The tail, an index into the problem's supplies.
    pub src: u32,
    /// The head, an index into the problem's supplies.
    pub dst: u32,
    /// The least flow.
    pub low: i64,
    /// The greatest flow.
    pub cap: i64,
    /// The cost of each unit of flow.
    pub cost: i64,
}

/// A minimum-cost flow problem within the limits of the DIMACS files.
///
/// A node is an index into `supplies`, counted from 0; in a DIMACS file it is counted from 1.
/// Parallel arcs and loops are allowed, and supplies need not sum to 0.
#[derive(Drop)]
pub struct Problem {
    /// The supply of each node; a negative one is a demand.
    pub supplies: Vec<i64>,
    /// The arcs, in the order of their numbers.
    pub arcs: Vec<FlowArc>,
    pub ghost some_node: { 1 ≤ vec_len supplies },
    pub ghost few_nodes: { vec_len supplies ≤ flow_node_limit },
    pub ghost few_arcs: { vec_len arcs ≤ flow_arc_limit },
    pub ghost supplies_fit: { All (IsSized flow_limit) supplies.items },
    pub ghost arcs_fit: { All (IsFlowArcOf (vec_len supplies)) arcs.items },
}

impl Problem {
    /// Builds a problem from supplies and arcs. Returns `None` if and only if a limit is exceeded.
    pub fn checked(supplies: Vec<i64>, arcs: Vec<FlowArc>) -> Option<Problem>
        ensures some { IsSome result ↔ IsWithinLimits supplies.items arcs.items }
        ensures value { IfSome result (λ problem. (problem.supplies ≡ supplies) × (problem.arcs ≡ arcs)) }
    {
        if supplies.is_empty() || supplies.len() > FLOW_NODE_LIMIT || arcs.len() > FLOW_ARC_LIMIT {
            return None;
        }
        if !are_supplies(&supplies) || !are_arcs(&arcs, supplies.len()) {
            return None;
        }
        Some(Problem { supplies, arcs })
    }
}

/// Returns whether each number is valid as a supply.
fn are_supplies(numbers: &[i64]) -> bool
    ensures { IsTrue result ↔ All (IsSized flow_limit) numbers.now }
{
    for number in numbers {
        if !is_sized(FLOW_LIMIT, number) {
            return false;
        }
    }
    true
}

/// Returns whether each arc is valid in a problem with this many nodes.
fn are_arcs(arcs: &[FlowArc], nodes: usize) -> bool
    ensures { IsTrue result ↔ All (IsFlowArcOf nodes) arcs.now }
{
    for arc in arcs {
        if !is_arc(arc, nodes) {
            return false;
        }
    }
    true
}

/// Returns whether an arc is valid in a problem with this many nodes.
fn is_arc(arc: &FlowArc, nodes: usize) -> bool
    ensures { IsTrue result ↔ IsFlowArcOf nodes arc.now }
{
    if arc.src as usize >= nodes || arc.dst as usize >= nodes {
        return false;
    }
    if arc.low < 0 || arc.low > arc.cap || arc.cap > FLOW_LIMIT {
        return false;
    }
    is_sized(COST_LIMIT, &arc.cost)
}

/// The map from a flow to an assignment, and from its cost to the objective value.
#[derive(Drop)]
pub struct Link {
    /// For each arc of the network, the number of its arc in the problem, counted from 1, or 0 if
    /// it has none. The nonzero numbers are 1, 2, 3, ..., in arc order, without gaps.
    pub numbers: Vec<u32>,
    /// For each arc of the network, the difference between its value in the assignment and its
    /// flow. An arc that the problem omits has no flow: its offset is its value.
    pub offsets: Vec<i64>,
    /// The objective value of an assignment whose flow has cost 0.
    pub constant: i128,
    /// The direction of optimization.
    pub sense: Sense,
    pub ghost paired: { vec_len numbers ≡ vec_len offsets },
    pub ghost numbered: { CountUp numbers.items },
    pub ghost offsets_fit: { All (IsSized value_limit) offsets.items },
    pub ghost constant_fits: { IsSized constant_limit constant },
}

impl Link {
    ghost use Rattle.net_normal.specs.Links.{value_at};

    /// Returns the objective value of an assignment whose flow has this cost: the constant plus the
    /// cost, or minus the cost if the sense is to maximize.
    pub fn value(&self, cost: i128) -> i128
        requires { IsSized total_cost_limit cost }
        ensures { result ≡ value_at self.now cost }
    {
        match self.sense {
            Sense::Minimise => self.constant + cost,
            Sense::Maximise => self.constant - cost,
        }
    }
}
