//! A network as the model describes it, without names.

ghost use Rattle.std.specs.Prelude.{◌≡◌, ◌<◌, ◌≤◌, ◌≤ℤ◌, ◌↔◌, ◌||◌, All, IsTrue, IsSome, IfSome, is_some, vec_len};
ghost use Rattle.std.specs.Option.{ForSome};
ghost use Rattle.net_normal.specs.Limits.{IsSized, IsArcOf, IsNetworkWithinLimits, node_limit, arc_limit, value_limit, range_limit};

use crate::limits::{ARC_LIMIT, NODE_LIMIT, VALUE_LIMIT, is_sized};

/// The direction of optimization.
#[derive(Clone, Copy)]
pub enum Sense {
    /// `minimize Cost;`
    Minimise,
    /// `maximize Gain;`
    Maximise,
}

/// The net inflows that a node's condition allows, as `1 <= net_in <= 4`.
#[derive(Clone, Copy)]
pub struct NodeRange {
    /// The least net inflow, if limited.
    pub low: Option<i64>,
    /// The greatest net inflow, if limited.
    pub high: Option<i64>,
    pub ghost given: { IsTrue (is_some low || is_some high) },
    pub ghost low_fits: { ForSome low (IsSized range_limit) },
    pub ghost high_fits: { ForSome high (IsSized range_limit) },
    pub ghost ordered: { ForSome low (λ l. ForSome high (λ h. l ≤ℤ h)) },
}

/// An arc of a network. A node is an index into the instance's nodes.
#[derive(Clone, Copy)]
pub struct InstArc {
    /// The lower bound of the arc's value.
    pub lower: i64,
    /// The upper bound of the arc's value.
    pub upper: i64,
    /// The change of the objective for each unit.
    pub coefficient: i64,
    /// The node of `from`, if there is one.
    pub tail: Option<u32>,
    /// The node of `to`, if there is one.
    pub head: Option<u32>,
}

/// A network within the limits of a model: its nodes with their ranges, its arcs, and one
/// objective.
#[derive(Drop)]
pub struct Instance {
    /// The range of each node's net inflow.
    pub nodes: Vec<NodeRange>,
    /// The arcs, in the order of the model.
    pub arcs: Vec<InstArc>,
    /// The direction of optimization.
    pub sense: Sense,
    /// The constant term of the objective.
    pub constant: i64,
    pub ghost few_nodes: { vec_len nodes ≤ node_limit },
    pub ghost few_arcs: { vec_len arcs ≤ arc_limit },
    pub ghost arcs_fit: { All (IsArcOf (vec_len nodes)) arcs.items },
    pub ghost constant_fits: { IsSized value_limit constant },
}

impl Instance {
    /// Builds a network from nodes and arcs. Returns `None` if and only if a limit is exceeded.
    pub fn checked(
        nodes: Vec<NodeRange>,
        arcs: Vec<InstArc>,
        sense: Sense,
        constant: i64,
    ) -> Option<Instance>
        ensures some { IsSome result ↔ IsNetworkWithinLimits (vec_len nodes) arcs.items constant }
        ensures lists { IfSome result (λ made. (made.nodes ≡ nodes) × (made.arcs ≡ arcs)) }
        ensures objective { IfSome result (λ made. (made.sense ≡ sense) × (made.constant ≡ constant)) }
    {
        if nodes.len() > NODE_LIMIT || arcs.len() > ARC_LIMIT {
            return None;
        }
        if !is_sized(VALUE_LIMIT, &constant) || !are_arcs(&arcs, nodes.len()) {
            return None;
        }
        Some(Instance {
            nodes,
            arcs,
            sense,
            constant,
        })
    }
}

/// Returns whether each arc is valid in a network with this many nodes.
fn are_arcs(arcs: &[InstArc], nodes: usize) -> bool
    ensures { IsTrue result ↔ All (IsArcOf nodes) arcs.now }
{
    for arc in arcs {
        if !is_arc(arc, nodes) {
            return false;
        }
    }
    true
}

/// Returns whether an arc is valid in a network with this many nodes.
fn is_arc(arc: &InstArc, nodes: usize) -> bool
    ensures { IsTrue result ↔ IsArcOf nodes arc.now }
{
    if !is_sized(VALUE_LIMIT, &arc.lower) || !is_sized(VALUE_LIMIT, &arc.upper) {
        return false;
    }
    if !is_sized(VALUE_LIMIT, &arc.coefficient) || arc.lower > arc.upper {
        return false;
    }
    if !has_end(arc) || !is_among(&arc.tail, nodes) {
        return false;
    }
    is_among(&arc.head, nodes)
}

/// Returns whether an arc has a node at one end at least.
fn has_end(arc: &InstArc) -> bool
    ensures { result ≡ (is_some arc.now.tail || is_some arc.now.head) }
{
    arc.tail.is_some() || arc.head.is_some()
}

/// Returns whether an end is missing or an index below `nodes`.
fn is_among(end: &Option<u32>, nodes: usize) -> bool
    ensures { IsTrue result ↔ ForSome end.now (λ v. v < nodes) }
{
    match *end {
        Some(node) => (node as usize) < nodes,
        None => true,
    }
}
