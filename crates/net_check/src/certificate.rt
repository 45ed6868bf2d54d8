//! What settles a problem: a flow with potentials, or a set of nodes.

/// The direction in which the supply of a set of nodes is infeasible.
#[derive(Clone, Copy, Debug, PartialEq, Eq)]
pub enum Side {
    /// The set supplies more than its arcs can carry out of it.
    Over,
    /// The set supplies less than its arcs must carry out of it.
    Under,
}

/// A claimed solution of a problem, which `check` accepts or rejects.
///
/// Flows are indexed like the problem's arcs, potentials and flags like its nodes, all from 0.
#[derive(Drop)]
pub enum Certificate {
    /// A flow of minimum cost, and potentials that prove it.
    Optimal {
        /// The cost of the flow.
        value: i128,
        /// The flow of each arc.
        flows: Vec<i64>,
        /// The potential of each node.
        potentials: Vec<i64>,
    },
    /// A set of nodes that proves that no feasible flow exists.
    Cut {
        /// For each node, whether it is in the set.
        flags: Vec<bool>,
        /// The direction in which the set's supply is infeasible.
        side: Side,
    },
}
