//! The forest of an augmentation.

ghost use Rattle.std.specs.Prelude.{◌≡◌, ◌<◌, ◌≤◌, [], ◌∷◌, ◌++◌, true, false, IfOk, OnOk, vec_len};
ghost use Rattle.std.specs.Prelude.{slice_index_or, set, replicate, ℕ, ◌^◌, pos, ◌-ℤ◌, ◌≤ℤ◌, if◌then◌else◌, All, length};
ghost use Rattle.net_normal.specs.Limits.{IsFlowArcOf, flow_node_limit, IsSized};
ghost use Rattle.net_check.specs.Certificates.{is_in, IsComplementary};
ghost use Rattle.net_solve.specs.Forests.{tail_of, head_of};
ghost use Rattle.std.specs.List.{AllZip};
ghost use Rattle.net_solve.specs.Pseudoflows.{IsClear};

use net_normal::FlowArc;
use std::alloc::{AllocError, Global};

/// A node of the forest; the nodes are in the order of joining.
#[derive(Clone, Copy)]
pub struct Joined {
    /// The node.
    pub node: u32,
    /// The position of the node from which it was reached, or its own position if it is a root.
    pub parent: u32,
    /// The arc over which it was reached.
    pub index: u32,
    /// Whether that arc leads to it (otherwise it leads from it).
    pub forwards: bool,
}

/// The nodes reached by an augmentation over residual arcs of reduced cost 0.
#[derive(Drop)]
pub struct Forest {
    /// For each node, whether it is in the forest.
    pub flags: Vec<bool>,
    /// The nodes of the forest.
    pub joined: Vec<Joined>,
    /// For each node of the forest, its position in `joined`.
    pub places: Vec<u32>,
}

impl Forest {
    /// Creates a forest with one node. Fails only if memory runs out.
    pub fn new(alloc: Global, nodes: usize, root: u32) -> Result<Forest, AllocError>
        requires { root < nodes }
        ensures flags { IfOk result (λ forest. forest.flags.items ≡ set (replicate nodes false) root true) }
        ensures joined { IfOk result (λ forest. forest.joined.items ≡ (record { node = root; parent = 0; index = 0; forwards = false }) ∷ []) }
        ensures places { IfOk result (λ forest. forest.places.items ≡ replicate nodes 0) }
    {
        let mut flags = vec![in alloc; false; nodes]?;
        flags[root as usize] = true;
        let mut joined = Vec::new(alloc);
        joined.push(Joined {
            node: root,
            parent: 0,
            index: 0,
            forwards: false,
        })?;
        Ok(Forest {
            flags,
            joined,
            places: vec![in alloc; 0; nodes]?,
        })
    }

    /// Returns the entry for a node that is reached over this arc from a node of the forest.
    pub fn link(&self, arc: &FlowArc, index: u32) -> Joined
        requires arc { IsFlowArcOf (vec_len self.now.flags) arc.now }
        requires places { vec_len self.now.places ≡ vec_len self.now.flags }
        ensures index { result.index ≡ index }
        ensures forwards { result.forwards ≡ is_in self.now.flags.items arc.now.src }
        ensures node { head_of result arc.now ≡ result.node }
        ensures parent { result.parent ≡ slice_index_or self.now.places.items (tail_of result arc.now) 0 }
    {
        let forwards = self.flags[arc.src as usize];
        let (tail, node) = if forwards {
            (arc.src, arc.dst)
        } else {
            (arc.dst, arc.src)
        };
        Joined {
            node,
            parent: self.places[tail as usize],
            index,
            forwards,
        }
    }

    /// Adds a node. Fails only if memory runs out.
    pub fn join(&mut self, joined: Joined) -> Result<(), AllocError>
        requires node { joined.node < vec_len self.old.flags }
        requires places { vec_len self.old.places ≡ vec_len self.old.flags }
        requires few { vec_len self.old.joined ≤ flow_node_limit }
        ensures joined { OnOk result (self.new.joined.items ≡ self.old.joined.items ++ joined ∷ []) }
        ensures flags { OnOk result (self.new.flags.items ≡ set self.old.flags.items joined.node true) }
        ensures places { OnOk result (self.new.places.items ≡ set self.old.places.items joined.node (vec_len self.old.joined)) }
    {
        let place = self.joined.len() as u32;
        self.joined.push(joined)?;
        self.flags[joined.node as usize] = true;
        self.places[joined.node as usize] = place;
        Ok(())
    }
}

/// Lowers the potentials of the nodes of a set.
pub fn lower_each(potentials: &mut Vec<i64>, flags: &[bool], amount: i64)
    requires flags { length flags.now ≡ vec_len potentials.old }
    requires sizes { (v : ℕ) → v < vec_len potentials.old → IsSized (10 ^ 18) (slice_index_or potentials.old.items v (pos 0)) }
    requires amount { IsSized (10 ^ 18) amount }
    ensures len { vec_len potentials.new ≡ vec_len potentials.old }
    ensures value { (v : ℕ) → v < vec_len potentials.old → slice_index_or potentials.new.items v (pos 0)
        ≡ slice_index_or potentials.old.items v (pos 0) -ℤ (if is_in flags.now v then amount else pos 0) }
{
    for node in 0..potentials.len() {
        if flags[node] {
            potentials[node] -= amount;
        }
    }
}

/// Lowers the potentials of a set by at most the least reduced cost of a residual arc out of it, so
/// flows stay complementary.
pub fn lower(
    arcs: &[FlowArc],
    flows: &[i64],
    potentials: &mut Vec<i64>,
    flags: &[bool],
    amount: i64,
)
    requires arcs { All (IsFlowArcOf (vec_len potentials.old)) arcs.now }
    requires flags { length flags.now ≡ vec_len potentials.old }
    requires sizes { (v : ℕ) → v < vec_len potentials.old → IsSized (10 ^ 18) (slice_index_or potentials.old.items v (pos 0)) }
    requires amount { IsSized (10 ^ 18) amount }
    requires positive { pos 0 ≤ℤ amount }
    requires slackness { AllZip (IsComplementary potentials.old.items) arcs.now flows.now }
    requires clear { AllZip (IsClear potentials.old.items flags.now amount) arcs.now flows.now }
    ensures len { vec_len potentials.new ≡ vec_len potentials.old }
    ensures value { (v : ℕ) → v < vec_len potentials.old → slice_index_or potentials.new.items v (pos 0)
        ≡ slice_index_or potentials.old.items v (pos 0) -ℤ (if is_in flags.now v then amount else pos 0) }
    ensures slackness { AllZip (IsComplementary potentials.new.items) arcs.now flows.now }
{
    lower_each(potentials, flags, amount);
}
