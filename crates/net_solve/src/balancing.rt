//! Augmentations until no node has excess.

ghost use Rattle.std.specs.Prelude.{◌≡◌, ℕ, ◌*◌, ◌<◌, ◌≤◌, pos, ◌<ℤ◌, ◌≤ℤ◌, All, IfOk, OnOk, IfSome, IfNone, length, vec_len, slice_index_or};
ghost use Rattle.net_normal.specs.Limits.{IsSized, cost_limit, flow_node_limit};
ghost use Rattle.net_check.specs.Certificates.{IsViolatedCut};
ghost use Rattle.net_check.specs.declared.certificate.Side.TheVariants.{Over};
ghost use Rattle.net_solve.specs.Pseudoflows.{AreFromTo, IsUnderWay};

use crate::gaps::closed;
use crate::pseudoflow::Pseudoflow;
use net_normal::Problem;
use std::alloc::{AllocError, Global};

/// Returns the first node with excess.
fn first_source(excess: &[i128]) -> Option<u32>
    requires { length excess.now ≤ flow_node_limit }
    ensures none { IfNone result ((v : ℕ) → v < length excess.now → slice_index_or excess.now v (pos 0) ≤ℤ pos 0) }
    ensures some { IfSome result (λ v. (v < length excess.now) × (pos 0 <ℤ slice_index_or excess.now v (pos 0))) }
{
    for (node, amount) in excess.iter().enumerate() {
        if *amount > 0 {
            return Some(node as u32);
        }
    }
    None
}

impl Pseudoflow {
    /// Shortens the gaps between potentials that exceed all costs. Fails only if memory runs out.
    pub fn close_gaps(
        &mut self,
        alloc: Global,
        problem: &Problem,
        most: u64,
    ) -> Result<(), AllocError>
        requires under_way { IsUnderWay problem.now self.old.flows.items self.old.potentials.items self.old.excess.items }
        requires most { most ≤ cost_limit }
        requires costs { All (λ arc. IsSized most arc.cost) problem.now.arcs.items }
        ensures under_way { IsUnderWay problem.now self.new.flows.items self.new.potentials.items self.new.excess.items }
        ensures same_excess { self.new.excess.items ≡ self.old.excess.items }
        ensures potentials { OnOk result (AreFromTo (vec_len problem.now.supplies * most) self.new.potentials.items) }
    {
        self.potentials = closed(alloc, &self.potentials, most)?;
        Ok(())
    }

    /// Sends flow from the nodes with excess until there are none. Returns a set of nodes that
    /// supplies more than can leave it, if there is one. Fails only if memory runs out.
    pub fn balance(
        &mut self,
        alloc: Global,
        problem: &Problem,
        most: u64,
    ) -> Result<Option<Vec<bool>>, AllocError>
        requires under_way { IsUnderWay problem.now self.old.flows.items self.old.potentials.items self.old.excess.items }
        requires most { most ≤ cost_limit }
        requires costs { All (λ arc. IsSized most arc.cost) problem.now.arcs.items }
        ensures under_way { IsUnderWay problem.now self.new.flows.items self.new.potentials.items self.new.excess.items }
        ensures sent { IfOk result (λ stuck. IfNone stuck ((v : ℕ) → v < vec_len problem.now.supplies
            → slice_index_or self.new.excess.items v (pos 0) ≤ℤ pos 0)) }
        ensures stuck { IfOk result (λ stuck. IfSome stuck (λ flags. IsViolatedCut problem.now flags.items Over)) }
    {
        'growths: while let Some(root) = first_source(&self.excess) {
            self.close_gaps(alloc, problem, most)?;
            let stuck = self.grow(alloc, problem, root)?;
            if stuck.is_some() {
                return Ok(stuck);
            }
        }
        Ok(None)
    }
}
