//! Building a forest from a node with excess, until it reaches a node with a deficit or a set that
//! no flow can leave.

ghost use Rattle.std.specs.Prelude.{◌≡◌, ◌<◌, pos, ◌<ℤ◌, IfOk, OnOk, IfSome, IfNone, vec_len, slice_index_or};
ghost use Rattle.std.specs.List.{AllZip};
ghost use Rattle.net_check.specs.Certificates.{IsViolatedCut};
ghost use Rattle.net_check.specs.declared.certificate.Side.TheVariants.{Over};
ghost use Rattle.net_solve.specs.Pseudoflows.{AreFromTo, IsUnderWay, IsClear, IsSlackArc, arc_at, too_much};
ghost use Rattle.net_solve.specs.Forests.{IsGrown, HasNoDeficit, JoinsOne, level_limit};

use crate::forest::{Forest, lower};
use crate::pseudoflow::Pseudoflow;
use crate::slack::{SlackArc, min_slack_arc};
use net_normal::Problem;
use std::alloc::{AllocError, Global};

impl Pseudoflow {
    /// Lowers the potentials of the forest until the reduced cost of its next residual arc is 0,
    /// and adds the node to which it leads. Fails only if memory runs out.
    fn extend(
        &mut self,
        problem: &Problem,
        forest: &mut Forest,
        way: SlackArc,
    ) -> Result<(), AllocError>
        requires under_way { IsUnderWay problem.now self.old.flows.items self.old.potentials.items self.old.excess.items }
        requires grown { IsGrown problem.now self.old.flows.items self.old.potentials.items self.old.excess.items forest.old.flags.items
            forest.old.joined.items forest.old.places.items }
        requires inside { way.index < vec_len problem.now.arcs }
        requires clear { AllZip (IsClear self.old.potentials.items forest.old.flags.items way.depth) problem.now.arcs.items self.old.flows.items }
        requires is { IsSlackArc self.old.potentials.items forest.old.flags.items way.depth (arc_at problem.now way.index)
            (slice_index_or self.old.flows.items way.index (pos 0)) }
        ensures under_way { IsUnderWay problem.now self.new.flows.items self.new.potentials.items self.new.excess.items }
        ensures same_excess { self.new.excess.items ≡ self.old.excess.items }
        ensures grown { OnOk result (IsGrown problem.now self.new.flows.items self.new.potentials.items self.new.excess.items forest.new.flags.items
            forest.new.joined.items forest.new.places.items) }
        ensures one { OnOk result (JoinsOne forest.old.flags.items forest.old.joined.items forest.new.flags.items forest.new.joined.items) }
    {
        lower(
            &problem.arcs,
            &self.flows,
            &mut self.potentials,
            &forest.flags,
            way.depth as i64,
        );
        let joined = forest.link(&problem.arcs[way.index as usize], way.index);
        forest.join(joined)?;
        Ok(())
    }

    /// Builds a forest from a node with excess. If it reaches a node with a deficit, sends flow
    /// there, which decreases the total excess. Otherwise returns a set of nodes that supplies more
    /// than can leave it. Fails only if memory runs out.
    pub fn grow(
        &mut self,
        alloc: Global,
        problem: &Problem,
        root: u32,
    ) -> Result<Option<Vec<bool>>, AllocError>
        requires under_way { IsUnderWay problem.now self.old.flows.items self.old.potentials.items self.old.excess.items }
        requires potentials { AreFromTo level_limit self.old.potentials.items }
        requires node { root < vec_len problem.now.supplies }
        requires root { pos 0 <ℤ slice_index_or self.old.excess.items root (pos 0) }
        ensures under_way { IsUnderWay problem.now self.new.flows.items self.new.potentials.items self.new.excess.items }
        ensures sent { IfOk result (λ stuck. IfNone stuck (too_much self.new.excess.items < too_much self.old.excess.items)) }
        ensures stuck { IfOk result (λ stuck. IfSome stuck (λ flags. IsViolatedCut problem.now flags.items Over)) }
    {
        let mut forest = Forest::new(alloc, problem.supplies.len(), root)?;
        'joins: loop {
            match min_slack_arc(&problem.arcs, &self.flows, &self.potentials, &forest.flags) {
                None => return Ok(Some(forest.flags)),
                Some(way) => self.extend(problem, &mut forest, way)?,
            }
            let place = forest.joined.len() - 1;
            if self.excess[forest.joined[place].node as usize] < 0 {
                self.pull(problem, &forest.joined, place as u32);
                return Ok(None);
            }
        }
    }
}
