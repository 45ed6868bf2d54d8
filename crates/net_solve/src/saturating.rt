//! Starting a phase.

ghost use Rattle.std.specs.Prelude.{◌≡◌, ◌≢◌, ℕ, ◌+◌, ◌*◌, ◌/◌, ◌^◌, ◌<◌, ◌≤◌, max, pos, length, vec_len, slice_index_or};
ghost use Rattle.net_normal.specs.Limits.{IsFlowArcOf};
ghost use Rattle.net_normal.specs.Flows.{IsWithinCapacity};
ghost use Rattle.net_solve.specs.Pseudoflows.{arc_at};
ghost use Rattle.net_solve.specs.Runs.{Begins, MayBegin, Saturates, factor, greatest_scaled, reduced};
ghost use Rattle.net_solve.specs.Machines.{AreDeep, IsCarried, IsRunning, IsConsistent, state_of};

use crate::carried::Carried;
use crate::rounding::reduced;
use crate::scaling::Machine;
use net_normal::{FlowArc, Problem};

/// Returns LOW if the reduced cost is positive, CAP if it is negative, else the arc's flow.
fn target_of(arc: &FlowArc, flow: &i64, cost: &i64) -> i64
    requires arc { (nodes : ℕ) × IsFlowArcOf nodes arc.now }
    requires within { IsWithinCapacity arc.now flow.now }
    ensures saturates { Saturates cost.now arc.now flow.now result }
    ensures within { IsWithinCapacity arc.now result }
{
    if *cost > 0 {
        arc.low
    } else if *cost < 0 {
        arc.cap
    } else {
        *flow
    }
}

/// Returns the tolerance for negative reduced costs in a phase.
fn epsilon_of(scale: u64, phase: u32) -> i64
    requires scale { scale < 2 ^ 55 }
    requires phase { phase < 64 }
    ensures { result ≡ pos (max 1 (scale / 2 ^ phase)) }
{
    (scale >> phase).max(1) as i64
}

impl Carried {
    /// Sets an arc to LOW if its reduced cost is positive, and to CAP if it is negative.
    fn saturate(&mut self, problem: &Problem, index: u32, potentials: &[i64])
        requires index { index < vec_len problem.now.arcs }
        requires carried { IsCarried problem.now self.old.flows.items self.old.excess.items }
        requires deep { AreDeep (vec_len problem.now.supplies) potentials.now }
        ensures carried { IsCarried problem.now self.new.flows.items self.new.excess.items }
        ensures here { Saturates (reduced (factor problem.now) potentials.now (arc_at problem.now index)) (arc_at problem.now index)
            (slice_index_or self.old.flows.items index (pos 0)) (slice_index_or self.new.flows.items index (pos 0)) }
        ensures others { (k : ℕ) → k ≢ index → slice_index_or self.new.flows.items k (pos 0) ≡ slice_index_or self.old.flows.items k (pos 0) }
    {
        let arc = problem.arcs[index as usize];
        let cost = reduced(&arc, potentials);
        let flow = self.flows[index as usize];
        let target = target_of(&arc, &flow, &cost);
        if target != flow {
            let amount = target - flow;
            self.shift(problem, index, &amount);
        }
    }

    /// Sets all arcs of positive reduced cost to LOW, and those of negative reduced cost to CAP.
    fn saturate_all(&mut self, problem: &Problem, potentials: &[i64])
        requires carried { IsCarried problem.now self.old.flows.items self.old.excess.items }
        requires deep { AreDeep (vec_len problem.now.supplies) potentials.now }
        ensures carried { IsCarried problem.now self.new.flows.items self.new.excess.items }
        ensures begins { Begins problem.now (record { flows = self.old.flows.items; potentials = potentials.now })
            (record { flows = self.new.flows.items; potentials = potentials.now }) }
    {
        for index in 0..problem.arcs.len() {
            self.saturate(problem, index as u32, potentials);
        }
    }
}

impl Machine {
    /// Starts a phase.
    pub fn begin(&mut self, problem: &Problem, scale: u64)
        requires scale { scale ≡ greatest_scaled problem.now }
        requires size { scale < 2 ^ 55 }
        requires standing { IsConsistent problem.now self.old }
        requires may { MayBegin problem.now self.old.phases (state_of self.old) }
        ensures running { IsRunning problem.now self.new }
        ensures phases { self.new.phases ≡ self.old.phases + 1 }
        ensures budget { self.new.budget ≡ self.old.budget }
    {
        self.carried.saturate_all(problem, &self.potentials);
        self.phases += 1;
        self.epsilon = epsilon_of(scale, self.phases);
    }
}
