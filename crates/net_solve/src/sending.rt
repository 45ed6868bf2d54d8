//! Sending flow over one arc of reduced cost 0, to a node with a deficit.

ghost use Rattle.std.specs.Prelude.{◌≡◌, ℕ, ◌<◌, ◌^◌, pos, ◌+ℤ◌, ◌<ℤ◌, ◌≤ℤ◌, vec_len, slice_index_or, if◌then◌else◌, length};
ghost use Rattle.net_normal.specs.Flows.{IsWithinCapacity};
ghost use Rattle.net_normal.specs.Limits.{IsSized, IsFlowArcOf};
ghost use Rattle.net_normal.specs.declared.problem.FlowArc.{FlowArc};
ghost use Rattle.net_check.specs.Certificates.{reduced_cost};
ghost use Rattle.net_solve.specs.Pseudoflows.{IsUnderWay, Moves, arc_at, too_much};
ghost use Rattle.net_solve.specs.Forests.{Others, tail_of, head_of, residual_of, signed, IsForest, joined_at};

use crate::forest::Joined;
use crate::pseudoflow::Pseudoflow;
use net_normal::{FlowArc, Problem};

/// Returns the amount to send to a node with this deficit, at most the residual capacity.
fn amount_of(room: i64, excess: &i128) -> i64
    requires room { pos 0 <ℤ room }
    requires deficit { excess.now <ℤ pos 0 }
    requires size { IsSized (10 ^ 25) excess.now }
    ensures positive { pos 0 <ℤ result }
    ensures within { result ≤ℤ room }
    ensures wanted { (excess.now +ℤ result) ≤ℤ pos 0 }
{
    let wanted = -*excess;
    if wanted < i128::from(room) {
        wanted as i64
    } else {
        room
    }
}

impl Joined {
    /// Returns the residual capacity of the arc towards the node.
    fn room(&self, arc: &FlowArc, flow: &i64) -> i64
        requires { (nodes : ℕ) × IsFlowArcOf nodes arc.now × IsWithinCapacity arc.now flow.now }
        ensures { result ≡ residual_of self.now arc.now flow.now }
    {
        if self.forwards {
            arc.cap - *flow
        } else {
            *flow - arc.low
        }
    }

    /// Returns the change of the arc's flow if this amount is sent towards the node.
    fn ahead(&self, amount: i64) -> i64
        requires { pos 0 <ℤ amount }
        ensures { result ≡ signed self.now amount }
    {
        if self.forwards { amount } else { -amount }
    }
}

impl Pseudoflow {
    /// Sends flow to a node with a deficit, over the arc by which it was reached; returns the
    /// amount.
    pub fn send(&mut self, problem: &Problem, joined: &Joined) -> i64
        requires index { joined.now.index < vec_len problem.now.arcs }
        requires under_way { IsUnderWay problem.now self.old.flows.items self.old.potentials.items self.old.excess.items }
        requires level { reduced_cost self.old.potentials.items (arc_at problem.now joined.now.index) ≡ pos 0 }
        requires head { head_of joined.now (arc_at problem.now joined.now.index) ≡ joined.now.node }
        requires room { pos 0 <ℤ residual_of joined.now (arc_at problem.now joined.now.index) (slice_index_or self.old.flows.items joined.now.index (pos 0)) }
        requires deficit { slice_index_or self.old.excess.items joined.now.node (pos 0) <ℤ pos 0 }
        ensures under_way { IsUnderWay problem.now self.new.flows.items self.new.potentials.items self.new.excess.items }
        ensures potentials { self.new.potentials.items ≡ self.old.potentials.items }
        ensures positive { pos 0 <ℤ result }
        ensures wanted { (slice_index_or self.old.excess.items joined.now.node (pos 0) +ℤ result) ≤ℤ pos 0 }
        ensures moves { Moves (vec_len problem.now.supplies) (tail_of joined.now (arc_at problem.now joined.now.index)) joined.now.node result
            self.old.excess.items self.new.excess.items }
        ensures others { Others joined.now.index self.old.flows.items self.new.flows.items }
    {
        let arc = problem.arcs[joined.index as usize];
        let room = joined.room(&arc, &self.flows[joined.index as usize]);
        let amount = amount_of(room, &self.excess[joined.node as usize]);
        self.push(problem, joined.index, joined.ahead(amount));
        amount
    }
}

impl Pseudoflow {
    /// Sends flow to a node with a deficit from its predecessor, and so on up to a node with
    /// excess.
    ///
    /// Each arc carries as much as its residual capacity and the deficit of its head allow. Nodes
    /// on the path can be left with a deficit.
    pub fn pull(&mut self, problem: &Problem, all: &[Joined], place: u32)
        requires under_way { IsUnderWay problem.now self.old.flows.items self.old.potentials.items self.old.excess.items }
        requires forest { IsForest problem.now self.old.flows.items self.old.potentials.items self.old.excess.items all.now }
        requires place { place < length all.now }
        requires deficit { slice_index_or self.old.excess.items (joined_at all.now place).node (pos 0) <ℤ pos 0 }
        ensures under_way { IsUnderWay problem.now self.new.flows.items self.new.potentials.items self.new.excess.items }
        ensures sent { too_much self.new.excess.items < too_much self.old.excess.items }
    {
        let mut place = place;
        'up: loop {
            let joined = all[place as usize];
            let tail = all[joined.parent as usize].node;
            let is_source = self.excess[tail as usize] > 0;
            self.send(problem, &joined);
            if is_source {
                return;
            }
            place = joined.parent;
        }
    }
}
