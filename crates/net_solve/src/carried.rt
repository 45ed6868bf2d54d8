//! A flow within its bounds, with the excess of each node.

ghost use Rattle.std.specs.Prelude.{◌≡◌, ℕ, ◌<◌, ◌^◌, pos, ◌+ℤ◌, ◌-ℤ◌, ◌==◌, if◌then◌else◌, vec_len, slice_index_or};
ghost use Rattle.net_normal.specs.Flows.{IsWithinCapacity};
ghost use Rattle.net_normal.specs.Limits.{IsSized, flow_limit};
ghost use Rattle.net_solve.specs.Pseudoflows.{arc_at, changed};
ghost use Rattle.net_solve.specs.Machines.{IsCarried};

use net_normal::Problem;

/// A flow that need not satisfy the supplies.
#[derive(Drop)]
pub struct Carried {
    /// The flow of each arc.
    pub flows: Vec<i64>,
    /// Each node's supply minus its net outflow; a negative excess is a deficit.
    pub excess: Vec<i128>,
}

/// Adds to the number of a node.
fn add_at(numbers: &mut Vec<i128>, node: u32, amount: i128)
    requires node { node < vec_len numbers.old }
    requires amount { IsSized flow_limit amount }
    requires size { IsSized (10 ^ 25) (slice_index_or numbers.old.items node (pos 0)) }
    ensures len { vec_len numbers.new ≡ vec_len numbers.old }
    ensures value { (v : ℕ) → v < vec_len numbers.old → slice_index_or numbers.new.items v (pos 0)
        ≡ slice_index_or numbers.old.items v (pos 0) +ℤ (if node == v then amount else pos 0) }
{
    numbers[node as usize] += amount;
}

impl Carried {
    /// Sends an amount over an arc; a negative amount is sent backward.
    pub fn shift(&mut self, problem: &Problem, index: u32, amount: &i64)
        requires index { index < vec_len problem.now.arcs }
        requires carried { IsCarried problem.now self.old.flows.items self.old.excess.items }
        requires amount { IsSized flow_limit amount.now }
        requires within { IsWithinCapacity (arc_at problem.now index) (slice_index_or self.old.flows.items index (pos 0) +ℤ amount.now) }
        ensures carried { IsCarried problem.now self.new.flows.items self.new.excess.items }
        ensures flows { self.new.flows.items ≡ changed self.old.flows.items index amount.now }
    {
        let arc = problem.arcs[index as usize];
        self.flows[index as usize] += *amount;
        let amount = i128::from(*amount);
        add_at(&mut self.excess, arc.src, -amount);
        add_at(&mut self.excess, arc.dst, amount);
    }
}
