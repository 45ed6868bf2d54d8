//! A flow within its bounds that need not satisfy the supplies, with potentials.

ghost use Rattle.std.specs.Prelude.{◌≡◌, ℕ, ◌<◌, ◌^◌, pos, ◌+ℤ◌, ◌-ℤ◌, ◌==◌, if◌then◌else◌, vec_len, slice_index_or};
ghost use Rattle.net_normal.specs.Flows.{IsWithinCapacity};
ghost use Rattle.net_normal.specs.Limits.{IsSized, flow_limit};
ghost use Rattle.net_check.specs.Certificates.{reduced_cost};
ghost use Rattle.net_solve.specs.Pseudoflows.{IsUnderWay, arc_at, changed};

use net_normal::Problem;

/// A flow with potentials to which it is complementary, and the excess of each node.
#[derive(Drop)]
pub struct Pseudoflow {
    /// The flow of each arc.
    pub flows: Vec<i64>,
    /// The potential of each node.
    pub potentials: Vec<i64>,
    /// Each node's supply minus its net outflow; a negative excess is a deficit.
    pub excess: Vec<i128>,
}

/// Adds to the number of a node.
pub fn add_at(numbers: &mut Vec<i128>, node: u32, amount: i128)
    requires node { node < vec_len numbers.old }
    requires amount { IsSized flow_limit amount }
    requires size { IsSized (10 ^ 25) (slice_index_or numbers.old.items node (pos 0)) }
    ensures len { vec_len numbers.new ≡ vec_len numbers.old }
    ensures value { (v : ℕ) → v < vec_len numbers.old → slice_index_or numbers.new.items v (pos 0)
        ≡ slice_index_or numbers.old.items v (pos 0) +ℤ (if node == v then amount else pos 0) }
{
    numbers[node as usize] += amount;
}

impl Pseudoflow {
    /// Sends flow over an arc of reduced cost 0; a negative amount is sent backward.
    pub fn push(&mut self, problem: &Problem, index: u32, amount: i64)
        requires index { index < vec_len problem.now.arcs }
        requires under_way { IsUnderWay problem.now self.old.flows.items self.old.potentials.items self.old.excess.items }
        requires level { reduced_cost self.old.potentials.items (arc_at problem.now index) ≡ pos 0 }
        requires amount { IsSized flow_limit amount }
        requires within { IsWithinCapacity (arc_at problem.now index) (slice_index_or self.old.flows.items index (pos 0) +ℤ amount) }
        ensures under_way { IsUnderWay problem.now self.new.flows.items self.new.potentials.items self.new.excess.items }
        ensures potentials { self.new.potentials.items ≡ self.old.potentials.items }
        ensures excess { (v : ℕ) → v < vec_len problem.now.supplies → slice_index_or self.new.excess.items v (pos 0) ≡
            (slice_index_or self.old.excess.items v (pos 0) -ℤ (if (arc_at problem.now index).src == v then amount
            else pos 0)) +ℤ (if (arc_at problem.now index).dst == v then amount else pos 0) }
        ensures flows { self.new.flows.items ≡ changed self.old.flows.items index amount }
    {
        let arc = problem.arcs[index as usize];
        self.flows[index as usize] += amount;
        let amount = i128::from(amount);
        add_at(&mut self.excess, arc.src, -amount);
        add_at(&mut self.excess, arc.dst, amount);
    }
}
