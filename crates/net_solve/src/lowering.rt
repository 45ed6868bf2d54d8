//! Relabels, each of which checks that it is a step of a run.

ghost use Rattle.std.specs.Prelude.{◌≡◌, ◌<◌, true, pos, ◌+ℤ◌, ◌-ℤ◌, ◌<ℤ◌, ◌≤ℤ◌, vec_len};
ghost use Rattle.net_solve.specs.Runs.{IsLeastOut};
ghost use Rattle.net_solve.specs.Machines.{IsDeep, IsRunning, MaySink, state_of};

use crate::scaling::Machine;
use net_normal::Problem;

/// The minimum of potentials.
const DEEPEST: i64 = -(1 << 61);

/// Returns whether a node's potential can be lowered by an amount: it is positive, exceeds the
/// least reduced cost of a residual arc out of the node by at most epsilon, and the result fits 62
/// bits.
fn may_sink(potential: &i64, least: &i64, amount: &i64, epsilon: &i64) -> bool
    requires potential { IsDeep potential.now }
    requires epsilon { pos 0 ≤ℤ epsilon.now }
    ensures { result ≡ true → MaySink potential.now least.now amount.now epsilon.now }
{
    if *least < 0 {
        return false;
    }
    if *amount <= 0 {
        return false;
    }
    if *amount > -DEEPEST {
        return false;
    }
    if *amount - *epsilon > *least {
        return false;
    }
    *potential - *amount >= DEEPEST
}

impl Machine {
    /// Lowers the potential of a node whose residual arcs have at least reduced cost `least`, if
    /// that is a step of a run. Returns whether it was.
    pub fn lower(&mut self, problem: &Problem, node: u32, least: &i64, amount: &i64) -> bool
        requires node { node < vec_len problem.now.supplies }
        requires least { IsLeastOut problem.now (state_of self.old) node least.now }
        requires running { IsRunning problem.now self.old }
        ensures running { IsRunning problem.now self.new }
        ensures budget { self.new.budget ≡ self.old.budget }
    {
        if self.carried.excess[node as usize] <= 0 {
            return false;
        }
        if self.steps >= self.budget {
            return false;
        }
        if !may_sink(
            &self.potentials[node as usize],
            least,
            amount,
            &self.epsilon,
        ) {
            return false;
        }
        self.potentials[node as usize] -= *amount;
        self.steps += 1;
        true
    }
}
