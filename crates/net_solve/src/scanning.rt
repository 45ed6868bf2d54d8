//! Scanning the residual arcs out of a node.

ghost use Rattle.std.specs.Prelude.{◌≡◌, ◌⊎◌, ◌<◌, ◌^◌, pos, ◌+ℤ◌, ◌-ℤ◌, ◌≤ℤ◌, vec_len};
ghost use Rattle.net_normal.specs.Limits.{IsSized};
ghost use Rattle.net_solve.specs.Runs.{IsLeastOut};
ghost use Rattle.net_solve.specs.Rows.{AreRows};
ghost use Rattle.net_solve.specs.Machines.{IsDeep, IsRunning, state_of};

use crate::rows::{Entry, Rows};
use crate::scaling::Machine;
use net_normal::Problem;

/// Returns the minimum of the least reduced cost so far and that of one more entry, if that has
/// residual capacity.
#[inline(always)]
fn lesser(least: &i64, entry: &Entry, flow: &i64, potential: &i64, head_potential: &i64) -> i64
    requires cost { IsSized (2 ^ 55) entry.now.cost }
    requires potential { IsDeep potential.now }
    requires head_potential { IsDeep head_potential.now }
    ensures kept { result ≤ℤ least.now }
    ensures over { (flow.now ≡ entry.now.bound) ⊎ (result ≤ℤ ((entry.now.cost +ℤ potential.now) -ℤ head_potential.now)) }
{
    let reduced = entry.cost + *potential - *head_potential;
    if reduced >= *least {
        return *least;
    }
    if *flow == entry.bound {
        return *least;
    }
    reduced
}

impl Machine {
    /// Returns the least reduced cost of a residual arc out of a node.
    pub fn least_out(&self, problem: &Problem, rows: &Rows, node: u32) -> i64
        requires node { node < vec_len problem.now.supplies }
        requires rows { AreRows problem.now rows.now.starts.items rows.now.entries.items }
        requires running { IsRunning problem.now self.now }
        ensures { IsLeastOut problem.now (state_of self.now) node result }
    {
        let mut least = i64::MAX;
        let first = rows.starts[node as usize];
        let last = rows.starts[node as usize + 1];
        for place in first..last {
            let entry = rows.entries[place as usize];
            least = lesser(
                &least,
                &entry,
                &self.carried.flows[entry.index as usize],
                &self.potentials[node as usize],
                &self.potentials[entry.head as usize],
            );
        }
        least
    }
}
