//! The cost of a flow.

ghost use Rattle.std.specs.Prelude.{◌≡◌, ◌*ℤ◌, ◌*◌, ◌^◌};
ghost use Rattle.std.specs.List.{AllZip};
ghost use Rattle.net_normal.specs.Flows.{IsWithinCapacity, cost_of};
ghost use Rattle.net_normal.specs.Limits.{IsSized, flow_limit, cost_limit};

use net_normal::Problem;

/// Returns the cost of one arc's flow.
fn price(cost: &i64, flow: &i64) -> i128
    requires cost { IsSized cost_limit cost.now }
    requires flow { IsSized flow_limit flow.now }
    ensures value { result ≡ cost.now *ℤ flow.now }
    ensures size { IsSized (10 ^ 30) result }
{
    i128::from(*cost) * i128::from(*flow)
}

/// Returns the total cost of flows that are within the capacities.
pub fn cost(problem: &Problem, flows: &[i64]) -> i128
    requires { AllZip IsWithinCapacity problem.now.arcs.items flows.now }
    ensures { result ≡ cost_of problem.now flows.now }
{
    let mut total = 0_i128;
    for (index, arc) in problem.arcs.iter().enumerate() {
        total += price(&arc.cost, &flows[index]);
    }
    total
}
