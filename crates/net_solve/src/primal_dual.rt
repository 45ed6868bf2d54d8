//! Solving every problem.

ghost use Rattle.std.specs.Prelude.{◌≡◌, ℕ, ◌<◌, ◌≤◌, true, false, pos, ◌<ℤ◌, ◌≤ℤ◌, All, IfOk, length, vec_len, slice_index_or};
ghost use Rattle.net_normal.specs.Limits.{IsSized, cost_limit};
ghost use Rattle.net_check.specs.Certificates.{IsCertificate};
ghost use Rattle.net_solve.specs.Bounds.{HasSmallPotentials, HasPotentials};
ghost use Rattle.net_solve.specs.Pseudoflows.{IsUnderWay};

use crate::pseudoflow::Pseudoflow;
use net_check::cost::cost;
use net_check::{Certificate, Side};
use net_normal::{FlowArc, Problem};
use std::alloc::{AllocError, Global};

/// Returns the maximum absolute value of a cost.
fn greatest_cost(arcs: &[FlowArc]) -> u64
    requires { All (λ arc. IsSized cost_limit arc.cost) arcs.now }
    ensures bounds { All (λ arc. IsSized result arc.cost) arcs.now }
    ensures least { (most : ℕ) → All (λ arc. IsSized most arc.cost) arcs.now → result ≤ most }
{
    let mut most = 0_u64;
    for arc in arcs {
        most = most.max(arc.cost.unsigned_abs());
    }
    most
}

/// Returns whether a node has a deficit.
fn has_deficit(excess: &[i128]) -> bool
    ensures none { result ≡ false → (v : ℕ) → v < length excess.now → pos 0 ≤ℤ slice_index_or excess.now v (pos 0) }
    ensures some { result ≡ true → (v : ℕ) × (v < length excess.now) × (slice_index_or excess.now v (pos 0) <ℤ pos 0) }
{
    for amount in excess {
        if *amount < 0 {
            return true;
        }
    }
    false
}

/// Returns the certificate for a flow without excess: it satisfies all supplies, or the total
/// supply is negative. Fails only if memory runs out.
fn settled(alloc: Global, problem: &Problem, state: Pseudoflow) -> Result<Certificate, AllocError>
    requires under_way { IsUnderWay problem.now state.flows.items state.potentials.items state.excess.items }
    requires no_excess { (v : ℕ) → v < vec_len problem.now.supplies → slice_index_or state.excess.items v (pos 0) ≤ℤ pos 0 }
    ensures certificate { IfOk result (IsCertificate problem.now) }
    ensures same { IfOk result (HasPotentials state.potentials.items) }
{
    if has_deficit(&state.excess) {
        let flags = vec![in alloc; true; problem.supplies.len()]?;
        return Ok(Certificate::Cut {
            flags,
            side: Side::Under,
        });
    }
    let value = cost(problem, &state.flows);
    Ok(Certificate::Optimal {
        value,
        flows: state.flows,
        potentials: state.potentials,
    })
}

/// Solves a problem with the primal-dual algorithm (Ahuja, Magnanti, Orlin: Network Flows, chapter
/// 9): builds forests of residual arcs of reduced cost 0 from the nodes with excess, until the flow
/// satisfies all supplies or no flow can leave a set with excess.
///
/// Starts from initial flows and potentials, indexed like the problem's arcs and nodes. They can be
/// arbitrarily wrong, and too few or too many: the result is a valid certificate in any case, but
/// the running time depends on them. Fails only if memory runs out.
pub fn settle(
    alloc: Global,
    problem: &Problem,
    flows: &[i64],
    potentials: &[i64],
) -> Result<Certificate, AllocError>
    ensures certificate { IfOk result (IsCertificate problem.now) }
    ensures bounded { IfOk result (HasSmallPotentials problem.now) }
{
    let most = greatest_cost(&problem.arcs);
    let mut state = Pseudoflow::start(alloc, problem, flows, potentials)?;
    if let Some(flags) = state.balance(alloc, problem, most)? {
        return Ok(Certificate::Cut {
            flags,
            side: Side::Over,
        });
    }
    state.close_gaps(alloc, problem, most)?;
    settled(alloc, problem, state)
}
