//! The start of the algorithm: an initial solution, made complementary.

ghost use Rattle.std.specs.Prelude.{◌≡◌, ℕ, ◌<◌, ◌^◌, pos, ◌+ℤ◌, ◌-ℤ◌, ◌==◌, if◌then◌else◌, IfOk, length, vec_len, slice_index_or};
ghost use Rattle.std.specs.List.{AllZip};
ghost use Rattle.net_normal.specs.Flows.{IsWithinCapacity, net_outflow};
ghost use Rattle.net_normal.specs.Limits.{IsSized, IsFlowArcOf, flow_limit};
ghost use Rattle.net_check.specs.Certificates.{IsComplementary};
ghost use Rattle.net_solve.specs.Pseudoflows.{IsUnderWay};

use crate::pseudoflow::{Pseudoflow, add_at};
use net_check::reduced_cost;
use net_check::wide::wide;
use net_normal::{FlowArc, Problem};
use std::alloc::{AllocError, Global};

/// Returns the initial potentials, one for each node; missing ones are 0. Fails only if memory runs
/// out.
fn first_potentials(alloc: Global, nodes: usize, guess: &[i64]) -> Result<Vec<i64>, AllocError>
    ensures { IfOk result (λ potentials. vec_len potentials ≡ nodes) }
{
    let mut potentials = Vec::with_capacity(alloc, nodes)?;
    for node in 0..nodes {
        potentials.push(guess.get(node).copied().unwrap_or(0))?;
    }
    Ok(potentials)
}

/// Returns LOW if the reduced cost is positive, CAP if it is negative, else the initial flow or the
/// nearest bound.
fn first_flow(arc: &FlowArc, potentials: &[i64], guess: i64) -> i64
    requires { IsFlowArcOf (length potentials.now) arc.now }
    ensures capacity { IsWithinCapacity arc.now result }
    ensures slackness { IsComplementary potentials.now arc.now result }
{
    let reduced = reduced_cost(arc, potentials);
    if reduced > 0 {
        arc.low
    } else if reduced < 0 {
        arc.cap
    } else {
        guess.max(arc.low).min(arc.cap)
    }
}

/// Returns flows that are complementary to these potentials. Fails only if memory runs out.
fn first_flows(
    alloc: Global,
    problem: &Problem,
    potentials: &[i64],
    guess: &[i64],
) -> Result<Vec<i64>, AllocError>
    requires { length potentials.now ≡ vec_len problem.now.supplies }
    ensures capacity { IfOk result (λ flows. AllZip IsWithinCapacity problem.now.arcs.items flows.items) }
    ensures slackness { IfOk result (λ flows. AllZip (IsComplementary potentials.now) problem.now.arcs.items flows.items) }
{
    let mut flows = Vec::with_capacity(alloc, problem.arcs.len())?;
    for (index, arc) in problem.arcs.iter().enumerate() {
        let guessed = guess.get(index).copied().unwrap_or(0);
        flows.push(first_flow(arc, potentials, guessed))?;
    }
    Ok(flows)
}

/// Adds an arc's flow to the outflow of its tail and subtracts it from that of its head.
fn carry(sent: &mut Vec<i128>, arc: &FlowArc, flow: &i64)
    requires arc { IsFlowArcOf (vec_len sent.old) arc.now }
    requires flow { IsSized flow_limit flow.now }
    requires sizes { (v : ℕ) → v < vec_len sent.old → IsSized (10 ^ 24) (slice_index_or sent.old.items v (pos 0)) }
    ensures len { vec_len sent.new ≡ vec_len sent.old }
    ensures value { (v : ℕ) → v < vec_len sent.old → slice_index_or sent.new.items v (pos 0) ≡
        (slice_index_or sent.old.items v (pos 0) +ℤ (if arc.now.src == v then flow.now else pos 0)) -ℤ (if arc.now.dst == v then flow.now else pos 0) }
{
    let flow = wide(flow);
    add_at(sent, arc.src, flow);
    add_at(sent, arc.dst, -flow);
}

/// Returns the net outflow of each node. Fails only if memory runs out.
fn outflows(alloc: Global, problem: &Problem, flows: &[i64]) -> Result<Vec<i128>, AllocError>
    requires { AllZip IsWithinCapacity problem.now.arcs.items flows.now }
    ensures len { IfOk result (λ sent. vec_len sent ≡ vec_len problem.now.supplies) }
    ensures value { IfOk result (λ sent. (v : ℕ) → v < vec_len problem.now.supplies
        → slice_index_or sent.items v (pos 0) ≡ net_outflow problem.now.arcs.items flows.now v) }
    ensures size { IfOk result (λ sent. (v : ℕ) → v < vec_len problem.now.supplies → IsSized (10 ^ 24) (slice_index_or sent.items v (pos 0))) }
{
    let mut sent = vec![in alloc; 0_i128; problem.supplies.len()]?;
    for (index, arc) in problem.arcs.iter().enumerate() {
        carry(&mut sent, arc, &flows[index]);
    }
    Ok(sent)
}

/// Returns each node's supply minus its net outflow. Fails only if memory runs out.
pub fn excess_of(alloc: Global, problem: &Problem, flows: &[i64]) -> Result<Vec<i128>, AllocError>
    requires { AllZip IsWithinCapacity problem.now.arcs.items flows.now }
    ensures len { IfOk result (λ excess. vec_len excess ≡ vec_len problem.now.supplies) }
    ensures value { IfOk result (λ excess. (v : ℕ) → v < vec_len problem.now.supplies
        → slice_index_or excess.items v (pos 0) ≡ slice_index_or problem.now.supplies.items v (pos 0) -ℤ net_outflow problem.now.arcs.items flows.now v) }
{
    let sent = outflows(alloc, problem, flows)?;
    let mut excess = Vec::with_capacity(alloc, problem.supplies.len())?;
    for (node, supply) in problem.supplies.iter().enumerate() {
        excess.push(wide(supply) - sent[node])?;
    }
    Ok(excess)
}

impl Pseudoflow {
    /// Returns a pseudoflow near an initial solution, which can be arbitrary numbers, too few or
    /// too many. Fails only if memory runs out.
    pub fn start(
        alloc: Global,
        problem: &Problem,
        flows: &[i64],
        potentials: &[i64],
    ) -> Result<Pseudoflow, AllocError>
        ensures { IfOk result (λ state. IsUnderWay problem.now state.flows.items state.potentials.items state.excess.items) }
    {
        let potentials = first_potentials(alloc, problem.supplies.len(), potentials)?;
        let flows = first_flows(alloc, problem, &potentials, flows)?;
        let excess = excess_of(alloc, problem, &flows)?;
        Ok(Pseudoflow {
            flows,
            potentials,
            excess,
        })
    }
}
