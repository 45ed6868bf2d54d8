//! Checking a certificate.

ghost use Rattle.std.specs.Prelude.{◌≡◌, ℕ, ◌↔◌, ◌≤◌, IsTrue, IfSome, IfNone, length, Bool, List, ℤ, ◌≤ℤ◌};
ghost use Rattle.net_check.specs.Certificates.{IsCertificate, IsOptimal, IsViolatedCut};
ghost use Rattle.net_check.specs.FirstFaults.{IsFirstFault, IsFirstFaultOfFlow, IsFirstFaultOfCut, IsFirstFailing, ArcKeeps};
ghost use Rattle.std.specs.List.{AllZip};
ghost use Rattle.net_normal.specs.Flows.{IsWithinCapacity, IsFeasibleFlow, cost_of};
ghost use Rattle.net_normal.specs.Limits.{flow_arc_limit};
ghost use Rattle.net_normal.specs.declared.problem.Problem.{Problem};
ghost use Rattle.net_check.specs.declared.certificate.Side.{Side};

use crate::balance::first_unbalanced;
use crate::certificate::{Certificate, Side};
use crate::cost::cost;
use crate::cut::is_violated;
use crate::slackness::check_slackness;
use net_normal::{FlowArc, Problem};

/// Checks a flow with potentials; returns the first condition that fails.
fn check_flow(problem: &Problem, value: &i128, flows: &[i64], potentials: &[i64]) -> Verdict
    ensures yes { result ≡ Verdict.Yes → IsOptimal problem.now value.now flows.now potentials.now }
    ensures no { (reason : Reason) (number : ℕ) → result ≡ Verdict.No reason number
        → IsFirstFaultOfFlow problem.now value.now flows.now potentials.now reason number }
{
    if flows.len() != problem.arcs.len() || potentials.len() != problem.supplies.len() {
        return Verdict::No(Reason::Shape, 0);
    }
    if let Some(number) = first_out_of_bounds(&problem.arcs, flows) {
        return Verdict::No(Reason::Bounds, number);
    }
    if let Some(number) = first_unbalanced(problem, flows) {
        return Verdict::No(Reason::Balance, number);
    }
    if *value != cost(problem, flows) {
        return Verdict::No(Reason::Value, 0);
    }
    check_slackness(&problem.arcs, flows, potentials)
}

/// Checks a set of nodes; returns the first condition that fails.
fn check_cut(problem: &Problem, flags: &[bool], side: Side) -> Verdict
    ensures yes { result ≡ Verdict.Yes → IsViolatedCut problem.now flags.now side }
    ensures no { (reason : Reason) (number : ℕ) → result ≡ Verdict.No reason number
        → IsFirstFaultOfCut problem.now flags.now side reason number }
{
    if flags.len() != problem.supplies.len() {
        return Verdict::No(Reason::Shape, 0);
    }
    if !is_violated(problem, flags, side) {
        return Verdict::No(Reason::NotViolated, 0);
    }
    Verdict::Yes
}

/// Checks whether a certificate settles its problem, in one pass over the nodes and a few over the
/// arcs, one of these for every 3,500 nodes.
///
/// The certificate can be arbitrary. `No` carries the first condition that fails, in the order of
/// `Reason`, and the number of the first arc or node that violates it, counted from 1; `Positive`
/// and `Negative` are checked together, in arc order. Allocates no memory: the balances of 3,500
/// nodes take 56,000 bytes on the stack.
pub fn check(problem: &Problem, certificate: &Certificate) -> Verdict
    ensures yes { (result ≡ Verdict.Yes) ↔ IsCertificate problem.now certificate.now }
    ensures no { (reason : Reason) (number : ℕ) → result ≡ Verdict.No reason number
        → IsFirstFault problem.now certificate.now reason number }
{
    match certificate {
        Certificate::Optimal {
            value,
            flows,
            potentials,
        } => check_flow(problem, value, flows, potentials),
        Certificate::Cut { flags, side } => check_cut(problem, flags, *side),
    }
}

/// Returns whether a flow is between the arc's LOW and CAP.
fn is_within(arc: &FlowArc, flow: &i64) -> bool
    ensures { IsTrue result ↔ IsWithinCapacity arc.now flow.now }
{
    arc.low <= *flow && *flow <= arc.cap
}

/// Returns the number, counted from 1, of the first arc whose flow is outside its bounds.
pub fn first_out_of_bounds(arcs: &[FlowArc], flows: &[i64]) -> Option<u32>
    requires few { length arcs.now ≤ flow_arc_limit }
    requires one_each { length flows.now ≡ length arcs.now }
    ensures none { IfNone result (AllZip IsWithinCapacity arcs.now flows.now) }
    ensures some { IfSome result (IsFirstFailing (ArcKeeps IsWithinCapacity arcs.now flows.now)) }
{
    for (index, arc) in arcs.iter().enumerate() {
        if !is_within(arc, &flows[index]) {
            return Some(index as u32 + 1);
        }
    }
    None
}

/// The condition that fails.
#[derive(Clone, Copy, Debug, PartialEq, Eq)]
pub enum Reason {
    /// The number of flows, potentials or flags differs from the problem's number of arcs or nodes.
    Shape,
    /// An arc's flow is below LOW or above CAP.
    Bounds,
    /// A node's net outflow differs from its supply.
    Balance,
    /// The value is not the cost of the flow.
    Value,
    /// An arc with positive reduced cost has a flow above LOW.
    Positive,
    /// An arc with negative reduced cost has a flow below CAP.
    Negative,
    /// The set's supply is within the range that its arcs allow.
    NotViolated,
}

/// The result of checking a certificate.
#[derive(Clone, Copy, Debug, PartialEq, Eq)]
pub enum Verdict {
    /// The certificate settles the problem.
    Yes,
    /// The first condition that fails, and the number of its arc or node, counted from 1, or 0 if
    /// it concerns neither.
    No(Reason, u32),
}

/// Theorem: no feasible flow costs less than the value of an optimality certificate.
pub fn least_cost()
    ensures value { (problem : Problem) (value : ℤ) (flows potentials others : List ℤ)
        → IsOptimal problem value flows potentials → IsFeasibleFlow problem others → value ≤ℤ cost_of problem others }
{}

/// Theorem: if a cut is violated, no feasible flow exists.
pub fn no_flow()
    ensures value { (problem : Problem) (flags : List Bool) (side : Side) (flows : List ℤ)
        → IsViolatedCut problem flags side → ¬ IsFeasibleFlow problem flows }
{}

/// Theorem: no problem has both an optimality certificate and a violated cut.
pub fn never_both()
    ensures value { (problem : Problem) (value : ℤ) (flows potentials : List ℤ) (flags : List Bool) (side : Side)
        → IsOptimal problem value flows potentials → ¬ IsViolatedCut problem flags side }
{}
