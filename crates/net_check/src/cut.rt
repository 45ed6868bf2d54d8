//! The supply of a set of nodes, and the range that its arcs allow.

ghost use Rattle.std.specs.Prelude.{◌≡◌, ◌↔◌, ◌^◌, pos, ◌-ℤ◌, IsTrue, length, vec_len, if◌then◌else◌};
ghost use Rattle.net_normal.specs.Limits.{IsSized, IsFlowArcOf, flow_limit};
ghost use Rattle.net_check.specs.Certificates.{goes_out, comes_in, supply_in, most_out, least_out, IsViolated};

use crate::certificate::Side;
use crate::wide::wide;
use net_normal::{FlowArc, Problem};

/// Returns the total supply of a set of nodes; there is one flag for each node.
pub fn supply_in(problem: &Problem, flags: &[bool]) -> i128
    requires { length flags.now ≡ vec_len problem.now.supplies }
    ensures { result ≡ supply_in problem.now.supplies.items flags.now }
{
    let mut total = 0_i128;
    for (node, supply) in problem.supplies.iter().enumerate() {
        if flags[node] {
            total += wide(supply);
        }
    }
    total
}

/// Returns `out` if the arc leaves the set, minus `into` if it enters the set, and 0 otherwise.
fn across(arc: &FlowArc, flags: &[bool], out: &i64, into: &i64) -> i128
    requires arc { IsFlowArcOf (length flags.now) arc.now }
    requires out { IsSized flow_limit out.now }
    requires into { IsSized flow_limit into.now }
    ensures value { result ≡ (if goes_out flags.now arc.now then out.now else pos 0) -ℤ (if comes_in flags.now arc.now then into.now else pos 0) }
    ensures size { IsSized flow_limit result }
{
    match (flags[arc.src as usize], flags[arc.dst as usize]) {
        (true, false) => wide(out),
        (false, true) => -wide(into),
        _ => 0,
    }
}

/// Returns the most that the arcs can carry out of a set: CAP of leaving arcs minus LOW of entering
/// arcs.
pub fn most_out(problem: &Problem, flags: &[bool]) -> i128
    requires { length flags.now ≡ vec_len problem.now.supplies }
    ensures { result ≡ most_out problem.now.arcs.items flags.now }
{
    let mut total = 0_i128;
    for arc in &problem.arcs {
        total += across(arc, flags, &arc.cap, &arc.low);
    }
    total
}

/// Returns the least that the arcs must carry out of a set: LOW of leaving arcs minus CAP of
/// entering arcs.
pub fn least_out(problem: &Problem, flags: &[bool]) -> i128
    requires { length flags.now ≡ vec_len problem.now.supplies }
    ensures { result ≡ least_out problem.now.arcs.items flags.now }
{
    let mut total = 0_i128;
    for arc in &problem.arcs {
        total += across(arc, flags, &arc.low, &arc.cap);
    }
    total
}

/// Returns whether a set's supply is outside the range that its arcs allow.
pub fn is_violated(problem: &Problem, flags: &[bool], side: Side) -> bool
    requires { length flags.now ≡ vec_len problem.now.supplies }
    ensures { IsTrue result ↔ IsViolated problem.now flags.now side }
{
    let supply = supply_in(problem, flags);
    match side {
        Side::Over => most_out(problem, flags) < supply,
        Side::Under => supply < least_out(problem, flags),
    }
}
