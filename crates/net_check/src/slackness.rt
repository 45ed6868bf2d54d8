//! Complementary slackness of a flow with potentials.

ghost use Rattle.std.specs.Prelude.{◌≡◌, ℕ, ◌<◌, ◌≤◌, ◌-◌, ◌^◌, IfSome, IfNone, All, length};
ghost use Rattle.std.specs.List.{AllZip};
ghost use Rattle.net_normal.specs.Limits.{IsSized, IsFlowArcOf, cost_limit, flow_arc_limit};
ghost use Rattle.net_check.specs.Certificates.{IsComplementary, reduced_cost};
ghost use Rattle.net_check.specs.FirstFaults.{IsFirstFailing, ArcKeeps, IsSlack};

use crate::checker::{Reason, Verdict};
use crate::wide::wide;
use net_normal::FlowArc;

/// Returns the arc's cost plus the potential of its tail minus the potential of its head.
pub fn reduced_cost(arc: &FlowArc, potentials: &[i64]) -> i128
    requires { IsFlowArcOf (length potentials.now) arc.now }
    ensures value { result ≡ reduced_cost potentials.now arc.now }
    ensures size { IsSized (2 ^ 66) result }
{
    let src = wide(&potentials[arc.src as usize]);
    let dst = wide(&potentials[arc.dst as usize]);
    wide(&arc.cost) + src - dst
}

/// Returns how an arc's flow violates complementary slackness, if it does.
fn slack(arc: &FlowArc, flow: &i64, potentials: &[i64]) -> Option<Reason>
    requires { IsFlowArcOf (length potentials.now) arc.now }
    ensures none { IfNone result (IsComplementary potentials.now arc.now flow.now) }
    ensures some { IfSome result (IsSlack potentials.now arc.now flow.now) }
{
    let reduced = reduced_cost(arc, potentials);
    if reduced > 0 && *flow != arc.low {
        return Some(Reason::Positive);
    }
    if reduced < 0 && *flow != arc.cap {
        return Some(Reason::Negative);
    }
    None
}

/// Finds the first arc whose flow violates complementary slackness. Its number is counted from 1.
pub fn check_slackness(arcs: &[FlowArc], flows: &[i64], potentials: &[i64]) -> Verdict
    requires few { length arcs.now ≤ flow_arc_limit }
    requires one_each { length flows.now ≡ length arcs.now }
    requires arcs { All (IsFlowArcOf (length potentials.now)) arcs.now }
    ensures yes { result ≡ Verdict.Yes → AllZip (IsComplementary potentials.now) arcs.now flows.now }
    ensures no { (reason : Reason) (number : ℕ) → result ≡ Verdict.No reason number
        → IsFirstFailing (ArcKeeps (IsComplementary potentials.now) arcs.now flows.now) number }
    ensures reason { (reason : Reason) (number : ℕ) → result ≡ Verdict.No reason number
        → ArcKeeps (λ arc flow. IsSlack potentials.now arc flow reason) arcs.now flows.now (number - 1) }
{
    for (index, arc) in arcs.iter().enumerate() {
        if let Some(reason) = slack(arc, &flows[index], potentials) {
            return Verdict::No(reason, index as u32 + 1);
        }
    }
    Verdict::Yes
}
