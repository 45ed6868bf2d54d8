//! Residual arcs out of a set of nodes.

ghost use Rattle.std.specs.Prelude.{◌≡◌, ◌<◌, ◌≤◌, ◌^◌, Some, None, ◌≤ℤ◌, ◌<ℤ◌, pos, IfSome, IfNone, All, length, slice_index_or};
ghost use Rattle.std.specs.List.{AllZip};
ghost use Rattle.net_normal.specs.Limits.{IsFlowArcOf, IsSized, flow_arc_limit};
ghost use Rattle.net_solve.specs.declared.slack.SlackArc.{SlackArc};
ghost use Rattle.net_solve.specs.Pseudoflows.{IsFull, IsClear, IsSlackArc, no_arc};

use net_check::reduced_cost;
use net_normal::FlowArc;

/// A residual arc out of a set of nodes, forward or backward.
#[derive(Clone, Copy)]
pub struct SlackArc {
    /// The arc's index.
    pub index: u32,
    /// The decrease of the set's potentials at which the arc's reduced cost becomes 0.
    pub depth: i128,
}

/// Returns the decrease of a set's potentials at which this arc becomes a residual arc of reduced
/// cost 0 out of it, or `None` if it has no residual capacity out of the set.
fn depth_of(arc: &FlowArc, flow: &i64, potentials: &[i64], flags: &[bool]) -> Option<i128>
    requires arc { IsFlowArcOf (length potentials.now) arc.now }
    requires flags { length flags.now ≡ length potentials.now }
    ensures none { IfNone result (IsFull flags.now arc.now flow.now) }
    ensures some { IfSome result (λ depth. IsSlackArc potentials.now flags.now depth arc.now flow.now) }
    ensures size { IfSome result (λ depth. IsSized (2 ^ 66) depth) }
{
    let reduced = reduced_cost(arc, potentials);
    match (flags[arc.src as usize], flags[arc.dst as usize]) {
        (true, false) if *flow != arc.cap => Some(reduced),
        (false, true) if *flow != arc.low => Some(-reduced),
        _ => None,
    }
}

/// Returns the residual arc with the smaller depth: the first one so far, or this one.
fn nearer(first: Option<SlackArc>, index: u32, depth: i128) -> Option<SlackArc>
    ensures none { first ≡ None → result ≡ Some (record { index = index; depth = depth }) }
    ensures kept { (way : SlackArc) → first ≡ Some way → way.depth ≤ℤ depth → result ≡ Some way }
    ensures taken { (way : SlackArc) → first ≡ Some way → depth <ℤ way.depth → result ≡ Some (record { index = index; depth = depth }) }
{
    match first {
        Some(way) if way.depth <= depth => Some(way),
        _ => Some(SlackArc { index, depth }),
    }
}

/// Returns the residual arc out of a set of nodes with the smallest depth.
pub fn min_slack_arc(
    arcs: &[FlowArc],
    flows: &[i64],
    potentials: &[i64],
    flags: &[bool],
) -> Option<SlackArc>
    requires few { length arcs.now ≤ flow_arc_limit }
    requires arcs { All (IsFlowArcOf (length potentials.now)) arcs.now }
    requires one_each { length flows.now ≡ length arcs.now }
    requires flags { length flags.now ≡ length potentials.now }
    ensures none { IfNone result (AllZip (IsFull flags.now) arcs.now flows.now) }
    ensures clear { IfSome result (λ way. AllZip (IsClear potentials.now flags.now way.depth) arcs.now flows.now) }
    ensures inside { IfSome result (λ way. way.index < length arcs.now) }
    ensures is { IfSome result (λ way. IsSlackArc potentials.now flags.now way.depth (slice_index_or arcs.now way.index no_arc)
        (slice_index_or flows.now way.index (pos 0))) }
{
    let mut first: Option<SlackArc> = None;
    for (index, arc) in arcs.iter().enumerate() {
        match depth_of(arc, &flows[index], potentials, flags) {
            Some(depth) => first = nearer(first, index as u32, depth),
            None => {}
        }
    }
    first
}
