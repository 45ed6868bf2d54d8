//! The amount of a push over an arc, forward or backward.

ghost use Rattle.std.specs.Prelude.{◌≡◌, ℕ, ◌+◌, ◌<◌, ◌^◌, true, pos, ◌<ℤ◌, ◌≤ℤ◌, neg_ℤ, if◌then◌else◌};
ghost use Rattle.net_normal.specs.Flows.{IsWithinCapacity};
ghost use Rattle.net_normal.specs.Limits.{IsSized, IsFlowArcOf, flow_limit};
ghost use Rattle.net_solve.specs.Runs.{tail_of, residual_of};

use net_normal::FlowArc;

/// Returns the tail of the residual arc.
pub fn tail_of(arc: &FlowArc, forwards: bool) -> u32
    ensures { result ≡ tail_of arc.now forwards }
{
    if forwards { arc.src } else { arc.dst }
}

/// Returns the residual capacity.
pub fn residual_of(arc: &FlowArc, flow: &i64, forwards: bool) -> i64
    requires arc { (nodes : ℕ) × IsFlowArcOf nodes arc.now }
    requires within { IsWithinCapacity arc.now flow.now }
    ensures { result ≡ residual_of arc.now flow.now forwards }
{
    if forwards {
        arc.cap - *flow
    } else {
        *flow - arc.low
    }
}

/// Returns whether the residual arc has negative reduced cost.
pub fn saves(cost: &i64, forwards: bool) -> bool
    requires { IsSized (2 ^ 62) cost.now }
    ensures { result ≡ true → (if forwards then cost.now else neg_ℤ cost.now) <ℤ pos 0 }
{
    if forwards { *cost < 0 } else { *cost > 0 }
}

/// Returns the amount to send: the minimum of the requested amount, the residual capacity and the
/// excess.
pub fn amount_of(wanted: &i64, room: &i64, excess: &i128) -> i64
    requires { pos 0 <ℤ excess.now }
    ensures room { result ≤ℤ room.now }
    ensures excess { result ≤ℤ excess.now }
{
    let amount = *wanted.min(room);
    if i128::from(amount) <= *excess {
        amount
    } else {
        *excess as i64
    }
}

/// Returns the change of the arc's flow if this amount is sent.
pub fn change_of(amount: &i64, forwards: bool) -> i64
    requires { IsSized flow_limit amount.now }
    ensures { result ≡ (if forwards then amount.now else neg_ℤ amount.now) }
{
    if forwards { *amount } else { -*amount }
}
