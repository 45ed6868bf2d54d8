//! Sums over the arcs at each node of a network.

ghost use Rattle.std.specs.Prelude.{◌≡◌, ◌<◌, ◌^◌, All, vec_len, ◌*◌};
ghost use Rattle.std.specs.Option.{ForSome};
ghost use Rattle.net_normal.specs.Limits.{IsSized, value_limit, flow_limit, sum_limit};
ghost use Rattle.net_normal.specs.NodeSums.{AreSized, CountsHead, CountsTail, CountsArc};

use crate::instance::InstArc;
use crate::profile::Profile;

/// Sums over the arcs into a node minus sums over the arcs out of it.
#[derive(Clone, Copy)]
pub struct NodeSums {
    /// The least net inflow that the bounds allow.
    pub least: i64,
    /// The greatest net inflow that the bounds allow.
    pub most: i64,
    /// The net inflow that the offsets contribute.
    pub shift: i64,
}

impl NodeSums {
    ghost use Rattle.net_normal.specs.NodeSums.{AreSized, entered, left};

    /// The sums of a node without arcs.
    pub const NONE: NodeSums = NodeSums {
        least: 0,
        most: 0,
        shift: 0,
    };

    /// Returns the sums with an arc into the node added.
    pub fn entered(&self, profile: Profile, arc: &InstArc) -> NodeSums
        requires sums { AreSized flow_limit self.now }
        requires lower { IsSized value_limit arc.now.lower }
        requires upper { IsSized value_limit arc.now.upper }
        ensures { result ≡ entered profile arc.now self.now }
    {
        NodeSums {
            least: self.least + arc.lower,
            most: self.most + arc.upper,
            shift: self.shift + profile.offset(arc),
        }
    }

    /// Returns the sums with an arc out of the node added.
    pub fn left(&self, profile: Profile, arc: &InstArc) -> NodeSums
        requires sums { AreSized flow_limit self.now }
        requires lower { IsSized value_limit arc.now.lower }
        requires upper { IsSized value_limit arc.now.upper }
        ensures { result ≡ left profile arc.now self.now }
    {
        NodeSums {
            least: self.least - arc.upper,
            most: self.most - arc.lower,
            shift: self.shift - profile.offset(arc),
        }
    }
}

/// Adds an arc to the sums of its head node, if it has one.
fn count_head(sums: &mut Vec<NodeSums>, profile: Profile, arc: &InstArc)
    requires sums { All (AreSized flow_limit) sums.old.items }
    requires head { ForSome arc.now.head (λ v. v < vec_len sums.old) }
    requires lower { IsSized value_limit arc.now.lower }
    requires upper { IsSized value_limit arc.now.upper }
    ensures len { vec_len sums.new ≡ vec_len sums.old }
    ensures value { CountsHead profile arc.now sums.old.items sums.new.items }
{
    if let Some(head) = arc.head {
        let node = head as usize;
        sums[node] = sums[node].entered(profile, arc);
    }
}

/// Adds an arc to the sums of its tail node, if it has one.
fn count_tail(sums: &mut Vec<NodeSums>, profile: Profile, arc: &InstArc)
    requires sums { All (AreSized flow_limit) sums.old.items }
    requires tail { ForSome arc.now.tail (λ v. v < vec_len sums.old) }
    requires lower { IsSized value_limit arc.now.lower }
    requires upper { IsSized value_limit arc.now.upper }
    ensures len { vec_len sums.new ≡ vec_len sums.old }
    ensures value { CountsTail profile arc.now sums.old.items sums.new.items }
{
    if let Some(tail) = arc.tail {
        let node = tail as usize;
        sums[node] = sums[node].left(profile, arc);
    }
}

/// Adds an arc to the sums of its head node and of its tail node, if present. A loop is added twice
/// to its node, once in each direction.
pub fn count_arc(sums: &mut Vec<NodeSums>, profile: Profile, arc: &InstArc)
    requires sums { All (AreSized sum_limit) sums.old.items }
    requires tail { ForSome arc.now.tail (λ v. v < vec_len sums.old) }
    requires head { ForSome arc.now.head (λ v. v < vec_len sums.old) }
    requires lower { IsSized value_limit arc.now.lower }
    requires upper { IsSized value_limit arc.now.upper }
    ensures len { vec_len sums.new ≡ vec_len sums.old }
    ensures value { CountsArc profile arc.now sums.old.items sums.new.items }
{
    count_head(sums, profile, arc);
    count_tail(sums, profile, arc);
}
