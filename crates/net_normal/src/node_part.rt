//! The part of a normal form that is computed from the nodes of a network, in their order.

ghost use Rattle.std.specs.Prelude.{◌≡◌, ◌<◌, ◌≤◌, ◌+◌, ◌*◌, ◌^◌, ◌++◌, ◌∷◌, [], pos, ◌-ℤ◌, ◌≤ℤ◌, length, IfOk, OnOk, vec_len, if◌then◌else◌};
ghost use Rattle.net_normal.specs.Limits.{IsSized, node_limit, range_limit, flow_limit, sum_limit};
ghost use Rattle.net_normal.specs.NormalForm.{low_side, high_side, is_open, supplies_of, slack_arcs_from};
ghost use Rattle.net_normal.specs.declared.profile.Profile.{Profile};
ghost use Rattle.net_normal.specs.NodeSums.{AreSized, AreSumsOf, AreSumsOfEither, own_supply, own_slack};

use crate::instance::{Instance, NodeRange};
use crate::node_sums::NodeSums;
use crate::problem::FlowArc;
use std::alloc::{AllocError, Global};

/// Returns the supply of a node. Its slack arc carries inflow above the low side to the outside
/// node.
fn own_supply(range: &NodeRange, sums: &NodeSums) -> i64
    requires { AreSized sum_limit sums.now }
    ensures value { result ≡ own_supply range.now sums.now }
    ensures size { IsSized (2 * sum_limit) result }
{
    sums.shift - range.low_side(&sums.least)
}

/// Builds a node's slack arc, which carries its inflow above the low side to the outside node.
fn own_slack(node: u32, outside: u32, range: &NodeRange, sums: &NodeSums) -> FlowArc
    requires { AreSized sum_limit sums.now }
    ensures { result ≡ own_slack node outside range.now sums.now }
{
    FlowArc {
        src: node,
        dst: outside,
        low: 0,
        cap: range.high_side(&sums.most) - range.low_side(&sums.least),
        cost: 0,
    }
}

/// The result of the pass over the nodes.
#[derive(Drop)]
pub struct NodePart {
    /// Each node's supply.
    pub supplies: Vec<i64>,
    /// The arcs of the network, followed by the nodes' slack arcs.
    pub arcs: Vec<FlowArc>,
    /// The negated sum of the supplies so far: what the outside node must supply.
    pub balance: i64,
}

impl NodePart {
    /// Adds the next node. Fails only if memory runs out.
    fn add(&mut self, outside: u32, range: &NodeRange, sums: &NodeSums) -> Result<(), AllocError>
        requires few { vec_len self.old.supplies < node_limit }
        requires sums { AreSized sum_limit sums.now }
        requires balance { IsSized flow_limit self.old.balance }
        ensures supplies { OnOk result (self.new.supplies.items ≡ self.old.supplies.items ++ own_supply range.now sums.now ∷ []) }
        ensures arcs { OnOk result (self.new.arcs.items ≡ self.old.arcs.items ++ (if is_open range.now.low range.now.high
            then own_slack (vec_len self.old.supplies) outside range.now sums.now ∷ [] else [])) }
        ensures balance { OnOk result (self.new.balance ≡ self.old.balance -ℤ own_supply range.now sums.now) }
    {
        let node = self.supplies.len() as u32;
        let supply = own_supply(range, sums);
        self.supplies.push(supply)?;
        self.balance -= supply;
        if range.is_open() {
            self.arcs.push(own_slack(node, outside, range, sums))?;
        }
        Ok(())
    }

    /// Processes all nodes of a network in one pass. Takes the arcs of the problem so far, and for
    /// each node the sums over its arcs. Fails only if memory runs out.
    pub fn of(
        alloc: Global,
        instance: &Instance,
        arcs: Vec<FlowArc>,
        sums: &[NodeSums],
    ) -> Result<NodePart, AllocError>
        requires len { length sums.now ≡ vec_len instance.now.nodes }
        requires sums { AreSumsOfEither instance.now.arcs.items sums.now }
        ensures supplies { IfOk result (λ part. (p : Profile) → AreSumsOf p instance.now.arcs.items sums.now
            → part.supplies.items ≡ supplies_of p instance.now) }
        ensures arcs { IfOk result (λ part. part.arcs.items ≡ arcs.items ++ slack_arcs_from instance.now.arcs.items
            (vec_len instance.now.nodes) 0 instance.now.nodes.items) }
    {
        let outside = instance.nodes.len() as u32;
        let mut part = NodePart {
            supplies: Vec::with_capacity(alloc, instance.nodes.len() + 1)?,
            arcs,
            balance: 0,
        };
        for (node, range) in instance.nodes.iter().enumerate() {
            part.add(outside, range, &sums[node])?;
        }
        part.supplies.push(part.balance)?;
        Ok(part)
    }
}

impl NodeRange {
    ghost use Rattle.net_normal.specs.NormalForm.{low_side, high_side, is_open};

    /// Returns the low side. If there is none, it is the minimum of the high side and the least net
    /// inflow.
    pub(crate) fn low_side(&self, least: &i64) -> i64
        ensures value { result ≡ low_side self.now.low self.now.high least.now }
        ensures size { IsSized sum_limit least.now → IsSized sum_limit result }
    {
        match (self.low, self.high) {
            (Some(low), _) => low,
            (None, Some(high)) => high.min(*least),
            (None, None) => *least,
        }
    }

    /// Returns the high side. If there is none, it is the maximum of the low side and the greatest
    /// net inflow.
    pub(crate) fn high_side(&self, most: &i64) -> i64
        ensures value { result ≡ high_side self.now.low self.now.high most.now }
        ensures size { IsSized sum_limit most.now → IsSized sum_limit result }
    {
        match (self.low, self.high) {
            (_, Some(high)) => high,
            (Some(low), None) => low.max(*most),
            (None, None) => *most,
        }
    }

    /// Returns whether the declared range allows more than one net inflow.
    pub(crate) fn is_open(&self) -> bool
        ensures { result ≡ is_open self.now.low self.now.high }
    {
        match (self.low, self.high) {
            (Some(low), Some(high)) => low < high,
            _ => true,
        }
    }
}
