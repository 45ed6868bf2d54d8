//! The part of a normal form that is computed from the arcs of a network, in their order.

ghost use Rattle.std.specs.Prelude.{◌≡◌, ◌*◌, ◌+◌, ◌+ℤ◌, ◌*ℤ◌, ◌^◌, ◌<◌, ◌≤◌, ◌++◌, ◌∷◌, [], All, IfOk, OnOk, replicate, vec_len, if◌then◌else◌};
ghost use Rattle.net_normal.specs.Links.{signed};
ghost use Rattle.net_normal.specs.Limits.{IsSized, IsArcOf, value_limit, node_limit, arc_limit, sum_limit, constant_limit};
ghost use Rattle.net_normal.specs.NormalForm.{offset_of, is_left_out, offsets_of, numbers_from, flow_arc_of, written_arcs, constant_of};

use crate::instance::{InstArc, Instance, Sense};
use crate::node_sums::{NodeSums, count_arc};
use crate::problem::FlowArc;
use crate::profile::Profile;
use std::alloc::{AllocError, Global};

/// The result of the pass over the arcs.
#[derive(Drop)]
pub struct ArcPart {
    /// An arc of the problem for each arc of the network that the profile does not omit.
    pub arcs: Vec<FlowArc>,
    /// For each arc of the network, its number in the problem, counted from 1, or 0 if it is
    /// omitted.
    pub numbers: Vec<u32>,
    /// For each arc of the network, its offset.
    pub offsets: Vec<i64>,
    /// The objective's constant plus the cost of the offsets.
    pub constant: i128,
    /// For each node, the sums over its arcs.
    pub sums: Vec<NodeSums>,
}

/// Returns the cost of a unit of flow: the coefficient, negated if the sense is to maximize.
fn cost(sense: Sense, coefficient: &i64) -> i64
    requires { IsSized value_limit coefficient.now }
    ensures { result ≡ signed sense coefficient.now }
{
    match sense {
        Sense::Minimise => *coefficient,
        Sense::Maximise => -*coefficient,
    }
}

/// Builds the arc of the problem for an arc of the network; a missing end becomes the outside node.
fn flow_arc(profile: Profile, sense: Sense, outside: u32, arc: &InstArc) -> FlowArc
    requires lower { IsSized value_limit arc.now.lower }
    requires upper { IsSized value_limit arc.now.upper }
    requires coefficient { IsSized value_limit arc.now.coefficient }
    ensures { result ≡ flow_arc_of profile sense outside arc.now }
{
    let offset = profile.offset(arc);
    FlowArc {
        src: arc.tail.unwrap_or(outside),
        dst: arc.head.unwrap_or(outside),
        low: arc.lower - offset,
        cap: arc.upper - offset,
        cost: cost(sense, &arc.coefficient),
    }
}

/// Appends the arc of the problem for an arc of the network and returns its number, counted from 1.
/// Appends nothing and returns 0 if the profile omits the arc. Fails only if memory runs out.
fn write_arc(
    arcs: &mut Vec<FlowArc>,
    profile: Profile,
    sense: Sense,
    outside: u32,
    arc: &InstArc,
) -> Result<u32, AllocError>
    requires few { vec_len arcs.old < arc_limit }
    requires lower { IsSized value_limit arc.now.lower }
    requires upper { IsSized value_limit arc.now.upper }
    requires coefficient { IsSized value_limit arc.now.coefficient }
    ensures arcs { OnOk result (arcs.new.items ≡ arcs.old.items ++ (if is_left_out profile arc.now then []
        else flow_arc_of profile sense outside arc.now ∷ [])) }
    ensures number { IfOk result (λ number. number ≡ (if is_left_out profile arc.now then 0 else vec_len arcs.old + 1)) }
{
    if profile.leaves_out(arc) {
        return Ok(0);
    }
    arcs.push(flow_arc(profile, sense, outside, arc))?;
    Ok(arcs.len() as u32)
}

/// Returns the cost of an offset.
fn offset_price(coefficient: &i64, offset: &i64) -> i128
    requires coefficient { IsSized value_limit coefficient.now }
    requires offset { IsSized value_limit offset.now }
    ensures value { result ≡ coefficient.now *ℤ offset.now }
    ensures size { IsSized (10 ^ 24) result }
{
    i128::from(*coefficient) * i128::from(*offset)
}

impl ArcPart {
    ghost use Rattle.net_normal.specs.NodeSums.{AreSized, AreSumsOf, CountsArc, no_sums};

    /// Creates an empty result, with sums of 0 for each node. Fails only if memory runs out.
    fn new(alloc: Global, instance: &Instance) -> Result<ArcPart, AllocError>
        ensures arcs { IfOk result (λ part. part.arcs.items ≡ []) }
        ensures numbers { IfOk result (λ part. part.numbers.items ≡ []) }
        ensures offsets { IfOk result (λ part. part.offsets.items ≡ []) }
        ensures constant { IfOk result (λ part. part.constant ≡ instance.now.constant) }
        ensures sums { IfOk result (λ part. part.sums.items ≡ replicate (vec_len instance.now.nodes) no_sums) }
    {
        let nodes = instance.nodes.len();
        let arcs = instance.arcs.len();
        Ok(ArcPart {
            arcs: Vec::with_capacity(alloc, arcs + nodes)?,
            numbers: Vec::with_capacity(alloc, arcs)?,
            offsets: Vec::with_capacity(alloc, arcs)?,
            constant: i128::from(instance.constant),
            sums: vec![in alloc; NodeSums::NONE; nodes]?,
        })
    }

    /// Adds the next arc. Fails only if memory runs out.
    fn add(&mut self, profile: Profile, sense: Sense, arc: &InstArc) -> Result<(), AllocError>
        requires arc { IsArcOf (vec_len self.old.sums) arc.now }
        requires few_nodes { vec_len self.old.sums ≤ node_limit }
        requires few_arcs { vec_len self.old.arcs < arc_limit }
        requires constant { IsSized (10 ^ 29 + 10 ^ 12) self.old.constant }
        requires sums { All (AreSized sum_limit) self.old.sums.items }
        ensures arcs { OnOk result (self.new.arcs.items ≡ self.old.arcs.items ++ (if is_left_out profile arc.now then []
            else flow_arc_of profile sense (vec_len self.old.sums) arc.now ∷ [])) }
        ensures numbers { OnOk result (self.new.numbers.items ≡ self.old.numbers.items ++ (if is_left_out profile arc.now then 0
            else vec_len self.old.arcs + 1) ∷ []) }
        ensures offsets { OnOk result (self.new.offsets.items ≡ self.old.offsets.items ++ offset_of profile arc.now ∷ []) }
        ensures constant { OnOk result (self.new.constant ≡ self.old.constant +ℤ arc.now.coefficient *ℤ offset_of profile arc.now) }
        ensures nodes { OnOk result (vec_len self.new.sums ≡ vec_len self.old.sums) }
        ensures sums { OnOk result (CountsArc profile arc.now self.old.sums.items self.new.sums.items) }
    {
        let outside = self.sums.len() as u32;
        let offset = profile.offset(arc);
        let number = write_arc(&mut self.arcs, profile, sense, outside, arc)?;
        self.numbers.push(number)?;
        self.offsets.push(offset)?;
        self.constant += offset_price(&arc.coefficient, &offset);
        count_arc(&mut self.sums, profile, arc);
        Ok(())
    }

    /// Processes all arcs of a network in one pass. Fails only if memory runs out.
    pub fn of(alloc: Global, profile: Profile, instance: &Instance) -> Result<ArcPart, AllocError>
        ensures arcs { IfOk result (λ part. part.arcs.items ≡ written_arcs profile instance.now.sense (vec_len instance.now.nodes) instance.now.arcs.items) }
        ensures numbers { IfOk result (λ part. part.numbers.items ≡ numbers_from profile 1 instance.now.arcs.items) }
        ensures offsets { IfOk result (λ part. part.offsets.items ≡ offsets_of profile instance.now.arcs.items) }
        ensures constant { IfOk result (λ part. part.constant ≡ constant_of profile instance.now) }
        ensures size { IfOk result (λ part. IsSized constant_limit part.constant) }
        ensures nodes { IfOk result (λ part. vec_len part.sums ≡ vec_len instance.now.nodes) }
        ensures sums { IfOk result (λ part. AreSumsOf profile instance.now.arcs.items part.sums.items) }
    {
        let mut part = ArcPart::new(alloc, instance)?;
        for arc in &instance.arcs {
            part.add(profile, instance.sense, arc)?;
        }
        Ok(part)
    }
}
