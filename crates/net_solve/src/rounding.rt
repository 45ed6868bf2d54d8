//! Rounding potentials to the original costs, if no reduced cost of a residual arc is below -1.

ghost use Rattle.std.specs.Prelude.{◌≡◌, ◌≢◌, ℕ, ◌+◌, ◌-◌, ◌/◌, ◌%◌, ◌<◌, ◌≤◌, ◌^◌};
ghost use Rattle.std.specs.Prelude.{true, pos, ◌-ℤ◌, nat_abs, IfOk, IfSome, length, vec_len, slice_index_or, All};
ghost use Rattle.net_normal.specs.Limits.{flow_node_limit, IsFlowArcOf, IsSized, cost_limit};
ghost use Rattle.net_solve.specs.Machines.{AreDeep, IsDeep};
ghost use Rattle.net_solve.specs.Rounding.{AreFromZero, IsFree, IsLowest, IsRounded, is_taken, level, level_at};
ghost use Rattle.net_solve.specs.Runs.{reduced, greatest_cost};

use net_normal::FlowArc;
use std::alloc::{AllocError, Global};

/// Returns the distance of a potential below 0.
fn depth(potential: &i64) -> u64
    requires { IsDeep potential.now }
    ensures value { result ≡ nat_abs potential.now }
    ensures size { result ≤ 2 ^ 61 }
{
    potential.unsigned_abs()
}

/// Returns which residues the depths of potentials have, modulo one more than their number. Fails
/// only if memory runs out.
fn residues(alloc: Global, potentials: &[i64]) -> Result<Vec<bool>, AllocError>
    requires few { length potentials.now ≤ flow_node_limit }
    requires deep { AreDeep (length potentials.now) potentials.now }
    ensures len { IfOk result (λ taken. vec_len taken ≡ length potentials.now + 1) }
    ensures taken { IfOk result (λ taken. (v : ℕ) → v < length potentials.now
        → is_taken taken.items (nat_abs (slice_index_or potentials.now v (pos 0)) % (length potentials.now + 1)) ≡ true) }
{
    let factor = potentials.len() + 1;
    let mut taken = vec![in alloc; false; factor]?;
    for potential in potentials {
        let residue = depth(potential) as usize % factor;
        taken[residue] = true;
    }
    Ok(taken)
}

/// Returns a residue that no depth of a potential has. Fails only if memory runs out.
fn free_residue(alloc: Global, potentials: &[i64]) -> Result<Option<u64>, AllocError>
    requires few { length potentials.now ≤ flow_node_limit }
    requires deep { AreDeep (length potentials.now) potentials.now }
    ensures { IfOk result (λ found. IfSome found (IsFree potentials.now)) }
{
    let taken = residues(alloc, potentials)?;
    for (residue, is_taken) in taken.iter().enumerate() {
        if !*is_taken {
            return Ok(Some(residue as u64));
        }
    }
    Ok(None)
}

/// Returns the number of whole units of a potential below 0, after rotating the residues so that
/// the free one is the greatest.
fn level(potential: &i64, free: u64, factor: u64) -> u64
    requires deep { IsDeep potential.now }
    requires free { free < factor }
    requires factor { factor ≤ flow_node_limit + 1 }
    ensures value { result ≡ level factor free potential.now }
    ensures size { result ≤ 2 ^ 62 }
{
    (depth(potential) + (factor - 1 - free)) / factor
}

/// Returns the node with the greater level.
fn lower_one(potentials: &[i64], free: u64, first: usize, second: usize) -> usize
    requires few { length potentials.now ≤ flow_node_limit }
    requires deep { AreDeep (length potentials.now) potentials.now }
    requires free { free < length potentials.now + 1 }
    requires first { first < length potentials.now }
    requires second { second < length potentials.now }
    ensures inside { result < length potentials.now }
    ensures first { level_at potentials.now free first ≤ level_at potentials.now free result }
    ensures second { level_at potentials.now free second ≤ level_at potentials.now free result }
{
    let factor = potentials.len() as u64 + 1;
    if level(&potentials[first], free, factor) < level(&potentials[second], free, factor) {
        second
    } else {
        first
    }
}

/// Returns the node with the greatest level.
fn lowest(potentials: &[i64], free: u64) -> usize
    requires some { 0 < length potentials.now }
    requires few { length potentials.now ≤ flow_node_limit }
    requires deep { AreDeep (length potentials.now) potentials.now }
    requires free { free < length potentials.now + 1 }
    ensures inside { result < length potentials.now }
    ensures lowest { IsLowest potentials.now free result }
{
    let mut lowest = 0_usize;
    for node in 0..potentials.len() {
        lowest = lower_one(potentials, free, lowest, node);
    }
    lowest
}

/// Returns the difference between the greatest level and that of a potential.
fn whole(potential: &i64, top: u64, free: u64, factor: u64) -> i64
    requires deep { IsDeep potential.now }
    requires top { top ≤ 2 ^ 62 }
    requires free { free < factor }
    requires factor { factor ≤ flow_node_limit + 1 }
    ensures { result ≡ pos top -ℤ pos (level factor free potential.now) }
{
    top as i64 - level(potential, free, factor) as i64
}

/// Returns potentials for the original costs, with minimum 0, from those for the scaled costs.
/// Fails only if memory runs out.
pub fn whole_potentials(alloc: Global, potentials: &[i64]) -> Result<Option<Vec<i64>>, AllocError>
    requires some { 0 < length potentials.now }
    requires few { length potentials.now ≤ flow_node_limit }
    requires deep { AreDeep (length potentials.now) potentials.now }
    ensures rounded { IfOk result (λ found. IfSome found (λ whole. IsRounded potentials.now whole.items)) }
    ensures from_zero { IfOk result (λ found. IfSome found (λ whole. AreFromZero whole.items)) }
{
    let Some(free) = free_residue(alloc, potentials)? else {
        return Ok(None);
    };
    let factor = potentials.len() as u64 + 1;
    let lowest = lowest(potentials, free);
    let top = level(&potentials[lowest], free, factor);
    let mut rounded = Vec::with_capacity(alloc, potentials.len())?;
    for potential in potentials {
        rounded.push(whole(potential, top, free, factor))?;
    }
    Ok(Some(rounded))
}

/// Returns the scaled cost of an arc plus the potential of its tail minus the potential of its
/// head.
pub fn reduced(arc: &FlowArc, potentials: &[i64]) -> i64
    requires arc { IsFlowArcOf (length potentials.now) arc.now }
    requires few { length potentials.now ≤ flow_node_limit }
    requires deep { AreDeep (length potentials.now) potentials.now }
    ensures value { result ≡ reduced (length potentials.now + 1) potentials.now arc.now }
    ensures size { IsSized (2 ^ 62) result }
{
    let factor = potentials.len() as i64 + 1;
    arc.cost * factor + potentials[arc.src as usize] - potentials[arc.dst as usize]
}

/// Returns the maximum absolute value of a cost.
pub fn greatest_cost(arcs: &[FlowArc]) -> u64
    requires { All (λ arc. IsSized cost_limit arc.cost) arcs.now }
    ensures value { result ≡ greatest_cost arcs.now }
    ensures size { result ≤ cost_limit }
{
    let mut most = 0_u64;
    for arc in arcs {
        most = most.max(arc.cost.unsigned_abs());
    }
    most
}
