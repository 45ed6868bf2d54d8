//! Checking that each node's net outflow equals its supply.

ghost use Rattle.std.specs.Prelude.{◌≡◌, ℕ, ◌+◌, ◌*◌, ◌<◌, ◌≤◌, ◌^◌, pos, ◌+ℤ◌, ◌-ℤ◌, All, IfSome, IfNone, ◌==◌, length, slice_index_or, vec_len};
ghost use Rattle.std.specs.Prelude.{if◌then◌else◌};
ghost use Rattle.std.specs.List.{AllZip};
ghost use Rattle.net_normal.specs.Flows.{IsWithinCapacity, net_outflow};
ghost use Rattle.net_normal.specs.Limits.{IsSized, flow_limit, flow_node_limit};
ghost use Rattle.net_check.specs.FirstFaults.{IsFirstFailing, NodeKeeps};

use crate::wide::wide;
use net_normal::{FlowArc, Problem};

/// The number of nodes whose balances are computed in one pass; they take 16 bytes each on the
/// stack.
const BLOCK: usize = 3_500;

/// Adds `amount` to the balance of `node` if it is one of the `N` nodes from `first` on.
#[inline(always)]
fn add_at<const N: usize>(balances: &mut [i128; N], first: usize, node: u32, amount: i64)
    requires few { N ≤ flow_node_limit }
    requires first { first ≤ flow_node_limit }
    requires amount { IsSized flow_limit amount }
    requires size { (v : ℕ) → v < N → IsSized (10 ^ 25) (slice_index_or balances.old v (pos 0)) }
    ensures len { length balances.new ≡ N }
    ensures value { (v : ℕ) → v < N → slice_index_or balances.new v (pos 0)
        ≡ slice_index_or balances.old v (pos 0) +ℤ (if node == first + v then amount else pos 0) }
{
    // A node before `first` wraps to an index beyond `N`, so one comparison is enough.
    let place = (node as usize).wrapping_sub(first);
    if place < N {
        balances[place] += wide(&amount);
    }
}

/// Adds an arc's flow to the balance of its tail and subtracts it from the balance of its head.
#[inline(always)]
fn carry<const N: usize>(balances: &mut [i128; N], first: usize, arc: &FlowArc, flow: &i64)
    requires few { N ≤ flow_node_limit }
    requires first { first ≤ flow_node_limit }
    requires flow { IsSized flow_limit flow.now }
    requires sizes { (v : ℕ) → v < N → IsSized (10 ^ 24) (slice_index_or balances.old v (pos 0)) }
    ensures len { length balances.new ≡ N }
    ensures value { (v : ℕ) → v < N → slice_index_or balances.new v (pos 0) ≡
        (slice_index_or balances.old v (pos 0) +ℤ (if arc.now.src == first + v then flow.now else pos 0)) -ℤ (if arc.now.dst == first + v then flow.now
        else pos 0) }
{
    add_at(balances, first, arc.src, *flow);
    add_at(balances, first, arc.dst, -*flow);
}

/// Computes the net outflow of the `N` nodes from `first` on; `balances` is 0 before.
fn carry_all<const N: usize>(
    balances: &mut [i128; N],
    first: usize,
    problem: &Problem,
    flows: &[i64],
)
    requires few { N ≤ flow_node_limit }
    requires first { first ≤ flow_node_limit }
    requires flows { AllZip IsWithinCapacity problem.now.arcs.items flows.now }
    requires none { (v : ℕ) → v < N → slice_index_or balances.old v (pos 0) ≡ pos 0 }
    ensures value { (v : ℕ) → v < N → slice_index_or balances.new v (pos 0) ≡ net_outflow problem.now.arcs.items flows.now (first + v) }
    ensures sizes { (v : ℕ) → v < N → IsSized (10 ^ 24) (slice_index_or balances.new v (pos 0)) }
{
    for (index, arc) in problem.arcs.iter().enumerate() {
        carry(balances, first, arc, &flows[index]);
    }
}

/// Returns the number, counted from 1, of the first node whose net outflow differs from its supply,
/// if it is one of the `N` nodes from `first` on.
fn first_in_block<const N: usize>(problem: &Problem, flows: &[i64], first: usize) -> Option<u32>
    requires few { N ≤ flow_node_limit }
    requires first { first ≤ vec_len problem.now.supplies }
    requires flows { AllZip IsWithinCapacity problem.now.arcs.items flows.now }
    requires before { (v : ℕ) → v < first → NodeKeeps problem.now flows.now v }
    ensures none { IfNone result ((v : ℕ) → v < first + N → NodeKeeps problem.now flows.now v) }
    ensures some { IfSome result (IsFirstFailing (NodeKeeps problem.now flows.now)) }
{
    let mut balances = [0_i128; N];
    carry_all(&mut balances, first, problem, flows);
    let end = problem.supplies.len().min(first + N);
    for node in first..end {
        if balances[node - first] != wide(&problem.supplies[node]) {
            return Some(node as u32 + 1);
        }
    }
    None
}

/// Returns the number, counted from 1, of the first node whose net outflow differs from its supply.
/// Takes one pass over the arcs for each block of nodes.
pub fn first_unbalanced(problem: &Problem, flows: &[i64]) -> Option<u32>
    requires { AllZip IsWithinCapacity problem.now.arcs.items flows.now }
    ensures none { IfNone result ((v : ℕ) → NodeKeeps problem.now flows.now v) }
    ensures some { IfSome result (IsFirstFailing (NodeKeeps problem.now flows.now)) }
{
    let mut first = 0;
    while first < problem.supplies.len() {
        let found = first_in_block::<BLOCK>(problem, flows, first);
        if found.is_some() {
            return found;
        }
        first += BLOCK;
    }
    None
}
