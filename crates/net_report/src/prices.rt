//! Writing the prices that prove a plan.

ghost use Rattle.std.specs.Prelude.{◌≡◌, ◌+◌, ◌^◌, ◌<◌, ◌++◌, ◌-ℤ◌, IfOk, OnOk, length, map, pos, slice_index_or, vec_len};
ghost use Rattle.std.specs.Option.{ForSome};
ghost use Rattle.net_inst.specs.Lists.{AreInOrder};
ghost use Rattle.net_normal.specs.Limits.{IsSized, IsArcOf};
ghost use Rattle.net_normal.specs.Links.{signed};
ghost use Rattle.net_report.specs.Prices as priced;

use crate::OutOfMemory;
use crate::display::push_blocks;
use net_check::wide::wide;
use net_inst::Names;
use net_normal::{InstArc, Instance, NodeRange, Sense};
use std::alloc::{AllocError, Global};

/// Appends the price of each node and the reduced cost of each arc under their declared names, in
/// the form of a plan: the nodes after a line `prices`, the arcs after a line `reduced costs`.
///
/// The potentials are those of the network's normal form or lean form: one for each node in order,
/// and that of the outside node. Fails only if memory runs out.
pub fn push_prices(
    alloc: Global,
    text: &mut Vec<u8>,
    names: &Names<'_>,
    instance: &Instance,
    potentials: &[i64],
) -> Result<(), OutOfMemory>
    requires potentials { length potentials.now ≡ vec_len instance.now.nodes + 1 }
    requires nodes { length names.now.nodes.keys ≡ vec_len instance.now.nodes }
    requires arcs { length names.now.arcs.keys ≡ vec_len instance.now.arcs }
    ensures value { OnOk result (text.new.items ≡ text.old.items ++ priced.prices_text names.now
        (priced.node_prices instance.now potentials.now) (priced.reduced_costs instance.now potentials.now)) }
{
    let prices = node_prices(alloc, instance, potentials)?;
    let costs = reduced_costs(alloc, instance, potentials)?;
    text.extend_from_slice(b"prices\n")?;
    push_blocks(alloc, text, &names.nodes, &prices)?;
    text.extend_from_slice(b"reduced costs\n")?;
    push_blocks(alloc, text, &names.arcs, &costs)?;
    Ok(())
}

/// Returns the price of each node. Fails only if memory runs out.
fn node_prices(
    alloc: Global,
    instance: &Instance,
    potentials: &[i64],
) -> Result<Vec<i128>, AllocError>
    requires { length potentials.now ≡ vec_len instance.now.nodes + 1 }
    ensures { IfOk result (λ prices. prices.items ≡ priced.node_prices instance.now potentials.now) }
{
    let mut prices = Vec::with_capacity(alloc, instance.nodes.len())?;
    for node in 0..instance.nodes.len() {
        prices.push(node_price(instance, potentials, node))?;
    }
    Ok(prices)
}

/// Returns the reduced cost of each arc. Fails only if memory runs out.
fn reduced_costs(
    alloc: Global,
    instance: &Instance,
    potentials: &[i64],
) -> Result<Vec<i128>, AllocError>
    requires { length potentials.now ≡ vec_len instance.now.nodes + 1 }
    ensures { IfOk result (λ costs. costs.items ≡ priced.reduced_costs instance.now potentials.now) }
{
    let mut costs = Vec::with_capacity(alloc, instance.arcs.len())?;
    for arc in &instance.arcs {
        costs.push(reduced_cost(instance, potentials, arc))?;
    }
    Ok(costs)
}

/// Returns the coefficient of an arc plus the price of its tail minus the price of its head.
fn reduced_cost(instance: &Instance, potentials: &[i64], arc: &InstArc) -> i128
    requires potentials { length potentials.now ≡ vec_len instance.now.nodes + 1 }
    requires arc { IsArcOf (vec_len instance.now.nodes) arc.now }
    ensures { result ≡ priced.reduced_cost (priced.node_prices instance.now potentials.now) arc.now }
{
    let tail = price_at(instance, potentials, &arc.tail);
    let head = price_at(instance, potentials, &arc.head);
    wide(&arc.coefficient) + tail - head
}

/// Returns the price of the node at an end of an arc, or 0 if the end is missing.
fn price_at(instance: &Instance, potentials: &[i64], end: &Option<u32>) -> i128
    requires potentials { length potentials.now ≡ vec_len instance.now.nodes + 1 }
    requires end { ForSome end.now (λ v. v < vec_len instance.now.nodes) }
    ensures value { result ≡ priced.price_at (priced.node_prices instance.now potentials.now) end.now }
    ensures size { IsSized (2 ^ 64) result }
{
    match end {
        Some(node) => node_price(instance, potentials, *node as usize),
        None => 0,
    }
}

/// Returns the price of the node with this index.
fn node_price(instance: &Instance, potentials: &[i64], node: usize) -> i128
    requires potentials { length potentials.now ≡ vec_len instance.now.nodes + 1 }
    requires node { node < vec_len instance.now.nodes }
    ensures value { result ≡ slice_index_or (priced.node_prices instance.now potentials.now) node (pos 0) }
    ensures size { IsSized (2 ^ 64) result }
{
    let above = difference(&potentials[node], &potentials[instance.nodes.len()]);
    let price = limited(&instance.nodes[node], &above);
    signed(instance.sense, &price)
}

fn difference(potential: &i64, outside: &i64) -> i128
    ensures value { result ≡ potential.now -ℤ outside.now }
    ensures size { IsSized (2 ^ 64) result }
{
    wide(potential) - wide(outside)
}

/// Returns the closest number that can be the price of a node with this range, to minimize.
fn limited(range: &NodeRange, price: &i128) -> i128
    ensures value { result ≡ priced.limited range.now.low range.now.high price.now }
    ensures size { IsSized (2 ^ 64) price.now → IsSized (2 ^ 64) result }
{
    match (range.low, range.high) {
        (Some(_), Some(_)) => *price,
        (Some(_), None) => (*price).max(0),
        (None, Some(_)) => (*price).min(0),
        (None, None) => 0,
    }
}

/// Returns the number, negated to maximize.
fn signed(sense: Sense, number: &i128) -> i128
    requires { IsSized (2 ^ 64) number.now }
    ensures value { result ≡ signed sense number.now }
    ensures size { IsSized (2 ^ 64) result }
{
    match sense {
        Sense::Minimise => *number,
        Sense::Maximise => -*number,
    }
}
