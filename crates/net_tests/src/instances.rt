//! What models come to as networks, as texts to compare.

use crate::steps::line_of;
use crate::values::tuple_shown;
use net_bind::World;
use net_inst::{Declared, DeclaredRows, NameList, Named, instantiate};
use net_normal::{InstArc, Instance, NodeRange, Sense};
use net_tree::Model;
use std::alloc::{AllocError, Global};

fn declared_shown(alloc: Global, declared: &Declared<'_>) -> Result<String, AllocError> {
    let name = declared.name.as_str();
    let mark = if declared.indexed { "[]" } else { "" };
    format!(in alloc; " {name}{mark}")
}

fn keys_shown(
    alloc: Global,
    number: usize,
    declaration: &DeclaredRows<'_>,
) -> Result<String, AllocError> {
    let mut out = String::new(alloc);
    for place in 0..declaration.rows.len() {
        let tuple = tuple_shown(alloc, &declaration.rows.key(place))?;
        out.push_str(format!(in alloc; " {number}[{tuple}]")?.as_str())?;
    }
    Ok(out)
}

/// The declared names, and the keys with the numbers of their declarations.
fn names_shown(alloc: Global, names: &NameList<'_>) -> Result<String, AllocError> {
    let mut out = String::new(alloc);
    for declaration in names.declarations() {
        out.push_str(declared_shown(alloc, &declaration.declared)?.as_str())?;
    }
    out.push_str(":")?;
    for (number, declaration) in names.declarations().iter().enumerate() {
        out.push_str(keys_shown(alloc, number, declaration)?.as_str())?;
    }
    Ok(out)
}

fn range_shown(alloc: Global, range: &NodeRange) -> Result<String, AllocError> {
    let (low, high) = (range.low, range.high);
    format!(in alloc; " {low:?} to {high:?};")
}

fn arc_shown(alloc: Global, arc: &InstArc) -> Result<String, AllocError> {
    let (lower, upper, coefficient) = (arc.lower, arc.upper, arc.coefficient);
    let (tail, head) = (arc.tail, arc.head);
    format!(in alloc; " {lower} to {upper} at {coefficient} from {tail:?} to {head:?};")
}

fn sense_shown(sense: Sense) -> &'static str {
    match sense {
        Sense::Minimise => "minimise",
        Sense::Maximise => "maximise",
    }
}

fn instance_shown(alloc: Global, instance: &Instance) -> Result<String, AllocError> {
    let (sense, constant) = (sense_shown(instance.sense), instance.constant);
    let mut out = format!(in alloc; "{sense} {constant}")?;
    for range in instance.nodes.as_slice() {
        out.push_str(range_shown(alloc, range)?.as_str())?;
    }
    for arc in instance.arcs.as_slice() {
        out.push_str(arc_shown(alloc, arc)?.as_str())?;
    }
    Ok(out)
}

fn named_shown(alloc: Global, named: &Named<'_>) -> Result<String, AllocError> {
    let objective = named.names.objective.as_str();
    let nodes = names_shown(alloc, &named.names.nodes)?;
    let arcs = names_shown(alloc, &named.names.arcs)?;
    let instance = instance_shown(alloc, &named.instance)?;
    format!(in alloc; "{objective} |{nodes} |{arcs} | {instance}")
}

/// What `instantiate` answers.
pub fn network_shown<'s>(
    alloc: Global,
    model: &Model<'s>,
    world: &World<'s>,
) -> Result<String, AllocError> {
    match instantiate(alloc, model, world) {
        Ok(named) => named_shown(alloc, &named),
        Err(fault) => line_of(alloc, &fault),
    }
}
