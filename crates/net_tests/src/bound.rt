//! The worlds that models are bound to, as texts to compare.

use crate::values::{member_shown, tuple_shown};
use net_bind::{Member, World};
use net_expr::{Entry, Env};
use net_lex::Token;
use net_sets::{KeyList, KeyValues, TupleSet};
use net_tree::{Decl, Model};
use std::alloc::{AllocError, Global};

/// The tuples of a set in order, each with a semicolon.
fn tuples_shown(alloc: Global, set: &TupleSet<'_>) -> Result<String, AllocError> {
    let mut out = String::new(alloc);
    for place in 0..set.len() {
        out.push_str(tuple_shown(alloc, &set.tuple_at(place))?.as_str())?;
        out.push_str(";")?;
    }
    Ok(out)
}

fn value_or_none(alloc: Global, value: Option<&Member<'_>>) -> Result<String, AllocError> {
    match value {
        Some(member) => member_shown(alloc, member),
        None => String::from_str(alloc, "none"),
    }
}

/// The keys of a parameter in order, each with its value or `none`.
fn values_shown<'s>(
    alloc: Global,
    keys: &KeyList<'s>,
    values: &KeyValues<'s>,
) -> Result<String, AllocError> {
    let mut out = String::new(alloc);
    for place in 0..keys.len() {
        if let Some(key) = keys.get(place) {
            out.push_str(tuple_shown(alloc, &key)?.as_str())?;
            let value = value_or_none(alloc, values.get(&key))?;
            out.push_str(format!(in alloc; " = {value};")?.as_str())?;
        }
    }
    Ok(out)
}

/// A set with its dimension, or a parameter with the number of its subscripts.
fn entry_shown<'s>(
    alloc: Global,
    name: &Token<'s>,
    entry: Option<&Entry<'s>>,
) -> Result<String, AllocError> {
    let name = name.text.as_str();
    match entry {
        Some(Entry::Set(dimension, set)) => {
            let tuples = tuples_shown(alloc, set.set())?;
            format!(in alloc; "{name} of {dimension}:{tuples} ")
        }
        Some(Entry::Parameter(count, keys, values)) => {
            let values = values_shown(alloc, keys, values)?;
            format!(in alloc; "{name} by {count:?}:{values} ")
        }
        None => format!(in alloc; "{name}: not bound ")
    }
}

/// The sets and parameters of a model in its world, in the order of their declarations.
pub fn world_shown<'s>(
    alloc: Global,
    model: &Model<'s>,
    world: &World<'s>,
) -> Result<String, AllocError> {
    let env = Env::of_world(world);
    let mut out = String::new(alloc);
    for declaration in model.declarations.as_slice() {
        match declaration {
            Decl::Set(_, name, _, _) | Decl::Param(_, name, _, _, _) => {
                let shown = entry_shown(alloc, name, env.find(&name.text))?;
                out.push_str(shown.as_str())?;
            }
            _ => {}
        }
    }
    Ok(out)
}
