//! The nodes that `from` and `to` refer to.

ghost use Rattle.std.specs.Prelude.{◌≡◌, ◌+◌, ◌<◌, ◌≤◌, ◌^◌, [], option_map, length, IfOk, OnOk};
ghost use Rattle.std.specs.Option.{option_copied};
ghost use Rattle.net_sets.specs.Sets.{place_of};
ghost use Rattle.net_tree.specs.Spans as trees;
ghost use Rattle.net_tree.specs.View.{tree, links_of};
ghost use Rattle.net_normal.specs.Limits.{node_limit};
ghost use Rattle.net_expr.specs.Worlds as worlds;
ghost use Rattle.net_linear.specs.Arcs.{declared};
ghost use Rattle.net_base.specs.declared.error_code.ErrorCode.TheVariants.{NoSuchNode};
ghost use Rattle.net_base.specs.declared.diagnostic.Fault.TheVariants.{At};
ghost use Rattle.net_inst.specs.Nodes as found;
ghost use Rattle.net_base.specs.declared.diagnostic.Language.TheVariants.{Model as InModel};
ghost use Rattle.net_base.specs.Outcomes.{Refines, diagnostic_at as diagnostic};
ghost use Rattle.net_sets.specs.Limits.{tuples_limit};
ghost use Rattle.net_sets.specs.Operations.{union};
ghost use Rattle.net_inst.specs.Groups as groups;
ghost use Rattle.net_expr.specs.Rows.{keys_of};

use crate::network_names::{NameList, reject};
use crate::node::NodeDraft;
use net_base::{Detail, ErrorCode, Excerpt, Fault, Span};
use net_expr::{Env, Indexing, RowList, Scope, key_count, reject_tree, reported_reference};
use net_lex::Token;
use net_linear::{KeyNumbers, NumberedNames, key_of};
use net_sets::{HashKey, KeyList, SetFault, Tuple};
use net_tree::{Expr, LinkedOperand, span_of};
use std::alloc::{AllocError, Global};

/// A reference to a node, by a declared name and a key.
#[derive(Clone, Copy)]
struct Reference<'a, 's> {
    /// Its span.
    at: Span,
    name: &'a Excerpt<'s>,
    /// The number of members of the keys of the name.
    count: Option<u8>,
    key: &'a Tuple<'s>,
}

/// Builds the error for a node that does not exist; the reference is its detail. Fails only if
/// memory runs out.
fn no_such_node(alloc: Global, reference: &Reference<'_, '_>) -> Result<Fault, AllocError>
    ensures { IfOk result (λ f. f ≡ At (diagnostic InModel NoSuchNode reference.now.at (worlds.reference reference.now.name.now reference.now.count
        reference.now.key.now))) }
{
    let detail = reported_reference(alloc, reference.name, reference.count, reference.key)?;
    Ok(reject(ErrorCode::NoSuchNode, reference.at, detail))
}

/// Returns a number if it is that of one of `count` nodes, or an error.
fn among(
    alloc: Global,
    count: usize,
    reference: &Reference<'_, '_>,
    number: usize,
) -> Result<u32, Fault>
    requires { count ≤ node_limit }
    ensures value { Refines (found.index_within count reference.now.at (worlds.reference reference.now.name.now reference.now.count reference.now.key.now)
        number) result }
{
    if number < count {
        Ok(number as u32)
    } else {
        Err(no_such_node(alloc, reference)?)
    }
}

/// Returns the node with a key in a declaration.
fn numbered<'s>(
    alloc: Global,
    count: usize,
    at: Span,
    name: &Excerpt<'s>,
    numbers: &KeyNumbers<'s>,
    key: Tuple<'s>,
) -> Result<u32, Fault>
    requires { count ≤ node_limit }
    ensures value { Refines (found.numbered count at (worlds.reference name.now numbers.now.count key.entry) numbers.now.first (place_of numbers.now.keys
        key.entry)) result }
{
    let reference = Reference {
        at,
        name,
        count: numbers.count,
        key: &key,
    };
    match numbers.keys.position(&key) {
        Some(place) => among(alloc, count, &reference, numbers.at(place)),
        None => Err(no_such_node(alloc, &reference)?),
    }
}

/// Returns the node with a name and a key.
fn node_at<'s>(
    alloc: Global,
    count: usize,
    whole: &Expr<'s>,
    name: &Excerpt<'s>,
    numbers: Option<&KeyNumbers<'s>>,
    key: Tuple<'s>,
) -> Result<u32, Fault>
    requires { count ≤ node_limit }
    ensures value { Refines (found.node_at count (trees.span_of (tree whole.now)) name.now (option_copied numbers.entry) key.entry) result }
{
    match numbers {
        None => {
            let detail = Detail::of_name(alloc, name)?;
            Err(reject(ErrorCode::NoSuchNode, span_of(whole), detail))
        }
        Some(numbers) => {
            if key.len() == key_count(numbers.count) {
                numbered(alloc, count, span_of(whole), name, numbers, key)
            } else {
                Err(reject_tree(ErrorCode::Arity, whole))
            }
        }
    }
}

/// Returns a name and its subscripts, if there are any.
#[tactic(auto, using(net_tree::proofs::Views::views))]
fn name_in<'a, 's>(
    expr: &'a Expr<'s>,
) -> Option<
    (
        &'a Token<'s>,
        Option<(&'a Expr<'s>, &'a [LinkedOperand<'s>])>,
    ),
>
    ensures { option_map (λ p. (p.0.now, option_map (λ q. (tree q.0.now, links_of q.1.now)) p.1)) result ≡ found.name_in (tree expr.entry.now) }
{
    match expr {
        Expr::Leaf(leaf) => Some((leaf.token(), None)),
        Expr::Indexed(parts) => {
            let (name, _, series, _) = parts.get();
            Some((name, Some((&series.first, series.more.as_slice()))))
        }
        Expr::Parens(_) | Expr::Tuple(_) | Expr::Negated(_) | Expr::Braced(_) => None,
        Expr::Signed(_) | Expr::Reduction(_, _) | Expr::Chain(_, _) => None,
        Expr::If(_, _, _) | Expr::Net(_) => None,
    }
}

/// Returns the keys of the declaration that a reference to a node names, if there is one.
pub(crate) fn end_keys<'a, 's>(
    nodes: &'a NodeDraft<'s>,
    end: &Option<&Expr<'s>>,
) -> Option<&'a KeyNumbers<'s>>
    ensures { option_copied result ≡ found.end_keys nodes.entry.now (option_map tree (option_copied end.now)) }
{
    match end {
        None => None,
        Some(expr) => match name_in(expr) {
            None => None,
            Some((name, _)) => nodes.keys_of(&name.text),
        },
    }
}

/// Returns the number of the node of a reference, given the keys of the declaration that it names;
/// its subscripts are evaluated first.
pub(crate) fn node_named<'s>(
    alloc: Global,
    env: &Env<'_, 's>,
    scope: &Scope<'s>,
    nodes: &NodeDraft<'s>,
    expr: &Expr<'s>,
    keys: Option<&KeyNumbers<'s>>,
) -> Result<u32, Fault>
    requires { option_copied keys ≡ found.named_keys nodes.now (found.name_in (tree expr.now)) }
    ensures value { Refines (found.node_named nodes.now env.now scope.now (tree expr.now)) result }
{
    match name_in(expr) {
        None => Err(reject_tree(ErrorCode::KindMismatch, expr)),
        Some((name, None)) => { node_at(alloc, nodes.len(), expr, &name.text, keys, Tuple::new()) }
        Some((name, Some((first, more)))) => {
            let key = key_of(alloc, env, scope, expr, first, more)?;
            node_at(alloc, nodes.len(), expr, &name.text, keys, key)
        }
    }
}

/// Declared nodes, or arcs.
#[derive(Drop)]
pub(crate) struct Group<'s> {
    pub(crate) list: NameList<'s>,
    pub(crate) numbers: NumberedNames<'s>,
}

/// Returns the distinct keys of rows. Fails only if memory runs out.
fn keys_in<'s>(
    alloc: Global,
    hash_key: HashKey,
    rows: &RowList<'s>,
) -> Result<KeyList<'s>, AllocError>
    requires { length rows.now ≤ tuples_limit }
    ensures { IfOk result (λ keys. keys ≡ union [] (keys_of rows.now)) }
{
    match rows.keys(alloc, hash_key) {
        Ok(keys) => Ok(keys),
        Err(SetFault::OutOfMemory) => Err(AllocError),
        Err(SetFault::TooMany) => unreachable!(),
    }
}

/// Declares a name, unless it is already declared. Fails only if memory runs out.
fn declare_number<'s>(
    alloc: Global,
    name: &Excerpt<'s>,
    first: u32,
    indexing: &Indexing<'s>,
    numbers: &mut NumberedNames<'s>,
) -> Result<(), AllocError>
    requires { length indexing.now.rows ≤ tuples_limit }
    ensures { OnOk result (numbers.new ≡ groups.numbers_with numbers.old name.now first indexing.now) }
{
    if numbers.has(name) {
        return Ok(());
    }
    let added = KeyNumbers {
        count: indexing.count,
        first,
        keys: keys_in(alloc, numbers.hash_key(), &indexing.rows)?,
    };
    numbers.add(name, added)
}

impl<'s> Group<'s> {
    /// Creates a group without declarations. The hash key has to be that of the run.
    pub(crate) fn new(alloc: Global, hash_key: HashKey) -> Group<'s>
        ensures { result ≡ groups.no_group }
    {
        Group {
            list: NameList::new(alloc),
            numbers: NumberedNames::new(alloc, hash_key),
        }
    }

    /// Adds a declaration whose first node or arc has this number. Fails only if memory runs out.
    pub(crate) fn declare(
        &mut self,
        alloc: Global,
        name: &Excerpt<'s>,
        first: u32,
        indexing: Indexing<'s>,
    ) -> Result<(), AllocError>
        requires { length indexing.rows ≤ tuples_limit }
        ensures { OnOk result (self.new ≡ groups.group_with self.old name.now first indexing.entry) }
    {
        declare_number(alloc, name, first, &indexing, &mut self.numbers)?;
        let Indexing { count, rows } = indexing;
        self.list.declare(name, count, rows)
    }
}
