//! The nodes of declarations.

ghost use Rattle.std.specs.Prelude.{◌≡◌, ◌≤◌, ◌+◌, length, map, OnOk};
ghost use Rattle.std.specs.Option.{option_copied};
ghost use Rattle.net_tree.specs.View.{condition_of, indexing_of};
ghost use Rattle.net_normal.specs.Limits.{node_limit};
ghost use Rattle.net_linear.specs.Arcs.{declared};
ghost use Rattle.net_inst.specs.Nodes as nodes;
ghost use Rattle.net_inst.specs.Nodes.{sides_of};
ghost use Rattle.net_base.specs.Outcomes.{RefinesAs, Updates};

use crate::network_names::{NameList, reject, reject_name};
use crate::node_name::Group;
use net_base::{ErrorCode, Excerpt, Fault};
use net_expr::{Env, Indexing, Row, RowList, kept_indexing_of, reported_reference};
use net_lex::Token;
use net_linear::{KeyNumbers, node_range};
use net_normal::{NODE_LIMIT, NodeRange};
use net_sets::HashKey;
use net_tree::{Braces, NetCond};
use std::alloc::Global;
use std::marker::Model;
use std::mem;

/// The parts of a declaration of nodes.
#[derive(Clone, Copy)]
struct NodeText<'a, 's> {
    /// The declared name.
    name: &'a Token<'s>,
    condition: &'a NetCond<'s>,
}

/// The nodes of the declarations so far, in order, each with its range.
#[derive(Drop)]
pub(crate) struct NodeDraft<'s> {
    ranges: Vec<NodeRange>,
    group: Group<'s>,
}

impl<'s> Model for NodeDraft<'s> {
    ghost use Rattle.std.specs.Prelude.{◌≤◌, map, length};
    ghost use Rattle.net_normal.specs.Limits.{node_limit};
    ghost use Rattle.net_inst.specs.Nodes.{BuiltNodes, sides_of};

    ghost Value = { BuiltNodes };

    ghost view = { λ d. record { ranges = map sides_of d.ranges.items; group = d.group } };

    ghost invariant = { λ d. length d.ranges.items ≤ node_limit };
}

/// Returns the range of the node at a key. A condition that no net inflow satisfies is reported at
/// the declared name, with the node.
fn range_at<'s>(
    alloc: Global,
    env: &Env<'_, 's>,
    text: &NodeText<'_, 's>,
    count: &Option<u8>,
    row: &Row<'s>,
) -> Result<NodeRange, Fault>
    ensures { RefinesAs sides_of (nodes.node_sides env.now text.now.name.now count.now (condition_of text.now.condition.now) row.now) result }
{
    match node_range(alloc, env, &row.scope, text.condition)? {
        Some(range) => Ok(range),
        None => {
            let detail = reported_reference(alloc, &text.name.text, *count, &row.key)?;
            Err(reject(ErrorCode::NodeCrossed, text.name.span, detail))
        }
    }
}

/// Adds the node at a key.
fn push_range<'s>(
    alloc: Global,
    env: &Env<'_, 's>,
    text: &NodeText<'_, 's>,
    count: &Option<u8>,
    row: &Row<'s>,
    ranges: &mut Vec<NodeRange>,
) -> Result<(), Fault>
    requires { length ranges.now.items ≤ node_limit }
    ensures value { Updates (nodes.next_range env.now text.now.name.now count.now (condition_of text.now.condition.now) row.now (map sides_of ranges.old.items))
        result (map sides_of ranges.new.items) }
    ensures count { OnOk result (length ranges.new.items ≡ length ranges.old.items + 1) }
    ensures few { length ranges.new.items ≤ node_limit }
{
    if ranges.len() < NODE_LIMIT {
        let range = range_at(alloc, env, text, count, row)?;
        ranges.push(range)?;
        Ok(())
    } else {
        Err(reject_name(alloc, ErrorCode::TooManyNodes, text.name)?)
    }
}

/// Adds a node for each key.
fn push_ranges<'s>(
    alloc: Global,
    env: &Env<'_, 's>,
    text: &NodeText<'_, 's>,
    count: &Option<u8>,
    rows: &RowList<'s>,
    ranges: &mut Vec<NodeRange>,
) -> Result<(), Fault>
    requires { length ranges.now.items ≤ node_limit }
    ensures value { Updates (nodes.ranges_at env.now text.now.name.now count.now (condition_of text.now.condition.now) rows.now (map sides_of ranges.old.items))
        result (map sides_of ranges.new.items) }
    ensures count { OnOk result (length rows.now ≤ node_limit) }
    ensures few { length ranges.new.items ≤ node_limit }
{
    for place in 0..rows.len() {
        let row = rows.row(alloc, place)?;
        push_range(alloc, env, text, count, row.get(), ranges)?;
    }
    Ok(())
}

impl<'s> NodeDraft<'s> {
    /// Creates a draft without nodes. The hash key has to be that of the run.
    pub(crate) fn new(alloc: Global, hash_key: HashKey) -> NodeDraft<'s>
        ensures { result ≡ nodes.no_nodes }
    {
        NodeDraft {
            ranges: Vec::new(alloc),
            group: Group::new(alloc, hash_key),
        }
    }

    /// Returns the number of nodes.
    pub(crate) fn len(&self) -> usize
        ensures value { result ≡ length self.now.ranges }
        ensures few { result ≤ node_limit }
    {
        self.ranges.len()
    }

    /// Returns the number of the next node.
    fn next_number(&self) -> u32
        ensures { result ≡ length self.now.ranges }
    {
        self.len() as u32
    }

    /// Returns the keys of a declared name, and the number of its first node.
    pub(crate) fn keys_of(&self, name: &Excerpt<'s>) -> Option<&KeyNumbers<'s>>
        ensures { option_copied result ≡ declared self.now.group.numbers name.now }
    {
        self.group.numbers.get(name)
    }

    /// Adds the nodes of a declaration at its keys.
    fn declare_at(
        &mut self,
        alloc: Global,
        env: &Env<'_, 's>,
        text: &NodeText<'_, 's>,
        indexing: Indexing<'s>,
    ) -> Result<(), Fault>
        ensures { Updates (nodes.nodes_by env.now text.now.name.now (condition_of text.now.condition.now) self.old indexing.entry) result self.new }
    {
        let first = self.next_number();
        let rows = &indexing.rows;
        push_ranges(alloc, env, text, &indexing.count, rows, &mut self.ranges)?;
        self.group.declare(alloc, &text.name.text, first, indexing)?;
        Ok(())
    }

    /// Adds the nodes of a declaration.
    pub(crate) fn declare(
        &mut self,
        alloc: Global,
        env: &Env<'_, 's>,
        name: &Token<'s>,
        braces: &Option<Braces<'s>>,
        condition: &NetCond<'s>,
    ) -> Result<(), Fault>
        ensures { Updates (nodes.with_nodes env.now name.now (indexing_of braces.now) (condition_of condition.now) self.old) result self.new }
    {
        let indexing = kept_indexing_of(alloc, env, braces)?;
        let text = NodeText { name, condition };
        self.declare_at(alloc, env, &text, indexing)
    }

    /// Moves the ranges of the nodes out of the draft.
    pub(crate) fn take_ranges(&mut self, alloc: Global) -> Vec<NodeRange>
        ensures ranges { map sides_of result.items ≡ self.old.ranges }
        ensures count { length result.items ≡ length self.old.ranges }
        ensures few { length result.items ≤ node_limit }
        ensures names { self.new.group.list ≡ self.old.group.list }
    {
        mem::replace(&mut self.ranges, Vec::new(alloc))
    }

    /// Moves the names of the nodes out of the draft.
    pub(crate) fn take_names(&mut self, alloc: Global) -> NameList<'s>
        ensures { result ≡ self.old.group.list }
    {
        mem::replace(&mut self.group.list, NameList::new(alloc))
    }
}
