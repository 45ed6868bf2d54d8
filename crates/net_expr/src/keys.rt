//! The keys of an indexing expression, found by iterating over its items.

ghost use Rattle.std.specs.Prelude.{◌≡◌, ◌≤◌, [], Ok, IfOk, IfSome};
ghost use Rattle.net_sets.specs.Components.{sought};
ghost use Rattle.net_tree.specs.Spans as trees;
ghost use Rattle.net_tree.specs.View.{tree, braces_of, links_of, option_part};
ghost use Rattle.net_tree.specs.Weights.{weights};
ghost use Rattle.net_expr.specs.Frames as frames;
ghost use Rattle.net_expr.specs.Items as items;
ghost use Rattle.net_base.specs.Outcomes.{Refines, Updates, and_then, each};
ghost use Rattle.net_expr.specs.Rows as rows;
ghost use Rattle.net_expr.specs.Selecting as select;
ghost use Rattle.net_expr.specs.Values as values;
ghost use Rattle.net_expr.specs.Walks as walks;

use crate::eval::{evaluate, evaluate_more};
use crate::fitting::place_at;
use crate::index_item::{any_in, chosen, has_part, is_set, tuples_of};
use crate::list::{listed, no_items};
use crate::operators::truth_at;
use crate::row::{Keys, PartialRow, Row, as_keys, keep_if, start};
use crate::scope::Scope;
use crate::selecting::selected;
use crate::value::Value;
use crate::width::width;
use crate::world::Env;
use net_base::{Boxed, Fault, Items, Span};
use net_sets::{Cow, Cursor};
use net_tree::{Braces, Expr, LinkedOperand, Part, sides_of, span_between};
use std::alloc::Global;

/// Returns the keys of an indexing expression, each with the dummies in scope.
#[cycle(eval)]
#[tactic(auto, using(net_tree::proofs::Views::views))]
pub(crate) fn index<'s>(
    alloc: Global,
    env: &Env<'_, 's>,
    scope: &Scope<'s>,
    braces: &Braces<'s>,
) -> Result<Keys<'s>, Fault>
    ensures { Refines (values.index env.now scope.now (braces_of braces.now)) result }
{
    match braces {
        Braces::Empty(open, condition, close) => {
            no_items(alloc, span_between(open, close), has_part(condition))
        }
        Braces::Filled(open, series, condition, close) => {
            let items = Inside {
                at: span_between(open, close),
                first: &series.first,
                more: series.more.as_slice(),
                condition,
            };
            index_items(alloc, env, scope, &items)
        }
    }
}

#[cycle(eval)]
fn index_items<'s>(
    alloc: Global,
    env: &Env<'_, 's>,
    scope: &Scope<'s>,
    items: &Inside<'_, 's>,
) -> Result<Keys<'s>, Fault>
    ensures { Refines (walks.index_items items.now.at env.now scope.now (tree items.now.first.now) (links_of items.now.more.now)
        (option_part items.now.condition.now)) result }
{
    let item = items.first;
    match sides_of(item) {
        Some((left, set)) => {
            let tuples = choose(alloc, env, scope, item, left, set)?;
            select(alloc, env, scope, items, tuples)
        }
        None => {
            let value = evaluate(alloc, env, scope, item)?;
            open(alloc, env, scope, items, value)
        }
    }
}

/// Evaluates braces without `in`, which are an indexing expression if their first item is a set.
#[cycle(eval)]
fn open<'w, 's>(
    alloc: Global,
    env: &Env<'w, 's>,
    scope: &Scope<'s>,
    items: &Inside<'_, 's>,
    value: Value<'w, 's>,
) -> Result<Keys<'s>, Fault>
    ensures { Refines (walks.opened_keys items.now.at env.now scope.now (tree items.now.first.now) (links_of items.now.more.now)
        (option_part items.now.condition.now) value.entry) result }
{
    if any_in(items.more) || is_set(&value) {
        let tuples = tuples_of(items.at, Ok(value))?;
        select(alloc, env, scope, items, tuples)
    } else {
        let found = evaluate_more(alloc, env, scope, value, items.more);
        listed(
            alloc,
            env,
            items.at,
            scope,
            has_part(items.condition),
            found,
        )
    }
}

/// Returns the keys that the items produce, filtered by the condition.
#[cycle(eval)]
fn select<'w, 's>(
    alloc: Global,
    env: &Env<'w, 's>,
    scope: &Scope<'s>,
    items: &Inside<'_, 's>,
    tuples: Cow<'w, 's>,
) -> Result<Keys<'s>, Fault>
    ensures { Refines (walks.walked items.now.at env.now scope.now (tree items.now.first.now) (links_of items.now.more.now)
        (option_part items.now.condition.now) tuples.entry) result }
{
    let found = collect(alloc, env, scope, items, tuples)?;
    let width = width(alloc, env, scope, items, found.as_slice())?;
    keep(alloc, env, items.at, items.condition, width, found)
}

/// Returns the keys that the items produce.
#[cycle(eval)]
fn collect<'w, 's>(
    alloc: Global,
    env: &Env<'w, 's>,
    scope: &Scope<'s>,
    items: &Inside<'_, 's>,
    tuples: Cow<'w, 's>,
) -> Result<Items<Row<'s>>, Fault>
    ensures { Refines (each (rows.onward (values.place env.now (tree items.now.first.now)) (values.walk items.now.at env.now (links_of items.now.more.now))
        (rows.start scope.now)) tuples.entry []) result }
{
    let partial = start(alloc, scope)?;
    let left = selected(env, &partial.scope, items.first, tuples);
    let first = Frame {
        item: items.first,
        more: items.more,
        partial,
        left,
    };
    let mut found = Vec::new(alloc);
    walk(alloc, env, items.at, first, &mut found)?;
    Ok(Items::new(found))
}

/// Produces the remaining keys of an item. Each further item is entered for every state that the
/// items before it produce. Uses an explicit stack, since an indexing expression can have more
/// items than the call stack allows.
#[cycle(eval)]
fn walk<'a, 'w, 's>(
    alloc: Global,
    env: &Env<'w, 's>,
    at: Span,
    first: Frame<'a, 'w, 's>,
    found: &mut Vec<Row<'s>>,
) -> Result<(), Fault>
    ensures { Updates (frames.still at env.now first.entry found.old.items) result found.new.items }
{
    let mut top = first;
    let mut below = Vec::new(alloc);
    'tuples: loop {
        match top.left.first() {
            None => match below.pop() {
                None => return Ok(()),
                Some(frame) => top = frame,
            },
            Some(tuple) => {
                let next = place_at(alloc, env, top.item, &tuple, &top.partial)?;
                top.left.pass();
                match onward(alloc, env, at, top.more, next, found)? {
                    None => {}
                    Some(deeper) => {
                        below.push(top)?;
                        top = deeper;
                    }
                }
            }
        }
    }
}

/// Continues an iteration after a tuple, if it matches: with the next item, or with a complete key
/// if there is none.
#[cycle(eval)]
fn onward<'a, 'w, 's>(
    alloc: Global,
    env: &Env<'w, 's>,
    at: Span,
    items: &'a [LinkedOperand<'s>],
    partial: Option<PartialRow<'s>>,
    found: &mut Vec<Row<'s>>,
) -> Result<Option<Frame<'a, 'w, 's>>, Fault>
    ensures leads { frames.Leads at env.now (rows.go_on (values.walk at env.now (links_of items.entry.now)) found.old.items partial.entry) result
        found.new.items }
    ensures lighter { IfOk result (λ next. IfSome next (λ f. frames.weight_of f ≤ weights (links_of items.entry.now))) }
    ensures steps { IfOk result (λ next. IfSome next (λ f. frames.steps_still at env.now f
        ≡ frames.steps_next (frames.steps at env.now (links_of items.entry.now)) (Ok partial.entry))) }
{
    match partial {
        None => Ok(None),
        Some(partial) => match items {
            [] => {
                partial.finish(at, found)?;
                Ok(None)
            }
            [link, rest @ ..] => {
                let frame = entered(alloc, env, at, &link.operand, rest, partial)?;
                Ok(Some(frame))
            }
        },
    }
}

/// Enters an item in a state.
#[cycle(eval)]
fn entered<'a, 'w, 's>(
    alloc: Global,
    env: &Env<'w, 's>,
    at: Span,
    item: &'a Expr<'s>,
    more: &'a [LinkedOperand<'s>],
    partial: PartialRow<'s>,
) -> Result<Frame<'a, 'w, 's>, Fault>
    ensures { Refines (and_then (walks.item_tuples at env.now partial.entry.scope (tree item.entry.now))
        (λ ts. Ok (record {
          item = item.entry;
          more = more.entry;
          partial = partial.entry;
          left = sought
              (select.selecting env.now partial.entry.scope (tree item.entry.now)) ts;
        }))) result }
{
    let tuples = item_tuples(alloc, env, at, &partial.scope, item)?;
    let left = selected(env, &partial.scope, item, tuples);
    Ok(Frame {
        item,
        more,
        partial,
        left,
    })
}

#[cycle(eval)]
fn item_tuples<'w, 's>(
    alloc: Global,
    env: &Env<'w, 's>,
    at: Span,
    scope: &Scope<'s>,
    item: &Expr<'s>,
) -> Result<Cow<'w, 's>, Fault>
    ensures { Refines (walks.item_tuples at env.now scope.now (tree item.now)) result }
{
    match sides_of(item) {
        Some((left, set)) => choose(alloc, env, scope, item, left, set),
        None => tuples_of(at, evaluate(alloc, env, scope, item)),
    }
}

#[cycle(eval)]
fn choose<'w, 's>(
    alloc: Global,
    env: &Env<'w, 's>,
    scope: &Scope<'s>,
    item: &Expr<'s>,
    left: &Expr<'s>,
    set: &Expr<'s>,
) -> Result<Cow<'w, 's>, Fault>
    ensures { Refines (and_then (values.value env.now scope.now (tree set.now))
        (items.chosen (trees.span_of (tree item.now)) (items.needed (tree left.now)))) result }
{
    chosen(item, left, evaluate(alloc, env, scope, set))
}

/// Filters keys by the condition.
#[cycle(eval)]
fn keep<'s>(
    alloc: Global,
    env: &Env<'_, 's>,
    at: Span,
    condition: &Option<Boxed<Part<'s>>>,
    width: u8,
    found: Items<Row<'s>>,
) -> Result<Keys<'s>, Fault>
    ensures { Refines (and_then (rows.filter_rows (λ q. values.holds at env.now q (option_part condition.now)) found.entry [])
        (λ left. Ok (rows.keys width left))) result }
{
    if !has_part(condition) {
        return Ok(as_keys(width, found));
    }
    let mut kept = Vec::new(alloc);
    for row in found.into_vec() {
        let holds = holds(alloc, env, at, &row.scope, condition);
        keep_if(holds, row, &mut kept)?;
    }
    Ok(as_keys(width, Items::new(kept)))
}

#[cycle(eval)]
#[tactic(auto, using(net_tree::proofs::Views::views))]
fn holds<'s>(
    alloc: Global,
    env: &Env<'_, 's>,
    at: Span,
    scope: &Scope<'s>,
    condition: &Option<Boxed<Part<'s>>>,
) -> Result<bool, Fault>
    ensures { Refines (values.holds at env.now scope.now (option_part condition.now)) result }
{
    match condition {
        None => Ok(true),
        Some(part) => truth_at(at, evaluate(alloc, env, scope, &part.get().value)),
    }
}

/// The items and the condition of an indexing expression, and its span.
#[derive(Drop)]
pub(crate) struct Inside<'a, 's> {
    pub(crate) at: Span,
    pub(crate) first: &'a Expr<'s>,
    pub(crate) more: &'a [LinkedOperand<'s>],
    pub(crate) condition: &'a Option<Boxed<Part<'s>>>,
}

/// An item in a state, with the remaining tuples of its set and the items after it. Its drop is one
/// call, to keep the proofs of functions with many exits small.
pub(crate) struct Frame<'a, 'w, 's> {
    pub(crate) item: &'a Expr<'s>,
    pub(crate) more: &'a [LinkedOperand<'s>],
    pub(crate) partial: PartialRow<'s>,
    pub(crate) left: Cursor<'w, 's>,
}

impl<'a, 'w, 's> Drop for Frame<'a, 'w, 's> {
    fn drop(self) {
        let Frame {
            item: _item,
            more: _more,
            partial: _partial,
            left: _left,
        } = self;
    }
}
