//! The number of members of the keys of an indexing expression by its form alone, if it has no
//! keys.

ghost use Rattle.std.specs.Prelude.{◌≡◌, ◌+◌, Some, IfOk};
ghost use Rattle.std.specs.Option.{option_copied, option_map};
ghost use Rattle.net_tree.specs.View.{tree, braces_of, links_of};
ghost use Rattle.net_expr.specs.Items as items;
ghost use Rattle.net_tree.specs.Operations.{operation};
ghost use Rattle.net_base.specs.Outcomes.{Refines, Yields};
ghost use Rattle.net_expr.specs.Rows as rows;
ghost use Rattle.net_expr.specs.Sets.{counted};
ghost use Rattle.net_expr.specs.Widths as widths;

use crate::index_item::{any_in, bare, has_in, links_len, new_dummy};
use crate::keys::Inside;
use crate::row::Row;
use crate::scope::Scope;
use crate::world::{Entry, Env};
use net_base::{ErrorCode, Excerpt, Fault, Span};
use net_sets::{ARITY_LIMIT, Member};
use net_tree::{BinOp, Braces, Expr, LinkedOperand, sides_of};
use std::alloc::{AllocError, Global};

/// The form of items: the dummies in scope, the number of key members, whether all are sets.
#[derive(Drop)]
pub(crate) struct ItemsForm<'s> {
    pub(crate) scope: Scope<'s>,
    pub(crate) count: u8,
    pub(crate) indexes: bool,
}

/// Adds two numbers of members; all sums above four are equivalent.
fn capped_sum(a: u8, b: u8) -> u8
    ensures { result ≡ widths.capped (a + b) }
{
    (u16::from(a) + u16::from(b)).min(5) as u8
}

fn capped_size(more: &[LinkedOperand<'_>]) -> u8
    ensures { result ≡ widths.capped (1 + items.size (links_of more.now)) }
{
    1 + links_len(more).min(ARITY_LIMIT) as u8
}

fn counted(dimension: Option<u8>) -> u8
    ensures { result ≡ counted dimension }
{
    dimension.unwrap_or(1)
}

fn set_width(entry: Option<&Entry<'_>>) -> Option<u8>
    ensures { result ≡ widths.set_width (option_copied entry.entry) }
{
    match entry {
        Some(Entry::Set(dimension, _)) => Some(*dimension),
        Some(Entry::Parameter(_, _, _)) => None,
        None => None,
    }
}

/// Returns the dimension of a set that is a simple name.
fn named_width<'s>(env: &Env<'_, 's>, scope: &Scope<'s>, component: &Expr<'s>) -> Option<u8>
    ensures { result ≡ widths.named_width env.now scope.now (items.bare (tree component.now)) }
{
    match bare(component) {
        None => None,
        Some(name) => {
            if scope.get(name).is_some() {
                None
            } else {
                set_width(env.find(name))
            }
        }
    }
}

fn or_one(dimension: Option<u8>) -> Option<u8>
    ensures { result ≡ widths.or_one dimension }
{
    Some(dimension.unwrap_or(1))
}

fn makes_set(operation: BinOp) -> bool
    ensures { result ≡ widths.makes_set operation }
{
    match operation {
        BinOp::Range | BinOp::Cross | BinOp::Inter => true,
        BinOp::Union | BinOp::Diff | BinOp::Symdiff => true,
        _ => false,
    }
}

fn begin_set(links: &[LinkedOperand<'_>]) -> bool
    ensures { result ≡ widths.begin_set (links_of links.now) }
{
    match links {
        [] => false,
        [link, ..] => makes_set(link.operator.op()),
    }
}

/// Returns whether a tree is a set by its form; for an `if`, its `then` branch decides.
#[tactic(auto, using(net_tree::proofs::Views::views))]
fn is_set_form<'s>(env: &Env<'_, 's>, scope: &Scope<'s>, expr: &Expr<'s>) -> bool
    ensures { result ≡ widths.is_set_form env.now scope.now (tree expr.now) }
{
    match expr {
        Expr::Leaf(_) => named_width(env, scope, expr).is_some(),
        Expr::Parens(parts) => is_set_form(env, scope, &parts.get().1),
        Expr::Braced(_) => true,
        Expr::Chain(_, operands) => begin_set(operands.get().more.as_slice()),
        Expr::If(_, branch, _) => is_set_form(env, scope, &branch.get().value),
        Expr::Indexed(_) | Expr::Tuple(_) | Expr::Negated(_) | Expr::Signed(_) => false,
        Expr::Reduction(_, _) | Expr::Net(_) => false,
    }
}

fn of_either(first: Option<u8>, second: Option<u8>) -> Option<u8>
    ensures { result ≡ widths.of_either first second }
{
    match first {
        None => Some(counted(second)),
        Some(dimension) => Some(dimension),
    }
}

fn combined(operation: BinOp, first: Option<u8>, second: Option<u8>) -> Option<u8>
    ensures { result ≡ widths.combined operation first second }
{
    match operation {
        BinOp::Range => Some(1),
        BinOp::Cross => Some(capped_sum(counted(first), counted(second))),
        BinOp::Inter | BinOp::Union => of_either(first, second),
        BinOp::Diff | BinOp::Symdiff => of_either(first, second),
        _ => first,
    }
}

fn begin<'s>(alloc: Global, scope: &Scope<'s>) -> Result<ItemsForm<'s>, AllocError>
    ensures { IfOk result (λ f. f ≡ widths.begin scope.now) }
{
    Ok(ItemsForm {
        scope: scope.copied(alloc)?,
        count: 0,
        indexes: true,
    })
}

fn with_component<'s>(
    alloc: Global,
    env: &Env<'_, 's>,
    form: ItemsForm<'s>,
    component: &Expr<'s>,
) -> Result<ItemsForm<'s>, AllocError>
    ensures { IfOk result (λ f. f ≡ widths.with_component env.now form.entry (tree component.now)) }
{
    match new_dummy(env, &form.scope, component) {
        None => Ok(form),
        Some(name) => {
            let scope = form.scope.with(alloc, name.copied(), Member::Number(0))?;
            Ok(ItemsForm {
                scope,
                count: capped_sum(form.count, 1),
                indexes: form.indexes,
            })
        }
    }
}

fn with_components<'s>(
    alloc: Global,
    env: &Env<'_, 's>,
    form: ItemsForm<'s>,
    links: &[LinkedOperand<'s>],
) -> Result<ItemsForm<'s>, AllocError>
    ensures { IfOk result (λ f. f ≡ widths.with_components env.now form.entry (links_of links.now)) }
{
    let mut form = form;
    for link in links {
        form = with_component(alloc, env, form, &link.operand)?;
    }
    Ok(form)
}

fn with_tuple<'s>(
    alloc: Global,
    env: &Env<'_, 's>,
    form: ItemsForm<'s>,
    first: &Expr<'s>,
    more: &[LinkedOperand<'s>],
) -> Result<ItemsForm<'s>, AllocError>
    ensures { IfOk result (λ f. f ≡ widths.with_components env.now (widths.with_component env.now form.entry (tree first.now)) (links_of more.now)) }
{
    let form = with_component(alloc, env, form, first)?;
    with_components(alloc, env, form, more)
}

/// Adds the left side of `in`.
#[tactic(auto, using(net_tree::proofs::Views::views))]
fn with_left<'s>(
    alloc: Global,
    env: &Env<'_, 's>,
    form: ItemsForm<'s>,
    left: &Expr<'s>,
) -> Result<ItemsForm<'s>, AllocError>
    ensures { IfOk result (λ f. f ≡ widths.with_left env.now form.entry (tree left.now)) }
{
    match left {
        Expr::Tuple(parts) => {
            let series = &parts.get().1;
            with_tuple(alloc, env, form, &series.first, series.more.as_slice())
        }
        Expr::Leaf(_) | Expr::Indexed(_) | Expr::Parens(_) | Expr::Negated(_) => {
            with_component(alloc, env, form, left)
        }
        Expr::Braced(_) | Expr::Signed(_) | Expr::Reduction(_, _) | Expr::Chain(_, _) => {
            with_component(alloc, env, form, left)
        }
        Expr::If(_, _, _) | Expr::Net(_) => with_component(alloc, env, form, left),
    }
}

/// Adds an item that is a set of this dimension by its form, or not a set.
fn with_plain<'s>(form: ItemsForm<'s>, dimension: Option<u8>, is_set: bool) -> ItemsForm<'s>
    ensures { result ≡ widths.with_plain form.entry dimension is_set }
{
    let ItemsForm {
        scope,
        count,
        indexes,
    } = form;
    ItemsForm {
        scope,
        count: capped_sum(count, counted(dimension)),
        indexes: indexes && is_set,
    }
}

/// Returns the dimension of a set by its form; other trees count as one member.
#[cycle(width)]
#[tactic(auto, using(net_tree::proofs::Views::views))]
fn tree_width<'s>(
    alloc: Global,
    env: &Env<'_, 's>,
    scope: &Scope<'s>,
    expr: &Expr<'s>,
) -> Result<Option<u8>, AllocError>
    ensures { IfOk result (λ d. d ≡ widths.width env.now scope.now (tree expr.now)) }
{
    match expr {
        Expr::Leaf(_) => Ok(or_one(named_width(env, scope, expr))),
        Expr::Parens(parts) => tree_width(alloc, env, scope, &parts.get().1),
        Expr::Tuple(parts) => Ok(Some(capped_size(parts.get().1.more.as_slice()))),
        Expr::Braced(braces) => braces_width(alloc, env, scope, braces.get()),
        Expr::Chain(_, operands) => {
            let series = operands.get();
            chain_width(alloc, env, scope, &series.first, series.more.as_slice())
        }
        Expr::If(_, branch, _) => tree_width(alloc, env, scope, &branch.get().value),
        Expr::Indexed(_) | Expr::Negated(_) | Expr::Signed(_) => Ok(Some(1)),
        Expr::Reduction(_, _) | Expr::Net(_) => Ok(Some(1)),
    }
}

#[cycle(width)]
fn chain_width<'s>(
    alloc: Global,
    env: &Env<'_, 's>,
    scope: &Scope<'s>,
    first: &Expr<'s>,
    more: &[LinkedOperand<'s>],
) -> Result<Option<u8>, AllocError>
    ensures { IfOk result (λ d. d ≡ widths.chain_width env.now scope.now (widths.width env.now scope.now (tree first.now)) (links_of more.now)) }
{
    let mut so_far = tree_width(alloc, env, scope, first)?;
    for link in more {
        let operand = tree_width(alloc, env, scope, &link.operand)?;
        so_far = combined(link.operator.op(), so_far, operand);
    }
    Ok(so_far)
}

#[cycle(width)]
#[tactic(auto, using(net_tree::proofs::Views::views))]
fn braces_width<'s>(
    alloc: Global,
    env: &Env<'_, 's>,
    scope: &Scope<'s>,
    braces: &Braces<'s>,
) -> Result<Option<u8>, AllocError>
    ensures { IfOk result (λ d. d ≡ widths.braces_width env.now scope.now (braces_of braces.now)) }
{
    match braces {
        Braces::Empty(_, _, _) => Ok(None),
        Braces::Filled(_, series, _, _) => {
            filled_width(alloc, env, scope, &series.first, series.more.as_slice())
        }
    }
}

#[cycle(width)]
fn filled_width<'s>(
    alloc: Global,
    env: &Env<'_, 's>,
    scope: &Scope<'s>,
    item: &Expr<'s>,
    more: &[LinkedOperand<'s>],
) -> Result<Option<u8>, AllocError>
    ensures { IfOk result (λ d. d ≡ widths.items_width env.now scope.now (tree item.now) (links_of more.now)) }
{
    if has_in(item) || any_in(more) || is_set_form(env, scope, item) {
        let form = items_form(alloc, env, scope, item, more)?;
        Ok(Some(form.count))
    } else {
        tree_width(alloc, env, scope, item)
    }
}

/// Returns what the form of items determines.
#[cycle(width)]
fn items_form<'s>(
    alloc: Global,
    env: &Env<'_, 's>,
    scope: &Scope<'s>,
    item: &Expr<'s>,
    more: &[LinkedOperand<'s>],
) -> Result<ItemsForm<'s>, AllocError>
    ensures { IfOk result (λ f. f ≡ widths.with_items env.now (widths.with_item env.now (widths.begin scope.now) (tree item.now)) (links_of more.now)) }
{
    let mut form = with_item(alloc, env, begin(alloc, scope)?, item)?;
    for link in more {
        form = with_item(alloc, env, form, &link.operand)?;
    }
    Ok(form)
}

#[cycle(width)]
fn with_item<'s>(
    alloc: Global,
    env: &Env<'_, 's>,
    form: ItemsForm<'s>,
    item: &Expr<'s>,
) -> Result<ItemsForm<'s>, AllocError>
    ensures { IfOk result (λ f. f ≡ widths.with_item env.now form.entry (tree item.now)) }
{
    match sides_of(item) {
        Some((left, _)) => with_left(alloc, env, form, left),
        None => {
            let dimension = tree_width(alloc, env, &form.scope, item)?;
            let is_set = is_set_form(env, &form.scope, item);
            Ok(with_plain(form, dimension, is_set))
        }
    }
}

fn width_of_form(at: Span, form: &ItemsForm<'_>) -> Result<u8, Fault>
    ensures { Yields (widths.width_of_form at form.now) result }
{
    if form.indexes {
        if usize::from(form.count) <= ARITY_LIMIT {
            Ok(form.count)
        } else {
            Err(Fault::of_model(ErrorCode::Arity, at))
        }
    } else {
        Err(Fault::of_model(ErrorCode::KindMismatch, at))
    }
}

fn width_by_form<'s>(
    alloc: Global,
    env: &Env<'_, 's>,
    scope: &Scope<'s>,
    items: &Inside<'_, 's>,
) -> Result<u8, Fault>
    ensures { Refines (widths.width_by_form items.now.at env.now scope.now (tree items.now.first.now) (links_of items.now.more.now)) result }
{
    let form = items_form(alloc, env, scope, items.first, items.more)?;
    width_of_form(items.at, &form)
}

/// Returns the number of members of the found keys, or by the items' form if there are none.
pub(crate) fn width<'s>(
    alloc: Global,
    env: &Env<'_, 's>,
    scope: &Scope<'s>,
    items: &Inside<'_, 's>,
    found: &[Row<'s>],
) -> Result<u8, Fault>
    ensures { Refines (rows.width_of found.now (widths.width_by_form items.now.at env.now scope.now (tree items.now.first.now)
        (links_of items.now.more.now))) result }
{
    match found {
        [] => width_by_form(alloc, env, scope, items),
        [row, ..] => Ok(row.key.len() as u8),
    }
}
