//! The rows of braces whose items are one or two declared sets, as `{LINKS}`, `{(i,j) in LINKS}` and
//! `{p in PEOPLE, s in SHIFTS}`: the keys are those of the sets, so a row need not be kept for each.

ghost use Rattle.std.specs.Prelude.{◌≡◌, ◌≤◌, IsTrue, map, IfOk, Ok, Some};
ghost use Rattle.std.specs.Option.{IfSome};
ghost use Rattle.net_lex.specs.declared.token.Token.{Token};
ghost use Rattle.net_tree.specs.declared.operator.OperatorWords.{OperatorWords};
ghost use Rattle.net_tree.specs.Tree.{filled, link, none, absent};
ghost use Rattle.net_tree.specs.View.{braces_of, links_of, tree};
ghost use Rattle.net_sets.specs.Limits.{arity_limit};
ghost use Rattle.net_expr.specs.DeclaredRows.{AreNewDummies, AreWide, HasNewDummies, IsBinding, IsFactor, IsItem, IsNewDummy, IsOther, IsProductOf, NamesSet};
ghost use Rattle.net_expr.specs.Indexings.{indexing_in};
ghost use Rattle.net_expr.specs.Items as items;

use crate::eval::evaluate;
use crate::index_item::{bare, fits_needed, has_in};
use crate::indexing::Indexing;
use crate::row_list::RowList;
use crate::scope::{Scope, is_same_name};
use crate::world::Env;
use net_base::{Excerpt, Items};
use net_sets::{ARITY_LIMIT, Cow, KeyList, TUPLES_LIMIT, TupleSet, narrowest, widest};
use net_tree::{Braces, Expr, LinkedOperand, sides_of};
use std::alloc::{AllocError, Global};

/// An item over a declared set.
#[derive(Drop)]
struct Factor<'w, 's> {
    /// The number of members of each tuple.
    width: usize,
    has_dummies: bool,
    set: Cow<'w, 's>,
}

/// Returns whether a name is none of these.
fn is_other<'s>(names: &[Excerpt<'s>], name: &Excerpt<'s>) -> bool
    ensures { IsTrue result → IsOther names.now name.now }
{
    for other in names {
        if is_same_name(other, name) {
            return false;
        }
    }
    true
}

/// Adds the name of a new dummy, and returns whether the component is one.
fn add_dummy<'s>(
    env: &Env<'_, 's>,
    component: &Expr<'s>,
    names: &mut Vec<Excerpt<'s>>,
) -> Result<bool, AllocError>
    ensures { IfOk result (λ added. IsTrue added → IsNewDummy env.now names.old.items (items.bare (tree component.now)) (λ now. now ≡ names.new.items)) }
{
    let Some(name) = bare(component) else {
        return Ok(false);
    };
    if env.find(name).is_some() || !is_other(names.as_slice(), name) {
        return Ok(false);
    }
    names.push(name.copied())?;
    Ok(true)
}

/// Adds the names of new dummies, and returns whether all components are some.
fn add_dummies<'s>(
    env: &Env<'_, 's>,
    components: &[LinkedOperand<'s>],
    names: &mut Vec<Excerpt<'s>>,
) -> Result<bool, AllocError>
    ensures { IfOk result (λ added. IsTrue added → AreNewDummies env.now (links_of components.now) names.old.items names.new.items) }
{
    for component in components {
        if !add_dummy(env, &component.operand, names)? {
            return Ok(false);
        }
    }
    Ok(true)
}

/// Adds the dummies to the left of `in`, and returns whether all its components are new dummies.
#[tactic(auto, using(net_tree::proofs::Views::views))]
fn add_left<'s>(
    env: &Env<'_, 's>,
    left: &Expr<'s>,
    names: &mut Vec<Excerpt<'s>>,
) -> Result<bool, AllocError>
    ensures { IfOk result (λ added. IsTrue added → HasNewDummies env.now (tree left.now) names.old.items names.new.items) }
{
    match left {
        Expr::Leaf(_) => add_dummy(env, left, names),
        Expr::Tuple(parts) => {
            let series = &parts.get().1;
            if add_dummy(env, &series.first, names)? {
                add_dummies(env, series.more.as_slice(), names)
            } else {
                Ok(false)
            }
        }
        _ => Ok(false),
    }
}

/// Returns the set that an expression names, and its dimension, if it is no more than a name and
/// none of these dummies.
#[tactic(auto, using(net_tree::proofs::Views::views))]
fn set_named<'w, 's>(
    alloc: Global,
    env: &Env<'w, 's>,
    dummies: &[Excerpt<'s>],
    expr: &Expr<'s>,
) -> Option<(Option<u8>, Cow<'w, 's>)>
    ensures { IfSome result (λ found. NamesSet env.now dummies.now (tree expr.now) found.0 found.1) }
{
    let Expr::Leaf(leaf) = expr else {
        return None;
    };
    if !is_other(dummies, &leaf.token().text) {
        return None;
    }
    let Ok(value) = evaluate(alloc, env, &Scope::new(alloc), expr) else {
        return None;
    };
    value.into_set()
}

/// Returns the declared set to the right of `in`, and adds the dummies to the left of it.
fn bound_set<'w, 's>(
    alloc: Global,
    env: &Env<'w, 's>,
    left: &Expr<'s>,
    right: &Expr<'s>,
    names: &mut Vec<Excerpt<'s>>,
) -> Result<Option<Cow<'w, 's>>, AllocError>
    ensures { IfOk result (λ found. IfSome found (IsBinding env.now (tree left.now) (tree right.now) names.old.items names.new.items)) }
{
    let Some((dimension, set)) = set_named(alloc, env, names.as_slice(), right) else {
        return Ok(None);
    };
    if !fits_needed(dimension, left) {
        return Ok(None);
    }
    if add_left(env, left, names)? {
        Ok(Some(set))
    } else {
        Ok(None)
    }
}

/// Returns the declared set of an item, and adds the item's dummies.
fn set_of_item<'w, 's>(
    alloc: Global,
    env: &Env<'w, 's>,
    item: &Expr<'s>,
    names: &mut Vec<Excerpt<'s>>,
) -> Result<Option<Cow<'w, 's>>, AllocError>
    ensures { IfOk result (λ found. IfSome found (IsItem env.now (tree item.now) names.old.items names.new.items)) }
{
    match sides_of(item) {
        None => match set_named(alloc, env, names.as_slice(), item) {
            None => Ok(None),
            Some((_, set)) => Ok(Some(set)),
        },
        Some((left, right)) => bound_set(alloc, env, left, right, names),
    }
}

/// Returns the number of members of each tuple of a set; `None` if it is not the same for all, or
/// there is no tuple.
fn width_of(set: &TupleSet<'_>) -> Option<usize>
    ensures value { IfSome result (λ width. AreWide width set.now) }
    ensures fits { IfSome result (λ width. width ≤ arity_limit) }
{
    let width = widest(set);
    if narrowest(set) == width {
        Some(width)
    } else {
        None
    }
}

/// Returns what an item over a declared set consists of, and adds the item's dummies.
fn factor_of<'w, 's>(
    alloc: Global,
    env: &Env<'w, 's>,
    item: &Expr<'s>,
    names: &mut Vec<Excerpt<'s>>,
) -> Result<Option<Factor<'w, 's>>, AllocError>
    ensures value { IfOk result (λ found. IfSome found (λ f. IsFactor env.now (tree item.now) names.old.items names.new.items f.width f.set)) }
    ensures bound { IfOk result (λ found. IfSome found (λ f. f.has_dummies ≡ items.has_in (tree item.now))) }
{
    let before = names.len();
    let Some(set) = set_of_item(alloc, env, item, names)? else {
        return Ok(None);
    };
    let Some(width) = width_of(set.get()) else {
        return Ok(None);
    };
    let has_dummies = has_in(item);
    if has_dummies && names.len().saturating_sub(before) != width {
        return Ok(None);
    }
    Ok(Some(Factor {
        width,
        has_dummies,
        set,
    }))
}

/// Returns the rows of `{LINKS}` or `{(i,j) in LINKS}`.
fn one_set<'s>(
    alloc: Global,
    env: &Env<'_, 's>,
    item: &Expr<'s>,
) -> Result<Option<Indexing<'s>>, AllocError>
    ensures { (o c : Token) → IfOk result (λ found. IfSome found (λ i. indexing_in env.now (Some (filled o (tree item.now) none absent c)) ≡ Ok i)) }
{
    let mut names = Vec::new(alloc);
    let Some(factor) = factor_of(alloc, env, item, &mut names)? else {
        return Ok(None);
    };
    let Factor {
        width,
        has_dummies: _,
        set,
    } = factor;
    let keys = KeyList::of_set(set.into_shared(alloc)?);
    let _few = keys.len();
    Ok(Some(Indexing {
        count: Some(width as u8),
        rows: RowList::of_keys(keys, Items::new(names)),
    }))
}

/// Returns the rows of the product of two sets, if it is not too large.
fn product_of<'s>(
    alloc: Global,
    first: Factor<'_, 's>,
    second: Factor<'_, 's>,
    names: Vec<Excerpt<'s>>,
) -> Result<Option<Indexing<'s>>, AllocError>
    requires first { AreWide first.width first.set }
    requires second { AreWide second.width second.set }
    requires short { first.width ≤ arity_limit }
    requires second_short { second.width ≤ arity_limit }
    ensures { IfOk result (λ found. IfSome found (IsProductOf first.entry.width second.entry.width first.entry.set second.entry.set names.entry.items)) }
{
    let Factor {
        width,
        has_dummies: _,
        set: first,
    } = first;
    let Factor {
        width: more,
        has_dummies: _,
        set: second,
    } = second;
    if ARITY_LIMIT < width + more || TUPLES_LIMIT < first.get().len() * second.get().len() {
        return Ok(None);
    }
    let (first, second) = (first.into_shared(alloc)?, second.into_shared(alloc)?);
    let keys = KeyList::of_product(width, first, second);
    Ok(Some(Indexing {
        count: Some((width + more) as u8),
        rows: RowList::of_keys(keys, Items::new(names)),
    }))
}

/// Returns the rows of `{CITIES, PRODUCTS}` or `{p in PEOPLE, s in SHIFTS}`.
fn two_sets<'s>(
    alloc: Global,
    env: &Env<'_, 's>,
    first: &Expr<'s>,
    second: &Expr<'s>,
) -> Result<Option<Indexing<'s>>, AllocError>
    ensures { (o c : Token) (q : OperatorWords) → IfOk result (λ found. IfSome found (λ i. indexing_in env.now (Some (filled o (tree first.now)
        (link q (tree second.now) none) absent c)) ≡ Ok i)) }
{
    let mut names = Vec::new(alloc);
    let Some(one) = factor_of(alloc, env, first, &mut names)? else {
        return Ok(None);
    };
    let Some(two) = factor_of(alloc, env, second, &mut names)? else {
        return Ok(None);
    };
    if one.has_dummies == two.has_dummies {
        product_of(alloc, one, two, names)
    } else {
        Ok(None)
    }
}

/// Returns the rows of braces whose items are one or two declared sets, which are not empty, all
/// with dummies or all without, and without a condition.
#[tactic(auto, using(net_tree::proofs::Views::views))]
pub(crate) fn declared_rows<'s>(
    alloc: Global,
    env: &Env<'_, 's>,
    braces: &Braces<'s>,
) -> Result<Option<Indexing<'s>>, AllocError>
    ensures { IfOk result (λ found. IfSome found (λ i. indexing_in env.now (Some (braces_of braces.now)) ≡ Ok i)) }
{
    match braces {
        Braces::Empty(_, _, _) => Ok(None),
        Braces::Filled(_, series, condition, _) => match condition {
            Some(_) => Ok(None),
            None => match series.more.as_slice() {
                [] => one_set(alloc, env, &series.first),
                [link] => two_sets(alloc, env, &series.first, &link.operand),
                _ => Ok(None),
            },
        },
    }
}
