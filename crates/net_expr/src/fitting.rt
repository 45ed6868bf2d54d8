//! Matching an item of an indexing expression with a tuple of its set.

ghost use Rattle.std.specs.Prelude.{◌∷◌};
ghost use Rattle.net_tree.specs.Spans as trees;
ghost use Rattle.net_tree.specs.declared.expr.Operands.{out-Operands};
ghost use Rattle.net_tree.specs.View.{tree, links_of};
ghost use Rattle.net_expr.specs.Items as items;
ghost use Rattle.net_base.specs.Outcomes.{Refines};
ghost use Rattle.net_expr.specs.Rows as rows;
ghost use Rattle.net_expr.specs.Values as values;
ghost use Rattle.net_expr.specs.Walks as walks;

use crate::eval::evaluate;
use crate::index_item::new_dummy;
use crate::row::{PartialRow, bind_first, matches_as_tuple, matches_member, stay, with_key};
use crate::world::Env;
use net_base::Fault;
use net_sets::{Member, Tuple};
use net_tree::{Expr, LinkedOperand, Operands, sides_of};
use std::alloc::Global;

/// Returns the state after an item for one tuple of its set, or `None` if the tuple does not match.
#[cycle(eval)]
pub(crate) fn place_at<'s>(
    alloc: Global,
    env: &Env<'_, 's>,
    item: &Expr<'s>,
    tuple: &Tuple<'s>,
    partial: &PartialRow<'s>,
) -> Result<Option<PartialRow<'s>>, Fault>
    ensures { Refines (values.place env.now (tree item.now) tuple.now partial.now) result }
{
    match sides_of(item) {
        None => with_key(alloc, tuple, partial),
        Some((left, _)) => left_place(alloc, env, item, left, tuple, partial),
    }
}

/// Matches the left side of `in` with a tuple: a tuple component by component, anything else as a
/// whole.
#[cycle(eval)]
#[tactic(auto, using(net_tree::proofs::Views::views))]
fn left_place<'s>(
    alloc: Global,
    env: &Env<'_, 's>,
    item: &Expr<'s>,
    left: &Expr<'s>,
    tuple: &Tuple<'s>,
    partial: &PartialRow<'s>,
) -> Result<Option<PartialRow<'s>>, Fault>
    ensures { Refines (values.left_place (trees.span_of (tree item.now)) env.now (tree left.now)
        (values.value env.now partial.now.scope (tree left.now)) tuple.now partial.now) result }
{
    match left {
        Expr::Tuple(parts) => components(alloc, env, left, &parts.get().1, tuple, partial),
        Expr::Leaf(_) | Expr::Indexed(_) | Expr::Parens(_) | Expr::Negated(_) => {
            alone(alloc, env, item, left, tuple, partial)
        }
        Expr::Braced(_) | Expr::Signed(_) | Expr::Reduction(_, _) | Expr::Chain(_, _) => {
            alone(alloc, env, item, left, tuple, partial)
        }
        Expr::If(_, _, _) | Expr::Net(_) => alone(alloc, env, item, left, tuple, partial),
    }
}

/// Matches a single expression on the left side of `in`.
#[cycle(eval)]
fn alone<'s>(
    alloc: Global,
    env: &Env<'_, 's>,
    item: &Expr<'s>,
    left: &Expr<'s>,
    tuple: &Tuple<'s>,
    partial: &PartialRow<'s>,
) -> Result<Option<PartialRow<'s>>, Fault>
    ensures { Refines (rows.match_whole (trees.span_of (tree item.now)) (items.new_dummy env.now partial.now.scope (tree left.now))
        (values.value env.now partial.now.scope (tree left.now)) tuple.now partial.now) result }
{
    match new_dummy(env, &partial.scope, left) {
        Some(name) => bind_first(alloc, name, tuple.as_slice(), partial),
        None => {
            let value = evaluate(alloc, env, &partial.scope, left);
            matches_as_tuple(alloc, item, tuple, partial, value)
        }
    }
}

/// Matches the components of a tuple from left to right, up to the first that does not match.
#[cycle(eval)]
fn components<'s>(
    alloc: Global,
    env: &Env<'_, 's>,
    whole: &Expr<'s>,
    series: &Operands<'s>,
    tuple: &Tuple<'s>,
    partial: &PartialRow<'s>,
) -> Result<Option<PartialRow<'s>>, Fault>
    ensures { Refines (walks.component_places (trees.span_of (tree whole.now)) env.now (tree (out-Operands series.now).first)
        (links_of (out-Operands series.now).more) tuple.now partial.now) result }
{
    match tuple.as_slice() {
        [] => stay(alloc, partial),
        [member, others @ ..] => {
            let here = partial.copied(alloc)?;
            let components = ComponentList {
                first: &series.first,
                more: series.more.as_slice(),
            };
            let members = MemberList {
                first: member,
                more: others,
            };
            fit_all(alloc, env, whole, components, members, here)
        }
    }
}

#[cycle(eval)]
fn places<'s>(
    alloc: Global,
    env: &Env<'_, 's>,
    whole: &Expr<'s>,
    links: &[LinkedOperand<'s>],
    members: &[Member<'s>],
    partial: PartialRow<'s>,
) -> Result<Option<PartialRow<'s>>, Fault>
    ensures { Refines (values.places (trees.span_of (tree whole.now)) env.now (links_of links.now) members.now partial.entry) result }
{
    match links {
        [] => Ok(Some(partial)),
        [link, rest @ ..] => match members {
            [] => Ok(Some(partial)),
            [member, others @ ..] => {
                let components = ComponentList {
                    first: &link.operand,
                    more: rest,
                };
                let members = MemberList {
                    first: member,
                    more: others,
                };
                fit_all(alloc, env, whole, components, members, partial)
            }
        },
    }
}

/// A component of a tuple in an item, and those after it.
#[derive(Clone, Copy)]
struct ComponentList<'a, 's> {
    first: &'a Expr<'s>,
    more: &'a [LinkedOperand<'s>],
}

/// A member of a key, and those after it.
#[derive(Clone, Copy)]
struct MemberList<'a, 's> {
    first: &'a Member<'s>,
    more: &'a [Member<'s>],
}

/// Matches a component, and those after it.
#[cycle(eval)]
fn fit_all<'s>(
    alloc: Global,
    env: &Env<'_, 's>,
    whole: &Expr<'s>,
    components: ComponentList<'_, 's>,
    members: MemberList<'_, 's>,
    partial: PartialRow<'s>,
) -> Result<Option<PartialRow<'s>>, Fault>
    ensures { Refines (walks.component_places (trees.span_of (tree whole.now)) env.now (tree components.entry.first.now)
        (links_of components.entry.more.now) (members.entry.first.now ∷ members.entry.more.now) partial.entry) result }
{
    match fit(alloc, env, whole, components.first, members.first, partial) {
        Ok(None) => Ok(None),
        Ok(Some(next)) => places(alloc, env, whole, components.more, members.more, next),
        Err(fault) => Err(fault),
    }
}

/// Binds a new dummy to the member; any other component must evaluate to it.
#[cycle(eval)]
fn fit<'s>(
    alloc: Global,
    env: &Env<'_, 's>,
    whole: &Expr<'s>,
    component: &Expr<'s>,
    member: &Member<'s>,
    partial: PartialRow<'s>,
) -> Result<Option<PartialRow<'s>>, Fault>
    ensures { Refines (rows.match_component (trees.span_of (tree whole.now)) (items.new_dummy env.now partial.entry.scope (tree component.now))
        (values.value env.now partial.entry.scope (tree component.now)) member.now partial.entry) result }
{
    match new_dummy(env, &partial.scope, component) {
        Some(name) => partial.bind(name, member),
        None => {
            let value = evaluate(alloc, env, &partial.scope, component);
            matches_member(whole, member, partial, value)
        }
    }
}
