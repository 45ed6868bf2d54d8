//! Which tuples of a set can match an item of an indexing expression, as far as the dummies in
//! scope on its left side determine it.

ghost use Rattle.std.specs.Prelude.{◌≡◌, is_some};
ghost use Rattle.net_sets.specs.Components.{sought};
ghost use Rattle.net_tree.specs.View.{tree, links_of};
ghost use Rattle.net_expr.specs.Items as items;
ghost use Rattle.net_expr.specs.Selecting as select;

use crate::index_item::{bare, new_dummy};
use crate::scope::Scope;
use crate::world::Env;
use net_sets::{Cow, Cursor, Member};
use net_tree::{Expr, LinkedOperand, sides_of};

/// Returns the member of a simple name that is a dummy in scope.
fn dummy_alone<'s>(scope: &Scope<'s>, component: &Expr<'s>) -> Option<Member<'s>>
    ensures { result ≡ select.dummy_alone scope.now (items.bare (tree component.now)) }
{
    match bare(component) {
        None => None,
        Some(name) => match scope.get(name) {
            None => None,
            Some(member) => Some(member.copied()),
        },
    }
}

fn is_new<'s>(env: &Env<'_, 's>, scope: &Scope<'s>, component: &Expr<'s>) -> bool
    ensures { result ≡ is_some (items.new_dummy env.now scope.now (tree component.now)) }
{
    new_dummy(env, scope, component).is_some()
}

/// Returns the selecting component and its member, among the components after the first.
fn selecting_after<'s>(
    env: &Env<'_, 's>,
    scope: &Scope<'s>,
    links: &[LinkedOperand<'s>],
) -> Option<(usize, Member<'s>)>
    ensures { result ≡ select.selecting_from env.now scope.now 1 (links_of links.now) }
{
    for place in 0..links.len() {
        let component = &links[place].operand;
        match dummy_alone(scope, component) {
            Some(member) => return Some((place + 1, member)),
            None => {
                if !is_new(env, scope, component) {
                    return None;
                }
            }
        }
    }
    None
}

#[tactic(auto, using(net_tree::proofs::Views::views))]
fn selecting_left<'s>(
    env: &Env<'_, 's>,
    scope: &Scope<'s>,
    left: &Expr<'s>,
) -> Option<(usize, Member<'s>)>
    ensures { result ≡ select.selecting_left env.now scope.now (tree left.now) }
{
    match left {
        Expr::Tuple(parts) => {
            let series = &parts.get().1;
            selecting_first(env, scope, &series.first, series.more.as_slice())
        }
        Expr::Leaf(_) | Expr::Indexed(_) | Expr::Parens(_) | Expr::Negated(_) => None,
        Expr::Braced(_) | Expr::Signed(_) | Expr::Reduction(_, _) | Expr::Chain(_, _) => None,
        Expr::If(_, _, _) | Expr::Net(_) => None,
    }
}

fn selecting_first<'s>(
    env: &Env<'_, 's>,
    scope: &Scope<'s>,
    first: &Expr<'s>,
    more: &[LinkedOperand<'s>],
) -> Option<(usize, Member<'s>)>
    ensures { result ≡ select.selecting_components env.now scope.now (tree first.now) (links_of more.now) }
{
    match dummy_alone(scope, first) {
        Some(member) => Some((0, member)),
        None => {
            if is_new(env, scope, first) {
                selecting_after(env, scope, more)
            } else {
                None
            }
        }
    }
}

/// Returns the component by which a tuple on the left side of `in` selects, counted from 0, and the
/// member that is required there.
pub(crate) fn selecting<'s>(
    env: &Env<'_, 's>,
    scope: &Scope<'s>,
    item: &Expr<'s>,
) -> Option<(usize, Member<'s>)>
    ensures { result ≡ select.selecting env.now scope.now (tree item.now) }
{
    match sides_of(item) {
        None => None,
        Some((left, _)) => selecting_left(env, scope, left),
    }
}

/// Returns the tuples of an item's set, without those that the dummies in scope exclude.
pub(crate) fn selected<'w, 's>(
    env: &Env<'_, 's>,
    scope: &Scope<'s>,
    item: &Expr<'s>,
    tuples: Cow<'w, 's>,
) -> Cursor<'w, 's>
    ensures { result ≡ sought (select.selecting env.now scope.now (tree item.now)) tuples.entry }
{
    tuples.walk(selecting(env, scope, item))
}
