//! The names in expressions, from left to right. A function leaves the scope unchanged unless its
//! comment says what it adds.

ghost use Rattle.std.specs.Prelude.{◌≡◌, OnOk};
ghost use Rattle.net_tree.specs.View.{tree, links_of, braces_of, option_part};
ghost use Rattle.net_names.specs.Dummies as dummies;
ghost use Rattle.net_names.specs.Items as items;
ghost use Rattle.net_names.specs.Meanings.{in_subscripts};
ghost use Rattle.net_names.specs.Names as names;
ghost use Rattle.net_names.specs.Reported as reported;
ghost use Rattle.net_names.specs.Reported.{Reports, name_fault, Decides};
ghost use Rattle.net_tree.specs.Tree as trees;

use crate::iteration::record_item;
use crate::meaning::{Need, in_subscripts, misfit};
use crate::name_fault::NameFault;
use crate::name_scope::{NameScope, add_component, add_left, is_new};
use net_base::{Boxed, ErrorCode};
use net_lex::Token;
use net_tree::{Braces, Expr, LinkedOperand, Part, Role, role_of, sides_of};

/// Checks a name that is used.
pub(crate) fn check_name<'s>(
    need: Need,
    scope: &NameScope<'s>,
    name: &Token<'s>,
) -> Result<(), NameFault<'s>>
    ensures { Decides (name_fault need scope.now name.now) result }
{
    match scope.meaning(&name.text) {
        None => Err(NameFault::At(ErrorCode::Undeclared, name.copied())),
        Some(meaning) => match misfit(need, meaning) {
            None => Ok(()),
            Some(error_code) => Err(NameFault::At(error_code, name.copied())),
        },
    }
}

fn check_leaf<'s>(need: Need, scope: &NameScope<'s>, leaf: &Token<'s>) -> Result<(), NameFault<'s>>
    ensures { Decides (names.tree_fault need scope.now (trees.leaf leaf.now)) result }
{
    match role_of(leaf) {
        Role::Name => check_name(need, scope, leaf),
        _ => Ok(()),
    }
}

#[cycle(names)]
#[tactic(auto, using(net_tree::proofs::Views::views, crate::proofs::Walking::walking))]
pub(crate) fn check<'s>(
    need: Need,
    scope: &mut NameScope<'s>,
    expr: &Expr<'s>,
) -> Result<(), NameFault<'s>>
    ensures value { Reports (names.tree_fault need scope.old (tree expr.now)) result }
    ensures kept { OnOk result (scope.new ≡ scope.old) }
{
    match expr {
        Expr::Leaf(leaf) => check_leaf(need, scope, leaf.token()),
        Expr::Indexed(parts) => {
            let (name, _, series, _) = parts.get();
            check_subscripts(need, scope, name, &series.first, series.more.as_slice())
        }
        Expr::Parens(parts) => check(need, scope, &parts.get().1),
        Expr::Tuple(parts) => {
            let series = &parts.get().1;
            check_series(need, scope, &series.first, series.more.as_slice())
        }
        Expr::Negated(parts) => check(need, scope, &parts.get().2),
        Expr::Braced(braces) => check_braced(need, scope, braces.get()),
        Expr::Signed(parts) => check(need, scope, &parts.get().1),
        Expr::Reduction(parts, body) => check_reduced(need, scope, &parts.get().1, body.get()),
        Expr::Chain(_, operands) => {
            let series = operands.get();
            check_series(need, scope, &series.first, series.more.as_slice())
        }
        Expr::If(condition, branch, otherwise) => check_choice(
            need,
            scope,
            &condition.get().value,
            &branch.get().value,
            otherwise,
        ),
        Expr::Net(_) => Ok(()),
    }
}

/// Checks a name with subscripts.
#[cycle(names)]
fn check_subscripts<'s>(
    need: Need,
    scope: &mut NameScope<'s>,
    name: &Token<'s>,
    first: &Expr<'s>,
    more: &[LinkedOperand<'s>],
) -> Result<(), NameFault<'s>>
    ensures value { Reports (reported.first (name_fault need scope.old name.now)
        (reported.first (names.tree_fault (in_subscripts need) scope.old (tree first.now))
        (names.links_fault (in_subscripts need) scope.old (links_of more.now)))) result }
    ensures kept { OnOk result (scope.new ≡ scope.old) }
{
    check_name(need, scope, name)?;
    check_series(in_subscripts(need), scope, first, more)
}

#[cycle(names)]
fn check_series<'s>(
    need: Need,
    scope: &mut NameScope<'s>,
    first: &Expr<'s>,
    more: &[LinkedOperand<'s>],
) -> Result<(), NameFault<'s>>
    ensures value { Reports (reported.first (names.tree_fault need scope.old (tree first.now)) (names.links_fault need scope.old (links_of more.now))) result }
    ensures kept { OnOk result (scope.new ≡ scope.old) }
{
    check(need, scope, first)?;
    check_links(need, scope, more)
}

#[cycle(names)]
fn check_links<'s>(
    need: Need,
    scope: &mut NameScope<'s>,
    links: &[LinkedOperand<'s>],
) -> Result<(), NameFault<'s>>
    ensures value { Reports (names.links_fault need scope.old (links_of links.now)) result }
    ensures kept { OnOk result (scope.new ≡ scope.old) }
{
    for link in links {
        check(need, scope, &link.operand)?;
    }
    Ok(())
}

#[cycle(names)]
fn check_choice<'s>(
    need: Need,
    scope: &mut NameScope<'s>,
    condition: &Expr<'s>,
    branch: &Expr<'s>,
    otherwise: &Option<Boxed<Part<'s>>>,
) -> Result<(), NameFault<'s>>
    ensures value { Reports (reported.first (names.tree_fault need scope.old (tree condition.now))
        (reported.first (names.tree_fault need scope.old (tree branch.now)) (names.part_fault need scope.old (option_part otherwise.now)))) result }
    ensures kept { OnOk result (scope.new ≡ scope.old) }
{
    check(need, scope, condition)?;
    check(need, scope, branch)?;
    check_part(need, scope, otherwise)
}

#[cycle(names)]
#[tactic(auto, using(net_tree::proofs::Views::views, crate::proofs::Walking::walking))]
fn check_part<'s>(
    need: Need,
    scope: &mut NameScope<'s>,
    part: &Option<Boxed<Part<'s>>>,
) -> Result<(), NameFault<'s>>
    ensures value { Reports (names.part_fault need scope.old (option_part part.now)) result }
    ensures kept { OnOk result (scope.new ≡ scope.old) }
{
    match part {
        None => Ok(()),
        Some(part) => check(need, scope, &part.get().value),
    }
}

/// Checks an indexing expression whose dummies go out of scope at its end.
#[cycle(names)]
#[tactic(auto, using(crate::proofs::Walking::walking))]
fn check_braced<'s>(
    need: Need,
    scope: &mut NameScope<'s>,
    braces: &Braces<'s>,
) -> Result<(), NameFault<'s>>
    ensures value { Reports (names.braces_fault need scope.old (braces_of braces.now)) result }
    ensures kept { OnOk result (scope.new ≡ scope.old) }
{
    let known = scope.len();
    read_braces(need, scope, braces)?;
    scope.forget_after(known);
    Ok(())
}

/// Checks a reduction: its indexing, and the expression in its scope.
#[cycle(names)]
#[tactic(auto, using(crate::proofs::Walking::walking))]
fn check_reduced<'s>(
    need: Need,
    scope: &mut NameScope<'s>,
    braces: &Braces<'s>,
    body: &Expr<'s>,
) -> Result<(), NameFault<'s>>
    ensures value { Reports (reported.first (names.braces_fault need scope.old (braces_of braces.now))
        (names.tree_fault need (dummies.with_braces scope.old (braces_of braces.now)) (tree body.now))) result }
    ensures kept { OnOk result (scope.new ≡ scope.old) }
{
    let outside = scope.len();
    read_braces(need, scope, braces)?;
    check(need, scope, body)?;
    scope.forget_after(outside);
    Ok(())
}

/// Checks an indexing expression, and adds its dummies to the scope.
#[cycle(names)]
#[tactic(auto, using(net_tree::proofs::Views::views, crate::proofs::Walking::walking))]
pub(crate) fn read_braces<'s>(
    need: Need,
    scope: &mut NameScope<'s>,
    braces: &Braces<'s>,
) -> Result<(), NameFault<'s>>
    ensures value { Reports (names.braces_fault need scope.old (braces_of braces.now)) result }
    ensures grown { OnOk result (scope.new ≡ dummies.with_braces scope.old (braces_of braces.now)) }
{
    match braces {
        Braces::Empty(_, condition, _) => check_part(need, scope, condition),
        Braces::Filled(_, items, condition, _) => {
            read_items(need, scope, &items.first, items.more.as_slice(), condition)
        }
    }
}

/// Checks the items of an indexing expression and its condition, and adds its dummies to the scope.
#[cycle(names)]
fn read_items<'s>(
    need: Need,
    scope: &mut NameScope<'s>,
    item: &Expr<'s>,
    more: &[LinkedOperand<'s>],
    condition: &Option<Boxed<Part<'s>>>,
) -> Result<(), NameFault<'s>>
    ensures value { Reports (items.items_and_part need scope.old (tree item.now) (links_of more.now) (option_part condition.now)) result }
    ensures grown { OnOk result (scope.new ≡ dummies.with_items (dummies.with_item scope.old (tree item.now)) (links_of more.now)) }
{
    read_item(need, scope, item)?;
    read_more(need, scope, more)?;
    check_part(need, scope, condition)
}

#[cycle(names)]
fn read_more<'s>(
    need: Need,
    scope: &mut NameScope<'s>,
    links: &[LinkedOperand<'s>],
) -> Result<(), NameFault<'s>>
    ensures value { Reports (names.items_fault need scope.old (links_of links.now)) result }
    ensures grown { OnOk result (scope.new ≡ dummies.with_items scope.old (links_of links.now)) }
{
    for link in links {
        read_item(need, scope, &link.operand)?;
    }
    Ok(())
}

/// Checks an item of an indexing expression, and adds its dummies to the scope.
#[cycle(names)]
#[tactic(auto, using(crate::proofs::Walking::walking))]
fn read_item<'s>(
    need: Need,
    scope: &mut NameScope<'s>,
    item: &Expr<'s>,
) -> Result<(), NameFault<'s>>
    ensures value { Reports (items.item_fault need scope.old (tree item.now)) result }
    ensures grown { OnOk result (scope.new ≡ dummies.with_item scope.old (tree item.now)) }
{
    match sides_of(item) {
        None => check(need, scope, item),
        Some((left, set)) => read_sides(need, scope, left, set),
    }
}

/// Checks an item whose top operator is `in`: its set is not in the scope of its own dummies.
#[cycle(names)]
fn read_sides<'s>(
    need: Need,
    scope: &mut NameScope<'s>,
    left: &Expr<'s>,
    set: &Expr<'s>,
) -> Result<(), NameFault<'s>>
    ensures value { Reports (reported.first (items.left_fault need scope.old (tree left.now)) (names.tree_fault need scope.old (tree set.now))) result }
    ensures grown { OnOk result (scope.new ≡ dummies.with_left scope.old (tree left.now)) }
{
    check_left(need, scope, left)?;
    check(need, scope, set)?;
    record_item(scope, left, set)?;
    add_left(scope, left)?;
    Ok(())
}

/// Checks the left side of `in`.
#[cycle(names)]
#[tactic(auto, using(net_tree::proofs::Views::views, crate::proofs::Walking::walking))]
fn check_left<'s>(
    need: Need,
    scope: &mut NameScope<'s>,
    left: &Expr<'s>,
) -> Result<(), NameFault<'s>>
    ensures value { Reports (items.left_fault need scope.old (tree left.now)) result }
    ensures kept { OnOk result (scope.new ≡ scope.old) }
{
    match left {
        Expr::Tuple(parts) => {
            let series = &parts.get().1;
            check_components(need, scope, &series.first, series.more.as_slice())
        }
        Expr::Leaf(_)
        | Expr::Indexed(_)
        | Expr::Parens(_)
        | Expr::Negated(_)
        | Expr::Braced(_)
        | Expr::Signed(_)
        | Expr::Reduction(_, _)
        | Expr::Chain(_, _)
        | Expr::If(_, _, _)
        | Expr::Net(_) => check_component(need, scope, left),
    }
}

/// Checks the components of a tuple: each is in the scope of the dummies that are components before
/// it.
#[cycle(names)]
#[tactic(auto, using(crate::proofs::Walking::walking))]
fn check_components<'s>(
    need: Need,
    scope: &mut NameScope<'s>,
    component: &Expr<'s>,
    more: &[LinkedOperand<'s>],
) -> Result<(), NameFault<'s>>
    ensures value { Reports (reported.first (items.component_fault need scope.old (tree component.now))
        (names.further_fault need (dummies.with_component scope.old (tree component.now)) (links_of more.now))) result }
    ensures kept { OnOk result (scope.new ≡ scope.old) }
{
    let before = scope.len();
    read_component(need, scope, component)?;
    read_components(need, scope, more)?;
    scope.forget_after(before);
    Ok(())
}

#[cycle(names)]
fn read_components<'s>(
    need: Need,
    scope: &mut NameScope<'s>,
    links: &[LinkedOperand<'s>],
) -> Result<(), NameFault<'s>>
    ensures value { Reports (names.further_fault need scope.old (links_of links.now)) result }
    ensures grown { OnOk result (scope.new ≡ dummies.with_components scope.old (links_of links.now)) }
{
    for link in links {
        read_component(need, scope, &link.operand)?;
    }
    Ok(())
}

/// Checks a component, and adds it to the scope if it is a new dummy.
#[cycle(names)]
fn read_component<'s>(
    need: Need,
    scope: &mut NameScope<'s>,
    component: &Expr<'s>,
) -> Result<(), NameFault<'s>>
    ensures value { Reports (items.component_fault need scope.old (tree component.now)) result }
    ensures grown { OnOk result (scope.new ≡ dummies.with_component scope.old (tree component.now)) }
{
    check_component(need, scope, component)?;
    add_component(scope, component)?;
    Ok(())
}

/// Checks a component; one that is not a new dummy is an expression.
#[cycle(names)]
fn check_component<'s>(
    need: Need,
    scope: &mut NameScope<'s>,
    component: &Expr<'s>,
) -> Result<(), NameFault<'s>>
    ensures value { Reports (items.component_fault need scope.old (tree component.now)) result }
    ensures kept { OnOk result (scope.new ≡ scope.old) }
{
    if is_new(scope, component) {
        Ok(())
    } else {
        check(need, scope, component)
    }
}
