//! Recording the sets that items iterate by a component. Only names, names in parentheses and names
//! in the branches of `if` are recorded: any other expression evaluates to a new set without an
//! index.

ghost use Rattle.std.specs.Prelude.{◌≡◌, OnOk};

use crate::meaning::Meaning;
use crate::name_scope::NameScope;
use net_tree::{Expr, single_name};
use std::alloc::AllocError;

/// Returns whether a component is a dummy in scope.
fn is_dummy<'s>(scope: &NameScope<'s>, component: &Expr<'s>) -> bool {
    match single_name(component) {
        None => false,
        Some(name) => matches!(scope.meaning(&name.text), Some(Meaning::Dummy)),
    }
}

/// Returns whether the left side of an item's `in` is a tuple with a component that is a dummy in
/// scope.
fn is_by_component<'s>(scope: &NameScope<'s>, left: &Expr<'s>) -> bool {
    let Expr::Tuple(parts) = left else {
        return false;
    };
    let series = &parts.get().1;
    for link in series.more.as_slice() {
        if is_dummy(scope, &link.operand) {
            return true;
        }
    }
    is_dummy(scope, &series.first)
}

/// Records the declared sets that can be the value of an expression.
#[tactic(auto, using(net_tree::proofs::Views::views, crate::proofs::Walking::walking))]
fn record_sets<'s>(scope: &mut NameScope<'s>, set: &Expr<'s>) -> Result<(), AllocError>
    ensures { OnOk result (scope.new ≡ scope.old) }
{
    match set {
        Expr::Leaf(leaf) => scope.record_iterated(&leaf.token().text),
        Expr::Parens(parts) => record_sets(scope, &parts.get().1),
        Expr::If(_, branch, otherwise) => {
            record_sets(scope, &branch.get().value)?;
            match otherwise {
                None => Ok(()),
                Some(part) => record_sets(scope, &part.get().value),
            }
        }
        _ => Ok(()),
    }
}

/// Records the set of an item if the dummies in scope determine a component of its tuples. The
/// dummies of the item itself are not in scope yet.
pub(crate) fn record_item<'s>(
    scope: &mut NameScope<'s>,
    left: &Expr<'s>,
    set: &Expr<'s>,
) -> Result<(), AllocError>
    ensures { OnOk result (scope.new ≡ scope.old) }
{
    if is_by_component(scope, left) {
        record_sets(scope, set)
    } else {
        Ok(())
    }
}
