//! Evaluating checks.

ghost use Rattle.std.specs.Prelude.{◌≡◌, ◌+◌, ◌<◌, ◌≤◌, ◌^◌, IfOk, map};
ghost use Rattle.net_tree.specs.View.{tree, declaration_of, indexing_of};
ghost use Rattle.net_bind.specs.Binding as binding;
ghost use Rattle.net_base.specs.Outcomes.{Refines, each};

use net_base::{Detail, ErrorCode, Fault, Language};
use net_expr::{Env, RowList, World, holds, indexing_of};
use net_tree::{Braces, Decl, Expr, span_of};
use std::alloc::Global;

/// Returns an error unless a condition holds at each key.
fn hold<'s>(
    alloc: Global,
    env: &Env<'_, 's>,
    condition: &Expr<'s>,
    rows: &RowList<'s>,
) -> Result<(), Fault>
    ensures { Refines (binding.hold env.now (tree condition.now) rows.now) result }
{
    for place in 0..rows.len() {
        let row = rows.row(alloc, place)?;
        if !holds(alloc, env, &row.get().scope, condition)? {
            return Err(Fault::of_text(
                Language::Model,
                ErrorCode::CheckFailed,
                span_of(condition),
                Detail::Nothing,
            ));
        }
    }
    Ok(())
}

fn checked<'s>(
    alloc: Global,
    env: &Env<'_, 's>,
    braces: &Option<Braces<'s>>,
    condition: &Expr<'s>,
) -> Result<(), Fault>
    ensures { Refines (binding.checked env.now (indexing_of braces.now) (tree condition.now)) result }
{
    let indexing = indexing_of(alloc, env, braces)?;
    hold(alloc, env, condition, &indexing.rows)
}

fn check_one<'s>(
    alloc: Global,
    world: &World<'s>,
    decl: &Decl<'s>,
    known: usize,
) -> Result<usize, Fault>
    requires { known + 1 < 2 ^ 64 }
    ensures value { Refines (binding.check_one world.now (declaration_of decl.now) known) result }
    ensures few { IfOk result (λ k. k ≤ known + 1) }
{
    match decl {
        Decl::Set(_, _, _, _) => Ok(known + 1),
        Decl::Param(_, _, _, _, _) => Ok(known + 1),
        Decl::Check(_, braces, _, condition, _) => {
            checked(alloc, &Env::new(world, known), braces, condition)?;
            Ok(known)
        }
        Decl::Node(_, _, _, _, _) => Ok(known),
        Decl::Arc(_, _, _, _, _) => Ok(known),
        Decl::Objective(_, _, _, _) => Ok(known),
    }
}

/// Evaluates the checks in order, each in the world of the sets and parameters before it.
pub(crate) fn all_checked<'s>(
    alloc: Global,
    world: &World<'s>,
    decls: &[Decl<'s>],
) -> Result<usize, Fault>
    ensures { Refines (each (binding.check_one world.now) (map declaration_of decls.now) 0) result }
{
    let mut known = 0;
    for decl in decls {
        known = check_one(alloc, world, decl, known)?;
    }
    Ok(known)
}
