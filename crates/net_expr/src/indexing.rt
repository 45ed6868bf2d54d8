//! The keys of declarations.

ghost use Rattle.std.specs.Prelude.{◌≡◌, IfOk};
ghost use Rattle.net_tree.specs.View.{indexing_of};
ghost use Rattle.net_expr.specs.Indexings as indexings;
ghost use Rattle.net_expr.specs.Sets.{counted};
ghost use Rattle.net_base.specs.Outcomes.{Refines};

use crate::declared_rows::declared_rows;
use crate::expression_calls::index_of;
use crate::row::{Keys, Row};
use crate::row_list::RowList;
use crate::scope::Scope;
use crate::world::Env;
use net_base::{Fault, Items};
use net_sets::Tuple;
use net_tree::Braces;
use std::alloc::{AllocError, Global};

/// The keys of a declaration in order, each with the dummies in scope, and the number of members of
/// a key; `None` without indexing.
#[derive(Drop)]
pub struct Indexing<'s> {
    pub count: Option<u8>,
    pub rows: RowList<'s>,
}

/// Returns the single empty key of a declaration without indexing. Fails only if memory runs out.
fn alone<'s>(alloc: Global) -> Result<Indexing<'s>, AllocError>
    ensures { IfOk result (λ i. i ≡ indexings.alone) }
{
    let mut rows = Vec::new(alloc);
    rows.push(Row {
        key: Tuple::new(),
        scope: Scope::new(alloc),
    })?;
    Ok(Indexing {
        count: None,
        rows: RowList::of_rows(Items::new(rows)),
    })
}

/// Returns the number of members of the keys; those of `{}` count as one.
fn counted(width: Option<u8>) -> u8
    ensures { result ≡ counted width }
{
    match width {
        None => 1,
        Some(width) => width,
    }
}

fn by_keys(keys: Keys<'_>) -> Indexing<'_>
    ensures { result ≡ indexings.by_keys keys.entry }
{
    let Keys { width, rows } = keys;
    Indexing {
        count: Some(counted(width)),
        rows: RowList::of_rows(rows),
    }
}

/// Returns the keys of a declaration with this indexing.
pub fn indexing_of<'s>(
    alloc: Global,
    env: &Env<'_, 's>,
    braces: &Option<Braces<'s>>,
) -> Result<Indexing<'s>, Fault>
    ensures { Refines (indexings.indexing_in env.now (indexing_of braces.now)) result }
{
    match braces {
        None => {
            let indexing = alone(alloc)?;
            Ok(indexing)
        }
        Some(braces) => {
            if let Some(indexing) = declared_rows(alloc, env, braces)? {
                return Ok(indexing);
            }
            let scope = Scope::new(alloc);
            let keys = index_of(alloc, env, &scope, braces)?;
            Ok(by_keys(keys))
        }
    }
}

/// Returns the keys of a declaration with this indexing, for a declaration that keeps them. If each row is that of its key,
/// only the keys are kept.
pub fn kept_indexing_of<'s>(
    alloc: Global,
    env: &Env<'_, 's>,
    braces: &Option<Braces<'s>>,
) -> Result<Indexing<'s>, Fault>
    ensures { Refines (indexings.indexing_in env.now (indexing_of braces.now)) result }
{
    let Indexing { count, rows } = indexing_of(alloc, env, braces)?;
    let rows = rows.compact(alloc, env.hash_key())?;
    Ok(Indexing { count, rows })
}
