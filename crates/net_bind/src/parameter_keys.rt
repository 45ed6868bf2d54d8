//! The index set of a parameter.

ghost use Rattle.std.specs.Prelude.{◌≡◌};
ghost use Rattle.net_tree.specs.View.{indexing_of};
ghost use Rattle.net_bind.specs.BoundParameters as bound;
ghost use Rattle.net_base.specs.Outcomes.{Refines};

use net_base::{ErrorCode, Fault, Span};
use net_expr::RowList;
use net_sets::{HashKey, KeyList, SetFault};
use net_tree::{Braces, braces_span};
use std::alloc::Global;

pub(crate) fn span_or(at: Span, braces: &Option<Braces<'_>>) -> Span
    ensures { result ≡ bound.span_or at (indexing_of braces.now) }
{
    match braces {
        None => at,
        Some(braces) => braces_span(braces),
    }
}

/// Returns the index set: the distinct keys, under the key of the run.
pub(crate) fn index_list<'s>(
    alloc: Global,
    key: HashKey,
    at: Span,
    rows: &RowList<'s>,
) -> Result<KeyList<'s>, Fault>
    ensures { Refines (bound.index_list at rows.now) result }
{
    match rows.keys(alloc, key) {
        Ok(keys) => Ok(keys),
        Err(SetFault::OutOfMemory) => Err(Fault::OutOfMemory),
        Err(SetFault::TooMany) => Err(Fault::of_model(ErrorCode::TooMany, at)),
    }
}
