//! The source of values that are missing in the data.

ghost use Rattle.std.specs.Prelude.{◌≡◌, option_map};
ghost use Rattle.std.specs.Option.{option_copied};
ghost use Rattle.net_tree.specs.View.{tree};
ghost use Rattle.net_bind.specs.BoundParameters as bound;
ghost use Rattle.net_base.specs.Outcomes.{Refines, Updates, each};

use crate::cell::member_in;
use crate::data_row::with_value;
use net_base::{Fault, Language, Span};
use net_expr::{Env, Row, RowList, Scope, member};
use net_lex::Word;
use net_sets::{Member, Table};
use net_tree::{Expr, span_of};
use std::alloc::Global;

/// The source of values that are missing in the data: an expression, else a token of the data, else
/// nothing.
#[derive(Drop)]
pub(crate) struct Source<'a, 'c, 's> {
    /// The span of the parameter's declaration.
    pub(crate) declared_at: Span,
    pub(crate) expr: Option<&'a Expr<'s>>,
    pub(crate) word: Option<&'a Word<'c, 's>>,
}

/// Returns the source of values that are missing in the data: the expression of `:=`, else the
/// default in the data, else the expression of `default`.
pub(crate) fn source_of<'a, 'c, 's>(
    declared_at: Span,
    assigned: Option<&'a Expr<'s>>,
    default: Option<&'a Word<'c, 's>>,
    otherwise: Option<&'a Expr<'s>>,
) -> Source<'a, 'c, 's>
    ensures place { result.declared_at ≡ declared_at }
    ensures value { (option_map tree (option_copied result.expr), option_copied result.word) ≡ bound.source (option_map tree (option_copied assigned.entry))
        (option_copied default.entry) (option_map tree (option_copied otherwise.entry)) }
{
    match (assigned, default) {
        (Some(expr), _) => Source {
            declared_at,
            expr: Some(expr),
            word: None,
        },
        (None, Some(word)) => Source {
            declared_at,
            expr: None,
            word: Some(word),
        },
        (None, None) => Source {
            declared_at,
            expr: otherwise,
            word: None,
        },
    }
}

fn from_source<'s>(
    alloc: Global,
    env: &Env<'_, 's>,
    scope: &Scope<'s>,
    source: &Source<'_, '_, 's>,
) -> Result<Option<Member<'s>>, Fault>
    ensures { Refines (bound.from_source env.now scope.now (option_map tree (option_copied source.now.expr), option_copied source.now.word)) result }
{
    match (source.expr, source.word) {
        (Some(expr), _) => Ok(Some(member(alloc, env, scope, expr)?)),
        (None, Some(word)) => Ok(Some(member_in(word))),
        (None, None) => Ok(None),
    }
}

/// Returns the file that contains the source.
pub(crate) fn source_text(source: &Source<'_, '_, '_>) -> Language
    ensures { result ≡ bound.source_text (option_copied source.now.word) }
{
    match source.word {
        None => Language::Model,
        Some(_) => Language::Data,
    }
}

/// Returns the span of the source.
pub(crate) fn source_at(source: &Source<'_, '_, '_>) -> Span
    ensures { result ≡ bound.source_at source.now.declared_at (option_map tree (option_copied source.now.expr), option_copied source.now.word) }
{
    match (source.expr, source.word) {
        (Some(expr), _) => span_of(expr),
        (None, Some(word)) => word.span(),
        (None, None) => source.declared_at,
    }
}

/// Gives a key without a value one from the source. `near` is a hint: the likely index of the key
/// in the index set.
fn with_key<'s>(
    alloc: Global,
    env: &Env<'_, 's>,
    source: &Source<'_, '_, 's>,
    near: usize,
    row: &Row<'s>,
    table: &mut Table<'s>,
) -> Result<(), Fault>
    ensures { Updates (bound.with_key env.now source.now.declared_at (option_map tree (option_copied source.now.expr), option_copied source.now.word)
        row.now table.old) result table.new }
{
    if table.get_with_hint(near, &row.key).is_some() {
        return Ok(());
    }
    match from_source(alloc, env, &row.scope, source)? {
        None => Ok(()),
        Some(member) => {
            let at = source_at(source);
            with_value(source_text(source), at, near, &row.key, member, table)
        }
    }
}

pub(crate) fn with_keys<'s>(
    alloc: Global,
    env: &Env<'_, 's>,
    source: &Source<'_, '_, 's>,
    rows: &RowList<'s>,
    table: &mut Table<'s>,
) -> Result<(), Fault>
    ensures { Updates (each (bound.with_key env.now source.now.declared_at (
      option_map tree (option_copied source.now.expr),
      option_copied
          source.now.word,
    )) rows.now table.old) result table.new }
{
    for place in 0..rows.len() {
        let row = rows.row(alloc, place)?;
        with_key(alloc, env, source, place, row.get(), table)?;
    }
    Ok(())
}
