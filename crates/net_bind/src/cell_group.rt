//! Groups of cells: the members of a key followed by values.

ghost use Rattle.std.specs.Prelude.{◌≡◌, ◌<◌, ◌≤◌, ◌+◌, ◌^◌, map, nat_le, length, take, drop, IfOk};
ghost use Rattle.net_base.specs.declared.diagnostic.Language.TheVariants.{Data as InData};
ghost use Rattle.net_base.specs.declared.diagnostic.Detail.TheVariants.{Nothing};
ghost use Rattle.net_base.specs.declared.diagnostic.Fault.TheVariants.{At};
ghost use Rattle.net_data.specs.Rows.{points};
ghost use Rattle.net_bind.specs.SetData as set_data;
ghost use Rattle.net_base.specs.Outcomes.{Refines, RefinesAs};

use crate::given::Line;
use net_base::{Detail, ErrorCode, Fault, Items, Language, Span};
use net_lex::{Kind, Word};
use std::alloc::{AllocError, Global};

/// Returns the span of the first token of a row.
pub(crate) fn begins_at(at: Span, row: &[Word<'_, '_>]) -> Span
    ensures { result ≡ set_data.begins_at at row.now }
{
    match row {
        [] => at,
        [first, ..] => first.span(),
    }
}

pub(crate) fn is_point(kind: Kind) -> bool
    ensures { result ≡ points kind }
{
    match kind {
        Kind::Dot => true,
        _ => false,
    }
}

fn without_points(key: &[Word<'_, '_>]) -> Result<(), Fault>
    ensures { Refines (set_data.without_points key.now) result }
{
    for cell in key {
        if is_point(cell.kind()) {
            return Err(Fault::of_data(ErrorCode::Arity, cell.span()));
        }
    }
    Ok(())
}

/// Returns the first `count` cells, or all if there are fewer.
pub(crate) fn front<'c, 't, 's>(count: usize, cells: &'c [Word<'t, 's>]) -> &'c [Word<'t, 's>]
    ensures { result.now ≡ take count cells.entry.now }
{
    cells.get(..count).unwrap_or(cells)
}

/// Returns the cells after the first `count`.
pub(crate) fn behind<'c, 't, 's>(count: usize, cells: &'c [Word<'t, 's>]) -> &'c [Word<'t, 's>]
    requires { count ≤ length cells.now }
    ensures { result.now ≡ drop count cells.entry.now }
{
    let (_, back) = cells.split_at(count);
    back
}

/// Returns whether `len` cells contain a key and its values.
fn has_row(keys: usize, values: usize, len: usize) -> bool
    ensures { result ≡ nat_le (keys + values) len }
{
    len >= keys && len - keys >= values
}

/// Checks that the first row is complete and has no missing-value dot in its key.
fn whole_row(at: Span, keys: usize, values: usize, cells: &[Word<'_, '_>]) -> Result<(), Fault>
    ensures check { Refines (set_data.whole_group at keys (keys + values) (take (keys + values) cells.now)) result }
    ensures room { IfOk result (λ _. keys + values ≤ length cells.now) }
    ensures fits { IfOk result (λ _. keys + values < 2 ^ 64) }
{
    if has_row(keys, values, cells.len()) {
        without_points(front(keys, cells))
    } else {
        Err(Fault::of_data(ErrorCode::Arity, begins_at(at, cells)))
    }
}

/// Splits the cells into rows of a key and values. Each must be complete and have no missing-value
/// dot in its key.
pub(crate) fn whole_rows<'c, 't, 's>(
    alloc: Global,
    at: Span,
    keys: usize,
    values: usize,
    cells: &'c [Word<'t, 's>],
) -> Result<Items<Line<'c, 't, 's>>, Fault>
    ensures check { RefinesAs (λ _. tt) (set_data.whole_groups at keys (keys + values) (set_data.cut (keys + values) cells.entry.now)) result }
    ensures rows { IfOk result (λ all. all ≡ set_data.cut (keys + values) cells.entry.now) }
{
    let mut all = Vec::new(alloc);
    if keys == 0 && values == 0 {
        return Ok(Items::new(all));
    }
    let mut left = cells;
    while !left.is_empty() {
        whole_row(at, keys, values, left)?;
        all.push(Line::new(front(keys + values, left)))?;
        left = behind(keys + values, left);
    }
    Ok(Items::new(all))
}

/// Checks that each row has `size` members.
pub(crate) fn all_of_size(at: Span, size: usize, rows: &[Line<'_, '_, '_>]) -> Result<(), Fault>
    ensures { Refines (set_data.all_of_size at size rows.now) result }
{
    for row in rows {
        let cells = row.cells();
        if cells.len() != size {
            return Err(Fault::of_data(ErrorCode::Arity, begins_at(at, cells)));
        }
    }
    Ok(())
}

/// Returns the keys of the groups. Fails only if memory runs out.
pub(crate) fn keys_of<'c, 't, 's>(
    alloc: Global,
    keys: usize,
    groups: &[Line<'c, 't, 's>],
) -> Result<Items<Line<'c, 't, 's>>, AllocError>
    ensures { IfOk result (λ all. all ≡ map (take keys) groups.now) }
{
    let mut all = Vec::new(alloc);
    for group in groups {
        all.push(Line::new(front(keys, group.cells())))?;
    }
    Ok(Items::new(all))
}
