//! The data statements of a parameter.

ghost use Rattle.std.specs.Prelude.{◌≡◌, [], None, IfOk};
ghost use Rattle.net_expr.specs.Worlds.{key_count};
ghost use Rattle.net_bind.specs.declared.given.DataContent.TheVariants as given;
ghost use Rattle.net_bind.specs.ParameterViews.{named_of, parameter_of};
ghost use Rattle.net_bind.specs.Rows as rows;
ghost use Rattle.net_base.specs.Outcomes.{Updates, each};

use crate::cell::KeyWord;
use crate::cell_group::whole_rows;
use crate::data_row::{NamedParameter, Values, pair_of, with_groups, with_pair};
use crate::given::{DataContent, Grid, Groups, Line, NamedData};
use crate::parameter::Parameter;
use crate::set_declaration::{agrees, doubled, leading_size};
use net_base::Fault;
use net_expr::key_count;
use net_lex::Word;
use std::alloc::{AllocError, Global};

/// The heading of a table, with the members of its columns.
#[derive(Drop)]
struct Heading<'t, 's> {
    /// Whether the column's member is the first in a key.
    transposed: bool,
    columns: Vec<KeyWord<'t, 's>>,
}

/// Returns the heading of a table. Fails only if memory runs out.
fn heading_of<'t, 's>(alloc: Global, grid: &Grid<'_, 't, 's>) -> Result<Heading<'t, 's>, AllocError>
    ensures transposed { IfOk result (λ h. h.transposed ≡ grid.now.transposed) }
    ensures columns { IfOk result (λ h. h.columns.items ≡ grid.now.columns) }
{
    let mut columns = Vec::new(alloc);
    for word in grid.columns.cells() {
        columns.push(KeyWord::new(word))?;
    }
    Ok(Heading {
        transposed: grid.transposed,
        columns,
    })
}

/// Adds the cells of a row in a table, column by column.
fn across<'c, 't, 's>(
    alloc: Global,
    parameter: &NamedParameter<'_, '_, 's>,
    heading: &'c Heading<'t, 's>,
    row: &'c KeyWord<'t, 's>,
    cells: &[Word<'t, 's>],
    values: &mut Values<'s>,
) -> Result<(), Fault>
    ensures { Updates (rows.across (named_of parameter.now) heading.entry.now.transposed row.entry.now heading.entry.now.columns.items
        cells.now values.old) result values.new }
{
    for (place, column) in heading.columns.iter().enumerate() {
        let Some(cell) = cells.get(place) else {
            return Ok(());
        };
        let (first, second) = pair_of(heading.transposed, row, column);
        with_pair(alloc, parameter, first, second, cell, values)?;
    }
    Ok(())
}

/// Adds the rows of a table.
fn with_lines<'t, 's>(
    alloc: Global,
    parameter: &NamedParameter<'_, '_, 's>,
    grid: &Grid<'_, 't, 's>,
    lines: &[Line<'_, 't, 's>],
    values: &mut Values<'s>,
) -> Result<(), Fault>
    ensures { Updates (each (rows.with_line (named_of parameter.now) grid.now.transposed grid.now.columns)
        lines.now values.old) result values.new }
{
    let heading = heading_of(alloc, grid)?;
    for line in lines {
        if let [row, cells @ ..] = line.cells() {
            let row = KeyWord::new(row);
            across(alloc, parameter, &heading, &row, cells, values)?;
        }
    }
    Ok(())
}

/// Adds a statement of groups; checks its shape before it adds rows.
fn grouped<'t, 's>(
    alloc: Global,
    widths: &[usize],
    parameter: &NamedParameter<'_, 't, 's>,
    groups: &Groups<'_, 't, 's>,
    is_doubled: bool,
    values: &mut Values<'s>,
) -> Result<(), Fault>
    ensures { Updates (rows.taken widths.now (named_of parameter.now) (key_count parameter.now.keys) (given.Groups groups.now) is_doubled
        values.old) result values.new }
{
    let word = parameter.word;
    let size = key_count(parameter.keys);
    agrees(word, leading_size(widths, groups.leader, size), size)?;
    let at = word.span();
    let rows = whole_rows(alloc, at, size, groups.values, groups.cells.cells())?;
    if is_doubled {
        return Err(doubled(alloc, word)?);
    }
    with_groups(
        alloc,
        parameter,
        size,
        groups.place,
        rows.as_slice(),
        values,
    )
}

/// Adds a table; checks its shape before it adds rows.
fn gridded<'t, 's>(
    alloc: Global,
    parameter: &NamedParameter<'_, 't, 's>,
    grid: &Grid<'_, 't, 's>,
    is_doubled: bool,
    values: &mut Values<'s>,
) -> Result<(), Fault>
    ensures { Updates (rows.taken [] (named_of parameter.now) (key_count parameter.now.keys) (given.Grid grid.now) is_doubled values.old) result values.new }
{
    let word = parameter.word;
    agrees(word, key_count(parameter.keys), 2)?;
    let at = word.span();
    let columns = grid.columns.cells().len();
    let lines = whole_rows(alloc, at, 1, columns, grid.cells.cells())?;
    if is_doubled {
        return Err(doubled(alloc, word)?);
    }
    with_lines(alloc, parameter, grid, lines.as_slice(), values)
}

/// Adds the content of a statement for the parameter that it names.
fn taken<'t, 's>(
    alloc: Global,
    widths: &[usize],
    parameter: &NamedParameter<'_, 't, 's>,
    said: &DataContent<'_, 't, 's>,
    is_doubled: bool,
    values: &mut Values<'s>,
) -> Result<(), Fault>
    ensures { Updates (rows.taken widths.now (named_of parameter.now) (key_count parameter.now.keys) said.now
        is_doubled values.old) result values.new }
{
    match said {
        DataContent::Members(_) => {
            if is_doubled {
                Err(doubled(alloc, parameter.word)?)
            } else {
                Ok(())
            }
        }
        DataContent::Groups(groups) => grouped(
            alloc, widths, parameter, groups, is_doubled, values,
        ),
        DataContent::Grid(grid) => gridded(alloc, parameter, grid, is_doubled, values),
    }
}

fn either<'t, 's>(before: Option<Word<'t, 's>>, now: &Option<Word<'t, 's>>) -> Option<Word<'t, 's>>
    ensures { result ≡ rows.either before.entry now.now }
{
    match before {
        Some(cell) => Some(cell),
        None => match now {
            Some(cell) => Some(cell.copied()),
            None => None,
        },
    }
}

/// Adds the content of all statements of a parameter; returns the data's default.
pub(crate) fn data_of<'t, 's>(
    alloc: Global,
    widths: &[usize],
    parameter: &Parameter<'_, 's>,
    is_assigned: bool,
    named_data: &[NamedData<'_, 't, 's>],
    values: &mut Values<'s>,
) -> Result<Option<Word<'t, 's>>, Fault>
    ensures { rows.Gives (each (rows.with_statement widths.now (parameter_of parameter.now) (key_count parameter.now.keys) is_assigned)
        named_data.now (values.old, None)) result values.new }
{
    let mut default: Option<Word<'t, 's>> = None;
    for named in named_data {
        let is_doubled = is_assigned || (named.default.is_some() && default.is_some());
        let here = NamedParameter {
            word: &named.word,
            keys: parameter.keys,
            index: parameter.index,
        };
        taken(alloc, widths, &here, &named.given, is_doubled, values)?;
        default = either(default, &named.default);
    }
    Ok(default)
}
