//! Rows of a parameter's data, each a key and its value.

ghost use Rattle.std.specs.Prelude.{◌≡◌, ◌+◌, [], ◌∷◌, IfOk, None, Some, slice_get};
ghost use Rattle.std.specs.Option.{option_copied};
ghost use Rattle.net_base.specs.declared.error_code.ErrorCode.TheVariants.{TooMany};
ghost use Rattle.net_base.specs.declared.diagnostic.Fault.TheVariants.{At};
ghost use Rattle.net_base.specs.declared.diagnostic.Language.TheVariants.{Data};
ghost use Rattle.net_sets.specs.Sets.{at_key};
ghost use Rattle.net_expr.specs.Worlds as worlds;
ghost use Rattle.net_bind.specs.ParameterViews.{named_of};
ghost use Rattle.net_bind.specs.Rows as rows;
ghost use Rattle.net_base.specs.Outcomes.{Updates, each, bare, diagnostic_at};

use crate::cell::{KeyWord, member_in, pair_in, tuple_in};
use crate::cell_group::{begins_at, front, is_point};
use crate::given::Line;
use net_base::{Detail, ErrorCode, Fault, Items, Language, Span};
use net_expr::reported_reference;
use net_lex::Word;
use net_sets::{KeyList, Member, SetFault, Table, Tuple};
use std::alloc::{AllocError, Global};
use std::marker::Model;

/// The values of a parameter so far, and the spans of those from data. Contracts see the rows of
/// the table and the spans.
#[derive(Drop)]
pub(crate) struct Values<'s> {
    pub(crate) table: Table<'s>,
    pub(crate) places: Vec<Span>,
}

impl<'s> Model for Values<'s> {
    ghost use Rattle.net_bind.specs.Rows.{Taken};

    ghost Value = { Taken };

    ghost view = { λ v. (v.table, v.places.items) };
}

impl<'s> Values<'s> {
    /// Creates an empty table over an index set. Fails only if memory runs out.
    pub(crate) fn over(alloc: Global, index: KeyList<'s>) -> Result<Values<'s>, AllocError>
        ensures { IfOk result (λ v. v ≡ ([], [])) }
    {
        Ok(Values {
            table: Table::over(alloc, index)?,
            places: Vec::new(alloc),
        })
    }

    pub(crate) fn into_table(self) -> Table<'s>
        ensures { result ≡ self.entry.0 }
    {
        let Values {
            table,
            places: _places,
        } = self;
        table
    }
}

/// A parameter that a statement names.
#[derive(Drop)]
pub(crate) struct NamedParameter<'a, 't, 's> {
    pub(crate) word: &'a Word<'t, 's>,
    /// The number of members of a key, or `None` without indexing.
    pub(crate) keys: Option<u8>,
    /// The index set.
    pub(crate) index: &'a KeyList<'s>,
}

/// Builds an error at a row; the parameter with the key is its detail. Fails only if memory runs
/// out.
fn reject_row(
    alloc: Global,
    parameter: &NamedParameter<'_, '_, '_>,
    error_code: ErrorCode,
    at: Span,
    key: &Tuple<'_>,
) -> Result<Fault, AllocError>
    ensures { IfOk result (λ f. f ≡ At (diagnostic_at Data error_code at (worlds.reference parameter.now.word.now.text parameter.now.keys key.now))) }
{
    let name = parameter.word.text();
    let detail = reported_reference(alloc, &name, parameter.keys, key)?;
    Ok(Fault::of_text(Language::Data, error_code, at, detail))
}

/// Adds a value, unless there are too many. `near` is a hint: the likely index of the key in the
/// index set.
pub(crate) fn with_value<'s>(
    text: Language,
    at: Span,
    near: usize,
    key: &Tuple<'s>,
    member: Member<'s>,
    table: &mut Table<'s>,
) -> Result<(), Fault>
    requires { at_key table.old key.now ≡ None }
    ensures { Updates (rows.with_value text at key.now member.entry table.old) result table.new }
{
    match table.insert_new(near, key, member) {
        Ok(_) => Ok(()),
        Err(SetFault::OutOfMemory) => Err(Fault::OutOfMemory),
        Err(SetFault::TooMany) => Err(too_many(text, at)),
    }
}

fn too_many(text: Language, at: Span) -> Fault
    ensures { result ≡ At (bare text TooMany at) }
{
    Fault::of_text(text, ErrorCode::TooMany, at, Detail::Nothing)
}

/// Adds a value for a key that begins at `at`; it must be in the index set and have no value yet.
fn with_key<'s>(
    alloc: Global,
    parameter: &NamedParameter<'_, '_, 's>,
    at: Span,
    key: &Tuple<'s>,
    value: &Word<'_, 's>,
    values: &mut Values<'s>,
) -> Result<(), Fault>
    ensures { Updates (rows.with_key (named_of parameter.now) at key.now value.now values.old) result values.new }
{
    let next = values.table.next();
    let Some(near) = parameter.index.position_with_hint(next, key) else {
        let error_code = if values.table.get(key).is_some() {
            ErrorCode::DoubleValue
        } else {
            ErrorCode::OutsideSet
        };
        return Err(reject_row(alloc, parameter, error_code, at, key)?);
    };
    match values.table.insert_new(near, key, member_in(value)) {
        Ok(true) => {
            values.places.push(value.span())?;
            Ok(())
        }
        Ok(false) => {
            let error_code = ErrorCode::DoubleValue;
            Err(reject_row(alloc, parameter, error_code, at, key)?)
        }
        Err(SetFault::OutOfMemory) => Err(Fault::OutOfMemory),
        Err(SetFault::TooMany) => Err(too_many(Language::Data, at)),
    }
}

/// Adds a cell with a value; a missing-value dot gives none.
pub(crate) fn with_cell<'s>(
    alloc: Global,
    parameter: &NamedParameter<'_, '_, 's>,
    cells: &[Word<'_, 's>],
    value: &Word<'_, 's>,
    values: &mut Values<'s>,
) -> Result<(), Fault>
    ensures { Updates (rows.with_cell (named_of parameter.now) cells.now (Some value.now) values.old) result
        values.new }
{
    if is_point(value.kind()) {
        Ok(())
    } else {
        let at = begins_at(value.span(), cells);
        with_key(alloc, parameter, at, &tuple_in(cells), value, values)
    }
}

/// Adds a cell with a value for a key of two members; a missing-value dot gives none.
pub(crate) fn with_pair<'s>(
    alloc: Global,
    parameter: &NamedParameter<'_, '_, 's>,
    first: &KeyWord<'_, 's>,
    second: &KeyWord<'_, 's>,
    value: &Word<'_, 's>,
    values: &mut Values<'s>,
) -> Result<(), Fault>
    ensures { Updates (rows.with_cell (named_of parameter.now) (first.now ∷ second.now ∷ []) (Some value.now) values.old) result
        values.new }
{
    if is_point(value.kind()) {
        Ok(())
    } else {
        let key = pair_in(first, second);
        with_key(alloc, parameter, first.span(), &key, value, values)
    }
}

/// Returns the value with this index after the key.
fn value_at<'c, 't, 's>(
    size: usize,
    place: usize,
    group: &'c [Word<'t, 's>],
) -> Option<&'c Word<'t, 's>>
    ensures { option_copied result ≡ slice_get group.entry.now (size + place) }
{
    if size < group.len() && place < group.len() - size {
        group.get(size + place)
    } else {
        None
    }
}

/// Adds groups, each the members of a key, and values of which one is used.
pub(crate) fn with_groups<'s>(
    alloc: Global,
    parameter: &NamedParameter<'_, '_, 's>,
    size: usize,
    place: usize,
    groups: &[Line<'_, '_, 's>],
    values: &mut Values<'s>,
) -> Result<(), Fault>
    ensures { Updates (each (rows.with_group (named_of parameter.now) size place) groups.now values.old) result
        values.new }
{
    for group in groups {
        let group = group.cells();
        if let Some(value) = value_at(size, place, group) {
            with_cell(alloc, parameter, front(size, group), value, values)?;
        }
    }
    Ok(())
}

/// Returns the tokens of a key in a table in order; `(tr)` puts the column's member first.
pub(crate) fn pair_of<'c, 't, 's>(
    transposed: bool,
    row: &'c KeyWord<'t, 's>,
    column: &'c KeyWord<'t, 's>,
) -> (&'c KeyWord<'t, 's>, &'c KeyWord<'t, 's>)
    ensures { result.0.now ∷ result.1.now ∷ [] ≡ rows.pair_of transposed row.entry.now column.entry.now }
{
    if transposed {
        (column, row)
    } else {
        (row, column)
    }
}
