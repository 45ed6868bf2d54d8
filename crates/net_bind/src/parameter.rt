//! Evaluating declared parameters.

ghost use Rattle.std.specs.Prelude.{◌≡◌, [], IfOk, List, Ok, map};
ghost use Rattle.std.specs.Option.{option_copied};
ghost use Rattle.net_base.specs.declared.diagnostic.Span.{Span as Position};
ghost use Rattle.net_tree.specs.View.{phrase_of, indexing_of};
ghost use Rattle.net_expr.specs.declared.row.Row.{Row as Place};
ghost use Rattle.net_expr.specs.declared.world.Entry.TheVariants.{Parameter as AParameter};
ghost use Rattle.net_bind.specs.BoundParameters as bound;
ghost use Rattle.net_bind.specs.FromData.{Answers};
ghost use Rattle.net_bind.specs.ParameterViews.{parameter_of, values_of};
ghost use Rattle.net_base.specs.Outcomes.{Refines, Updates};

use crate::bind_world::BindingEnv;
use crate::boxed_values::boxed;
use crate::data_row::Values;
use crate::from_data::{from_data_alone, has_source, same_everywhere};
use crate::given::NamedData;
use crate::param_data::data_of;
use crate::parameter_keys::{index_list, span_or};
use crate::restriction::{KeyedValue, restricted};
use crate::value_source::{source_at, source_of, source_text, with_keys};
use net_base::{Boxed, Detail, ErrorCode, Fault, Language, Span};
use net_expr::{Entry, Env, Row, RowList, kept_indexing_of};
use net_lex::{Token, Word};
use net_sets::{KeyList, KeyValues, Member, Table};
use net_tree::{Begins, Braces, Expr, Phrase, PhraseWord, Role, phrase_value};
use std::alloc::{AllocError, Global};

fn is_symbolic(role: Role) -> bool
    ensures { result ≡ bound.is_symbolic role }
{
    match role {
        Role::Phrase(Begins::Symbolic) => true,
        _ => false,
    }
}

/// Returns whether strings are allowed as values.
pub(crate) fn takes_texts(phrases: &[Phrase<'_>]) -> bool
    ensures { result ≡ bound.takes_texts (map phrase_of phrases.now) }
{
    for phrase in phrases {
        if is_symbolic(phrase.word.role()) {
            return true;
        }
    }
    false
}

pub(crate) fn is_number(member: &Member<'_>) -> bool
    ensures { result ≡ bound.is_number member.now }
{
    match member {
        Member::Number(_) => true,
        Member::Name(_) => false,
    }
}

/// Returns the span of the cell that gave a key its value, if any.
fn cell_of(places: &[Span], place: Option<usize>) -> Option<Span>
    ensures { result ≡ bound.cell_of places.now place }
{
    match place {
        None => None,
        Some(place) => places.get(place).copied(),
    }
}

/// Returns an error for a string, unless strings are allowed as values.
fn fit_kind(
    texts: bool,
    text: Language,
    at: Span,
    cell: Option<Span>,
    member: &Member<'_>,
) -> Result<(), Fault>
    ensures { Refines (bound.fit_kind texts text at cell member.now) result }
{
    if texts || is_number(member) {
        return Ok(());
    }
    let error_code = ErrorCode::KindMismatch;
    match cell {
        None => Err(Fault::of_text(text, error_code, at, Detail::Nothing)),
        Some(cell) => Err(Fault::of_text(Language::Data, error_code, cell, Detail::Nothing)),
    }
}

/// A declared parameter with its keys.
#[derive(Drop)]
pub(crate) struct Parameter<'a, 's> {
    pub(crate) name: &'a Token<'s>,
    /// The number of members of a key, or `None` without indexing.
    pub(crate) keys: Option<u8>,
    /// The index set.
    pub(crate) index: &'a KeyList<'s>,
    pub(crate) phrases: &'a [Phrase<'s>],
}

/// The values of a parameter with their origins: first those from cells of the data, then those
/// from the source at this span.
#[derive(Drop)]
struct PlacedValues<'a, 's> {
    /// Whether strings are allowed as values.
    takes_texts: bool,
    table: &'a Table<'s>,
    /// The spans of the cells, row by row.
    cells: &'a [Span],
    text: Language,
    at: Span,
}

/// Checks the value of a key. `near` is a hint: the likely index of the key in the index set.
fn fit_value<'s>(
    alloc: Global,
    env: &Env<'_, 's>,
    parameter: &Parameter<'_, 's>,
    values: &PlacedValues<'_, 's>,
    near: usize,
    row: &Row<'s>,
) -> Result<(), Fault>
    requires { values.now.takes_texts ≡ bound.takes_texts (map phrase_of parameter.now.phrases.now) }
    ensures { Refines (bound.fit_row env.now (parameter_of parameter.now) (values_of values.now) row.now) result }
{
    let table = values.table;
    match table.get_with_hint(near, &row.key) {
        None => Ok(()),
        Some(member) => {
            let phrases = parameter.phrases;
            let cell = cell_of(values.cells, table.row_with_hint(near, &row.key));
            fit_kind(values.takes_texts, values.text, values.at, cell, member)?;
            let keyed = KeyedValue {
                name: &parameter.name.text,
                keys: parameter.keys,
                row,
                member,
            };
            restricted(alloc, env, &keyed, phrases)
        }
    }
}

/// Checks each value, in the order of the index set.
fn fit_values<'s>(
    alloc: Global,
    env: &Env<'_, 's>,
    parameter: &Parameter<'_, 's>,
    values: &PlacedValues<'_, 's>,
    rows: &RowList<'s>,
) -> Result<(), Fault>
    requires { values.now.takes_texts ≡ bound.takes_texts (map phrase_of parameter.now.phrases.now) }
    ensures { Refines (bound.fit_values env.now (parameter_of parameter.now) (values_of values.now) rows.now) result }
{
    for place in 0..rows.len() {
        let row = rows.row(alloc, place)?;
        fit_value(alloc, env, parameter, values, place, row.get())?;
    }
    Ok(())
}

/// Fills in the values that are missing in the data, from the phrases and the data's default, then
/// checks all values.
fn with_values<'s>(
    alloc: Global,
    env: &Env<'_, 's>,
    parameter: &Parameter<'_, 's>,
    default: Option<&Word<'_, 's>>,
    rows: &RowList<'s>,
    values: &mut Values<'s>,
) -> Result<(), Fault>
    ensures { Updates (bound.values env.now (parameter_of parameter.now) (bound.source_in (parameter_of parameter.now) (option_copied default.entry))
        rows.now values.old) result values.new.0 }
{
    let assigned = phrase_value(PhraseWord::Becomes, parameter.phrases);
    let otherwise = phrase_value(PhraseWord::Default, parameter.phrases);
    let source = source_of(parameter.name.span, assigned, default, otherwise);
    with_keys(alloc, env, &source, rows, &mut values.table)?;
    let placed = PlacedValues {
        takes_texts: takes_texts(parameter.phrases),
        table: &values.table,
        cells: values.places.as_slice(),
        text: source_text(&source),
        at: source_at(&source),
    };
    fit_values(alloc, env, parameter, &placed, rows)
}

/// Builds the entry of a parameter. Fails only if memory runs out.
pub(crate) fn parameter_entry<'s>(
    alloc: Global,
    parameter: &Parameter<'_, 's>,
    values: KeyValues<'s>,
) -> Result<Boxed<Entry<'s>>, AllocError>
    ensures { IfOk result (λ e. e ≡ AParameter parameter.now.keys parameter.now.index.now values.entry) }
{
    let index = parameter.index.copied()?;
    boxed(alloc, Entry::Parameter(parameter.keys, index, values))
}

/// Adds the values from the data to an empty table, then the missing values.
fn filled<'s>(
    alloc: Global,
    earlier: &BindingEnv<'_, 's>,
    parameter: &Parameter<'_, 's>,
    named_data: &[NamedData<'_, '_, 's>],
    rows: &RowList<'s>,
    values: &mut Values<'s>,
) -> Result<(), Fault>
    requires { values.old ≡ ([], []) }
    ensures { Updates (bound.fill_table earlier.now.env earlier.now.widths.now (parameter_of parameter.now) named_data.now rows.now) result
        values.new.0 }
{
    let is_assigned = phrase_value(PhraseWord::Becomes, parameter.phrases).is_some();
    let widths = earlier.widths;
    let default = data_of(alloc, widths, parameter, is_assigned, named_data, values)?;
    with_values(
        alloc,
        &earlier.env,
        parameter,
        default.as_ref(),
        rows,
        values,
    )
}

fn with_data<'s>(
    alloc: Global,
    earlier: &BindingEnv<'_, 's>,
    parameter: &Parameter<'_, 's>,
    named_data: &[NamedData<'_, '_, 's>],
    rows: &RowList<'s>,
) -> Result<Boxed<Entry<'s>>, Fault>
    ensures { Refines (bound.with_data earlier.now.env earlier.now.widths.now (parameter_of parameter.now) named_data.now rows.now) result }
{
    let mut values = Values::over(alloc, parameter.index.copied()?)?;
    filled(alloc, earlier, parameter, named_data, rows, &mut values)?;
    let values = KeyValues::of_table(values.into_table());
    Ok(parameter_entry(alloc, parameter, values)?)
}

/// Evaluates a parameter without a look at each key, if its values all come from the data or one
/// numeral gives them all. Returns `None` if it is another parameter.
fn bound_over_keys<'s>(
    alloc: Global,
    earlier: &BindingEnv<'_, 's>,
    parameter: &Parameter<'_, 's>,
    named_data: &[NamedData<'_, '_, 's>],
) -> Result<Option<Boxed<Entry<'s>>>, Fault>
    ensures { (rows : List Place) (at : Position) → bound.index_list at rows ≡ Ok parameter.now.index.now → Answers (bound.with_data
        earlier.now.env earlier.now.widths.now (parameter_of parameter.now) named_data.now rows) result }
{
    if !has_source(parameter.phrases, named_data) {
        return from_data_alone(alloc, earlier, parameter, named_data);
    }
    match named_data {
        [] => same_everywhere(alloc, earlier, parameter),
        _ => Ok(None),
    }
}

/// Evaluates a declared parameter: its index set, then its data, then the missing values, then the
/// restrictions in its phrases.
pub(crate) fn bound_parameter<'s>(
    alloc: Global,
    earlier: &BindingEnv<'_, 's>,
    name: &Token<'s>,
    braces: &Option<Braces<'s>>,
    phrases: &[Phrase<'s>],
    named_data: &[NamedData<'_, '_, 's>],
) -> Result<Boxed<Entry<'s>>, Fault>
    ensures { Refines (bound.bound_parameter earlier.now.env earlier.now.widths.now name.now (indexing_of braces.now) (map phrase_of phrases.now)
        named_data.now) result }
{
    let indexing = kept_indexing_of(alloc, &earlier.env, braces)?;
    let rows = &indexing.rows;
    let index = index_list(
        alloc,
        earlier.env.hash_key(),
        span_or(name.span, braces),
        rows,
    )?;
    let parameter = Parameter {
        name,
        keys: indexing.count,
        index: &index,
        phrases,
    };
    match bound_over_keys(alloc, earlier, &parameter, named_data)? {
        Some(entry) => Ok(entry),
        None => with_data(alloc, earlier, &parameter, named_data, rows),
    }
}
