//! Collecting the data statements by declared name.

ghost use Rattle.std.specs.Prelude.{◌≡◌, false, IfOk, None, length};
ghost use Rattle.net_data.specs.declared.statement.Statement.TheVariants as Statements;
ghost use Rattle.net_bind.specs.DataByName as named_data;
ghost use Rattle.net_base.specs.Outcomes.{Refines, Updates};

use crate::declared_names::DeclaredNames;
use crate::given::{DataContent, DataFor, Grid, Groups, Line, NamedData};
use net_base::{Fault, Items};
use net_data::{
    ColumnsStatement, DefaultValue, ListStatement, NamedSet, SetStatement, Statement,
    TableStatement,
};
use net_lex::Word;
use std::alloc::{AllocError, Global};

/// Adds a statement's data for the set or parameter that a token names.
fn add<'m, 't, 's>(
    names: &DeclaredNames<'s>,
    is_set: bool,
    word: &Word<'t, 's>,
    default: Option<Word<'t, 's>>,
    given: DataContent<'m, 't, 's>,
    all: &mut Vec<DataFor<'m, 't, 's>>,
) -> Result<(), Fault>
    ensures { Updates (named_data.with_named names.now is_set word.now (λ i. named_data.named word.now default.entry given.entry) all.old.items)
        result all.new.items }
{
    let place = names.target(is_set, word)?;
    if place < all.len() {
        let word = word.copied();
        all[place].push(NamedData {
            word,
            default,
            given,
        })?;
    }
    Ok(())
}

/// Adds the members of a set, as in `set S := a b;`.
fn in_set<'t, 's>(
    names: &DeclaredNames<'s>,
    set: &SetStatement<'t, 's>,
    all: &mut Vec<DataFor<'_, 't, 's>>,
) -> Result<(), Fault>
    ensures { Updates (named_data.in_statement names.now (Statements.Set set.now) all.old.items) result all.new.items }
{
    let given = DataContent::Members(set.items.copied());
    add(names, true, &set.name, None, given, all)
}

fn default_word<'t, 's>(default: &Option<DefaultValue<'t, 's>>) -> Option<Word<'t, 's>>
    ensures { result ≡ named_data.default_word default.now }
{
    match default {
        None => None,
        Some(default) => Some(default.value.copied()),
    }
}

/// Adds the values of a parameter, as in `param p default 0 := a 1;`.
fn in_list<'m, 't, 's>(
    names: &DeclaredNames<'s>,
    list: &ListStatement<'t, 's>,
    cells: &'m [Word<'t, 's>],
    all: &mut Vec<DataFor<'m, 't, 's>>,
) -> Result<(), Fault>
    requires { cells.now ≡ named_data.given_cells list.now.given }
    ensures { Updates (named_data.in_statement names.now (Statements.List list.now) all.old.items) result all.new.items }
{
    let groups = Groups {
        leader: names.target(false, &list.name)?,
        values: 1,
        place: 0,
        cells: Line::new(cells),
    };
    let default = default_word(&list.default);
    add(
        names,
        false,
        &list.name,
        default,
        DataContent::Groups(groups),
        all,
    )
}

/// Adds a table of a parameter, as in `param p : a b := c 1 2;`.
fn in_table<'m, 't, 's>(
    names: &DeclaredNames<'s>,
    table: &'m TableStatement<'t, 's>,
    all: &mut Vec<DataFor<'m, 't, 's>>,
) -> Result<(), Fault>
    ensures { Updates (named_data.in_statement names.now (Statements.Table table.entry.now) all.old.items) result all.new.items }
{
    let grid = Grid {
        transposed: table.transposed.is_some(),
        columns: Line::new(table.columns.as_slice()),
        cells: Line::new(table.cells.as_slice()),
    };
    let default = default_word(&table.default);
    add(
        names,
        false,
        &table.name,
        default,
        DataContent::Grid(grid),
        all,
    )
}

fn set_first<'s>(
    names: &DeclaredNames<'s>,
    set: &Option<NamedSet<'_, 's>>,
) -> Result<Option<usize>, Fault>
    ensures { Refines (named_data.set_first names.now set.now) result }
{
    match set {
        None => Ok(None),
        Some(set) => {
            let place = names.target(true, &set.name)?;
            Ok(Some(place))
        }
    }
}

fn lesser(first: Option<usize>, place: usize) -> usize
    ensures { result ≡ named_data.lesser first place }
{
    match first {
        None => place,
        Some(first) => first.min(place),
    }
}

/// Looks up all names in a heading; returns the index of the one declared first.
fn first_of<'s>(
    names: &DeclaredNames<'s>,
    words: &[Word<'_, 's>],
    before: Option<usize>,
) -> Result<Option<usize>, Fault>
    ensures { Refines (named_data.first_of names.now words.now before) result }
{
    let mut first = before;
    for word in words {
        let place = names.target(false, word)?;
        first = Some(lesser(first, place));
    }
    Ok(first)
}

/// Returns the groups of a heading, with the index of the value that is used.
fn groups_of<'m, 't, 's>(
    leader: usize,
    place: usize,
    columns: &'m ColumnsStatement<'t, 's>,
) -> DataContent<'m, 't, 's>
    ensures { result ≡ named_data.grouped leader (length columns.entry.now.names) place columns.entry.now.cells }
{
    DataContent::Groups(Groups {
        leader,
        values: columns.names.as_slice().len(),
        place,
        cells: Line::new(columns.cells.as_slice()),
    })
}

/// Adds the parameters of a heading.
fn in_heading<'m, 't, 's>(
    names: &DeclaredNames<'s>,
    leader: usize,
    columns: &'m ColumnsStatement<'t, 's>,
    all: &mut Vec<DataFor<'m, 't, 's>>,
) -> Result<(), Fault>
    ensures { Updates (named_data.headed names.now leader (length columns.entry.now.names) columns.entry.now.cells 0 columns.entry.now.names
        all.old.items) result all.new.items }
{
    for (place, word) in columns.names.as_slice().iter().enumerate() {
        let groups = groups_of(leader, place, columns);
        add(names, false, word, None, groups, all)?;
    }
    Ok(())
}

/// Adds the set of a heading.
fn set_headed<'m, 't, 's>(
    names: &DeclaredNames<'s>,
    leader: usize,
    columns: &'m ColumnsStatement<'t, 's>,
    all: &mut Vec<DataFor<'m, 't, 's>>,
) -> Result<(), Fault>
    ensures { Updates (named_data.set_headed names.now leader (length columns.entry.now.names) columns.entry.now.cells columns.entry.now.set
        all.old.items) result all.new.items }
{
    match &columns.set {
        None => Ok(()),
        Some(set) => {
            let groups = groups_of(leader, 0, columns);
            add(names, true, &set.name, None, groups, all)
        }
    }
}

/// Adds the columns of several parameters, as in `param : S : p q := a 1 2;`.
fn in_columns<'m, 't, 's>(
    names: &DeclaredNames<'s>,
    columns: &'m ColumnsStatement<'t, 's>,
    all: &mut Vec<DataFor<'m, 't, 's>>,
) -> Result<(), Fault>
    ensures { Updates (named_data.in_statement names.now (Statements.Columns columns.entry.now) all.old.items) result all.new.items }
{
    let before = set_first(names, &columns.set)?;
    let leader = first_of(names, columns.names.as_slice(), before)?.unwrap_or(0);
    set_headed(names, leader, columns, all)?;
    in_heading(names, leader, columns, all)
}

fn in_statement<'m, 't, 's>(
    names: &DeclaredNames<'s>,
    statement: &'m Statement<'t, 's>,
    all: &mut Vec<DataFor<'m, 't, 's>>,
) -> Result<(), Fault>
    ensures { Updates (named_data.in_statement names.now statement.entry.now all.old.items) result all.new.items }
{
    match statement {
        Statement::Set(set) => in_set(names, set, all),
        Statement::List(list) => match &list.given {
            None => in_list(names, list, &[], all),
            Some(given) => in_list(names, list, given.cells.as_slice(), all),
        },
        Statement::Table(table) => in_table(names, table, all),
        Statement::Columns(columns) => in_columns(names, columns, all),
    }
}

/// Creates empty data for each name. Fails only if memory runs out.
fn no_data<'m, 't, 's>(
    alloc: Global,
    names: &DeclaredNames<'s>,
) -> Result<Vec<DataFor<'m, 't, 's>>, AllocError>
    ensures { IfOk result (λ all. all.items ≡ named_data.no_data names.now) }
{
    let mut all: Vec<DataFor<'m, 't, 's>> = Vec::new(alloc);
    for _index in 0..names.len() {
        all.push(DataFor {
            named_data: Vec::new(alloc),
        })?;
    }
    Ok(all)
}

/// Collects the content of all statements by declared name. The names are looked up first,
/// statement by statement from left to right. Returns E30 at the first name that is not a set or a
/// parameter as the statement requires.
pub(crate) fn data_by_name<'m, 't, 's>(
    alloc: Global,
    names: &DeclaredNames<'s>,
    statements: &'m [Statement<'t, 's>],
) -> Result<Items<DataFor<'m, 't, 's>>, Fault>
    ensures { Refines (named_data.data_by_name names.now statements.entry.now) result }
{
    let mut all = no_data(alloc, names)?;
    for statement in statements {
        in_statement(names, statement, &mut all)?;
    }
    Ok(Items::new(all))
}
