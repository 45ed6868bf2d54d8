//! The call that reads the statements of data.

use crate::comparison::expect;
use crate::steps::line_of;
use net_data::{
    Cells, DefaultValue, Given, Members, Single, Statement, TableStatement, Tables, parse_data,
};
use net_lex::{Word, Words, lex_data};
use std::alloc::{AllocError, Global};
use std::test::Fail;

fn cells_shown(alloc: Global, cells: &[Word<'_, '_>]) -> Result<String, AllocError> {
    let mut out = String::new(alloc);
    for cell in cells {
        out.push_str(" ")?;
        out.push_str(cell.text().as_str())?;
    }
    Ok(out)
}

fn given_shown(alloc: Global, given: &Option<Given<'_, '_>>) -> Result<String, AllocError> {
    match given {
        Some(given) => {
            let cells = cells_shown(alloc, given.cells.as_slice())?;
            format!(in alloc; " :={cells}")
        }
        None => Ok(String::new(alloc)),
    }
}

fn default_shown(
    alloc: Global,
    default: &Option<DefaultValue<'_, '_>>,
) -> Result<String, AllocError> {
    match default {
        Some(default) => {
            let value = default.value.text();
            let value = value.as_str();
            format!(in alloc; " default {value}")
        }
        None => Ok(String::new(alloc)),
    }
}

/// The members of an item of a set, in parentheses if it is a tuple.
fn item_shown(alloc: Global, is_tuple: bool, item: &Cells<'_, '_>) -> Result<String, AllocError> {
    let mut words = Vec::new(alloc);
    item.push_to(&mut words)?;
    let members = cells_shown(alloc, words.as_slice())?;
    if is_tuple {
        format!(in alloc; " ({members} )")
    } else {
        Ok(members)
    }
}

/// The greatest number of items of a set that are shown.
const ITEMS: usize = 100;

fn items_shown(alloc: Global, items: &Members<'_, '_>) -> Result<String, AllocError> {
    let mut out = String::new(alloc);
    let mut rest = items.copied();
    for _ in 0..ITEMS {
        match rest.first() {
            Some(item) => {
                out.push_str(item_shown(alloc, rest.begins_tuple(), &item)?.as_str())?;
                rest = rest.rest();
            }
            None => return Ok(out),
        }
    }
    Ok(out)
}

/// A table without its name.
fn table_shown(alloc: Global, table: &TableStatement<'_, '_>) -> Result<String, AllocError> {
    let default = default_shown(alloc, &table.default)?;
    let mark = if table.transposed.is_some() {
        " (tr)"
    } else {
        ""
    };
    let columns = cells_shown(alloc, table.columns.as_slice())?;
    let cells = cells_shown(alloc, table.cells.as_slice())?;
    format!(in alloc; "{default}{mark} :{columns} :={cells}")
}

fn statement_shown(alloc: Global, statement: &Statement<'_, '_>) -> Result<String, AllocError> {
    match statement {
        Statement::Set(it) => {
            let (name, items) = (it.name.text(), items_shown(alloc, &it.items)?);
            let name = name.as_str();
            format!(in alloc; "set {name} :={items};")
        }
        Statement::List(it) => {
            let (name, default) = (it.name.text(), default_shown(alloc, &it.default)?);
            let (name, given) = (name.as_str(), given_shown(alloc, &it.given)?);
            format!(in alloc; "list {name}{default}{given};")
        }
        Statement::Table(it) => {
            let (name, table) = (it.name.text(), table_shown(alloc, it)?);
            let name = name.as_str();
            format!(in alloc; "table {name}{table};")
        }
        Statement::Columns(it) => {
            let set = match &it.set {
                Some(set) => cells_shown(alloc, &[set.name.copied()])?,
                None => String::new(alloc),
            };
            let names = cells_shown(alloc, it.names.as_slice())?;
            let cells = cells_shown(alloc, it.cells.as_slice())?;
            format!(in alloc; "columns{set} :{names} :={cells};")
        }
    }
}

/// `data;` or `end;`, if it is there.
fn single_shown(alloc: Global, single: &Option<Single<'_, '_>>) -> Result<String, AllocError> {
    match single {
        Some(single) => {
            let word = single.word.text();
            let word = word.as_str();
            format!(in alloc; "{word};")
        }
        None => Ok(String::new(alloc)),
    }
}

fn tables_shown(alloc: Global, tables: &Tables<'_, '_>) -> Result<String, AllocError> {
    let mut out = single_shown(alloc, &tables.opening)?;
    for statement in tables.statements.as_slice() {
        out.push_str(statement_shown(alloc, statement)?.as_str())?;
    }
    out.push_str(single_shown(alloc, &tables.ending)?.as_str())?;
    Ok(out)
}

fn statements_in(alloc: Global, tokens: &Words<'_, '_>) -> Result<String, AllocError> {
    match parse_data(alloc, tokens) {
        Ok(tables) => tables_shown(alloc, &tables),
        Err(fault) => line_of(alloc, &fault),
    }
}

fn statements_of(alloc: Global, data: &[u8]) -> Result<String, AllocError> {
    match lex_data(alloc, data) {
        Ok(tokens) => statements_in(alloc, &tokens.words()),
        Err(fault) => line_of(alloc, &fault),
    }
}

/// Data, with their statements or the error.
const DATA: &[(&str, &str)] = &[
    (
        "data; set L := (a,b) (b,a); param p default 0 := a 5; param q; param c: x y := r 1 2; param: L: u v := a b 3 4; end;",
        "data;set L := ( a b ) ( b a );list p default 0 := a 5;list q;table c : x y := r 1 2;columns L : u v := a b 3 4;end;",
    ),
    (
        "set S := a, 'b c' -2 3; set E := ; param d default 1 (tr): x := r . s 2; param: u := a 3;",
        "set S := a 'b c' -2 3;set E :=;table d default 1 (tr) : x := r . s 2;columns : u := a 3;",
    ),
    ("set S 1;", "E20 Syntax in the data, bytes 6..7"),
    (
        "param c: x y := r 1 2 s 3;",
        "E21 RowWidth in the data, bytes 24..25",
    ),
    ("param: := ;", "E22 TableWidth in the data, bytes 7..9"),
];

#[test]
fn data_have_statements(rt: HostRuntime) -> Result<(), Fail> {
    for (data, wanted) in DATA {
        expect(data, statements_of(rt.alloc(), data.as_bytes()), wanted)?;
    }
    Ok(())
}
