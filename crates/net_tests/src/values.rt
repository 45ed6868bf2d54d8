//! What expressions come to in a world, as texts to compare.

use crate::comparison::expect;
use crate::steps::line_of;
use net_base::Excerpt;
use net_bind::{Keys, Member, Scope, Tuple, World, holds, index_of, members, value};
use net_expr::{Row, push_member};
use net_lex::whole_of;
use net_tree::{Braces, Expr};
use std::alloc::{AllocError, Global};
use std::test::Fail;

/// A member as text.
pub fn member_shown(alloc: Global, member: &Member<'_>) -> Result<String, AllocError> {
    let mut out = String::new(alloc);
    push_member(alloc, &mut out, member)?;
    Ok(out)
}

/// The members of a tuple, each after a blank.
pub fn tuple_shown(alloc: Global, tuple: &Tuple<'_>) -> Result<String, AllocError> {
    let mut out = String::new(alloc);
    for member in tuple.as_slice() {
        out.push_str(" ")?;
        push_member(alloc, &mut out, member)?;
    }
    Ok(out)
}

/// A dummy with its member, if it is in scope.
fn dummy_shown<'s>(alloc: Global, scope: &Scope<'s>, name: &'s str) -> Result<String, AllocError> {
    match scope.get(&Excerpt::new(name)) {
        Some(member) => {
            let member = member_shown(alloc, member)?;
            format!(in alloc; " {name}={member}")
        }
        None => Ok(String::new(alloc)),
    }
}

fn row_shown(alloc: Global, row: &Row<'_>) -> Result<String, AllocError> {
    let key = tuple_shown(alloc, &row.key)?;
    let i = dummy_shown(alloc, &row.scope, "i")?;
    let j = dummy_shown(alloc, &row.scope, "j")?;
    format!(in alloc; "{key} with{i}{j};")
}

/// How many members a key has, and the keys with the dummies `i` and `j` at each.
fn keys_shown(alloc: Global, keys: &Keys<'_>) -> Result<String, AllocError> {
    let width = keys.width;
    let mut out = format!(in alloc; "{width:?}:")?;
    for row in keys.rows.as_slice() {
        out.push_str(row_shown(alloc, row)?.as_str())?;
    }
    Ok(out)
}

/// What `value` answers.
pub fn value_shown<'s>(
    alloc: Global,
    world: &World<'s>,
    scope: &Scope<'s>,
    expr: &Expr<'s>,
) -> Result<String, AllocError> {
    match value(alloc, world, scope, expr) {
        Ok(member) => member_shown(alloc, &member),
        Err(fault) => line_of(alloc, &fault),
    }
}

/// What `members` answers.
pub fn members_shown<'s>(
    alloc: Global,
    world: &World<'s>,
    scope: &Scope<'s>,
    expr: &Expr<'s>,
) -> Result<String, AllocError> {
    match members(alloc, world, scope, expr) {
        Ok(set) => {
            let mut out = String::new(alloc);
            for place in 0..set.get().len() {
                let tuple = set.get().tuple_at(place);
                out.push_str(tuple_shown(alloc, &tuple)?.as_str())?;
                out.push_str(";")?;
            }
            Ok(out)
        }
        Err(fault) => line_of(alloc, &fault),
    }
}

/// What `holds` answers.
pub fn truth_shown<'s>(
    alloc: Global,
    world: &World<'s>,
    scope: &Scope<'s>,
    expr: &Expr<'s>,
) -> Result<String, AllocError> {
    match holds(alloc, world, scope, expr) {
        Ok(truth) => format!(in alloc; "{truth}"),
        Err(fault) => line_of(alloc, &fault),
    }
}

/// What `index_of` answers.
pub fn index_shown<'s>(
    alloc: Global,
    world: &World<'s>,
    scope: &Scope<'s>,
    braces: &Braces<'s>,
) -> Result<String, AllocError> {
    match index_of(alloc, world, scope, braces) {
        Ok(keys) => keys_shown(alloc, &keys),
        Err(fault) => line_of(alloc, &fault),
    }
}

/// The value of a numeral, or why it has none.
fn value_of(alloc: Global, numeral: &str) -> Result<String, AllocError> {
    match whole_of(numeral) {
        Ok(value) => format!(in alloc; "{value}"),
        Err(fault) => format!(in alloc; "{fault:?}"),
    }
}

const NUMERALS: &[(&str, &str)] = &[
    ("450.0", "450"),
    ("250e-1", "25"),
    ("0e99", "0"),
    ("-1e12", "-1000000000000"),
    ("2.5", "NotWhole"),
    ("1e-400", "NotWhole"),
    ("1e13", "TooLarge"),
    ("0.5e13", "TooLarge"),
    ("1e999999999999", "TooLarge"),
    ("1e", "NotNumeral"),
];

#[test]
fn numerals_have_whole_values(rt: HostRuntime) -> Result<(), Fail> {
    for (numeral, wanted) in NUMERALS {
        expect(numeral, value_of(rt.alloc(), numeral), wanted)?;
    }
    Ok(())
}
