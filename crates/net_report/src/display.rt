//! Writing a plan.

ghost use Rattle.std.specs.Prelude.{◌≡◌, ◌++◌, IfOk, OnOk, length, ◌<◌};
ghost use Rattle.std.specs.List.{zip, flat_map};
ghost use Rattle.net_expr.specs.Rows.{keys_of};
ghost use Rattle.net_inst.specs.Lists.{AreInOrder};
ghost use Rattle.net_report.specs.Displays as displays;
ghost use Rattle.net_normal.specs.Limits.{IsSized, value_limit};
ghost use Rattle.net_normal.specs.Links.{mapped_back, mapped_back_at};
ghost use Rattle.net_report.specs.MapsBack.{IsCarried, AreCarried};

use crate::OutOfMemory;
use itoa::Buffer;
use net_base::Excerpt;
use net_check::wide::wide;
use net_expr::{RowList, push_member};
use net_inst::{Declared, DeclaredRows, NameList, Names};
use net_normal::Link;
use net_sets::Tuple;
use std::alloc::{AllocError, Global};

/// Formats a plan: the objective's name and value, and the value of each arc under its declared
/// name. An indexed declaration has a line for each of its arcs, with the members of its key before
/// the value, and a final line `;`.
///
/// The assignment has one value for each arc name. Fails only if memory runs out.
pub fn write_display(
    alloc: Global,
    names: &Names<'_>,
    assignment: &[i64],
    value: i128,
) -> Result<Vec<u8>, OutOfMemory>
    requires { length assignment.now ≡ length names.now.arcs.keys }
    ensures value { IfOk result (λ text. text.items ≡ displays.display_text names.now assignment.now value) }

    // If the arcs are in declaration order, all arcs of each declaration are printed.
    ensures all { AreInOrder 0 names.now.arcs.keys →
        IfOk result (λ text. text.items ≡ displays.display_of_all names.now assignment.now value) }
{
    write_plan(alloc, names, assignment, value)
}

fn write_plan(
    alloc: Global,
    names: &Names<'_>,
    assignment: &[i64],
    value: i128,
) -> Result<Vec<u8>, AllocError>
    requires { length assignment.now ≡ length names.now.arcs.keys }
    ensures { IfOk result (λ text. text.items ≡ displays.display_text names.now assignment.now value) }
{
    let numbers = widened(alloc, assignment)?;
    let mut text = Vec::new(alloc);
    push_value(&mut text, &names.objective, value)?;
    push_blocks(alloc, &mut text, &names.arcs, &numbers)?;
    Ok(text)
}

/// Returns the numbers in 128 bits. Fails only if memory runs out.
fn widened(alloc: Global, numbers: &[i64]) -> Result<Vec<i128>, AllocError>
    ensures { IfOk result (λ widened. widened.items ≡ numbers.now) }
{
    let mut widened = Vec::with_capacity(alloc, numbers.len())?;
    for number in numbers {
        widened.push(wide(number))?;
    }
    Ok(widened)
}

fn push_value(text: &mut Vec<u8>, name: &Excerpt<'_>, number: i128) -> Result<(), AllocError>
    ensures ok { OnOk result (text.new.items ≡ text.old.items ++ displays.value_line name.now number) }
{
    let mut buffer = Buffer::new();
    text.extend_from_slice(name.as_str().as_bytes())?;
    text.extend_from_slice(b" = ")?;
    text.extend_from_slice(buffer.format(number).as_bytes())?;
    text.push(b'\n')?;
    Ok(())
}

/// Appends the declarations in order, each with the numbers of its nodes or arcs. Fails only if
/// memory runs out.
pub(crate) fn push_blocks(
    alloc: Global,
    text: &mut Vec<u8>,
    listed: &NameList<'_>,
    numbers: &[i128],
) -> Result<(), AllocError>
    requires { length numbers.now ≡ length listed.now.keys }
    ensures ok { OnOk result (text.new.items ≡ text.old.items ++ displays.blocks 0 listed.now.declarations (zip listed.now.keys numbers.now)) }
{
    let mut left = numbers;
    for declaration in listed.declarations() {
        let (own, later) = left.split_at(declaration.rows.len());
        push_block(alloc, text, declaration, own)?;
        left = later;
    }
    Ok(())
}

/// Appends a declaration with the numbers of its nodes or arcs. Fails only if memory runs out.
fn push_block(
    alloc: Global,
    text: &mut Vec<u8>,
    declaration: &DeclaredRows<'_>,
    numbers: &[i128],
) -> Result<(), AllocError>
    requires { length numbers.now ≡ length declaration.now.rows }
    ensures ok { OnOk result (text.new.items ≡ text.old.items ++ displays.declared_block declaration.now numbers.now) }
{
    let Declared { name, indexed } = &declaration.declared;
    if *indexed {
        text.extend_from_slice(name.as_str().as_bytes())?;
        text.extend_from_slice(b" :=\n")?;
        push_rows(alloc, text, &declaration.rows, numbers)?;
        text.extend_from_slice(b";\n")
    } else {
        push_values(text, name, numbers)
    }
}

fn push_values(text: &mut Vec<u8>, name: &Excerpt<'_>, numbers: &[i128]) -> Result<(), AllocError>
    ensures ok { OnOk result (text.new.items ≡ text.old.items ++ flat_map (displays.value_line name.now) numbers.now) }
{
    for number in numbers {
        push_value(text, name, *number)?;
    }
    Ok(())
}

fn push_rows(
    alloc: Global,
    text: &mut Vec<u8>,
    rows: &RowList<'_>,
    numbers: &[i128],
) -> Result<(), AllocError>
    requires { length numbers.now ≡ length rows.now }
    ensures ok { OnOk result (text.new.items ≡ text.old.items ++ displays.key_rows (keys_of rows.now) numbers.now) }
{
    for place in 0..rows.len() {
        push_row(alloc, text, &rows.key(place), numbers[place])?;
    }
    Ok(())
}

/// Appends the members of a key and a number. Fails only if memory runs out.
fn push_row(
    alloc: Global,
    text: &mut Vec<u8>,
    key: &Tuple<'_>,
    number: i128,
) -> Result<(), AllocError>
    ensures ok { OnOk result (text.new.items ≡ text.old.items ++ displays.key_row key.now number) }
{
    let mut buffer = Buffer::new();
    push_fields(alloc, text, key)?;
    text.extend_from_slice(buffer.format(number).as_bytes())?;
    text.push(b'\n')?;
    Ok(())
}

/// Appends the members, each followed by a space. Fails only if memory runs out.
fn push_fields(alloc: Global, text: &mut Vec<u8>, key: &Tuple<'_>) -> Result<(), AllocError>
    ensures ok { OnOk result (text.new.items ≡ text.old.items ++ displays.fields key.now) }
{
    let mut fields = String::new(alloc);
    for member in key.as_slice() {
        push_member(alloc, &mut fields, member)?;
        fields.push_str(" ")?;
    }
    text.extend_from_slice(fields.as_bytes())
}

/// Returns the flow of the arc with this number (counted from 1) plus the offset, or only the
/// offset if the number is 0.
fn number_of(flows: &[i64], number: &u32, offset: &i64) -> i64
    requires flow { 0 < number.now → IsCarried flows.now number.now }
    requires offset { IsSized value_limit offset.now }
    ensures value { result ≡ mapped_back_at flows.now number.now offset.now }
{
    if *number == 0 {
        return *offset;
    }
    flows[*number as usize - 1] + *offset
}

/// Maps a flow back to its assignment. The value of an arc of the model is the flow of the arc with
/// its number (counted from 1) plus its offset; number 0 means that the problem omits the arc, and
/// the value is the offset.
///
/// Each nonzero number of the link has a flow between 0 and 10^18. Fails only if memory runs out.
pub fn map_back(alloc: Global, link: &Link, flows: &[i64]) -> Result<Vec<i64>, OutOfMemory>
    requires { AreCarried flows.now link.now.numbers.items }
    ensures value { IfOk result (λ assignment. assignment.items ≡ mapped_back link.now flows.now) }
{
    let mut assignment = Vec::with_capacity(alloc, link.numbers.len())?;
    for (arc, number) in link.numbers.iter().enumerate() {
        assignment.push(number_of(flows, number, &link.offsets[arc]))?;
    }
    Ok(assignment)
}
