//! Writing why there is no plan.

ghost use Rattle.std.specs.Prelude.{◌≡◌, ◌+◌, ◌≤◌, ◌++◌, IfOk, OnOk, Some, length, vec_len};
ghost use Rattle.net_check.specs.Certificates.{is_in};
ghost use Rattle.net_report.specs.References.{declared_name, names_in, names_of};
ghost use Rattle.net_report.specs.Cuts as cuts;

use crate::OutOfMemory;
use itoa::Buffer;
use net_check::Side;
use net_check::cut::{least_out, most_out, supply_in};
use net_expr::push_reference;
use net_inst::{Declared, DeclaredRows, NameList, Names};
use net_normal::Problem;
use net_sets::Tuple;
use std::alloc::{AllocError, Global};

/// Formats a cut: `infeasible`, the direction in which the set's supply is infeasible, the supply,
/// what the arcs allow, and the names of the set's nodes. A last line `outside` follows if the
/// outside node, the problem's last, is in the set.
///
/// The problem has one node more than there are node names, and one flag for each node. Fails only
/// if memory runs out.
pub fn write_cut(
    alloc: Global,
    names: &Names<'_>,
    problem: &Problem,
    flags: &[bool],
    side: Side,
) -> Result<Vec<u8>, OutOfMemory>
    requires nodes { vec_len problem.now.supplies ≡ length names.now.nodes.keys + 1 }
    requires flags { length flags.now ≡ vec_len problem.now.supplies }
    ensures value { IfOk result (λ text. text.items ≡ cuts.cut_text names.now problem.now flags.now side) }
{
    let mut text = Vec::new(alloc);
    text.extend_from_slice(b"infeasible\n")?;
    push_sums(
        &mut text,
        side,
        supply_in(problem, flags),
        room(problem, flags, side),
    )?;
    push_nodes(alloc, &mut text, &names.nodes, flags)?;
    text.extend_from_slice(outside_line(is_outside_in(problem, flags)))?;
    Ok(text)
}

/// Returns what the set's arcs allow: the most that they can carry out of it, or the least that
/// they must.
fn room(problem: &Problem, flags: &[bool], side: Side) -> i128
    requires { length flags.now ≡ vec_len problem.now.supplies }
    ensures { result ≡ cuts.room problem.now flags.now side }
{
    match side {
        Side::Over => most_out(problem, flags),
        Side::Under => least_out(problem, flags),
    }
}

fn side_word(side: Side) -> &'static [u8]
    ensures { result.now ≡ cuts.side_word side }
{
    match side {
        Side::Over => b"over ",
        Side::Under => b"under ",
    }
}

fn push_sums(text: &mut Vec<u8>, side: Side, need: i128, room: i128) -> Result<(), AllocError>
    ensures ok { OnOk result (text.new.items ≡ text.old.items ++ cuts.sums_line side need room) }
{
    let mut buffer = Buffer::new();
    text.extend_from_slice(side_word(side))?;
    text.extend_from_slice(buffer.format(need).as_bytes())?;
    text.push(b' ')?;
    text.extend_from_slice(buffer.format(room).as_bytes())?;
    text.push(b'\n')?;
    Ok(())
}

/// Appends the names of the nodes that are in the set. Fails only if memory runs out.
fn push_nodes(
    alloc: Global,
    text: &mut Vec<u8>,
    nodes: &NameList<'_>,
    flags: &[bool],
) -> Result<(), AllocError>
    requires { length nodes.now.keys ≤ length flags.now }
    ensures ok { OnOk result (text.new.items ≡ text.old.items ++ cuts.node_lines flags.now (names_in nodes.now)) }
{
    let mut left = flags;
    for declaration in nodes.declarations() {
        let (own, later) = left.split_at(declaration.rows.len());
        push_declared_nodes(alloc, text, declaration, own)?;
        left = later;
    }
    Ok(())
}

/// Appends the names of those nodes of a declaration that are in the set.
fn push_declared_nodes(
    alloc: Global,
    text: &mut Vec<u8>,
    declaration: &DeclaredRows<'_>,
    flags: &[bool],
) -> Result<(), AllocError>
    requires { length flags.now ≡ length declaration.now.rows }
    ensures ok { OnOk result (text.new.items ≡ text.old.items ++ cuts.node_lines flags.now (names_of declaration.now)) }
{
    for place in 0..declaration.rows.len() {
        if flags[place] {
            let key = declaration.rows.key(place);
            push_node(alloc, text, &declaration.declared, &key)?;
        }
    }
    Ok(())
}

fn push_node(
    alloc: Global,
    text: &mut Vec<u8>,
    declared: &Declared<'_>,
    key: &Tuple<'_>,
) -> Result<(), AllocError>
    ensures ok { OnOk result (text.new.items ≡ text.old.items ++ cuts.node_line (declared_name (Some declared.now) key.now)) }
{
    let mut name = String::new(alloc);
    push_reference(alloc, &mut name, &declared.name, declared.indexed, key)?;
    text.extend_from_slice(b"node ")?;
    text.extend_from_slice(name.as_bytes())?;
    text.push(b'\n')?;
    Ok(())
}

/// Returns whether the outside node is in the set.
fn is_outside_in(problem: &Problem, flags: &[bool]) -> bool
    requires { length flags.now ≡ vec_len problem.now.supplies }
    ensures { result ≡ is_in flags.now (cuts.outside problem.now) }
{
    flags[problem.supplies.len() - 1]
}

fn outside_line(is_in: bool) -> &'static [u8]
    ensures { result.now ≡ cuts.outside_line is_in }
{
    if is_in { b"outside\n" } else { b"" }
}
