//! The meaning of a line of a problem file.

ghost use Rattle.std.specs.Prelude.{◌≡◌};
ghost use Rattle.std.specs.Option.{option_map};
ghost use Rattle.net_dimacs.specs.Lines.{fields_of};
ghost use Rattle.net_dimacs.specs.Reading.{line_statement};
ghost use Rattle.net_dimacs.specs.Numbers.{cut_statement, cut_numbers, two_in, arc_in, node_in, problem_in, kind_of, statement_of_kind};

use crate::fields::split_field;
use crate::number_field::split_number;

/// The meaning of a line that is neither blank nor a comment. Numbers outside `i64` are saturated.
#[derive(Clone, Copy)]
pub enum LineStatement {
    /// The number of nodes and the number of arcs, as in `p min 3 2`.
    Problem(i64, i64),
    /// A node's number and its supply, as in `n 1 -5`.
    Node(i64, i64),
    /// An arc's tail and head, LOW, CAP and COST, as in `a 1 2 0 5 3`.
    Arc(i64, i64, i64, i64, i64),
    /// Anything else, as `q` or `a 1 2`.
    Other,
}

/// The kind of line that a first field indicates.
#[derive(Clone, Copy)]
pub enum LineKind {
    /// It begins with `c`.
    Comment,
    /// `p`
    Problem,
    /// `n`
    Node,
    /// `a`
    Arc,
    /// Anything else.
    Other,
}

/// Parses a line. Returns `None` for a blank line and for a comment.
pub fn statement_of(line: &[u8]) -> Option<LineStatement>
    ensures { result ≡ option_map cut_statement (line_statement line.now) }
{
    let (field, rest) = split_field(line)?;
    statement_of_kind(kind_of(field), rest)
}

fn statement_of_kind(kind: LineKind, rest: &[u8]) -> Option<LineStatement>
    ensures { result ≡ statement_of_kind kind (fields_of rest.now) }
{
    let line_statement = match kind {
        LineKind::Comment => return None,
        LineKind::Problem => problem_in(rest),
        LineKind::Node => node_in(rest),
        LineKind::Arc => arc_in(rest),
        LineKind::Other => None,
    };
    Some(line_statement.unwrap_or(LineStatement::Other))
}

fn kind_of(field: &[u8]) -> LineKind
    ensures { result ≡ kind_of field.now }
{
    match field {
        [b'c', ..] => LineKind::Comment,
        [b'p'] => LineKind::Problem,
        [b'n'] => LineKind::Node,
        [b'a'] => LineKind::Arc,
        _ => LineKind::Other,
    }
}

fn problem_in(bytes: &[u8]) -> Option<LineStatement>
    ensures { result ≡ problem_in (fields_of bytes.now) }
{
    let (field, rest) = split_field(bytes)?;
    match field {
        b"min" => {
            let (nodes, arcs) = two_in(rest)?;
            Some(LineStatement::Problem(nodes, arcs))
        }
        _ => None,
    }
}

fn node_in(bytes: &[u8]) -> Option<LineStatement>
    ensures { result ≡ node_in (cut_numbers bytes.now) }
{
    let (node, supply) = two_in(bytes)?;
    Some(LineStatement::Node(node, supply))
}

fn two_in(bytes: &[u8]) -> Option<(i64, i64)>
    ensures { result ≡ two_in (cut_numbers bytes.now) }
{
    let (first, rest) = split_number(bytes)?;
    let (second, rest) = split_number(rest)?;
    match split_field(rest) {
        None => Some((first, second)),
        Some(_) => None,
    }
}

fn arc_in(bytes: &[u8]) -> Option<LineStatement>
    ensures { result ≡ arc_in (cut_numbers bytes.now) }
{
    let (src, rest) = split_number(bytes)?;
    let (dst, rest) = split_number(rest)?;
    let (low, rest) = split_number(rest)?;
    let (cap, rest) = split_number(rest)?;
    let (cost, rest) = split_number(rest)?;
    match split_field(rest) {
        None => Some(LineStatement::Arc(src, dst, low, cap, cost)),
        Some(_) => None,
    }
}
