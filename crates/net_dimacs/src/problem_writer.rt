//! Writing problems as DIMACS files, with streaming output.

ghost use Rattle.std.specs.Prelude.{◌≡◌, ◌<◌, ◌≤◌, ◌||◌, IfOk, OnOk, OnErr, is_err, length};
ghost use Rattle.std.specs.List.{flat_map};
ghost use Rattle.std.specs.Io.KnownBytes.{Appends};
ghost use Rattle.net_io.specs.Ends.{WritesFront};
ghost use Rattle.net_normal.specs.Limits.{flow_node_limit};
ghost use Rattle.net_dimacs.specs.Written.{head_line, node_line, node_lines, arc_line, problem_text};
ghost use Rattle.net_dimacs.specs.Problems.{IsProblemText, IsOnlyProblem};
ghost use Rattle.net_io.specs.Paging.{SendsTo};

use crate::OutOfMemory;
use crate::written_line::send_line;
use net_io::{Failed, GrowingSink, Page, Sink};
use net_normal::{FlowArc, Problem};
use std::alloc::{AllocError, Global};

/// Formats a problem: its counts, a line for each nonzero supply, and a line for each arc. Fails
/// only if memory runs out.
pub fn write_problem(alloc: Global, problem: &Problem) -> Result<Vec<u8>, OutOfMemory>
    ensures value { IfOk result (λ text.
        text.items ≡ problem_text problem.now.supplies.items problem.now.arcs.items) }

    // The text contains this problem, and no other.
    ensures ok { IfOk result (λ text.
        IsProblemText text.items problem.now.supplies.items problem.now.arcs.items) }
    ensures only { IfOk result (λ text.
        IsOnlyProblem text.items problem.now.supplies.items problem.now.arcs.items) }
{
    let mut sink = GrowingSink::new(Vec::new(alloc));
    match write_problem_to(problem, &mut sink) {
        Ok(()) => Ok(sink.taken),
        Err(_) => Err(AllocError),
    }
}

/// Writes the text of a problem, the same as [`write_problem`], through a buffer of 4,096 bytes.
/// Allocates no memory.
///
/// On `Failed`, a prefix of the text was written.
pub fn write_problem_to<W: Sink>(problem: &Problem, sink: &mut W) -> Result<(), Failed>
    ensures ok { OnOk result (Appends (W.taken sink.old) (W.taken sink.new)
        (problem_text problem.now.supplies.items problem.now.arcs.items)) }
    ensures err { OnErr result (WritesFront (W.taken sink.old) (W.taken sink.new)
        (problem_text problem.now.supplies.items problem.now.arcs.items)) }
    ensures flag { W.failed sink.new ≡ (W.failed sink.old || is_err result) }

    // The text contains this problem, and no other.
    ensures problem { IsProblemText (problem_text problem.now.supplies.items problem.now.arcs.items)
        problem.now.supplies.items problem.now.arcs.items }
    ensures only { IsOnlyProblem (problem_text problem.now.supplies.items problem.now.arcs.items)
        problem.now.supplies.items problem.now.arcs.items }
{
    send_whole(problem, sink)
}

fn send_whole<W: Sink>(problem: &Problem, sink: &mut W) -> Result<(), Failed>
    ensures ok { OnOk result (Appends (W.taken sink.old) (W.taken sink.new)
        (problem_text problem.now.supplies.items problem.now.arcs.items)) }
    ensures err { OnErr result (WritesFront (W.taken sink.old) (W.taken sink.new)
        (problem_text problem.now.supplies.items problem.now.arcs.items)) }
    ensures flag { W.failed sink.new ≡ (W.failed sink.old || is_err result) }
{
    let mut page = Page::new();
    send_problem(sink, &mut page, problem);
    page.finish(sink)
}

fn send_problem<W: Sink>(sink: &mut W, page: &mut Page, problem: &Problem)
    ensures { SendsTo W.taken W.failed sink.old sink.new page.old (problem_text problem.now.supplies.items problem.now.arcs.items) page.new }
{
    send_head(sink, page, problem);
    send_nodes(sink, page, &problem.supplies);
    send_arcs(sink, page, &problem.arcs);
}

fn send_head<W: Sink>(sink: &mut W, page: &mut Page, problem: &Problem)
    ensures { SendsTo W.taken W.failed sink.old sink.new page.old (head_line problem.now.supplies.items problem.now.arcs.items) page.new }
{
    let node_count = problem.supplies.len() as i64;
    let arc_count = problem.arcs.len() as i64;
    send_line(sink, page, b"p min", &[node_count, arc_count]);
}

fn send_nodes<W: Sink>(sink: &mut W, page: &mut Page, supplies: &[i64])
    requires { length supplies.now ≤ flow_node_limit }
    ensures { SendsTo W.taken W.failed sink.old sink.new page.old (node_lines 0 supplies.now) page.new }
{
    for (node, supply) in supplies.iter().enumerate() {
        send_node(sink, page, node, supply);
    }
}

fn send_node<W: Sink>(sink: &mut W, page: &mut Page, node: usize, supply: &i64)
    requires { node < flow_node_limit }
    ensures { SendsTo W.taken W.failed sink.old sink.new page.old (node_line node supply.now) page.new }
{
    if *supply != 0 {
        send_line(sink, page, b"n", &[node as i64 + 1, *supply]);
    }
}

fn send_arcs<W: Sink>(sink: &mut W, page: &mut Page, arcs: &[FlowArc])
    ensures { SendsTo W.taken W.failed sink.old sink.new page.old (flat_map arc_line arcs.now) page.new }
{
    for arc in arcs {
        send_arc(sink, page, *arc);
    }
}

fn send_arc<W: Sink>(sink: &mut W, page: &mut Page, arc: FlowArc)
    ensures { SendsTo W.taken W.failed sink.old sink.new page.old (arc_line arc) page.new }
{
    let src = i64::from(arc.src) + 1;
    let dst = i64::from(arc.dst) + 1;
    send_line(sink, page, b"a", &[src, dst, arc.low, arc.cap, arc.cost]);
}
