//! The state of the reader of a problem.

ghost use Rattle.std.specs.Prelude.{◌≡◌, ◌<◌, ◌≤◌, true, All, ◌++◌, ◌∷◌, [], vec_len, vec_capacity, slice_set, pos, ◌≤ℤ◌, IfSome, IsNone};
ghost use Rattle.net_normal.specs.Limits.{IsSized, IsFlowArcOf, flow_node_limit, flow_arc_limit, flow_limit, cost_limit};
ghost use Rattle.net_dimacs.specs.Reading.{is_past, bounds_fault};

use crate::problem_fault::LineFault;
use crate::problem_line::LineStatement;
use crate::progress::LineStop;
use net_normal::{COST_LIMIT, FLOW_ARC_LIMIT, FLOW_LIMIT, FLOW_NODE_LIMIT, FlowArc, Problem};
use std::alloc::Global;

/// The content of the lines from the `p` line on, so far.
#[derive(Drop)]
pub struct ProblemDraft {
    /// The supply of each node, 0 if no line has set it.
    pub supplies: Vec<i64>,
    /// For each node, whether a line has set its supply.
    pub named: Vec<bool>,
    /// The arcs so far.
    pub arcs: Vec<FlowArc>,
    /// The number of arcs in the `p` line.
    pub arc_count: usize,
    pub ghost some_node: { 1 ≤ vec_len supplies },
    pub ghost few_nodes: { vec_len supplies ≤ flow_node_limit },
    pub ghost marks: { vec_len named ≡ vec_len supplies },
    pub ghost few_arcs: { arc_count ≤ flow_arc_limit },
    pub ghost arcs_so_far: { vec_len arcs ≤ arc_count },
    pub ghost room: { arc_count ≤ vec_capacity arcs },
    pub ghost supplies_fit: { All (IsSized flow_limit) supplies.items },
    pub ghost arcs_fit: { All (IsFlowArcOf (vec_len supplies)) arcs.items },
}

impl ProblemDraft {
    ghost use Rattle.net_dimacs.specs.Reading.{place_of, new_sketch, with_node, with_arc, next_sketch};
    ghost use Rattle.net_dimacs.specs.Drafts.{sketch_of, GivesDraft, GivesSketch};

    /// Starts a problem with the counts of a `p` line. Checks the counts before it allocates
    /// memory.
    pub fn new(alloc: Global, nodes: i64, arcs: i64) -> Result<ProblemDraft, LineStop>
        ensures { GivesDraft (new_sketch nodes arcs) result }
    {
        if nodes < 1 || arcs < 0 {
            return Err(LineStop::Line(LineFault::Count));
        }
        if nodes > FLOW_NODE_LIMIT as i64 || arcs > FLOW_ARC_LIMIT as i64 {
            return Err(LineStop::Line(LineFault::TooLarge));
        }
        let node_count = nodes as usize;
        let arc_count = arcs as usize;
        Ok(ProblemDraft {
            supplies: vec![in alloc; 0; node_count]?,
            named: vec![in alloc; false; node_count]?,
            arcs: Vec::with_capacity(alloc, arc_count)?,
            arc_count,
        })
    }

    /// Adds the next line. Allocates no memory.
    pub fn take(&mut self, statement: LineStatement) -> Result<(), LineFault>
        ensures { GivesSketch (next_sketch (sketch_of self.old) statement) result (sketch_of self.new) }
    {
        match statement {
            LineStatement::Problem(..) => Err(LineFault::LineOrder),
            LineStatement::Node(node, supply) => self.take_node(node, supply),
            LineStatement::Arc(src, dst, low, cap, cost) => self.take_arc(src, dst, low, cap, cost),
            LineStatement::Other => Err(LineFault::BadLine),
        }
    }

    /// Sets the supply of a node.
    fn take_node(&mut self, node: i64, supply: i64) -> Result<(), LineFault>
        ensures { GivesSketch (with_node (sketch_of self.old) node supply) result (sketch_of self.new) }
    {
        if !self.arcs.is_empty() {
            return Err(LineFault::LineOrder);
        }
        let Some(place) = self.place_of(node) else {
            return Err(LineFault::NodeNumber);
        };
        if self.named[place as usize] {
            return Err(LineFault::DoubleNode);
        }
        if is_past(FLOW_LIMIT, supply) {
            return Err(LineFault::TooLarge);
        }
        self.set_supply(place as usize, supply);
        Ok(())
    }

    /// Adds an arc.
    fn take_arc(
        &mut self,
        src: i64,
        dst: i64,
        low: i64,
        cap: i64,
        cost: i64,
    ) -> Result<(), LineFault>
        ensures { GivesSketch (with_arc (sketch_of self.old) src dst low cap cost) result (sketch_of self.new) }
    {
        if self.arcs.len() >= self.arc_count {
            return Err(LineFault::Count);
        }
        let Some(src) = self.place_of(src) else {
            return Err(LineFault::NodeNumber);
        };
        let Some(dst) = self.place_of(dst) else {
            return Err(LineFault::NodeNumber);
        };
        if let Some(fault) = bounds_fault(low, cap, cost) {
            return Err(fault);
        }
        self.push_arc(FlowArc {
            src,
            dst,
            low,
            cap,
            cost,
        });
        Ok(())
    }

    /// Returns the complete problem.
    pub fn problem(self) -> Problem
        ensures supplies { result.supplies.items ≡ self.supplies.items }
        ensures arcs { result.arcs.items ≡ self.arcs.items }
    {
        Problem {
            supplies: self.supplies,
            arcs: self.arcs,
        }
    }

    /// Returns the index of a node from its number, or `None` if there is no such node.
    fn place_of(&self, node: i64) -> Option<u32>
        ensures value { result ≡ place_of (sketch_of self.now) node }
        ensures within { IfSome result (λ place. place < vec_len self.now.supplies) }
    {
        if 1 <= node && node <= self.supplies.len() as i64 {
            Some((node - 1) as u32)
        } else {
            None
        }
    }

    fn set_supply(&mut self, place: usize, supply: i64)
        requires within { place < vec_len self.old.supplies }
        requires sized { IsSized flow_limit supply }
        ensures supplies { self.new.supplies.items ≡ slice_set self.old.supplies.items place supply }
        ensures named { self.new.named.items ≡ slice_set self.old.named.items place true }
        ensures arcs { self.new.arcs.items ≡ self.old.arcs.items }
        ensures arc_count { self.new.arc_count ≡ self.old.arc_count }
    {
        self.supplies[place] = supply;
        self.named[place] = true;
    }

    fn push_arc(&mut self, arc: FlowArc)
        requires room { vec_len self.old.arcs < self.old.arc_count }
        requires arc { IsFlowArcOf (vec_len self.old.supplies) arc }
        ensures { sketch_of self.new ≡ record (sketch_of self.old) { arcs = self.old.arcs.items ++ arc ∷ [] } }
    {
        self.arcs.push_reserved(arc);
    }
}

/// Returns whether the absolute value of a number exceeds `limit`.
fn is_past(limit: i64, number: i64) -> bool
    requires { pos 0 ≤ℤ limit }
    ensures { result ≡ is_past limit number }
{
    number > limit || number < -limit
}

/// Returns the error in the bounds and the cost of an arc, if there is one.
fn bounds_fault(low: i64, cap: i64, cost: i64) -> Option<LineFault>
    ensures value { result ≡ bounds_fault low cap cost }
    ensures low { IsNone result → pos 0 ≤ℤ low }
    ensures room { IsNone result → low ≤ℤ cap }
    ensures cap { IsNone result → cap ≤ℤ pos flow_limit }
    ensures cost { IsNone result → IsSized cost_limit cost }
{
    if low > FLOW_LIMIT || cap > FLOW_LIMIT || is_past(COST_LIMIT, cost) {
        return Some(LineFault::TooLarge);
    }
    if low < 0 || low > cap {
        return Some(LineFault::Bounds);
    }
    None
}
