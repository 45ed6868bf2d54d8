//! Cost scaling.

ghost use Rattle.std.specs.Prelude.{◌≡◌, ℕ, IfOk, IfSome, map};
ghost use Rattle.net_normal.specs.declared.problem.Problem.{Problem};
ghost use Rattle.net_solve.specs.Machines.{IsConsistent};
ghost use Rattle.net_solve.specs.ScalingRuns.{IsEnded, IsScalingRun};

use crate::carried::Carried;
use crate::pseudoflow_start::excess_of;
use crate::rounding::greatest_cost;
use crate::rows::rows_of;
use net_check::{Certificate, Verdict, check};
use net_guess::{Cut, NodeQueue, find_cut};
use net_normal::{FlowArc, Problem};
use std::alloc::{AllocError, Global};

/// Cost scaling with a limit on its steps (Goldberg, Tarjan: Finding minimum-cost circulations by
/// successive approximation, 1990).
#[derive(Clone, Copy, Debug, PartialEq, Eq)]
pub struct Scaling {
    /// The maximum number of steps. A step is a push over one arc or a relabel of one node.
    pub budget: u64,
}

/// The result of a cost-scaling run.
#[derive(Drop)]
pub struct ScalingRun {
    /// A certificate, or `None` if none was found.
    pub answer: Option<Certificate>,
    /// The number of phases that were started.
    pub phases: u32,
    /// The number of steps.
    pub steps: u64,
}

impl Machine {
    /// Returns the result of a run that stops here.
    fn broken_off(&self) -> ScalingRun
        ensures { (problem : Problem) → IsConsistent problem self.now → IsScalingRun problem self.now.budget result }
    {
        ScalingRun {
            answer: None,
            phases: self.phases,
            steps: self.steps,
        }
    }

    /// Returns the result of a run whose last phase has ended. Fails only if memory runs out.
    fn ended(self, alloc: Global, problem: &Problem) -> Result<ScalingRun, AllocError>
        requires { IsEnded problem.now self }
        ensures { IfOk result (IsScalingRun problem.now self.budget) }
    {
        let phases = self.phases;
        let steps = self.steps;
        let answer = self.certificate(alloc, problem)?;
        Ok(ScalingRun {
            answer,
            phases,
            steps,
        })
    }
}

impl Scaling {
    /// The run that need not begin, if these nodes show that no flow is feasible.
    fn cut_off(&self, problem: &Problem, cut: Cut) -> Option<ScalingRun>
        ensures { IfSome result (IsScalingRun problem.now self.now.budget) }
    {
        let certificate = Certificate::Cut {
            flags: cut.flags,
            side: cut.side,
        };
        match check(problem, &certificate) {
            Verdict::Yes => Some(ScalingRun {
                answer: Some(certificate),
                phases: 0,
                steps: 0,
            }),
            Verdict::No(..) => None,
        }
    }

    /// Runs all phases, from the flow at all lower bounds.
    fn run_phases(&self, alloc: Global, problem: &Problem) -> Result<ScalingRun, AllocError>
        ensures { IfOk result (IsScalingRun problem.now self.now.budget) }
    {
        let scale = greatest_cost(&problem.arcs) * (problem.supplies.len() as u64 + 1);
        let mut machine = Machine::start(alloc, problem, self.budget)?;
        let Some(rows) = rows_of(alloc, problem)? else {
            return Ok(machine.broken_off());
        };
        let mut waiting = NodeQueue::with_room(alloc, problem.supplies.len())?;
        if !machine.run_phases(problem, &rows, &mut waiting, scale) {
            return Ok(machine.broken_off());
        }
        machine.ended(alloc, problem)
    }

    /// Runs cost scaling. If a heuristic finds a cut, the cut is the answer and no phase begins. The only error is running out of memory.
    pub fn run(&self, alloc: Global, problem: &Problem) -> Result<ScalingRun, AllocError>
        ensures { IfOk result (IsScalingRun problem.now self.now.budget) }
    {
        if let Some(cut) = find_cut(alloc, problem)? {
            if let Some(run) = self.cut_off(problem, cut) {
                return Ok(run);
            }
        }
        self.run_phases(alloc, problem)
    }
}

/// The flow, the potentials and the counts of a run.
#[derive(Drop)]
pub struct Machine {
    /// The flow of each arc, and the excess of each node.
    pub carried: Carried,
    /// The potential of each node, for costs scaled by one more than the number of nodes.
    pub potentials: Vec<i64>,
    /// The number of phases so far.
    pub phases: u32,
    /// The number of pushes and relabels so far.
    pub steps: u64,
    /// The maximum number of pushes and relabels.
    pub budget: u64,
    /// The tolerance for negative reduced costs in this phase.
    pub epsilon: i64,
}

/// Returns the flow of each arc at LOW. Fails only if memory runs out.
fn lows(alloc: Global, arcs: &[FlowArc]) -> Result<Vec<i64>, AllocError>
    ensures { IfOk result (λ flows. flows.items ≡ map (λ arc. arc.low) arcs.now) }
{
    arcs.iter().map(|arc| arc.low).collect(alloc)
}

impl Machine {
    /// Creates the state of a run before its first phase. Fails only if memory runs out.
    pub fn start(alloc: Global, problem: &Problem, budget: u64) -> Result<Machine, AllocError>
        ensures standing { IfOk result (IsConsistent problem.now) }
        ensures phases { IfOk result (λ machine. machine.phases ≡ 0) }
        ensures budget { IfOk result (λ machine. machine.budget ≡ budget) }
    {
        let flows = lows(alloc, &problem.arcs)?;
        let excess = excess_of(alloc, problem, &flows)?;
        let potentials = vec![in alloc; 0_i64; problem.supplies.len()]?;
        Ok(Machine {
            carried: Carried { flows, excess },
            potentials,
            phases: 0,
            steps: 0,
            budget,
            epsilon: 0,
        })
    }
}
