//! Problems settled by a solver.

ghost use Rattle.std.specs.Prelude.{IfOk, ◌≡◌, ℕ, ◌<◌, ◌≤◌, ◌^◌, List, ℤ, ◌≤ℤ◌};
ghost use Rattle.net_check.specs.Certificates.{IsCertificate};
ghost use Rattle.net_solve.specs.Settling.{BoundsEachFlow, LeavesNoFlow, IsOwnAnswer};
ghost use Rattle.net_normal.specs.declared.problem.Problem.{Problem};
ghost use Rattle.net_solve.specs.Runs.{HasEnded, Reaches, State, greatest_scaled};
ghost use Rattle.net_normal.specs.Flows.{IsFeasibleFlow, cost_of};

use crate::scaling::Scaling;
use crate::solver::{Plain, Solver};
use net_check::Certificate;
use net_guess::find_guess;
use net_normal::Problem;
use std::alloc::{AllocError, Global};

/// The most steps that cost scaling may take if it is asked first.
const BUDGET: u64 = 10_000_000;

/// Settles a problem by a solver, and by `Plain` if that has no answer. Both get the same guess.
/// The only error is running out of memory.
pub fn solve<S: Solver>(
    alloc: Global,
    solver: &S,
    problem: &Problem,
) -> Result<Certificate, AllocError>
    ensures certificate { IfOk result (IsCertificate problem.now) }
    ensures optimal { IfOk result (BoundsEachFlow problem.now) }
    ensures cut { IfOk result (LeavesNoFlow problem.now) }
    ensures asked { IfOk result (IsOwnAnswer problem.now (S.may_answer solver.now problem.now)) }
{
    let guess = find_guess(alloc, problem)?;
    if let Some(certificate) = solver.answer_from(alloc, problem, &guess)? {
        return Ok(certificate);
    }
    Plain.certificate(alloc, problem, &guess)
}

/// Settles a problem by cost scaling, which needs no guess, and by `Plain` if that has no answer.
/// The only error is running out of memory.
fn solve_small(alloc: Global, problem: &Problem) -> Result<Certificate, AllocError>
    ensures certificate { IfOk result (IsCertificate problem.now) }
    ensures optimal { IfOk result (BoundsEachFlow problem.now) }
    ensures cut { IfOk result (LeavesNoFlow problem.now) }
{
    match (Scaling { budget: BUDGET }).answer(alloc, problem)? {
        Some(certificate) => Ok(certificate),
        None => solve(alloc, &Plain, problem),
    }
}

/// Settles a problem: a small one by `Scaling` if that has an answer, any other by `Plain`. The only
/// error is running out of memory.
pub fn solve_problem(alloc: Global, problem: &Problem) -> Result<Certificate, AllocError>
    ensures certificate { IfOk result (IsCertificate problem.now) }
    ensures optimal { IfOk result (BoundsEachFlow problem.now) }
    ensures cut { IfOk result (LeavesNoFlow problem.now) }
{
    match first_solver(problem) {
        FirstSolver::Scaling => solve_small(alloc, problem),
        FirstSolver::Plain => solve(alloc, &Plain, problem),
    }
}

/// Up to how many nodes and arcs, times binary digits of the greatest multiplied cost, cost scaling is asked first. It takes at most about
/// half a millisecond then, no more than a process takes to start.
const CHEAP_SIZE: u64 = 4_000;

/// Which solver is asked first.
#[derive(Clone, Copy, Debug, PartialEq, Eq)]
pub enum FirstSolver {
    /// `Scaling`, with `Plain` if it has no answer.
    Scaling,
    /// `Plain` alone.
    Plain,
}

/// Chooses the solver that is asked first: cost scaling by itself if the problem is so small that its run is cheap.
pub fn first_solver(problem: &Problem) -> FirstSolver {
    let nodes = problem.supplies.len() as u64;
    let size = nodes.saturating_add(problem.arcs.len() as u64);
    let mut greatest = 0_u64;
    for arc in &problem.arcs {
        greatest = greatest.max(arc.cost.unsigned_abs());
    }
    let multiplied = greatest.saturating_mul(nodes.saturating_add(1));
    let digits = 64_u32.saturating_sub(multiplied.leading_zeros());
    if size.saturating_mul(u64::from(digits)) <= CHEAP_SIZE {
        FirstSolver::Scaling
    } else {
        FirstSolver::Plain
    }
}

/// Theorem: a run has at most as many phases as the greatest scaled cost has binary digits.
pub fn few_phases()
    ensures { (problem : Problem) (phases steps digits : ℕ) (state : State) → Reaches problem phases steps state → 1 ≤ digits
        → greatest_scaled problem < 2 ^ digits → phases ≤ digits }
{}

/// Theorem: the flows at the end of the last phase of any run are feasible, and no feasible flow
/// costs less.
pub fn last_phase()
    ensures feasible { (problem : Problem) (phases steps : ℕ) (flows : List ℤ) → HasEnded problem phases steps flows → IsFeasibleFlow problem flows }
    ensures least { (problem : Problem) (phases steps : ℕ) (flows others : List ℤ) → HasEnded problem phases steps flows → IsFeasibleFlow problem others
        → cost_of problem flows ≤ℤ cost_of problem others }
{}
