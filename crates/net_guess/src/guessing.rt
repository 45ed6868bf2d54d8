//! The heuristics, in the order in which they are tried, each with a bound on its work.

use crate::bottleneck::bottleneck;
use crate::excess::{Start, lows_of};
use crate::guess::{Cut, Guess, Halt, Work};
use crate::preflow::{Feasibility, Preflow};
use crate::simplex::Simplex;
use net_check::Side;
use net_normal::Problem;
use std::alloc::{AllocError, Global};

// Each bound is a number of nodes and arcs to inspect, for each node and arc of the problem.

/// After so much work, a network simplex that has more than two thirds of its excess left waits for a preflow to decide whether there is a
/// flow. It would hardly send the rest within `EARLY_LOOKS`.
const FIRST_LOOKS: u64 = 10;

/// After so much work, a network simplex that still has excess waits for a preflow in any case. Most problems that have a flow need less.
const EARLY_LOOKS: u64 = 40;

/// After so much work, a network simplex that still has excess restarts from the flow of a preflow.
const EXCESS_LOOKS: u64 = 400;

/// The bound of a preflow.
const PREFLOW_LOOKS: u64 = 2_000;

/// The bound of a network simplex. Paths and long grids need the most.
const SIMPLEX_LOOKS: u64 = 30_000;

/// Proposes an answer to a problem. The only error is running out of memory.
pub fn find_guess(alloc: Global, problem: &Problem) -> Result<Guess, AllocError> {
    let (guess, _work) = find_counted_guess(alloc, problem)?;
    Ok(guess)
}

/// Proposes the same answer, and returns the work that it took. The only error is running out of memory.
pub fn find_counted_guess(alloc: Global, problem: &Problem) -> Result<(Guess, Work), AllocError> {
    let mut work = Work::NONE;
    match guessed(alloc, problem, &mut work) {
        Ok(guess) => Ok((guess, work)),
        Err(Halt::OutOfRange) => {
            let flows = Vec::new(alloc);
            let potentials = Vec::new(alloc);
            work.is_done = false;
            Ok((Guess::Flow { flows, potentials }, work))
        }
        Err(Halt::OutOfMemory) => Err(AllocError),
    }
}

/// Proposes a set of nodes that shows that no flow is feasible, or `None` if it finds no such set. The only error is running out of
/// memory.
pub fn find_cut(alloc: Global, problem: &Problem) -> Result<Option<Cut>, AllocError> {
    match decided(alloc, problem) {
        Ok(cut) => Ok(cut),
        Err(Halt::OutOfRange) => Ok(None),
        Err(Halt::OutOfMemory) => Err(AllocError),
    }
}

/// Returns a cut, if one is found in any way.
fn decided(alloc: Global, problem: &Problem) -> Result<Option<Cut>, Halt> {
    let start = Start::new(alloc, problem, lows_of(alloc, problem)?)?;
    if let Some(cut) = simple_cut(alloc, problem, &start.excess)? {
        return Ok(Some(cut));
    }
    let mut work = Work::NONE;
    let (mut preflow, shown) = run_preflow(alloc, problem, &start, false, &mut work)?;
    match shown {
        Feasibility::Infeasible => Ok(Some(cut_of(&mut preflow, alloc)?)),
        Feasibility::Feasible | Feasibility::Unknown => Ok(None),
    }
}

/// Returns the first answer that a heuristic proposes.
fn guessed(alloc: Global, problem: &Problem, work: &mut Work) -> Result<Guess, Halt> {
    let mut start = Start::new(alloc, problem, lows_of(alloc, problem)?)?;
    if let Some(cut) = simple_cut(alloc, problem, &start.excess)? {
        work.is_done = true;
        return Ok(Guess::Cut(cut));
    }
    if problem.arcs.iter().all(|arc| arc.cost == 0) {
        by_preflow(alloc, problem, &start, work)
    } else {
        start.choose_bounds(problem);
        by_simplex(alloc, problem, &start, work)
    }
}

/// Returns a cut that needs no search: all nodes, if the supplies do not sum to 0, or one node.
fn simple_cut(alloc: Global, problem: &Problem, excess: &[i128]) -> Result<Option<Cut>, Halt> {
    let total = supplies_sum(problem)?;
    if total != 0 {
        let side = if total > 0 { Side::Over } else { Side::Under };
        let flags = vec![in alloc; true; problem.supplies.len()]?;
        return Ok(Some(Cut { flags, side }));
    }
    Ok(bottleneck(alloc, problem, excess)?)
}

/// Returns the sum of all supplies.
fn supplies_sum(problem: &Problem) -> Result<i128, Halt> {
    let mut supplies = problem.supplies.iter();
    supplies
        .try_fold(0i128, |sum, supply| sum.checked_add(i128::from(*supply)))
        .ok_or(Halt::OutOfRange)
}

/// Returns the number of nodes and arcs together.
fn size_of(problem: &Problem) -> u64 {
    (problem.supplies.len() as u64).saturating_add(problem.arcs.len() as u64)
}

/// Returns a preflow that has come to its end or its bound, with what it shows.
fn run_preflow(
    alloc: Global,
    problem: &Problem,
    start: &Start,
    is_by_cost: bool,
    work: &mut Work,
) -> Result<(Preflow, Feasibility), Halt> {
    let limit = PREFLOW_LOOKS.saturating_mul(size_of(problem));
    let mut preflow = Preflow::new(alloc, problem, start, is_by_cost, limit)?;
    let shown = preflow.run();
    work.preflow = work.preflow.wrapping_add(preflow.work);
    Ok((preflow, shown))
}

/// Returns the cut that a preflow shows if its excess reaches no deficit: it or its complement,
/// whichever has fewer nodes.
fn cut_of(preflow: &mut Preflow, alloc: Global) -> Result<Cut, Halt> {
    let flags = preflow.reached(alloc)?;
    let side = Side::Over;
    Ok(Cut { flags, side }.with_few_nodes())
}

/// Returns what a preflow finds for a problem without costs: a flow or a cut.
fn by_preflow(
    alloc: Global,
    problem: &Problem,
    start: &Start,
    work: &mut Work,
) -> Result<Guess, Halt> {
    let (mut preflow, shown) = run_preflow(alloc, problem, start, false, work)?;
    work.is_done = !matches!(&shown, Feasibility::Unknown);
    if let Feasibility::Infeasible = shown {
        return Ok(Guess::Cut(cut_of(&mut preflow, alloc)?));
    }
    let flows = preflow.incidence.flows(alloc, problem)?;
    let potentials = vec![in alloc; 0i64; problem.supplies.len()]?;
    Ok(Guess::Flow { flows, potentials })
}

/// Returns a preflow that brings the flow of a simplex to its end, with what it shows.
fn complete(
    alloc: Global,
    problem: &Problem,
    simplex: &Simplex,
    is_by_cost: bool,
    work: &mut Work,
) -> Result<(Preflow, Feasibility), Halt> {
    let flows = simplex.flows(alloc, problem)?;
    let start = Start::new(alloc, problem, flows)?;
    run_preflow(alloc, problem, &start, is_by_cost, work)
}

/// Returns a simplex that continues from the flow that a preflow makes of this one's, or this one
/// if there is none. Its work is counted on.
fn restart(
    alloc: Global,
    problem: &Problem,
    simplex: Simplex,
    work: &mut Work,
) -> Result<Simplex, Halt> {
    let (preflow, shown) = complete(alloc, problem, &simplex, true, work)?;
    match shown {
        Feasibility::Feasible => {
            let flows = preflow.incidence.flows(alloc, problem)?;
            let start = Start::new(alloc, problem, flows)?;
            let potentials = simplex.potentials(alloc, problem)?;
            let mut other = Simplex::from_flow(alloc, problem, &start, &potentials)?;
            other.work = other.work.wrapping_add(simplex.work);
            Ok(other)
        }
        Feasibility::Infeasible | Feasibility::Unknown => Ok(simplex),
    }
}

/// Runs a simplex until a preflow should decide whether there is a flow, if it has excess then. Returns whether it came to the end.
fn run_early(simplex: &mut Simplex, size: u64) -> Result<bool, Halt> {
    let before = simplex.excess();
    let is_done = simplex.run(FIRST_LOOKS.saturating_mul(size))?;
    if is_done || simplex.excess() > before / 3 * 2 {
        return Ok(is_done);
    }
    simplex.run(EARLY_LOOKS.saturating_mul(size))
}

/// Returns what a network simplex finds: a flow, or, if excess is left after a while, the cut that
/// a preflow shows. If excess is left for long, the simplex restarts from a preflow's flow.
fn by_simplex(
    alloc: Global,
    problem: &Problem,
    start: &Start,
    work: &mut Work,
) -> Result<Guess, Halt> {
    let size = size_of(problem);
    let mut simplex = Simplex::new(alloc, problem, start)?;
    let mut is_done = run_early(&mut simplex, size)?;
    if simplex.has_excess() {
        let (mut preflow, shown) = complete(alloc, problem, &simplex, false, work)?;
        if let Feasibility::Infeasible = shown {
            work.simplex = simplex.work;
            work.is_done = true;
            return Ok(Guess::Cut(cut_of(&mut preflow, alloc)?));
        }
        is_done = is_done || simplex.is_short || simplex.run(EXCESS_LOOKS.saturating_mul(size))?;
        if simplex.has_excess() {
            simplex = restart(alloc, problem, simplex, work)?;
            is_done = false;
        }
    }
    is_done = is_done || simplex.run(SIMPLEX_LOOKS.saturating_mul(size))?;
    work.simplex = simplex.work;
    work.is_done = is_done && !simplex.has_excess();
    let flows = simplex.flows(alloc, problem)?;
    let potentials = simplex.potentials(alloc, problem)?;
    Ok(Guess::Flow { flows, potentials })
}
