//! Custom solvers; the program always uses its own.

use crate::comparison::expect;
use crate::guesses::reported;
use crate::texts::PROBLEM;
use net_check::{Certificate, Verdict, check};
use net_dimacs::read_problem;
use net_normal::Problem;
use net_solve::{Plain, Scaling, Solver, first_solver, solve};
use std::alloc::{AllocError, Global};
use std::test::Fail;

/// A solver that knows one flow, and returns it if it is correct.
#[derive(Drop)]
struct Known([i64; 2]);

impl Solver for Known {
    fn answer(&self, alloc: Global, problem: &Problem) -> Result<Option<Certificate>, AllocError> {
        let certificate = Certificate::Optimal {
            value: 5,
            flows: Vec::from_slice(alloc, &self.0)?,
            potentials: Vec::from_slice(alloc, &[0, 1, 0])?,
        };
        match check(problem, &certificate) {
            Verdict::Yes => Ok(Some(certificate)),
            Verdict::No(..) => Ok(None),
        }
    }
}

/// Two parallel arcs of equal cost: any distribution of the flow is optimal.
const PARALLEL: &str = "p min 3 2\nn 1 5\nn 2 -5\na 1 2 0 3 1\na 1 2 0 3 1\n";

/// Returns the solution of the problem with a solver that knows these flows.
fn answer(alloc: Global, flows: [i64; 2]) -> Result<String, AllocError> {
    match read_problem(alloc, PARALLEL.as_bytes()) {
        Ok(problem) => reported(alloc, &solve(alloc, &Known(flows), &problem)?),
        Err(_) => Err(AllocError),
    }
}

/// What a solver knows, and the expected solution: that of the custom solver.
const KNOWN: &[([i64; 2], &str)] = &[([2, 3], "5 [2, 3]"), ([3, 2], "5 [3, 2]")];

#[test]
fn given_solver_is_asked(rt: HostRuntime) -> Result<(), Fail> {
    for (flows, wanted) in KNOWN {
        expect(wanted, answer(rt.alloc(), *flows), wanted)?;
    }
    Ok(())
}

/// A solver that never has an answer.
#[derive(Drop)]
struct Silent;

impl Solver for Silent {
    fn answer(
        &self,
        _alloc: Global,
        _problem: &Problem,
    ) -> Result<Option<Certificate>, AllocError> {
        Ok(None)
    }
}

/// What settles a problem if the solver that is asked first has no answer.
fn settled_by_plain(alloc: Global, problem: &str) -> Result<String, AllocError> {
    match read_problem(alloc, problem.as_bytes()) {
        Ok(problem) => reported(alloc, &solve(alloc, &Silent, &problem)?),
        Err(_) => Err(AllocError),
    }
}

/// Node 3 wants one unit more than node 1 supplies. No arc leaves the three nodes, and no other set is violated.
const WANTS_MORE: &str = "p min 3 3\nn 1 4\nn 3 -5\na 1 2 2 5 1\na 1 3 0 5 3\na 2 3 0 5 1\n";

#[test]
fn plain_is_asked_after_a_silent_solver(rt: HostRuntime) -> Result<(), Fail> {
    expect(
        PROBLEM,
        settled_by_plain(rt.alloc(), PROBLEM),
        "8 [4, 0, 4]",
    )?;
    expect(
        WANTS_MORE,
        settled_by_plain(rt.alloc(), WANTS_MORE),
        "Under [true, true, true]",
    )
}

/// The answer of a solver, and the verdict on it.
fn judged(
    alloc: Global,
    problem: &Problem,
    answer: Option<Certificate>,
) -> Result<String, AllocError> {
    match answer {
        Some(certificate) => {
            let verdict = check(problem, &certificate);
            let shown = reported(alloc, &certificate)?;
            format!(in alloc; "{shown}, {verdict:?}")
        }
        None => String::from_str(alloc, "none"),
    }
}

/// What a solver answers to a problem by itself.
fn answered<S: Solver>(alloc: Global, solver: &S, problem: &str) -> Result<String, AllocError> {
    match read_problem(alloc, problem.as_bytes()) {
        Ok(problem) => judged(alloc, &problem, solver.answer(alloc, &problem)?),
        Err(_) => Err(AllocError),
    }
}

#[test]
fn plain_answers(rt: HostRuntime) -> Result<(), Fail> {
    expect(
        PROBLEM,
        answered(rt.alloc(), &Plain, PROBLEM),
        "8 [4, 0, 4], Yes",
    )?;
    expect(
        WANTS_MORE,
        answered(rt.alloc(), &Plain, WANTS_MORE),
        "Under [true, true, true], Yes",
    )
}

#[test]
fn scaling_answers_within_its_budget(rt: HostRuntime) -> Result<(), Fail> {
    expect(
        PROBLEM,
        answered(rt.alloc(), &Scaling { budget: 1_000_000 }, PROBLEM),
        "8 [4, 0, 4], Yes",
    )?;
    expect(
        PROBLEM,
        answered(rt.alloc(), &Scaling { budget: 0 }, PROBLEM),
        "none",
    )
}

/// Formats a path with this many arcs of cost 1, over which one unit flows.
fn path(alloc: Global, steps: u16) -> Result<String, AllocError> {
    let nodes = u32::from(steps) + 1;
    let mut text = format!(in alloc; "p min {nodes} {steps}\nn 1 1\nn {nodes} -1\n")?;
    for node in 1..nodes {
        let next = node + 1;
        let line = format!(in alloc; "a {node} {next} 0 1 1\n")?;
        text.push_str(&line)?;
    }
    Ok(text)
}

/// Names the solver that is asked first for a path with this many arcs.
fn first_of_path(alloc: Global, steps: u16) -> Result<String, AllocError> {
    let text = path(alloc, steps)?;
    match read_problem(alloc, text.as_bytes()) {
        Ok(problem) => format!(in alloc; "{:?}", first_solver(&problem)),
        Err(_) => Err(AllocError),
    }
}

#[test]
fn small_problems_are_solved_by_cost_scaling_first(rt: HostRuntime) -> Result<(), Fail> {
    expect("100 steps", first_of_path(rt.alloc(), 100), "Scaling")?;
    expect("1,000 steps", first_of_path(rt.alloc(), 1_000), "Plain")
}
