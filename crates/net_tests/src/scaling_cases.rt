//! Step counts of cost scaling, which the program does not print.

use crate::comparison::expect;
use crate::guesses::reported;
use crate::texts::PROBLEM;
use net_check::Certificate;
use net_dimacs::read_problem;
use net_solve::{Scaling, solve};
use std::alloc::{AllocError, Global};
use std::test::Fail;

/// A problem with three nodes whose node 1 supplies one unit more than can leave it.
const FULL: &str = "p min 3 3\nn 1 11\nn 3 -11\na 1 2 2 5 1\na 1 3 0 5 3\na 2 3 0 5 1\n";

/// Returns the result of a run with a budget.
fn ran(alloc: Global, text: &str, budget: u64) -> Result<String, AllocError> {
    let Ok(problem) = read_problem(alloc, text.as_bytes()) else {
        return Err(AllocError);
    };
    let run = Scaling { budget }.run(alloc, &problem)?;
    let phases = run.phases;
    let steps = match run.steps {
        0 => "no step",
        _ => "steps",
    };
    match &run.answer {
        Some(Certificate::Optimal { value, flows, .. }) => {
            format!(in alloc; "{value} {flows:?}, {phases} phases, {steps}")
        }
        Some(Certificate::Cut { flags, side }) => {
            format!(in alloc; "{side:?} {flags:?}, {phases} phases, {steps}")
        }
        None => format!(in alloc; "none, {steps}"),
    }
}

/// Returns the solution of a problem if such a run is tried first.
fn settled(alloc: Global, text: &str, budget: u64) -> Result<String, AllocError> {
    match read_problem(alloc, text.as_bytes()) {
        Ok(problem) => reported(alloc, &solve(alloc, &Scaling { budget }, &problem)?),
        Err(_) => Err(AllocError),
    }
}

/// Budgets and problems, the results of the runs, and the solutions.
const RUNS: &[(u64, &str, &str, &str)] = &[
    (0, PROBLEM, "none, no step", "8 [4, 0, 4]"),
    (
        1_000_000,
        PROBLEM,
        "8 [4, 0, 4], 3 phases, steps",
        "8 [4, 0, 4]",
    ),
    (
        0,
        FULL,
        "Over [true, false, false], 0 phases, no step",
        "Over [true, false, false]",
    ),
];

#[test]
fn runs_are_counted(rt: HostRuntime) -> Result<(), Fail> {
    for (budget, problem, wanted, _) in RUNS {
        expect(problem, ran(rt.alloc(), problem, *budget), wanted)?;
    }
    Ok(())
}

#[test]
fn plain_answers_where_a_run_has_none(rt: HostRuntime) -> Result<(), Fail> {
    for (budget, problem, _, wanted) in RUNS {
        expect(problem, settled(rt.alloc(), problem, *budget), wanted)?;
    }
    Ok(())
}

/// A problem for which a run takes more than five steps, and reaches its budget while an arc still
/// has negative reduced cost.
const SAVES: &str =
    "p min 3 8\nn 1 305303620614998992\nn 2 489773721715027685\nn 3 -795077342330026677\n\
a 3 2 0 560316048550173035 7\na 2 3 0 791495754330639556 1\na 2 3 0 646105778759037955 -2\n\
a 1 1 589940373000860599 802475759670104337 -3\na 2 2 345376310568905180 535814401860405208 -7\n\
a 1 3 592545443310188970 694161579424858396 4\na 1 3 0 785873331033867090 3\na 3 1 0 931495707295388255 -6\n";

#[test]
fn a_run_ends_at_its_budget(rt: HostRuntime) -> Result<(), Fail> {
    expect(SAVES, ran(rt.alloc(), SAVES, 5), "none, steps")
}
