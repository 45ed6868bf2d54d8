//! Solutions of problems from any initial guess.
use crate::comparison::expect;
use net_check::Certificate;
use net_dimacs::read_problem;
use net_solve::settle;
use std::alloc::{AllocError, Global};
use std::test::Fail;

/// Problems with their solutions: the value and the flows, or the side and the flags of a cut.
const PROBLEMS: &[(&str, &str)] = &[
    // The triangle: the path through node 2 costs 2 a unit, the direct arc 3.
    (
        "p min 3 3\nn 1 4\nn 3 -4\na 1 2 2 5 1\na 1 3 0 5 3\na 2 3 0 5 1\n",
        "8 [4, 0, 4]",
    ),
    // With 7 units to send, the path through node 2 is saturated at 5.
    (
        "p min 3 3\nn 1 7\nn 3 -7\na 1 2 2 5 1\na 1 3 0 5 3\na 2 3 0 5 1\n",
        "16 [5, 2, 5]",
    ),
    // The largest numbers: a loop with negative cost.
    (
        "p min 1 1\na 1 1 0 1000000000000000000 -1000000000000\n",
        "-1000000000000000000000000000000 [1000000000000000000]",
    ),
    // One node.
    ("p min 1 0\n", "0 []"),
    // A cycle that saves 1 a unit, without supply.
    (
        "p min 3 3\na 1 2 0 4 1\na 2 3 0 3 -3\na 3 1 0 9 1\n",
        "-3 [3, 3, 3]",
    ),
    // Two sources and two sinks: 1 sends to 4 and 2 to 3, although 1 to 3 is cheapest.
    (
        "p min 4 4\nn 1 5\nn 2 5\nn 3 -5\nn 4 -5\na 1 3 0 5 1\na 1 4 0 5 2\na 2 3 0 5 2\na 2 4 0 5 9\n",
        "20 [0, 5, 5, 0]",
    ),
    // Node 1 supplies 11 units, but only 10 can leave it.
    (
        "p min 3 3\nn 1 11\nn 3 -11\na 1 2 2 5 1\na 1 3 0 5 3\na 2 3 0 5 1\n",
        "Over [true, false, false]",
    ),
    // The demand exceeds the supply by one unit.
    (
        "p min 3 3\nn 1 4\nn 3 -5\na 1 2 2 5 1\na 1 3 0 5 3\na 2 3 0 5 1\n",
        "Under [true, true, true]",
    ),
    // The supply exceeds the demand by one unit.
    (
        "p min 3 3\nn 1 5\nn 3 -4\na 1 2 2 5 1\na 1 3 0 5 3\na 2 3 0 5 1\n",
        "Over [true, true, true]",
    ),
];

/// Flows and potentials: none, some of each size, and too many.
const GUESSES: &[(&[i64], &[i64])] = &[
    (&[], &[]),
    (&[4, 0, 4], &[0, 1, 2]),
    (&[1, 1, 1, 1], &[0, 0, 0, 0]),
    (&[i64::MAX, i64::MIN, 3], &[i64::MIN, i64::MAX, 0]),
    (
        &[-7, 1_000_000_000_000_000_000, 2, 5, 6, 7, 8],
        &[9_000_000_000_000_000_000, 12, -1_000_000_000_000, 3, 4, 5],
    ),
    (&[0, 5], &[7, 7, -7]),
];

/// Formats a certificate: the value and the flows, or the side and the flags of a cut.
pub fn reported(alloc: Global, certificate: &Certificate) -> Result<String, AllocError> {
    match certificate {
        Certificate::Optimal { value, flows, .. } => format!(in alloc; "{value} {flows:?}"),
        Certificate::Cut { flags, side } => format!(in alloc; "{side:?} {flags:?}"),
    }
}

/// Returns the solution of the problem in a text, from an initial guess.
fn settled(
    alloc: Global,
    text: &str,
    flows: &[i64],
    potentials: &[i64],
) -> Result<String, AllocError> {
    match read_problem(alloc, text.as_bytes()) {
        Ok(problem) => reported(alloc, &settle(alloc, &problem, flows, potentials)?),
        Err(_) => Err(AllocError),
    }
}

/// Solves all problems from one initial guess.
fn all_are_settled(alloc: Global, flows: &[i64], potentials: &[i64]) -> Result<(), Fail> {
    for (problem, answer) in PROBLEMS {
        expect(problem, settled(alloc, problem, flows, potentials), answer)?;
    }
    Ok(())
}

#[test]
fn problems_are_settled_from_any_guess(rt: HostRuntime) -> Result<(), Fail> {
    for (flows, potentials) in GUESSES {
        all_are_settled(rt.alloc(), flows, potentials)?;
    }
    Ok(())
}
