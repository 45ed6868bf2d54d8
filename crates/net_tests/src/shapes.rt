//! Certificates with a list that is too short, which no file can contain: reading reports the
//! missing line first.

use crate::comparison::expect;
use net_check::{Certificate, Side, check};
use net_dimacs::read_problem;
use net_normal::Problem;
use std::alloc::{AllocError, Global};
use std::test::Fail;

/// Three nodes and three arcs.
const TRIANGLE: &str = "p min 3 3\nn 1 4\nn 3 -4\na 1 2 2 5 1\na 1 3 0 5 3\na 2 3 0 5 1\n";

/// Flows and potentials, or the flags of a cut.
enum Claim {
    Flow(&'static [i64], &'static [i64]),
    Cut(&'static [bool]),
}

fn certificate_of(alloc: Global, claim: &Claim) -> Result<Certificate, AllocError> {
    match claim {
        Claim::Flow(flows, potentials) => Ok(Certificate::Optimal {
            value: 8,
            flows: Vec::from_slice(alloc, flows)?,
            potentials: Vec::from_slice(alloc, potentials)?,
        }),
        Claim::Cut(flags) => Ok(Certificate::Cut {
            flags: Vec::from_slice(alloc, flags)?,
            side: Side::Under,
        }),
    }
}

fn verdict(alloc: Global, problem: &Problem, claim: &Claim) -> Result<String, AllocError> {
    let verdict = check(problem, &certificate_of(alloc, claim)?);
    format!(in alloc; "{verdict:?}")
}

/// Returns the verdict on a claim about the triangle.
fn answer(alloc: Global, claim: &Claim) -> Result<String, AllocError> {
    match read_problem(alloc, TRIANGLE.as_bytes()) {
        Ok(problem) => verdict(alloc, &problem, claim),
        Err(_) => Err(AllocError),
    }
}

const CLAIMS: &[(&str, Claim, &str)] = &[
    ("all are there", Claim::Flow(&[4, 0, 4], &[0, 1, 2]), "Yes"),
    (
        "a flow is missing",
        Claim::Flow(&[4, 0], &[0, 1, 2]),
        "No(Shape, 0)",
    ),
    (
        "a potential is missing",
        Claim::Flow(&[4, 0, 4], &[0, 1]),
        "No(Shape, 0)",
    ),
    (
        "a node is missing",
        Claim::Cut(&[true, true]),
        "No(Shape, 0)",
    ),
];

#[test]
fn shapes_are_judged(rt: HostRuntime) -> Result<(), Fail> {
    for (name, claim, wanted) in CLAIMS {
        expect(name, answer(rt.alloc(), claim), wanted)?;
    }
    Ok(())
}
