//! Calls on inputs in memory: their results with enough memory, and their first errors.

use crate::comparison::expect;
use crate::texts::{CERTIFICATE, COMPILED, DATA, MODEL, PLAN, PROBLEM};
use net_driver::{Fault, check_bytes, compile, solve_min, solve_model};
use std::alloc::{AllocError, Global};
use std::test::Fail;

/// Returns an output, or the line of an error, for comparison.
pub fn shown(alloc: Global, answered: Result<&[u8], Fault>) -> Result<String, AllocError> {
    match answered {
        Ok(text) => String::from_utf8_lossy(alloc, text),
        Err(fault) => format!(in alloc; "{fault}"),
    }
}

fn compiled(alloc: Global, model: &[u8]) -> Result<String, AllocError> {
    match compile(alloc, model, DATA) {
        Ok(answer) => shown(alloc, Ok(answer.text.as_bytes())),
        Err(fault) => shown(alloc, Err(fault)),
    }
}

fn solved(alloc: Global, model: &[u8]) -> Result<String, AllocError> {
    match solve_model(alloc, model, DATA) {
        Ok(answer) => shown(alloc, Ok(answer.outcome.text())),
        Err(fault) => shown(alloc, Err(fault)),
    }
}

fn settled(alloc: Global, problem: &[u8]) -> Result<String, AllocError> {
    match solve_min(alloc, problem) {
        Ok((_, text)) => shown(alloc, Ok(&text)),
        Err(fault) => shown(alloc, Err(fault)),
    }
}

fn checked(alloc: Global, certificate: &[u8]) -> Result<String, AllocError> {
    match check_bytes(alloc, PROBLEM.as_bytes(), certificate) {
        Ok(verdict) => format!(in alloc; "{verdict:?}"),
        Err(fault) => shown(alloc, Err(fault)),
    }
}

const LACKS_A_MARK: &[u8] = b"node A: net_out = 2";

/// Models, with the compiled text or the error.
const COMPILE: &[(&[u8], &str)] = &[(MODEL, COMPILED), (LACKS_A_MARK, "E10 Syntax model 1:20")];

#[test]
fn models_are_compiled(rt: HostRuntime) -> Result<(), Fail> {
    for (model, wanted) in COMPILE {
        expect(wanted, compiled(rt.alloc(), model), wanted)?;
    }
    Ok(())
}

/// Models, with the plan or the error.
const SOLVE: &[(&[u8], &str)] = &[(MODEL, PLAN), (LACKS_A_MARK, "E10 Syntax model 1:20")];

#[test]
fn models_are_solved(rt: HostRuntime) -> Result<(), Fail> {
    for (model, wanted) in SOLVE {
        expect(wanted, solved(rt.alloc(), model), wanted)?;
    }
    Ok(())
}

/// Problems, with the certificate or the error.
const MIN: &[(&str, &str)] = &[
    (PROBLEM, CERTIFICATE),
    ("p min 0 0\n", "E75 Count problem 1"),
];

#[test]
fn problems_are_settled(rt: HostRuntime) -> Result<(), Fail> {
    for (problem, wanted) in MIN {
        expect(wanted, settled(rt.alloc(), problem.as_bytes()), wanted)?;
    }
    Ok(())
}

/// Certificates of the problem, with the verdict or the error.
const CHECK: &[(&str, &str)] = &[
    (CERTIFICATE, "Yes"),
    (
        "s 9\nf 1 2 4\nf 1 3 0\nf 2 3 4\nv 1 0\nv 2 1\nv 3 2\n",
        "No(Value, 0)",
    ),
    ("s nine\n", "E78 Certificate certificate 1"),
];

#[test]
fn certificates_are_judged(rt: HostRuntime) -> Result<(), Fail> {
    for (certificate, wanted) in CHECK {
        expect(wanted, checked(rt.alloc(), certificate.as_bytes()), wanted)?;
    }
    Ok(())
}
