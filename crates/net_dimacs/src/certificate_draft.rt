//! The state of the reader of a certificate: its lists so far.

ghost use Rattle.std.specs.Prelude.{◌≡◌, ◌+◌, ◌-◌, ◌≤◌, ◌==◌, ◌++◌, length, replicate, false, vec_len, Some, IfOk, IsOk, IsErrOf};
ghost use Rattle.net_dimacs.specs.Certificates.{Cut, account_of};
ghost use Rattle.net_dimacs.specs.CertificateReading.{is_node, are_ends, first_claim, next_claim, with_number, with_flow, with_potential, with_member};
ghost use Rattle.net_dimacs.specs.CertificateReading.{with_claim, completed, Gives};
ghost use Rattle.net_dimacs.specs.CertificateDrafts.{GivesList, GivesPart, progress_of, Comes};

use crate::claim::Claim;
use crate::problem_fault::{LineFault, ProblemFault};
use crate::progress::LineStop;
use net_check::{Certificate, Side};
use net_normal::{FlowArc, Problem};
use std::alloc::{AllocError, Global};

/// Adds the claim of the line with this number to a partial certificate. Returns the error of the
/// line if it is invalid, or `OutOfMemory`.
pub fn with_claim(
    alloc: Global,
    problem: &Problem,
    line: usize,
    certificate: Option<Certificate>,
    claim: Claim,
) -> Result<Certificate, ProblemFault>
    ensures { Comes (with_claim (length problem.now.supplies.items) problem.now.arcs.items line (progress_of certificate) claim) result }
{
    let next = match certificate {
        None => first_claim(alloc, problem, claim),
        Some(certificate) => next_claim(problem, certificate, claim),
    };
    match next {
        Ok(certificate) => Ok(certificate),
        Err(LineStop::Line(fault)) => Err(ProblemFault::rejected(fault, line)),
        Err(LineStop::OutOfMemory) => Err(ProblemFault::OutOfMemory),
    }
}

/// Completes a certificate at the end of the file; `line` is the number of the line after the last.
/// Returns an error if lines are missing, or `OutOfMemory`.
pub fn completed(
    problem: &Problem,
    line: usize,
    certificate: Certificate,
) -> Result<Certificate, ProblemFault>
    ensures value { Gives (completed (length problem.now.supplies.items) problem.now.arcs.items line (account_of certificate)) result }
    ensures memory { IsErrOf result ProblemFault.OutOfMemory →
        IsOk (completed (length problem.now.supplies.items) problem.now.arcs.items line (account_of certificate)) }
{
    match certificate {
        Certificate::Optimal {
            value,
            flows,
            potentials,
        } => {
            if flows.len() != problem.arcs.len() || potentials.len() != problem.supplies.len() {
                return Err(ProblemFault::rejected(LineFault::Certificate, line));
            }
            Ok(Certificate::Optimal {
                value,
                flows,
                potentials,
            })
        }
        Certificate::Cut { flags, side } => Ok(Certificate::Cut {
            flags: with_absent(flags, problem.supplies.len())?,
            side,
        }),
    }
}

fn first_claim(alloc: Global, problem: &Problem, claim: Claim) -> Result<Certificate, LineStop>
    ensures { GivesPart (first_claim claim) result }
{
    match claim {
        Claim::Value(None) => Err(LineStop::Line(LineFault::TooLarge)),
        Claim::Value(Some(value)) => Ok(Certificate::Optimal {
            value,
            flows: Vec::with_capacity(alloc, problem.arcs.len())?,
            potentials: Vec::with_capacity(alloc, problem.supplies.len())?,
        }),
        Claim::Side(side) => Ok(Certificate::Cut {
            flags: Vec::with_capacity(alloc, problem.supplies.len())?,
            side,
        }),
        _ => Err(LineStop::Line(LineFault::Certificate)),
    }
}

fn next_claim(
    problem: &Problem,
    certificate: Certificate,
    claim: Claim,
) -> Result<Certificate, LineStop>
    ensures { GivesPart (next_claim (length problem.now.supplies.items) problem.now.arcs.items (account_of certificate) claim) result }
{
    match certificate {
        Certificate::Cut { flags, side } => next_member(problem, flags, side, claim),
        Certificate::Optimal {
            value,
            flows,
            potentials,
        } => match claim {
            Claim::Flow(src, dst, flow) => Ok(Certificate::Optimal {
                value,
                flows: with_flow(&problem.arcs, flows, src, dst, flow)?,
                potentials,
            }),
            Claim::Potential(node, potential) => {
                let have_flows = flows.len() == problem.arcs.len();
                let nodes = problem.supplies.len();
                Ok(Certificate::Optimal {
                    value,
                    flows,
                    potentials: with_potential(nodes, have_flows, potentials, node, potential)?,
                })
            }
            _ => Err(LineStop::Line(LineFault::Certificate)),
        },
    }
}

/// Adds the node that a line claims.
fn next_member(
    problem: &Problem,
    flags: Vec<bool>,
    side: Side,
    claim: Claim,
) -> Result<Certificate, LineStop>
    ensures { GivesPart (next_claim (length problem.now.supplies.items) problem.now.arcs.items (Cut flags.items side) claim) result }
{
    let Claim::Member(node) = claim else {
        return Err(LineStop::Line(LineFault::Certificate));
    };
    Ok(Certificate::Cut {
        flags: with_member(problem.supplies.len(), flags, node)?,
        side,
    })
}

fn with_flow(
    arcs: &[FlowArc],
    flows: Vec<i64>,
    src: Option<u32>,
    dst: Option<u32>,
    flow: Option<i64>,
) -> Result<Vec<i64>, LineStop>
    ensures { GivesList (with_flow arcs.now flows.items src dst flow) result }
{
    let place = flows.len();
    if place >= arcs.len() || !are_ends(&arcs[place], src, dst) {
        return Err(LineStop::Line(LineFault::Certificate));
    }
    with_number(flows, flow)
}

fn with_potential(
    nodes: usize,
    have_flows: bool,
    potentials: Vec<i64>,
    node: Option<u32>,
    potential: Option<i64>,
) -> Result<Vec<i64>, LineStop>
    ensures { GivesList (with_potential nodes have_flows potentials.items node potential) result }
{
    let place = potentials.len();
    if have_flows && place < nodes && is_node(node, place) {
        return with_number(potentials, potential);
    }
    Err(LineStop::Line(LineFault::Certificate))
}

fn with_member(nodes: usize, flags: Vec<bool>, node: Option<u32>) -> Result<Vec<bool>, LineStop>
    ensures { GivesList (with_member nodes flags.items node) result }
{
    let Some(node) = node else {
        return Err(LineStop::Line(LineFault::Certificate));
    };
    let place = node as usize;
    if flags.len() <= place && place < nodes {
        let mut flags = with_absent(flags, place)?;
        flags.push(true)?;
        return Ok(flags);
    }
    Err(LineStop::Line(LineFault::Certificate))
}

/// Appends a number. Returns `TooLarge` if it does not fit its type.
fn with_number(mut numbers: Vec<i64>, number: Option<i64>) -> Result<Vec<i64>, LineStop>
    ensures { GivesList (with_number numbers.items number) result }
{
    let Some(number) = number else {
        return Err(LineStop::Line(LineFault::TooLarge));
    };
    numbers.push(number)?;
    Ok(numbers)
}

/// Extends the flags to `nodes` entries: nodes without a line are not in the set. Fails only if
/// memory runs out.
fn with_absent(mut flags: Vec<bool>, nodes: usize) -> Result<Vec<bool>, AllocError>
    ensures { IfOk result (λ all. all.items ≡ flags.items ++ replicate (nodes - length flags.items) false) }
{
    for _ in flags.len()..nodes {
        flags.push(false)?;
    }
    Ok(flags)
}

/// Returns whether two indices are the tail and the head of an arc.
fn are_ends(arc: &FlowArc, src: Option<u32>, dst: Option<u32>) -> bool
    ensures { result ≡ are_ends (Some arc.now) src dst }
{
    is_node(src, arc.src as usize) && is_node(dst, arc.dst as usize)
}

/// Returns whether an index is that of this node.
fn is_node(place: Option<u32>, node: usize) -> bool
    ensures { result ≡ is_node place node }
{
    match place {
        None => false,
        Some(place) => place as usize == node,
    }
}
