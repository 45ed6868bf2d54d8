//! Checking certificates of problems, from files to a verdict.

ghost use Rattle.std.specs.Prelude.{◌≡◌, ◌++◌, List, ℕ, IfOk, IfErr, OnOk, IsErrOf};
ghost use Rattle.net_driver.specs.LineTexts.{IsProblemOf, IsCertificateOf, MayBeProblem};
ghost use Rattle.net_driver.specs.Checked.{Judges, IsLineRejection, IsProblemRejection, IsCertificateStop, fault_of, reason_word, verdict_line};

use crate::driver_fault::{Fault, LineRejection, TextName};
use itoa::Buffer;
use net_check::{Certificate, Reason, Verdict, check};
use net_dimacs::{ProblemFault, read_certificate, read_problem};
use net_normal::Problem;
use std::alloc::{AllocError, Global};

/// Checks a certificate of a problem, both as files in memory. Returns the first error of a file if
/// there is one.
pub fn check_bytes(alloc: Global, problem: &[u8], certificate: &[u8]) -> Result<Verdict, Fault>
    ensures value { IfOk result (Judges problem.now certificate.now) }
    ensures rejected { IfErr result (IsLineRejection problem.now certificate.now) }

    // Memory is allocated only if the file begins a problem.
    ensures memory { IsErrOf result Fault.OutOfMemory → MayBeProblem problem.now }
{
    let network = match problem_of(alloc, problem) {
        Ok(network) => network,
        Err(fault) => return Err(fault),
    };
    judge(alloc, &network, certificate)
}

/// Checks a certificate file for a problem.
pub(crate) fn judge(alloc: Global, network: &Problem, certificate: &[u8]) -> Result<Verdict, Fault>
    ensures value { (problem : List ℕ) → IsProblemOf problem network.now → IfOk result (Judges problem certificate.now) }
    ensures rejected { (problem : List ℕ) → IsProblemOf problem network.now → IfErr result (IsLineRejection problem certificate.now) }
{
    let claim = match certificate_of(alloc, network, certificate) {
        Ok(claim) => claim,
        Err(fault) => return Err(fault),
    };
    Ok(check(network, &claim))
}

/// Reads a problem.
#[tactic(auto, using(crate::proofs::Reading::short_problem))]
pub(crate) fn problem_of(alloc: Global, text: &[u8]) -> Result<Problem, Fault>
    ensures ok { IfOk result (IsProblemOf text.now) }
    ensures rejected { IfErr result (IsProblemRejection text.now) }
    ensures memory { IsErrOf result Fault.OutOfMemory → MayBeProblem text.now }
{
    match read_problem(alloc, text) {
        Ok(problem) => Ok(problem),
        Err(fault) => Err(fault_of(TextName::Problem, fault)),
    }
}

/// Reads a certificate of this problem.
#[tactic(auto, using(crate::proofs::Reading::short_certificate))]
fn certificate_of(alloc: Global, problem: &Problem, text: &[u8]) -> Result<Certificate, Fault>
    ensures ok { IfOk result (IsCertificateOf problem.now text.now) }
    ensures rejected { IfErr result (IsCertificateStop problem.now text.now) }
{
    match read_certificate(alloc, problem, text) {
        Ok(certificate) => Ok(certificate),
        Err(fault) => Err(fault_of(TextName::Certificate, fault)),
    }
}

pub(crate) fn fault_of(text: TextName, fault: ProblemFault) -> Fault
    ensures { result ≡ fault_of text fault }
{
    match fault {
        ProblemFault::OutOfMemory => Fault::OutOfMemory,
        ProblemFault::Rejected(rejection) => Fault::RejectedLine(LineRejection {
            text,
            fault: rejection.fault,
            line: rejection.line,
        }),
    }
}

fn reason_word(reason: Reason) -> &'static [u8]
    ensures { result.now ≡ reason_word reason }
{
    match reason {
        Reason::Shape => b"shape",
        Reason::Bounds => b"bounds",
        Reason::Balance => b"balance",
        Reason::Value => b"value",
        Reason::Positive => b"positive",
        Reason::Negative => b"negative",
        Reason::NotViolated => b"cut",
    }
}

/// Formats the line of a verdict: `yes`, or `no` with the reason and the number of its arc or node.
/// Fails only if memory runs out.
pub fn verdict_line(alloc: Global, verdict: Verdict) -> Result<Vec<u8>, AllocError>
    ensures { IfOk result (λ text. text.items ≡ verdict_line verdict) }
{
    let mut text = Vec::new(alloc);
    match verdict {
        Verdict::Yes => text.extend_from_slice(b"yes\n")?,
        Verdict::No(reason, number) => push_no(&mut text, reason, number)?,
    }
    Ok(text)
}

fn push_no(text: &mut Vec<u8>, reason: Reason, number: u32) -> Result<(), AllocError>
    ensures { OnOk result (text.new.items ≡ text.old.items ++ verdict_line (Verdict.No reason number)) }
{
    let mut buffer = Buffer::new();
    text.extend_from_slice(b"no ")?;
    text.extend_from_slice(reason_word(reason))?;
    text.push(b' ')?;
    text.extend_from_slice(buffer.format(number).as_bytes())?;
    text.push(b'\n')?;
    Ok(())
}
