//! Runs on problems and certificates: reads the problem in pieces and the certificate as a whole,
//! computes the complete result, then writes it.

ghost use Rattle.std.specs.Prelude.{◌≡◌, ◌⊎◌, List, ℕ, true, false, IfOk, IfErr, IsErrOf};
ghost use Rattle.net_dimacs.specs.Limits.{text_limit};
ghost use Rattle.net_dimacs.specs.Scans.{Stands};
ghost use Rattle.net_io.specs.Ends.{ReadsToLimit};
ghost use Rattle.net_driver.specs.Checked.{Judges, IsLineRejection, IsProblemRejection, exit_kind_of};
ghost use Rattle.net_driver.specs.Settled.{Settles, settled_exit_kind};
ghost use Rattle.net_driver.specs.Runs.{IsCheckRun, IsMinRun, IsAskedFew, lines_limit};
ghost use Rattle.net_driver.specs.LineTexts.{IsProblemOf, MayBeProblem};

use crate::checking::{judge, problem_of, verdict_line};
use crate::compile_run::read_text;
use crate::driver_fault::{Fault, TextName};
use crate::problem_source::{finished, read_problem_from};
use crate::solve_run::ExitKind;
use net_check::Verdict;
use net_dimacs::{Reading, TEXT_LIMIT, write_certificate};
use net_io::{Sink, Source, write_whole};
use net_normal::Problem;
use net_solve::{Settled, solve_problem};
use std::alloc::{AllocError, Global};

fn exit_kind_of(verdict: &Verdict) -> ExitKind
    ensures { result ≡ exit_kind_of verdict.now }
{
    match verdict {
        Verdict::Yes => ExitKind::Done,
        Verdict::No(..) => ExitKind::Refuted,
    }
}

fn settled_exit_kind(settled: &Settled) -> ExitKind
    ensures { result ≡ settled_exit_kind settled.now }
{
    match settled {
        Settled::Optimal { .. } => ExitKind::Done,
        Settled::Cut { .. } => ExitKind::Refuted,
    }
}

/// Reads a certificate file, up to one byte past the limit.
fn read_certificate<C: Source>(alloc: Global, certificate: &mut C) -> Result<Vec<u8>, Fault>
    ensures value { IfOk result (λ text. ReadsToLimit text_limit (C.remaining certificate.old) (C.remaining certificate.new) text.items) }
    ensures err { IfErr result (λ fault. (fault ≡ Fault.OutOfMemory)
        ⊎ ((fault ≡ Fault.Unread TextName.Certificate) × (C.failed certificate.new ≡ true))) }
    ensures flag { C.failed certificate.new ≡ true → (C.failed certificate.old ≡ true) ⊎ (result ≡ Err (Fault.Unread TextName.Certificate)) }
    ensures reads { IsAskedFew lines_limit (C.reads certificate.old) (C.reads certificate.new) }
{
    read_text(alloc, certificate, TEXT_LIMIT, TextName::Certificate)
}

/// Checks a certificate file for the problem that was read.
fn check_read(alloc: Global, reading: Reading, certificate: &[u8]) -> Result<Verdict, Fault>
    ensures value { (text : List ℕ) → Stands reading text → IfOk result (Judges text certificate.now) }
    ensures rejected { (text : List ℕ) → Stands reading text → IfErr result (IsLineRejection text certificate.now) }
{
    let network = match finished(reading) {
        Ok(network) => network,
        Err(fault) => return Err(fault),
    };
    judge(alloc, &network, certificate)
}

/// Solves the problem that was read; also returns the text of its certificate.
fn solve_read(alloc: Global, reading: Reading) -> Result<(Settled, Vec<u8>), Fault>
    ensures value { (text : List ℕ) → Stands reading text → IfOk result (λ answer. Settles text answer.0 answer.1.items) }
    ensures rejected { (text : List ℕ) → Stands reading text → IfErr result (IsProblemRejection text) }
{
    let network = match finished(reading) {
        Ok(network) => network,
        Err(fault) => return Err(fault),
    };
    let answer = settle(alloc, &network)?;
    Ok(answer)
}

/// Checks the certificate of the second source for the problem of the first, and writes the line of
/// the verdict.
pub fn run_check<P: Source, C: Source, W: Sink>(
    alloc: Global,
    problem: &mut P,
    certificate: &mut C,
    output: &mut W,
) -> Result<ExitKind, Fault>
    requires problem_unread { P.failed problem.old ≡ false }
    requires certificate_unread { C.failed certificate.old ≡ false }
    requires unwritten { W.failed output.old ≡ false }
    ensures run { IsCheckRun
        (record { remaining = P.remaining; failed = P.failed; reads = P.reads; old = problem.old; new = problem.new })
        (record { remaining = C.remaining; failed = C.failed; reads = C.reads; old = certificate.old; new = certificate.new })
        (record { taken = W.taken; failed = W.failed; old = output.old; new = output.new }) result }

    // The problem is read first.
    ensures first { P.failed problem.new ≡ true → certificate.new ≡ certificate.old }
{
    let reading = read_problem_from(alloc, problem)?;
    let certificate_text = read_certificate(alloc, certificate)?;
    let verdict = check_read(alloc, reading, &certificate_text)?;
    let exit_kind = exit_kind_of(&verdict);
    let line = verdict_line(alloc, verdict)?;
    match write_whole(output, &line) {
        Ok(()) => Ok(exit_kind),
        Err(_) => Err(Fault::Unwritten),
    }
}

/// Solves the problem of the source, and writes the text of its certificate.
pub fn run_min<P: Source, W: Sink>(
    alloc: Global,
    problem: &mut P,
    output: &mut W,
) -> Result<ExitKind, Fault>
    requires problem_unread { P.failed problem.old ≡ false }
    requires unwritten { W.failed output.old ≡ false }
    ensures run { IsMinRun
        (record { remaining = P.remaining; failed = P.failed; reads = P.reads; old = problem.old; new = problem.new })
        (record { taken = W.taken; failed = W.failed; old = output.old; new = output.new }) result }
{
    let reading = read_problem_from(alloc, problem)?;
    let (settled, text) = solve_read(alloc, reading)?;
    let exit_kind = settled_exit_kind(&settled);
    match write_whole(output, &text) {
        Ok(()) => Ok(exit_kind),
        Err(_) => Err(Fault::Unwritten),
    }
}

/// Solves the problem of a file in memory; also returns the text of its certificate.
pub fn solve_min(alloc: Global, problem: &[u8]) -> Result<(Settled, Vec<u8>), Fault>
    ensures value { IfOk result (λ answer. Settles problem.now answer.0 answer.1.items) }
    ensures rejected { IfErr result (IsProblemRejection problem.now) }

    // Memory is allocated only if the file begins a problem.
    ensures memory { IsErrOf result Fault.OutOfMemory → MayBeProblem problem.now }
{
    let network = match problem_of(alloc, problem) {
        Ok(network) => network,
        Err(fault) => return Err(fault),
    };
    let answer = settle(alloc, &network)?;
    Ok(answer)
}

/// Solves a problem; also returns the text of its certificate. Fails only if memory runs out.
pub(crate) fn settle(alloc: Global, network: &Problem) -> Result<(Settled, Vec<u8>), AllocError>
    ensures { (problem : List ℕ) → IsProblemOf problem network.now → IfOk result (λ answer. Settles problem answer.0 answer.1.items) }
{
    let settled = solve_problem(alloc, network)?;
    let text = write_certificate(alloc, network, &settled)?;
    Ok((settled, text))
}
