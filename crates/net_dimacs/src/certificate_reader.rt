//! Reading certificates.

ghost use Rattle.std.specs.Prelude.{◌≡◌, ◌+◌, ◌<◌, ◌≤◌, ◌⊎◌, length, IfOk, IsErrOf};
ghost use Rattle.std.specs.Str.Lines.{lines};
ghost use Rattle.net_check.specs.Certificates.{HasShape};
ghost use Rattle.net_dimacs.specs.Limits.{text_limit};
ghost use Rattle.net_dimacs.specs.Certificates.{account_of, claims_of, BeginsCertificate, IsCertificateText, IsOnlyCertificate, IsNoCertificateText};
ghost use Rattle.net_dimacs.specs.CertificateReading.{read_text, Gives, IfRejected};
ghost use Rattle.net_dimacs.specs.ReadBack as read_back;

use crate::certificate_draft::{completed, with_claim};
use crate::claim::claim_of;
use crate::fields::split_line;
use crate::problem_fault::{LineFault, ProblemFault};
use crate::reading::TEXT_LIMIT;
use net_check::Certificate;
use net_normal::Problem;
use std::alloc::Global;

/// Reads the certificate of a problem from a file. Returns the first error, with its line counted
/// from 1, if there is one.
///
/// The file numbers the problem's nodes from 1; the certificate's lists are in the problem's order
/// of arcs and nodes. `Certificate` reports a line that is not allowed at its position, or a
/// missing line, with the number of the line after the last. `TooLarge` reports a line that is
/// allowed but has a number outside its type. A file of more than 64 MiB is `TooLarge` at line 1,
/// whatever its contents. Does not check whether the certificate settles the problem.
pub fn read_certificate(
    alloc: Global,
    problem: &Problem,
    text: &[u8],
) -> Result<Certificate, ProblemFault>
    // The result is the certificate, or the first error.
    ensures value { Gives (read_text (length problem.now.supplies.items) problem.now.arcs.items text.now) result }

    // A certificate that is returned is the content of the file, and the file contains no other
    // certificate of the problem.
    ensures ok { IfOk result (λ certificate.
        IsCertificateText text.now (length problem.now.supplies.items) problem.now.arcs.items (account_of certificate)) }
    ensures only { IfOk result (λ certificate.
        IsOnlyCertificate text.now (length problem.now.supplies.items) problem.now.arcs.items (account_of certificate)) }
    ensures shape { IfOk result (λ certificate. HasShape problem.now certificate) }

    // A file is rejected only if it contains no certificate of the problem or exceeds the limit.
    ensures rejected { IfRejected result (λ _.
        (text_limit < length text.now) ⊎ IsNoCertificateText text.now (length problem.now.supplies.items) problem.now.arcs.items) }
    ensures place { IfRejected result (λ rejection. (1 ≤ rejection.line) × (rejection.line ≤ length (lines text.now) + 1)) }

    // Memory is allocated only after a first line that can begin a certificate.
    ensures memory { IsErrOf result ProblemFault.OutOfMemory →
        (length text.now ≤ text_limit) × BeginsCertificate (claims_of text.now) }
{
    read_whole_certificate(alloc, problem, text)
}

fn read_whole_certificate(
    alloc: Global,
    problem: &Problem,
    text: &[u8],
) -> Result<Certificate, ProblemFault>
    ensures value { Gives (read_text (length problem.now.supplies.items) problem.now.arcs.items text.now) result }
    ensures memory { IsErrOf result ProblemFault.OutOfMemory →
        (length text.now ≤ text_limit) × BeginsCertificate (claims_of text.now) }
{
    if text.len() > TEXT_LIMIT {
        return Err(ProblemFault::rejected(LineFault::TooLarge, 1));
    }
    let mut certificate = None;
    let mut number = 1usize;
    let mut rest = text;
    while let Some((line, after)) = split_line(rest) {
        if let Some(claim) = claim_of(line) {
            match with_claim(alloc, problem, number, certificate, claim) {
                Ok(next) => certificate = Some(next),
                Err(fault) => return Err(fault),
            }
        }
        number += 1;
        rest = after;
    }
    match certificate {
        None => Err(ProblemFault::rejected(LineFault::Certificate, number)),
        Some(certificate) => completed(problem, number, certificate),
    }
}

/// Theorem: the text written for a problem within the limits, or for a certificate of one, is
/// within the size limit and is read back as the same problem or certificate.
pub fn written_texts_are_read_back()
    ensures problems { read_back.AreProblemsReadBack }
    ensures certificates { read_back.AreCertificatesReadBack }
{}
