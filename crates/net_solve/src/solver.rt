//! Solvers of minimum-cost flow problems.

ghost use Rattle.std.specs.Prelude.{IfOk, Option};
ghost use Rattle.std.specs.Option.{ForSome};
ghost use Rattle.net_check.specs.Certificates.{IsCertificate};
ghost use Rattle.net_check.specs.declared.certificate.Certificate.{Certificate};
ghost use Rattle.net_normal.specs.declared.problem.Problem.{Problem};
ghost use Rattle.net_solve.specs.Bounds.{HasSmallPotentials};
ghost use Rattle.net_solve.specs.Settling.{IsRunAnswer, IsSmallAnswer};

use crate::primal_dual::settle;
use crate::scaling::Scaling;
use net_check::{Certificate, Side, Verdict, check};
use net_guess::{Guess, find_guess};
use net_normal::Problem;
use std::alloc::{AllocError, Global};

/// A solver.
pub trait Solver {
    // The possible results for a problem: all, unless an implementation restricts them.
    ghost may_answer: { Self → Problem → Option Certificate → Type 0 } = { λ _ _ _. Unit {0} };

    /// Returns a certificate of the problem, or `None` if none was found.
    fn answer(&self, alloc: Global, problem: &Problem) -> Result<Option<Certificate>, AllocError>
        ensures certificate { IfOk result (λ answer. ForSome answer (IsCertificate problem.now)) }
        ensures own { IfOk result (may_answer self.now problem.now) };

    /// Returns a certificate of the problem, or `None` if none was found. May start from a
    /// heuristic solution, as `find_guess` returns it, which can be arbitrarily wrong.
    fn answer_from(
        &self,
        alloc: Global,
        problem: &Problem,
        _guess: &Guess,
    ) -> Result<Option<Certificate>, AllocError>
        ensures certificate { IfOk result (λ answer. ForSome answer (IsCertificate problem.now)) }
        ensures own { IfOk result (may_answer self.now problem.now) }
    {
        self.answer(alloc, problem)
    }
}

/// Primal-dual augmentation, starting from a heuristic solution. It solves every problem.
#[derive(Clone, Copy, Debug, PartialEq, Eq)]
pub struct Plain;

/// Returns the certificate, except that a cut of more than half of the nodes is replaced by its
/// complement if that is violated too.
fn with_few_nodes(
    alloc: Global,
    problem: &Problem,
    certificate: Certificate,
) -> Result<Certificate, AllocError>
    requires certificate { IsCertificate problem.now certificate }
    requires bounded { HasSmallPotentials problem.now certificate }
    ensures certificate { IfOk result (IsCertificate problem.now) }
    ensures bounded { IfOk result (HasSmallPotentials problem.now) }
{
    let Certificate::Cut { flags, side } = &certificate else {
        return Ok(certificate);
    };
    let others = Certificate::Cut {
        flags: flags.iter().map(|flag| !*flag).collect(alloc)?,
        side: match side {
            Side::Over => Side::Under,
            Side::Under => Side::Over,
        },
    };
    let count = flags.iter().filter(|flag| **flag).count();
    if count > flags.len() / 2 && check(problem, &others) == Verdict::Yes {
        return Ok(others);
    }
    Ok(certificate)
}

impl Plain {
    /// Returns a certificate of the problem, from a guess that may be wrong in any way. The better the
    /// guess, the sooner it comes.
    pub fn certificate(
        &self,
        alloc: Global,
        problem: &Problem,
        guess: &Guess,
    ) -> Result<Certificate, AllocError>
        ensures certificate { IfOk result (IsCertificate problem.now) }
        ensures bounded { IfOk result (HasSmallPotentials problem.now) }
    {
        let certificate = match guess {
            Guess::Flow { flows, potentials } => settle(alloc, problem, flows, potentials)?,
            Guess::Cut(cut) => {
                let flags = Vec::from_slice(alloc, &cut.flags)?;
                let cut = Certificate::Cut {
                    flags,
                    side: cut.side,
                };
                match check(problem, &cut) {
                    Verdict::Yes => cut,
                    Verdict::No(..) => settle(alloc, problem, &[], &[])?,
                }
            }
        };
        with_few_nodes(alloc, problem, certificate)
    }
}

impl Solver for Plain {
    // The result is a certificate with small potentials.
    ghost may_answer = { λ _ problem answer. IsSmallAnswer problem answer };

    fn answer(&self, alloc: Global, problem: &Problem) -> Result<Option<Certificate>, AllocError> {
        let guess = find_guess(alloc, problem)?;
        Ok(Some(self.certificate(alloc, problem, &guess)?))
    }

    fn answer_from(
        &self,
        alloc: Global,
        problem: &Problem,
        guess: &Guess,
    ) -> Result<Option<Certificate>, AllocError> {
        Ok(Some(self.certificate(alloc, problem, guess)?))
    }
}

impl Solver for Scaling {
    // The result is that of a run within the budget.
    ghost may_answer = { λ self problem answer. IsRunAnswer problem self.budget answer };

    fn answer(&self, alloc: Global, problem: &Problem) -> Result<Option<Certificate>, AllocError> {
        Ok(self.run(alloc, problem)?.answer)
    }
}
