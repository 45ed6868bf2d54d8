//! The result at the end of the last phase.

ghost use Rattle.std.specs.Prelude.{◌≡◌, ℕ, ◌<◌, true, pos, IfOk, IfSome, length, slice_index_or, ◌^◌, ◌↔◌, IsTrue};
ghost use Rattle.std.specs.Option.{ForSome};
ghost use Rattle.net_check.specs.Certificates.{IsCertificate};
ghost use Rattle.net_solve.specs.ScalingRuns.{HasFlows, IsEnded, IsFromZero};
ghost use Rattle.net_solve.specs.Runs.{greatest_scaled};
ghost use Rattle.net_solve.specs.Rows.{AreRows};
ghost use Rattle.net_solve.specs.Machines.{IsConsistent};

use crate::rounding::whole_potentials;
use crate::rows::Rows;
use crate::scaling::Machine;
use net_check::Certificate;
use net_check::cost::cost;
use net_guess::NodeQueue;
use net_normal::Problem;
use std::alloc::{AllocError, Global};

/// Returns whether no node has an excess or a deficit.
pub fn is_balanced(excess: &[i128]) -> bool
    ensures { result ≡ true → (v : ℕ) → v < length excess.now → slice_index_or excess.now v (pos 0) ≡ pos 0 }
{
    for amount in excess {
        if *amount != 0 {
            return false;
        }
    }
    true
}

impl Machine {
    /// Returns the certificate of a run whose last phase has ended. Fails only if memory runs out.
    pub fn certificate(
        self,
        alloc: Global,
        problem: &Problem,
    ) -> Result<Option<Certificate>, AllocError>
        requires { IsEnded problem.now self }
        ensures certificate { IfOk result (λ answer. ForSome answer (IsCertificate problem.now)) }
        ensures flows { IfOk result (λ answer. IfSome answer (HasFlows self.carried.flows.items)) }
        ensures from_zero { IfOk result (λ answer. IfSome answer IsFromZero) }
    {
        let Some(potentials) = whole_potentials(alloc, &self.potentials)? else {
            return Ok(None);
        };
        let flows = self.carried.flows;
        let value = cost(problem, &flows);
        Ok(Some(Certificate::Optimal {
            value,
            flows,
            potentials,
        }))
    }
}

/// An upper bound on the number of phases.
const PHASES: u32 = 64;

impl Machine {
    /// Returns whether the phase is the last one.
    fn is_last(&self) -> bool
        ensures { IsTrue result ↔ (self.now.epsilon ≡ pos 1) }
    {
        self.epsilon == 1
    }

    /// Runs all phases. Returns whether the last one has ended.
    pub fn run_phases(
        &mut self,
        problem: &Problem,
        rows: &Rows,
        waiting: &mut NodeQueue,
        scale: u64,
    ) -> bool
        requires rows { AreRows problem.now rows.now.starts.items rows.now.entries.items }
        requires scale { scale ≡ greatest_scaled problem.now }
        requires size { scale < 2 ^ 55 }
        requires standing { IsConsistent problem.now self.old }
        requires first { self.old.phases ≡ 0 }
        ensures standing { IsConsistent problem.now self.new }
        ensures budget { self.new.budget ≡ self.old.budget }
        ensures ended { result ≡ true → IsEnded problem.now self.new }
    {
        for _ in 0..PHASES {
            self.begin(problem, scale);
            self.refine(problem, rows, waiting);
            if !is_balanced(&self.carried.excess) {
                return false;
            }
            if self.is_last() {
                return true;
            }
        }
        false
    }
}
