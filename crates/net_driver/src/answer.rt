//! The result for a model with its data.

ghost use Rattle.std.specs.Prelude.{◌≡◌, ℕ, List, Bool, Option, None, false, IfOk, IfErr};
ghost use Rattle.std.specs.Option.{option_copied};
ghost use Rattle.net_check.specs.Certificates.{IsViolatedCut};
ghost use Rattle.net_normal.specs.Flows.{IsFeasibleFlow, cost_of};
ghost use Rattle.net_check.specs.Certificates.{IsCertificate};
ghost use Rattle.net_driver.specs.IsSolved.{IsSolved, text_of};
ghost use Rattle.net_driver.specs.IsBuilt.{IsBuilt};
ghost use Rattle.net_driver.specs.CompiledNetwork.{written};
ghost use Rattle.net_driver.specs.Meaning.{IsSolution};
ghost use Rattle.net_driver.specs.SolvedOutcomes.{IsOutcomeFor};
ghost use Rattle.net_driver.specs.Made.{SizesAgree};
ghost use Rattle.net_expr.specs.Worlds.{Name};
ghost use Rattle.net_driver.specs.Outcomes.{IsOutcomeOf, IsDisplayOf, IsCutOf};
ghost use Rattle.net_driver.specs.Reporting.{IsRejection};

use crate::compiled::{Compiled, Options, with_text};
use crate::compiled_network::{CompiledNetwork, compile_network};
use crate::driver_fault::Fault;
use crate::network_reader::read_network;
use crate::reporting::reported;
use net_check::Side;
use net_report::{map_back, write_cut, write_display};
use net_solve::{Settled, solve_problem};
use std::alloc::{AllocError, Global};

/// The result of solving a model.
#[derive(Drop)]
pub enum Outcome {
    /// An optimal assignment.
    Displayed {
        /// The objective's value and the value of each arc, by name.
        text: Vec<u8>,
        /// The value of each arc, in the order of the names.
        assignment: Vec<i64>,
        /// The objective's value.
        value: i128,
    },
    /// No assignment is feasible, as a set of nodes proves.
    Infeasible {
        /// The set's supply, what its arcs allow, and the names of its nodes.
        text: Vec<u8>,
        /// For each node of the problem, whether it is in the set.
        flags: Vec<bool>,
        /// The direction in which the set's supply is infeasible.
        side: Side,
    },
}

impl Outcome {
    /// Returns the text of the outcome.
    pub fn text(&self) -> &[u8]
        ensures { result.now ≡ text_of self.now }
    {
        match self {
            Outcome::Displayed { text, .. } => text.as_slice(),
            Outcome::Infeasible { text, .. } => text.as_slice(),
        }
    }
}

/// A solved model: the compiled model, and the outcome.
#[derive(Drop)]
pub struct Answer<'s> {
    pub compiled: Compiled<'s>,
    pub outcome: Outcome,
}

/// Solves a model with its data, with the model's only objective.
pub fn solve_model<'s>(alloc: Global, model: &'s [u8], data: &'s [u8]) -> Result<Answer<'s>, Fault>
    ensures value { IfOk result (IsSolved false None model.entry.now «data».entry.now) }
    ensures means { IfOk result (IsSolution None model.entry.now «data».entry.now) }
    ensures rejected { IfErr result (IsRejection None model.entry.now «data».entry.now) }
{
    solve_model_with(alloc, &Options::new(), model, data)
}

/// Solves a model with its data and options. Returns the same errors as [`crate::compile_with`].
pub fn solve_model_with<'s>(
    alloc: Global,
    options: &Options<'_>,
    model: &'s [u8],
    data: &'s [u8],
) -> Result<Answer<'s>, Fault>
    ensures value { IfOk result (IsSolved options.now.lean (option_copied options.now.objective) model.entry.now «data».entry.now) }
    ensures means { IfOk result (IsSolution (option_copied options.now.objective) model.entry.now «data».entry.now) }
    ensures rejected { IfErr result (IsRejection (option_copied options.now.objective) model.entry.now «data».entry.now) }
{
    let read = read_network(alloc, model, data, options.objective, options.key);
    let named = reported(alloc, model, data, read)?;
    let network = compile_network(alloc, options.lean, named)?;
    let outcome = solve_network(alloc, &network)?;
    let compiled = with_text(alloc, network)?;
    Ok(Answer { compiled, outcome })
}

/// Solves a model with its data and options, and builds only the outcome, whose text is what
/// [`crate::run_solve_with`] writes. Returns the same errors as [`crate::compile_with`].
pub fn solve_outcome_with(
    alloc: Global,
    options: &Options<'_>,
    model: &[u8],
    data: &[u8],
) -> Result<Outcome, Fault>
    ensures value { IfOk result (IsOutcomeFor options.now.lean (option_copied options.now.objective) model.now «data».now) }
    ensures rejected { IfErr result (IsRejection (option_copied options.now.objective) model.now «data».now) }
{
    let found = read_network(alloc, model, data, options.objective, options.key);
    let named = reported(alloc, model, data, found)?;
    let network = compile_network(alloc, options.lean, named)?;
    let outcome = solve_network(alloc, &network)?;
    Ok(outcome)
}

/// Solves a compiled model, for which no text is needed. Fails only if memory runs out.
pub(crate) fn solve_network(
    alloc: Global,
    network: &CompiledNetwork<'_>,
) -> Result<Outcome, AllocError>
    requires { SizesAgree (written network.now) }
    ensures { (lean : Bool) (wanted : Option Name) (m d : List ℕ) → IsBuilt lean wanted m d (written network.now)
        → IfOk result (λ outcome. IsSolved lean wanted m d (record { compiled = written network.now; outcome = outcome })) }
{
    let settled = solve_problem(alloc, &network.problem)?;
    outcome_of(alloc, network, settled)
}

/// Returns the outcome for a certificate of the problem. Fails only if memory runs out.
fn outcome_of(
    alloc: Global,
    network: &CompiledNetwork<'_>,
    settled: Settled,
) -> Result<Outcome, AllocError>
    requires sizes { SizesAgree (written network.now) }
    requires settled { IsCertificate network.now.problem settled }
    ensures { IfOk result (IsOutcomeOf (written network.now) settled) }
{
    match settled {
        Settled::Optimal { value, flows, .. } => displayed(alloc, network, value, &flows),
        Settled::Cut { flags, side } => infeasible(alloc, network, flags, side),
    }
}

/// Returns the plan that corresponds to a feasible flow. Fails only if memory runs out.
pub(crate) fn displayed(
    alloc: Global,
    network: &CompiledNetwork<'_>,
    cost: i128,
    flows: &[i64],
) -> Result<Outcome, AllocError>
    requires sizes { SizesAgree (written network.now) }
    requires feasible { IsFeasibleFlow network.now.problem flows.now }
    requires cost { cost ≡ cost_of network.now.problem flows.now }
    ensures { IfOk result (IsDisplayOf (written network.now) flows.now cost) }
{
    let assignment = map_back(alloc, &network.link, flows)?;
    let value = network.link.value(cost);
    let text = write_display(alloc, &network.names, &assignment, value)?;
    Ok(Outcome::Displayed {
        text,
        assignment,
        value,
    })
}

/// Returns the explanation of a violated cut. Fails only if memory runs out.
pub(crate) fn infeasible(
    alloc: Global,
    network: &CompiledNetwork<'_>,
    flags: Vec<bool>,
    side: Side,
) -> Result<Outcome, AllocError>
    requires sizes { SizesAgree (written network.now) }
    requires violated { IsViolatedCut network.now.problem flags.items side }
    ensures { IfOk result (IsCutOf (written network.now) flags.items side) }
{
    let text = write_cut(alloc, &network.names, &network.problem, &flags, side)?;
    Ok(Outcome::Infeasible { text, flags, side })
}
