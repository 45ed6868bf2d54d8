//! Runs that solve models and write a plan with its prices.

ghost use Rattle.std.specs.Prelude.{◌≡◌, ◌+◌, ℕ, List, Bool, Option, true, false, IfOk, vec_len};
ghost use Rattle.std.specs.Option.{option_copied};
ghost use Rattle.net_check.specs.Certificates.{IsCertificate};
ghost use Rattle.net_expr.specs.Worlds.{Name};
ghost use Rattle.net_driver.specs.CompiledNetwork.{written};
ghost use Rattle.net_driver.specs.Made.{SizesAgree};
ghost use Rattle.net_driver.specs.PricedPlans.{IsBuiltFrom, IsPricedOutcomeOf, IsSolvedWithPrices};
ghost use Rattle.net_driver.specs.Runs.{IsPricedRun};

use crate::answer::{Outcome, displayed, infeasible};
use crate::compile_run::read_text;
use crate::compiled::Options;
use crate::compiled_network::{CompiledNetwork, compile_with_instance};
use crate::driver_fault::{Fault, TextName};
use crate::network_reader::read_network;
use crate::reporting::reported;
use crate::solve_run::{ExitKind, exit_kind_of};
use net_io::{Sink, Source, write_whole};
use net_lex::{DATA_LIMIT, MODEL_LIMIT};
use net_normal::Instance;
use net_report::push_prices;
use net_solve::{Settled, solve_problem};
use std::alloc::{AllocError, Global};

/// An outcome, and its text with prices.
#[derive(Drop)]
pub(crate) struct PricedOutcome {
    pub outcome: Outcome,
    /// The text of the outcome; if it is a plan, followed by the prices.
    pub text: Vec<u8>,
}

/// Returns the outcome for a certificate of the problem, with prices. Fails only if memory runs out.
fn priced_outcome(
    alloc: Global,
    network: &CompiledNetwork<'_>,
    instance: &Instance,
    settled: Settled,
) -> Result<PricedOutcome, AllocError>
    requires sizes { SizesAgree (written network.now) }
    requires nodes { vec_len network.now.problem.supplies ≡ vec_len instance.now.nodes + 1 }
    requires arcs { vec_len network.now.link.numbers ≡ vec_len instance.now.arcs }
    requires settled { IsCertificate network.now.problem settled }
    ensures { IfOk result (λ priced. IsPricedOutcomeOf instance.now (written network.now) settled priced.outcome priced.text.items) }
{
    match settled {
        Settled::Optimal {
            value,
            flows,
            potentials,
        } => {
            let outcome = displayed(alloc, network, value, &flows)?;
            let mut text = Vec::from_slice(alloc, outcome.text())?;
            push_prices(alloc, &mut text, &network.names, instance, &potentials)?;
            Ok(PricedOutcome { outcome, text })
        }
        Settled::Cut { flags, side } => {
            let outcome = infeasible(alloc, network, flags, side)?;
            let text = Vec::from_slice(alloc, outcome.text())?;
            Ok(PricedOutcome { outcome, text })
        }
    }
}

/// Solves a compiled model and adds prices to its plan. Fails only if memory runs out.
fn solve_with_prices(
    alloc: Global,
    network: &CompiledNetwork<'_>,
    instance: &Instance,
) -> Result<PricedOutcome, AllocError>
    requires sizes { SizesAgree (written network.now) }
    requires nodes { vec_len network.now.problem.supplies ≡ vec_len instance.now.nodes + 1 }
    requires arcs { vec_len network.now.link.numbers ≡ vec_len instance.now.arcs }
    ensures { (lean : Bool) (wanted : Option Name) (m d : List ℕ) → IsBuiltFrom lean wanted m d instance.now (written network.now)
        → IfOk result (λ priced. IsSolvedWithPrices lean wanted m d (record { compiled = written network.now; outcome = priced.outcome }) priced.text.items) }
{
    let settled = solve_problem(alloc, &network.problem)?;
    priced_outcome(alloc, network, instance, settled)
}

/// Solves the model and data of two sources with options, and writes the plan with the price of
/// each node and the reduced cost of each arc, or the cut that proves that there is no plan.
pub fn run_solve_with_prices<M: Source, D: Source, W: Sink>(
    alloc: Global,
    options: &Options<'_>,
    model: &mut M,
    data: &mut D,
    output: &mut W,
) -> Result<ExitKind, Fault>
    requires model_unread { M.failed model.old ≡ false }
    requires data_unread { D.failed «data».old ≡ false }
    requires unwritten { W.failed output.old ≡ false }
    ensures run { IsPricedRun options.now.lean (option_copied options.now.objective)
        (record { remaining = M.remaining; failed = M.failed; reads = M.reads; old = model.old; new = model.new })
        (record { remaining = D.remaining; failed = D.failed; reads = D.reads; old = «data».old; new = «data».new })
        (record { taken = W.taken; failed = W.failed; old = output.old; new = output.new }) result }

    // The model is read first.
    ensures first { M.failed model.new ≡ true → «data».new ≡ «data».old }
{
    let model_text = read_text(alloc, model, MODEL_LIMIT, TextName::Model)?;
    let data_text = read_text(alloc, data, DATA_LIMIT, TextName::Data)?;
    let read = read_network(
        alloc,
        &model_text,
        &data_text,
        options.objective,
        options.key,
    );
    let named = reported(alloc, &model_text, &data_text, read)?;
    let (network, instance) = compile_with_instance(alloc, options.lean, named)?;
    let priced = solve_with_prices(alloc, &network, &instance)?;
    let exit_kind = exit_kind_of(&priced.outcome);
    match write_whole(output, &priced.text) {
        Ok(()) => Ok(exit_kind),
        Err(_) => Err(Fault::Unwritten),
    }
}
