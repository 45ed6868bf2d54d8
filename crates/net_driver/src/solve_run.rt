//! Runs that solve models: read both files completely, compute the complete result, then write it.
//! The problem's text is never built.

ghost use Rattle.std.specs.Prelude.{◌≡◌, None, true, false};
ghost use Rattle.std.specs.Option.{option_copied};
ghost use Rattle.net_driver.specs.IsSolved.{exit_kind_of};
ghost use Rattle.net_driver.specs.Runs.{IsSolveRun};

use crate::answer::{Outcome, solve_network};
use crate::compile_run::read_text;
use crate::compiled::Options;
use crate::compiled_network::compile_network;
use crate::driver_fault::{Fault, TextName};
use crate::network_reader::read_network;
use crate::reporting::reported;
use net_io::{Sink, Source, write_whole};
use net_lex::{DATA_LIMIT, MODEL_LIMIT};
use std::alloc::Global;

/// Returns the result of a run with this outcome.
pub(crate) fn exit_kind_of(outcome: &Outcome) -> ExitKind
    ensures { result ≡ exit_kind_of outcome.now }
{
    match outcome {
        Outcome::Displayed { .. } => ExitKind::Done,
        Outcome::Infeasible { .. } => ExitKind::Refuted,
    }
}

/// Solves the model and data of two sources, with the model's only objective, and writes the plan,
/// or the cut that proves that there is none.
pub fn run_solve<M: Source, D: Source, W: Sink>(
    alloc: Global,
    model: &mut M,
    data: &mut D,
    output: &mut W,
) -> Result<ExitKind, Fault>
    requires model_unread { M.failed model.old ≡ false }
    requires data_unread { D.failed «data».old ≡ false }
    requires unwritten { W.failed output.old ≡ false }
    ensures run { IsSolveRun false None
        (record { remaining = M.remaining; failed = M.failed; reads = M.reads; old = model.old; new = model.new })
        (record { remaining = D.remaining; failed = D.failed; reads = D.reads; old = «data».old; new = «data».new })
        (record { taken = W.taken; failed = W.failed; old = output.old; new = output.new }) result }

    // The model is read first.
    ensures first { M.failed model.new ≡ true → «data».new ≡ «data».old }
{
    run_solve_with(alloc, &Options::new(), model, data, output)
}

/// Solves the model and data of two sources with options, and writes the plan, or the cut that
/// proves that there is none.
pub fn run_solve_with<M: Source, D: Source, W: Sink>(
    alloc: Global,
    options: &Options<'_>,
    model: &mut M,
    data: &mut D,
    output: &mut W,
) -> Result<ExitKind, Fault>
    requires model_unread { M.failed model.old ≡ false }
    requires data_unread { D.failed «data».old ≡ false }
    requires unwritten { W.failed output.old ≡ false }
    ensures run { IsSolveRun options.now.lean (option_copied options.now.objective)
        (record { remaining = M.remaining; failed = M.failed; reads = M.reads; old = model.old; new = model.new })
        (record { remaining = D.remaining; failed = D.failed; reads = D.reads; old = «data».old; new = «data».new })
        (record { taken = W.taken; failed = W.failed; old = output.old; new = output.new }) result }

    // The model is read first.
    ensures first { M.failed model.new ≡ true → «data».new ≡ «data».old }
{
    let model_text = read_text(alloc, model, MODEL_LIMIT, TextName::Model)?;
    let data_text = read_text(alloc, data, DATA_LIMIT, TextName::Data)?;
    let read = read_network(
        alloc,
        &model_text,
        &data_text,
        options.objective,
        options.key,
    );
    let named = reported(alloc, &model_text, &data_text, read)?;
    let network = compile_network(alloc, options.lean, named)?;
    let outcome = solve_network(alloc, &network)?;
    let exit_kind = exit_kind_of(&outcome);
    match write_whole(output, outcome.text()) {
        Ok(()) => Ok(exit_kind),
        Err(_) => Err(Fault::Unwritten),
    }
}

/// The result of a run without an error.
#[derive(Clone, Copy, Debug, PartialEq, Eq)]
pub enum ExitKind {
    /// Done: a compiled problem, a plan, an optimal flow, or `yes`.
    Done,
    /// A negative result: no plan, no feasible flow, or a wrong certificate.
    Refuted,
}
