//! Runs that compile: read both files completely, build the problem, then write it with its name
//! map.

ghost use Rattle.std.specs.Prelude.{◌≡◌, ◌+◌, ◌^◌, ◌<◌, ◌⊎◌, None, true, false, IfOk, IfErr};
ghost use Rattle.std.specs.Option.{option_copied};
ghost use Rattle.net_io.specs.Ends.{ReadsToLimit};
ghost use Rattle.net_driver.specs.Runs.{IsCompileRun, IsAskedFew};

use crate::compiled::Options;
use crate::compiled_network::{compile_network, write_text};
use crate::driver_fault::{Fault, TextName};
use crate::network_reader::read_network;
use crate::reporting::reported;
use net_io::{ReadFault, Sink, Source, read_to_limit};
use net_lex::{DATA_LIMIT, MODEL_LIMIT};
use std::alloc::Global;

/// Compiles the model and data of two sources, with the model's only objective, in the normal form,
/// and writes the text.
pub fn run_compile<M: Source, D: Source, W: Sink>(
    alloc: Global,
    model: &mut M,
    data: &mut D,
    output: &mut W,
) -> Result<(), Fault>
    requires model_unread { M.failed model.old ≡ false }
    requires data_unread { D.failed «data».old ≡ false }
    requires unwritten { W.failed output.old ≡ false }
    ensures run { IsCompileRun false None
        (record { remaining = M.remaining; failed = M.failed; reads = M.reads; old = model.old; new = model.new })
        (record { remaining = D.remaining; failed = D.failed; reads = D.reads; old = «data».old; new = «data».new })
        (record { taken = W.taken; failed = W.failed; old = output.old; new = output.new }) result }

    // The model is read first.
    ensures first { M.failed model.new ≡ true → «data».new ≡ «data».old }
{
    run_compile_with(alloc, &Options::new(), model, data, output)
}

/// Compiles the model and data of two sources with options, and writes the text.
pub fn run_compile_with<M: Source, D: Source, W: Sink>(
    alloc: Global,
    options: &Options<'_>,
    model: &mut M,
    data: &mut D,
    output: &mut W,
) -> Result<(), Fault>
    requires model_unread { M.failed model.old ≡ false }
    requires data_unread { D.failed «data».old ≡ false }
    requires unwritten { W.failed output.old ≡ false }
    ensures run { IsCompileRun options.now.lean (option_copied options.now.objective)
        (record { remaining = M.remaining; failed = M.failed; reads = M.reads; old = model.old; new = model.new })
        (record { remaining = D.remaining; failed = D.failed; reads = D.reads; old = «data».old; new = «data».new })
        (record { taken = W.taken; failed = W.failed; old = output.old; new = output.new }) result }

    // The model is read first.
    ensures first { M.failed model.new ≡ true → «data».new ≡ «data».old }
{
    let model_text = read_text(alloc, model, MODEL_LIMIT, TextName::Model)?;
    let data_text = read_text(alloc, data, DATA_LIMIT, TextName::Data)?;
    let read = read_network(
        alloc,
        &model_text,
        &data_text,
        options.objective,
        options.key,
    );
    let named = reported(alloc, &model_text, &data_text, read)?;
    let network = compile_network(alloc, options.lean, named)?;
    match write_text(output, &network) {
        Ok(()) => Ok(()),
        Err(_) => Err(Fault::Unwritten),
    }
}

/// Reads a source completely, up to one byte past the limit.
pub(crate) fn read_text<S: Source>(
    alloc: Global,
    source: &mut S,
    limit: usize,
    name: TextName,
) -> Result<Vec<u8>, Fault>
    requires { limit + 2 < 2 ^ 64 }
    ensures value { IfOk result (λ text. ReadsToLimit limit (S.remaining source.old) (S.remaining source.new) text.items) }
    ensures err { IfErr result (λ fault. (fault ≡ Fault.OutOfMemory)
        ⊎ ((fault ≡ Fault.Unread name) × (S.failed source.new ≡ true))) }
    ensures flag { S.failed source.new ≡ true → (S.failed source.old ≡ true) ⊎ (result ≡ Err (Fault.Unread name)) }
    ensures reads { IsAskedFew limit (S.reads source.old) (S.reads source.new) }
{
    match read_to_limit(alloc, source, limit) {
        Ok(text) => Ok(text),
        Err(ReadFault::OutOfMemory) => Err(Fault::OutOfMemory),
        Err(ReadFault::Failed) => Err(Fault::Unread(name)),
    }
}
