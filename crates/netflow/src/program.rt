//! The program: from its arguments to its exit status.

ghost use Rattle.std.specs.Prelude.{◌≡◌, ℕ, List, false, map, string_bytes};
ghost use Rattle.netflow.specs.Calls.{IsCallRun, IsIdle, IsIdlePrinted, IsProgramRun};
ghost use Rattle.netflow.specs.CommandLine.{IsRejection};

use crate::call::{Call, InputFiles, call_of};
use crate::command_words::{WordsFault, words_of};
use crate::error_line::{ErrorStream, print_error};
use crate::status::Status;
use net_driver::{
    ExitKind, Fault, HashKey, Options, TextName, run_check, run_compile_with, run_min,
    run_solve_with, run_solve_with_prices,
};
use net_io::Sink;
use std::alloc::Global;
use std::random::RandomSource;
use std::rt::Runtime;
use std::{env, io};

/// Compiles the model and data of two files, and writes the problem.
fn compile_files<F: InputFiles, W: Sink>(
    alloc: Global,
    files: &F,
    output: &mut W,
    model: &str,
    data: &str,
    options: &Options<'_>,
) -> Result<ExitKind, Fault>
    requires { W.failed output.old ≡ false }
    ensures { IsCallRun
        (record { opens = F.opens files.now; remaining = F.Input.remaining; failed = F.Input.failed; reads = F.Input.reads })
        (record { taken = W.taken; failed = W.failed; old = output.old; new = output.new })
        (Call.Compile model.entry «data».entry options.now) result }
{
    let Some(mut model) = files.open(model) else {
        return Err(Fault::Unread(TextName::Model));
    };
    let Some(mut data) = files.open(data) else {
        return Err(Fault::Unread(TextName::Data));
    };
    match run_compile_with(alloc, options, &mut model, &mut data, output) {
        Ok(()) => Ok(ExitKind::Done),
        Err(fault) => Err(fault),
    }
}

/// Solves the model and data of two files, and writes the plan.
fn solve_files<F: InputFiles, W: Sink>(
    alloc: Global,
    files: &F,
    output: &mut W,
    model: &str,
    data: &str,
    options: &Options<'_>,
) -> Result<ExitKind, Fault>
    requires { W.failed output.old ≡ false }
    ensures { IsCallRun
        (record { opens = F.opens files.now; remaining = F.Input.remaining; failed = F.Input.failed; reads = F.Input.reads })
        (record { taken = W.taken; failed = W.failed; old = output.old; new = output.new })
        (Call.Solve model.entry «data».entry options.now) result }
{
    let Some(mut model) = files.open(model) else {
        return Err(Fault::Unread(TextName::Model));
    };
    let Some(mut data) = files.open(data) else {
        return Err(Fault::Unread(TextName::Data));
    };
    run_solve_with(alloc, options, &mut model, &mut data, output)
}

/// Solves the model and data of two files, and writes the plan with its prices.
fn price_files<F: InputFiles, W: Sink>(
    alloc: Global,
    files: &F,
    output: &mut W,
    model: &str,
    data: &str,
    options: &Options<'_>,
) -> Result<ExitKind, Fault>
    requires { W.failed output.old ≡ false }
    ensures { IsCallRun
        (record { opens = F.opens files.now; remaining = F.Input.remaining; failed = F.Input.failed; reads = F.Input.reads })
        (record { taken = W.taken; failed = W.failed; old = output.old; new = output.new })
        (Call.SolveWithPrices model.entry «data».entry options.now) result }
{
    let Some(mut model) = files.open(model) else {
        return Err(Fault::Unread(TextName::Model));
    };
    let Some(mut data) = files.open(data) else {
        return Err(Fault::Unread(TextName::Data));
    };
    run_solve_with_prices(alloc, options, &mut model, &mut data, output)
}

/// Solves the problem of a file, and writes its certificate.
fn min_file<F: InputFiles, W: Sink>(
    alloc: Global,
    files: &F,
    output: &mut W,
    problem: &str,
) -> Result<ExitKind, Fault>
    requires { W.failed output.old ≡ false }
    ensures { IsCallRun
        (record { opens = F.opens files.now; remaining = F.Input.remaining; failed = F.Input.failed; reads = F.Input.reads })
        (record { taken = W.taken; failed = W.failed; old = output.old; new = output.new })
        (Call.Min problem.entry) result }
{
    let Some(mut problem) = files.open(problem) else {
        return Err(Fault::Unread(TextName::Problem));
    };
    run_min(alloc, &mut problem, output)
}

/// Checks the certificate of the second file for the problem of the first, and writes the verdict.
fn check_files<F: InputFiles, W: Sink>(
    alloc: Global,
    files: &F,
    output: &mut W,
    problem: &str,
    certificate: &str,
) -> Result<ExitKind, Fault>
    requires { W.failed output.old ≡ false }
    ensures { IsCallRun
        (record { opens = F.opens files.now; remaining = F.Input.remaining; failed = F.Input.failed; reads = F.Input.reads })
        (record { taken = W.taken; failed = W.failed; old = output.old; new = output.new })
        (Call.Check problem.entry certificate.entry) result }
{
    let Some(mut problem) = files.open(problem) else {
        return Err(Fault::Unread(TextName::Problem));
    };
    let Some(mut certificate) = files.open(certificate) else {
        return Err(Fault::Unread(TextName::Certificate));
    };
    run_check(alloc, &mut problem, &mut certificate, output)
}

/// Runs the program on its arguments: the call that they request, or none. The line of an error goes
/// to `errors`; help and usage go to the streams of the runtime.
pub fn run_program<R: Runtime + AllocGlobal + RandomSource, F: InputFiles, W: Sink, E: Sink>(
    rt: &R,
    files: &F,
    output: &mut W,
    errors: &mut E,
    words: &[String],
) -> Status
    requires { W.failed output.old ≡ false }
    ensures { IsProgramRun
        (record { opens = F.opens files.now; remaining = F.Input.remaining; failed = F.Input.failed; reads = F.Input.reads })
        (record { taken = W.taken; failed = W.failed; old = output.old; new = output.new })
        (record { taken = E.taken; failed = E.failed; old = errors.old; new = errors.new })
        (map string_bytes words.now) result }
{
    let words = match words_of(rt.alloc(), words) {
        Ok(words) => words,
        Err(fault) => return print_usage(rt, errors, fault),
    };
    let key = HashKey::drawn(rt);
    let ran = match call_of(&words, key) {
        Call::Compile(model, data, options) => {
            compile_files(rt.alloc(), files, output, model, data, &options)
        }
        Call::Solve(model, data, options) => {
            solve_files(rt.alloc(), files, output, model, data, &options)
        }
        Call::SolveWithPrices(model, data, options) => {
            price_files(rt.alloc(), files, output, model, data, &options)
        }
        Call::Min(problem) => min_file(rt.alloc(), files, output, problem),
        Call::Check(problem, certificate) => {
            check_files(rt.alloc(), files, output, problem, certificate)
        }
    };
    match ran {
        Ok(exit_kind) => Status::of_exit_kind(exit_kind),
        Err(fault) => print_error(errors, &fault),
    }
}

/// Prints why the arguments request no call, or the requested help or version; returns the status.
fn print_usage<R: Print + Eprint, E: Sink>(rt: &R, errors: &mut E, fault: WordsFault) -> Status
    ensures idle { (words : List (List ℕ)) → IsRejection words fault → IsIdle words result }
    ensures printed { IsIdlePrinted (record { taken = E.taken; failed = E.failed; old = errors.old; new = errors.new }) result }
{
    match fault {
        WordsFault::OutOfMemory => print_error(errors, &Fault::OutOfMemory),
        WordsFault::Usage(error) => {
            let shown = error.print(rt).is_ok();
            if error.use_stderr() {
                Status::Usage
            } else if shown {
                Status::Done
            } else {
                Status::EndFailed
            }
        }
    }
}

/// Returns the arguments of the program, or its exit status if they are not available.
pub fn called_words<R: Runtime + AllocGlobal>(
    rt: &R,
    errors: &mut ErrorStream<'_, R>,
) -> Result<Vec<String>, Status> {
    let args = match env::args(rt) {
        Ok(args) => args,
        Err(error) if error.kind() == io::ErrorKind::OutOfMemory => {
            return Err(print_error(errors, &Fault::OutOfMemory));
        }
        Err(_) => {
            let _ = eprintln!(rt; "netflow: a word of the command line is not UTF-8");
            return Err(Status::Usage);
        }
    };
    match args.collect::<Vec<String>>(rt.alloc()) {
        Ok(words) => Ok(words),
        Err(_) => Err(print_error(errors, &Fault::OutOfMemory)),
    }
}
