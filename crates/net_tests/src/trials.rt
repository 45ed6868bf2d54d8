//! The four runs between streams in memory.

ghost use Rattle.std.specs.Prelude.{◌≡◌, ◌≤◌, false};

use crate::ends::Filling;
use crate::texts::{
    CERTIFICATE, CITIES, CITIES_COMPILED, CITIES_DATA, DATA, NEGATIVE, NEGATIVE_PLAN, PROBLEM,
};
use net_driver::{Fault, run_check, run_compile, run_min, run_solve};
use net_io::{MemorySink, MemorySource, OfWrite, Sink};
use std::alloc::{AllocError, Global};

/// One of the four runs.
#[derive(Clone, Copy)]
pub enum Run {
    Compile,
    Solve,
    Check,
    Min,
}

/// How many bytes a stream transfers in one call.
#[derive(Clone, Copy)]
pub enum Pace {
    Bytes,
    Pages,
}

impl Pace {
    fn bytes_per_call(self) -> usize
        ensures { 1 ≤ result }
    {
        match self {
            Pace::Bytes => 1,
            Pace::Pages => 4096,
        }
    }
}

/// A run, the number of bytes in each call, and the number of calls of each stream that succeed, if
/// not all do.
#[derive(Clone, Copy)]
pub struct Trial {
    pub run: Run,
    pub pace: Pace,
    pub first_reads: Option<u64>,
    pub second_reads: Option<u64>,
    pub writes: Option<u64>,
}

impl Trial {
    /// Builds a trial in which no stream fails.
    pub fn of(run: Run, pace: Pace) -> Trial {
        Trial {
            run,
            pace,
            first_reads: None,
            second_reads: None,
            writes: None,
        }
    }
}

/// Returns the two inputs of a run.
pub fn texts_of(run: Run) -> (&'static [u8], &'static [u8]) {
    match run {
        Run::Compile => (CITIES, CITIES_DATA),
        Run::Solve => (NEGATIVE, DATA),
        Run::Check => (PROBLEM.as_bytes(), CERTIFICATE.as_bytes()),
        Run::Min => (PROBLEM.as_bytes(), b""),
    }
}

/// Returns the expected output for these inputs.
pub fn answer_of(run: Run) -> &'static str {
    match run {
        Run::Compile => CITIES_COMPILED,
        Run::Solve => NEGATIVE_PLAN,
        Run::Check => "yes\n",
        Run::Min => CERTIFICATE,
    }
}

/// Runs with these streams, and returns the error if there is one.
fn fault_of<W: Sink>(
    alloc: Global,
    run: Run,
    first: &mut MemorySource<'_>,
    second: &mut MemorySource<'_>,
    sink: &mut W,
) -> Option<Fault>
    requires first_unread { first.old.failed ≡ false }
    requires second_unread { second.old.failed ≡ false }
    requires unwritten { W.failed sink.old ≡ false }
{
    match run {
        Run::Compile => run_compile(alloc, first, second, sink).err(),
        Run::Solve => run_solve(alloc, first, second, sink).err(),
        Run::Check => run_check(alloc, first, second, sink).err(),
        Run::Min => run_min(alloc, first, sink).err(),
    }
}

/// Formats the result of a trial: the error, the number of reads of each source, and what was
/// written.
fn reported(
    alloc: Global,
    fault: Option<Fault>,
    reads: (u64, u64),
    written: &[u8],
) -> Result<String, AllocError> {
    let text = String::from_utf8_lossy(alloc, written)?;
    let (first, second) = reads;
    match fault {
        None => format!(in alloc; "done, {first} {second} reads: {text}"),
        Some(fault) => format!(in alloc; "{fault}: {text}"),
    }
}

/// Returns the result of a trial.
pub fn ran(alloc: Global, trial: Trial) -> Result<String, AllocError> {
    let (one, other) = texts_of(trial.run);
    let bytes = trial.pace.bytes_per_call();
    let mut first = MemorySource::new(one, bytes, trial.first_reads);
    let mut second = MemorySource::new(other, bytes, trial.second_reads);
    let mut sink = MemorySink::new(Vec::with_capacity(alloc, 4096)?, bytes, trial.writes);
    let fault = fault_of(alloc, trial.run, &mut first, &mut second, &mut sink);
    reported(alloc, fault, (first.reads, second.reads), &sink.taken)
}

/// What comes of a run that writes to a writer with this room, a byte a call.
pub fn filled(alloc: Global, run: Run, room: usize) -> Result<String, AllocError> {
    let (one, other) = texts_of(run);
    let mut first = MemorySource::new(one, 4096, None);
    let mut second = MemorySource::new(other, 4096, None);
    let mut sink = OfWrite::new(Filling::new(alloc, room)?);
    let fault = fault_of(alloc, run, &mut first, &mut second, &mut sink);
    reported(
        alloc,
        fault,
        (first.reads, second.reads),
        &sink.writer.taken,
    )
}
