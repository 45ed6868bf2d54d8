//! Streams that fail at each call in turn, and streams that transfer one byte at a time.

use crate::comparison::expect;
use crate::trials::{Pace, Run, Trial, answer_of, filled, ran, texts_of};
use std::alloc::{AllocError, Global};
use std::test::Fail;

/// The runs, with the beginning of the message if their first or their second source cannot be
/// read.
const RUNS: &[(Run, &str, &str)] = &[
    (
        Run::Compile,
        "E90 ReadFault model: ",
        "E90 ReadFault data: ",
    ),
    (Run::Solve, "E90 ReadFault model: ", "E90 ReadFault data: "),
    (
        Run::Check,
        "E90 ReadFault problem: ",
        "E90 ReadFault certificate: ",
    ),
];

const ALL: &[Run] = &[Run::Compile, Run::Solve, Run::Check, Run::Min];

/// Returns the expected result of a run that reads its inputs byte by byte: one read for each byte,
/// and one for the end.
fn whole(alloc: Global, run: Run) -> Result<String, AllocError> {
    let (first, second) = texts_of(run);
    let first = first.len() + 1;
    let second = match run {
        Run::Min => 0,
        _ => second.len() + 1,
    };
    let answer = answer_of(run);
    format!(in alloc; "done, {first} {second} reads: {answer}")
}

#[test]
fn a_byte_at_a_time_changes_nothing(rt: HostRuntime) -> Result<(), Fail> {
    for run in ALL {
        let wanted = whole(rt.alloc(), *run)?;
        expect(
            "byte by byte",
            ran(rt.alloc(), Trial::of(*run, Pace::Bytes)),
            wanted.as_str(),
        )?;
    }
    Ok(())
}

/// Returns the result of a run whose first source fails after `reads` reads.
fn first_fails(alloc: Global, run: Run, reads: usize) -> Result<String, AllocError> {
    let mut trial = Trial::of(run, Pace::Bytes);
    trial.first_reads = Some(reads as u64);
    ran(alloc, trial)
}

#[test]
fn the_first_text_fails_at_each_read(rt: HostRuntime) -> Result<(), Fail> {
    for (run, wanted, _) in RUNS {
        let (text, _) = texts_of(*run);
        for reads in 0..text.len() + 1 {
            expect(
                "a read of the first text",
                first_fails(rt.alloc(), *run, reads),
                wanted,
            )?;
        }
    }
    Ok(())
}

#[test]
fn the_problem_of_min_fails_at_each_read(rt: HostRuntime) -> Result<(), Fail> {
    let (text, _) = texts_of(Run::Min);
    for reads in 0..text.len() + 1 {
        expect(
            "a read of the problem",
            first_fails(rt.alloc(), Run::Min, reads),
            "E90 ReadFault problem: ",
        )?;
    }
    Ok(())
}

/// Returns the result of a run whose second source fails after `reads` reads.
fn second_fails(alloc: Global, run: Run, reads: usize) -> Result<String, AllocError> {
    let mut trial = Trial::of(run, Pace::Bytes);
    trial.second_reads = Some(reads as u64);
    ran(alloc, trial)
}

#[test]
fn the_second_text_fails_at_each_read(rt: HostRuntime) -> Result<(), Fail> {
    for (run, _, wanted) in RUNS {
        let (_, text) = texts_of(*run);
        for reads in 0..text.len() + 1 {
            expect(
                "a read of the second text",
                second_fails(rt.alloc(), *run, reads),
                wanted,
            )?;
        }
    }
    Ok(())
}

/// Returns the result of a run whose output fails after `writes` writes of one byte each.
fn output_fails(alloc: Global, run: Run, writes: usize) -> Result<String, AllocError> {
    let mut trial = Trial::of(run, Pace::Bytes);
    trial.writes = Some(writes as u64);
    ran(alloc, trial)
}

/// Returns the line of a failed write, with the prefix of the output that was written.
fn front(alloc: Global, run: Run, bytes: usize) -> Result<String, AllocError> {
    let answer = answer_of(run).as_bytes();
    let text = String::from_utf8_lossy(alloc, &answer[..bytes.min(answer.len())])?;
    format!(in alloc; "E91 WriteFault: {text}")
}

#[test]
fn the_output_fails_at_each_write(rt: HostRuntime) -> Result<(), Fail> {
    for run in ALL {
        for writes in 0..answer_of(*run).len() {
            let wanted = front(rt.alloc(), *run, writes)?;
            expect(
                "a write",
                output_fails(rt.alloc(), *run, writes),
                wanted.as_str(),
            )?;
        }
    }
    Ok(())
}

#[test]
fn the_output_takes_nothing_at_each_write(rt: HostRuntime) -> Result<(), Fail> {
    for run in ALL {
        for room in 0..answer_of(*run).len() {
            let wanted = front(rt.alloc(), *run, room)?;
            expect(
                "a full writer",
                filled(rt.alloc(), *run, room),
                wanted.as_str(),
            )?;
        }
    }
    Ok(())
}
