//! The measurements of bench/run: processes files, and prints the processor time.
#![tactic(auto)]

use net_check::Certificate;
use net_data::parse_data;
use net_dimacs::{read_problem, write_problem};
use net_guess::{Work, find_counted_guess};
use net_lex::{lex_data, lex_model};
use net_model::{free_model, parse_declarations};
use net_names::check_names;
use net_sets::HashKey;
use net_solve::{Plain, Scaling, ScalingRun, Settled, settle, solve_problem};
use std::alloc::{AllocError, Global};
use std::process::ExitCode;
use std::time::CpuClock;
use std::{env, fs, io};

/// Returns the processor time so far, in microseconds; 0 if the clock fails, which main has already
/// checked.
fn now<R: CpuClock>(rt: &R) -> u128 {
    match rt.thread_cpu_time() {
        Ok(time) => time.as_micros(),
        Err(_) => 0,
    }
}

/// Counts of what was read, and the times of the stages, in microseconds.
#[derive(Drop)]
struct Reported {
    counts: (usize, usize, usize),
    times: (u128, u128),
}

/// Reads a problem and writes it again; returns its numbers of nodes, arcs and bytes.
fn problem<R: AllocGlobal + CpuClock>(rt: &R, text: &[u8]) -> Option<Reported> {
    let start = now(rt);
    let Ok(problem) = read_problem(rt.alloc(), text) else {
        return None;
    };
    let read = now(rt);
    let Ok(written) = write_problem(rt.alloc(), &problem) else {
        return None;
    };
    let wrote = now(rt);
    let counts = (problem.supplies.len(), problem.arcs.len(), written.len());
    Some(Reported {
        counts,
        times: (read.saturating_sub(start), wrote.saturating_sub(read)),
    })
}

/// Splits a data file into tokens; returns their number.
fn data<R: AllocGlobal + CpuClock>(rt: &R, text: &[u8]) -> Option<Reported> {
    let start = now(rt);
    let Ok(tokens) = lex_data(rt.alloc(), text) else {
        return None;
    };
    let lexed = now(rt);
    let count = tokens.words().len();
    let counts = (count, 0, 0);
    Some(Reported {
        counts,
        times: (lexed.saturating_sub(start), 0),
    })
}

/// Splits a data file into tokens and parses them; returns the numbers of tokens and statements.
fn tables<R: AllocGlobal + CpuClock>(rt: &R, text: &[u8]) -> Option<Reported> {
    let start = now(rt);
    let Ok(tokens) = lex_data(rt.alloc(), text) else {
        return None;
    };
    let lexed = now(rt);
    let Ok(tables) = parse_data(rt.alloc(), &tokens.words()) else {
        return None;
    };
    let parsed = now(rt);
    let statements = tables.statements.as_slice().len();
    let count = tokens.words().len();
    let counts = (count, statements, 0);
    Some(Reported {
        counts,
        times: (lexed.saturating_sub(start), parsed.saturating_sub(lexed)),
    })
}

/// Splits a model into tokens, parses them and resolves the names; returns the numbers of tokens
/// and declarations, and the capacity of the vector of tokens.
fn model<R: AllocGlobal + CpuClock>(rt: &R, text: &[u8]) -> Option<Reported> {
    let start = now(rt);
    let Ok(tokens) = lex_model(rt.alloc(), text) else {
        return None;
    };
    let lexed = now(rt);
    let Ok(model) = parse_declarations(rt.alloc(), &tokens) else {
        return None;
    };
    let is_named = check_names(rt.alloc(), HashKey::of_texts(text, &[]), &model).is_ok();
    let parsed = now(rt);
    let count = model.declarations.as_slice().len();
    let counts = (tokens.len(), count, tokens.capacity());
    free_model(model);
    if !is_named {
        return None;
    }
    Some(Reported {
        counts,
        times: (lexed.saturating_sub(start), parsed.saturating_sub(lexed)),
    })
}

/// Returns the labels of the counts and of the stages, for each kind of file.
fn words_of(what: &str) -> [&'static str; 5] {
    match what {
        "problem" => ["nodes", "arcs", "bytes", "read", "write"],
        "model" => ["tokens", "declarations", "places", "lex", "parse"],
        _ => ["tokens", "statements", "places", "lex", "parse"],
    }
}

/// Prints the counts on standard output and the times on standard error, if there are any.
fn tell<R: Print + Eprint>(rt: &R, what: &str, reported: Option<Reported>) -> io::Result<bool> {
    let Some(reported) = reported else {
        return Ok(false);
    };
    let (first, second, third) = reported.counts;
    let (one, two) = reported.times;
    let [a, b, c, d, e] = words_of(what);
    rt.println(format_args!("{first} {a}, {second} {b}, {third} {c}"))?;
    rt.eprintln(format_args!("{d} {one} us, {e} {two} us"))?;
    Ok(true)
}

/// Returns numbers of all sizes and signs, determined by the seed.
fn numbers(alloc: Global, count: usize, seed: u64) -> Result<Vec<i64>, AllocError> {
    let mut numbers = Vec::with_capacity(alloc, count)?;
    let mut state = seed;
    for _ in 0..count {
        state = state
            .wrapping_mul(6_364_136_223_846_793_005)
            .wrapping_add(1_442_695_040_888_963_407);
        let size = (state >> 33) % 62;
        let number = ((state >> 1) as i64) >> size;
        numbers.push(if state % 2 == 0 { number } else { -number })?;
    }
    Ok(numbers)
}

/// Solves a problem with the primal-dual algorithm alone: from zero if the seed is 0, else from
/// random numbers. Prints the value or a cut; returns the time in microseconds.
fn grown<R: AllocGlobal + CpuClock + Print>(rt: &R, text: &[u8], seed: u64) -> Option<u128> {
    let Ok(problem) = read_problem(rt.alloc(), text) else {
        return None;
    };
    let count = if seed == 0 { 0 } else { problem.arcs.len() };
    let Ok(guess) = numbers(rt.alloc(), count, seed) else {
        return None;
    };
    let start = now(rt);
    let Ok(settled) = settle(rt.alloc(), &problem, &guess, &guess) else {
        return None;
    };
    let end = now(rt);
    tell_settled(rt, &settled)
        .is_ok()
        .then_some(end.saturating_sub(start))
}

/// Prints the value of a certificate, or the side of a cut.
fn tell_settled<R: Print>(rt: &R, settled: &Settled) -> io::Result<()> {
    match settled {
        Settled::Optimal { value, .. } => rt.println(format_args!("s {value}")),
        Settled::Cut { side, .. } => rt.println(format_args!("cut {side:?}")),
    }
}

/// Settles a problem as the program does, prints its value or a cut, and returns the microseconds that this took.
fn solved<R: AllocGlobal + CpuClock + Print>(rt: &R, text: &[u8]) -> Option<u128> {
    let Ok(problem) = read_problem(rt.alloc(), text) else {
        return None;
    };
    let start = now(rt);
    let Ok(settled) = solve_problem(rt.alloc(), &problem) else {
        return None;
    };
    let end = now(rt);
    tell_settled(rt, &settled)
        .is_ok()
        .then_some(end.saturating_sub(start))
}

/// Prints on standard error what a proposal took.
fn tell_work<R: Eprint>(rt: &R, work: Work) -> io::Result<()> {
    let (simplex, preflow) = (work.simplex, work.preflow);
    let end = if work.is_done { "done" } else { "stopped" };
    rt.eprintln(format_args!("simplex {simplex}, preflow {preflow} work units, {end}"))
}

/// Settles a problem by `Plain`, prints its value or a cut and the work of the proposal, and returns the microseconds that this took.
fn settled_plainly<R: AllocGlobal + CpuClock + Print + Eprint>(
    rt: &R,
    text: &[u8],
) -> Option<u128> {
    let Ok(problem) = read_problem(rt.alloc(), text) else {
        return None;
    };
    let start = now(rt);
    let Ok((guess, work)) = find_counted_guess(rt.alloc(), &problem) else {
        return None;
    };
    let Ok(settled) = Plain.certificate(rt.alloc(), &problem, &guess) else {
        return None;
    };
    let end = now(rt);
    let is_told = tell_settled(rt, &settled).is_ok() && tell_work(rt, work).is_ok();
    is_told.then_some(end.saturating_sub(start))
}

/// Prints the result of a cost-scaling run: its value, a cut or none, and its counts.
fn tell_run<R: Print>(rt: &R, run: &ScalingRun) -> io::Result<()> {
    match &run.answer {
        Some(Certificate::Optimal { value, .. }) => rt.println(format_args!("s {value}"))?,
        Some(Certificate::Cut { side, .. }) => rt.println(format_args!("cut {side:?}"))?,
        None => rt.println("none")?,
    }
    rt.println(format_args!("{} phases, {} steps", run.phases, run.steps))
}

/// Runs cost scaling within a budget, prints what it came to, and returns the microseconds that this took.
fn scaled<R: AllocGlobal + CpuClock + Print>(rt: &R, text: &[u8], budget: u64) -> Option<u128> {
    let Ok(problem) = read_problem(rt.alloc(), text) else {
        return None;
    };
    let start = now(rt);
    let Ok(run) = Scaling { budget }.run(rt.alloc(), &problem) else {
        return None;
    };
    let end = now(rt);
    tell_run(rt, &run)
        .is_ok()
        .then_some(end.saturating_sub(start))
}

/// Prints a time on standard error.
fn tell_time<R: Eprint>(rt: &R, doing: &str, time: Option<u128>) -> io::Result<bool> {
    match time {
        None => Ok(false),
        Some(time) => {
            rt.eprintln(format_args!("{doing} {time} us"))?;
            Ok(true)
        }
    }
}

/// Runs the requested measurement on a file; returns whether it succeeded.
fn measured<R: AllocGlobal + CpuClock + Print + Eprint>(
    rt: &R,
    what: &str,
    text: &[u8],
    number: u64,
) -> io::Result<bool> {
    match what {
        "problem" => tell(rt, what, problem(rt, text)),
        "data" => tell(rt, what, data(rt, text)),
        "tables" => tell(rt, what, tables(rt, text)),
        "model" => tell(rt, what, model(rt, text)),
        "solve" => tell_time(rt, what, solved(rt, text)),
        "plain" => tell_time(rt, what, settled_plainly(rt, text)),
        "scale" => tell_time(rt, what, scaled(rt, text, number)),
        "grow" => tell_time(rt, what, grown(rt, text, number)),
        _ => Ok(false),
    }
}

/// Runs the requested measurement; returns the exit code.
fn run<R: AllocGlobal + CpuClock + Print + Eprint>(
    rt: &R,
    what: &str,
    text: &[u8],
    number: u64,
) -> io::Result<ExitCode> {
    let _clock = rt.thread_cpu_time()?;
    if measured(rt, what, text, number)? {
        Ok(ExitCode::SUCCESS)
    } else {
        rt.eprintln("net_bench: the text was refused, or no memory")?;
        Ok(ExitCode::FAILURE)
    }
}

fn main(rt: HostRuntime) -> io::Result<ExitCode> {
    let mut words = env::args(&rt)?;
    let _program = words.next();
    let (Some(what), Some(path)) = (words.next(), words.next()) else {
        rt.eprintln(
            "usage: net_bench problem|data|tables|model|solve|plain|scale|grow PATH [BUDGET|SEED]",
        )?;
        return Ok(ExitCode::from(64));
    };
    let number = match words.next() {
        Some(word) => word.as_str().parse::<u64>().unwrap_or(0),
        None => 0,
    };
    let text = fs::read(&rt, path.as_str())?;
    run(&rt, what.as_str(), text.as_slice(), number)
}
