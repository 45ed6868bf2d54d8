//! Replies: the status and the text of each call.

ghost use Rattle.std.specs.Prelude.{◌≡◌, ◌⊎◌, IsUtf8, MatchResult};
ghost use Rattle.std.specs.Option.{option_copied};
ghost use Rattle.net_web.specs.Replies.{IsHandedOver, IsReply, IsReplyFor, IsSolveText, IsCompileText, IsMinText, IsCheckText};
ghost use Rattle.net_web.specs.Replies.{requested_by, status_of, status_of_fault};
ghost use Rattle.net_driver.specs.Reporting.{IsRejection};
ghost use Rattle.net_driver.specs.FaultLines.{fault_line};
ghost use Rattle.net_driver.specs.Checked.{IsLineRejection, IsProblemRejection};
ghost use Rattle.net_driver.specs.Checked.{exit_kind_of as verdict_exit_kind};
ghost use Rattle.net_driver.specs.IsSolved.{exit_kind_of, text_of};
ghost use Rattle.net_driver.specs.Settled.{settled_exit_kind};

use net_driver::{
    Fault, Options, Outcome, Settled, Verdict, check_bytes, compile_with, solve_min,
    solve_outcome_with, verdict_line,
};
use std::alloc::Global;

// The exit statuses of the program.
const DONE: u32 = 0;

const REFUTED: u32 = 2;

const REJECTED: u32 = 3;

const STREAM_FAILED: u32 = 4;

const OUT_OF_MEMORY: u32 = 5;

const WRONG_USAGE: u32 = 64;

/// An exit status with an answer or the line of an error.
#[derive(Drop)]
pub(crate) struct Reply {
    pub(crate) status: u32,
    pub(crate) text: Vec<u8>,
}

impl Reply {
    /// Creates a reply without text.
    fn empty(alloc: Global, status: u32) -> Reply
        ensures { result.status ≡ status }
    {
        Reply {
            status,
            text: Vec::new(alloc),
        }
    }
}

/// Copies the text to the start of `out` if it fits, and returns its length.
pub(crate) fn hand_over(text: &[u8], out: &mut [u8]) -> usize
    ensures value { IsHandedOver text.now out.old out.new result }
{
    if text.len() <= out.len() {
        let (front, _) = out.split_at_mut(text.len());
        front.copy_from_slice(text);
    }
    text.len()
}

fn status_of_fault(fault: &Fault) -> u32
    ensures { result ≡ status_of_fault fault.now }
{
    match fault {
        Fault::OutOfMemory => OUT_OF_MEMORY,
        Fault::Rejected(_) => REJECTED,
        Fault::RejectedLine(_) => REJECTED,
        Fault::Unread(_) => STREAM_FAILED,
        Fault::Unwritten => STREAM_FAILED,
    }
}

/// Replies with the line of an error, or with status 5 if there is no memory for it.
fn rejected(alloc: Global, fault: &Fault) -> Reply
    ensures { (result.status ≡ 5) ⊎ ((result.status ≡ status_of_fault fault.now) × (result.text.items ≡ fault_line fault.now)) }
{
    match format!(in alloc; "{fault}") {
        Ok(line) => Reply {
            status: status_of_fault(fault),
            text: line.into_bytes(),
        },
        Err(_) => Reply::empty(alloc, OUT_OF_MEMORY),
    }
}

fn reply_of(outcome: Outcome) -> Reply
    ensures status { result.status ≡ status_of (exit_kind_of outcome) }
    ensures text { result.text.items ≡ text_of outcome }
{
    match outcome {
        Outcome::Displayed { text, .. } => Reply { status: DONE, text },
        Outcome::Infeasible { text, .. } => Reply {
            status: REFUTED,
            text,
        },
    }
}

/// Solves a model with its data.
fn solved(alloc: Global, objective: Option<&str>, lean: bool, model: &[u8], data: &[u8]) -> Reply
    ensures { IsReply (IsSolveText lean (option_copied objective.entry) model.now «data».now)
        (IsRejection (option_copied objective.entry) model.now «data».now) result.status result.text.items }
{
    let options = Options {
        objective,
        lean,
        key: None,
    };
    match solve_outcome_with(alloc, &options, model, data) {
        Ok(outcome) => reply_of(outcome),
        Err(fault) => rejected(alloc, &fault),
    }
}

/// Compiles a model with its data.
fn compiled(alloc: Global, objective: Option<&str>, lean: bool, model: &[u8], data: &[u8]) -> Reply
    ensures { IsReply (IsCompileText lean (option_copied objective.entry) model.now «data».now)
        (IsRejection (option_copied objective.entry) model.now «data».now) result.status result.text.items }
{
    let options = Options {
        objective,
        lean,
        key: None,
    };
    match compile_with(alloc, &options, model, data) {
        Ok(compiled) => Reply {
            status: DONE,
            text: compiled.text.into_vec(),
        },
        Err(fault) => rejected(alloc, &fault),
    }
}

fn status_of_settled(settled: &Settled) -> u32
    ensures { result ≡ status_of (settled_exit_kind settled.now) }
{
    match settled {
        Settled::Optimal { .. } => DONE,
        Settled::Cut { .. } => REFUTED,
    }
}

/// Solves a problem.
pub(crate) fn settled(alloc: Global, problem: &[u8]) -> Reply
    ensures { IsReply (IsMinText problem.now) (IsProblemRejection problem.now) result.status result.text.items }
{
    match solve_min(alloc, problem) {
        Ok((settled, text)) => {
            let status = status_of_settled(&settled);
            Reply { status, text }
        }
        Err(fault) => rejected(alloc, &fault),
    }
}

fn status_of_verdict(verdict: &Verdict) -> u32
    ensures { result ≡ status_of (verdict_exit_kind verdict.now) }
{
    match verdict {
        Verdict::Yes => DONE,
        Verdict::No(..) => REFUTED,
    }
}

/// Checks a certificate of a problem.
pub(crate) fn checked(alloc: Global, problem: &[u8], certificate: &[u8]) -> Reply
    ensures { IsReply (IsCheckText problem.now certificate.now) (IsLineRejection problem.now certificate.now) result.status result.text.items }
{
    match check_bytes(alloc, problem, certificate) {
        Ok(verdict) => {
            let status = status_of_verdict(&verdict);
            match verdict_line(alloc, verdict) {
                Ok(text) => Reply { status, text },
                Err(_) => Reply::empty(alloc, OUT_OF_MEMORY),
            }
        }
        Err(fault) => rejected(alloc, &fault),
    }
}

/// Returns the objective that a name requests: `None` for an empty name. Fails if the name is not UTF-8.
fn objective_of(name: &[u8]) -> Result<Option<&str>, ()>
    ensures { MatchResult result (λ requested. option_copied requested ≡ requested_by name.now) (λ e. ¬ (IsUtf8 name.now)) }
{
    if name.is_empty() {
        return Ok(None);
    }
    match std::str::from_utf8(name) {
        Ok(text) => Ok(Some(text)),
        Err(_) => Err(()),
    }
}

/// Solves a model with its data, with the objective that the name requests.
pub(crate) fn solved_for(
    alloc: Global,
    objective: &[u8],
    lean: bool,
    model: &[u8],
    data: &[u8],
) -> Reply
    ensures { IsReplyFor objective.now (IsSolveText lean (requested_by objective.now) model.now «data».now)
        (IsRejection (requested_by objective.now) model.now «data».now) result.status result.text.items }
{
    match objective_of(objective) {
        Ok(requested) => solved(alloc, requested, lean, model, data),
        Err(_) => Reply::empty(alloc, WRONG_USAGE),
    }
}

/// Compiles a model with its data, with the objective that the name requests.
pub(crate) fn compiled_for(
    alloc: Global,
    objective: &[u8],
    lean: bool,
    model: &[u8],
    data: &[u8],
) -> Reply
    ensures { IsReplyFor objective.now (IsCompileText lean (requested_by objective.now) model.now «data».now)
        (IsRejection (requested_by objective.now) model.now «data».now) result.status result.text.items }
{
    match objective_of(objective) {
        Ok(requested) => compiled(alloc, requested, lean, model, data),
        Err(_) => Reply::empty(alloc, WRONG_USAGE),
    }
}
