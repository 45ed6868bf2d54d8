//! The exported calls.
//!
//! The host passes each slice as an address and a length, and keeps `out`, `length` and the inputs
//! apart in memory. Statuses are those of the program; 64 is an objective whose name is not UTF-8.

ghost use Rattle.std.specs.Prelude.{ℕ, List};
ghost use Rattle.net_web.specs.Replies.{IsHandedOver, IsReply, IsReplyFor, IsSolveText, IsCompileText, IsMinText, IsCheckText, requested_by};
ghost use Rattle.net_driver.specs.Reporting.{IsRejection};
ghost use Rattle.net_driver.specs.Checked.{IsLineRejection, IsProblemRejection};

use crate::replies::{checked, compiled_for, hand_over, settled, solved_for};
use std::alloc::Global;

/// Solves a model with its data, and hands over the plan, or the cut that proves that there is none,
/// or the line of an error. An empty objective means the model's only one. With `lean` the lean form
/// of the problem is solved.
#[unsafe(no_mangle)]
pub extern "C" fn netflow_solve(
    alloc: Global,
    objective: &[u8],
    lean: bool,
    model: &[u8],
    data: &[u8],
    out: &mut [u8],
    length: &mut usize,
) -> u32
    ensures value { (text : List ℕ) × IsHandedOver text out.old out.new length.new
        × IsReplyFor objective.now (IsSolveText lean (requested_by objective.now) model.now «data».now)
        (IsRejection (requested_by objective.now) model.now «data».now) result text }
{
    let reply = solved_for(alloc, objective, lean, model, data);
    *length = hand_over(&reply.text, out);
    reply.status
}

/// Compiles a model with its data, and hands over the name map and the problem, or the line of an
/// error. An empty objective means the model's only one. With `lean` the problem has no lower bounds.
#[unsafe(no_mangle)]
pub extern "C" fn netflow_compile(
    alloc: Global,
    objective: &[u8],
    lean: bool,
    model: &[u8],
    data: &[u8],
    out: &mut [u8],
    length: &mut usize,
) -> u32
    ensures value { (text : List ℕ) × IsHandedOver text out.old out.new length.new
        × IsReplyFor objective.now (IsCompileText lean (requested_by objective.now) model.now «data».now)
        (IsRejection (requested_by objective.now) model.now «data».now) result text }
{
    let reply = compiled_for(alloc, objective, lean, model, data);
    *length = hand_over(&reply.text, out);
    reply.status
}

/// Solves a problem file, and hands over a certificate, or the line of an error.
#[unsafe(no_mangle)]
pub extern "C" fn netflow_min(
    alloc: Global,
    problem: &[u8],
    out: &mut [u8],
    length: &mut usize,
) -> u32
    ensures value { (text : List ℕ) × IsHandedOver text out.old out.new length.new
        × IsReply (IsMinText problem.now) (IsProblemRejection problem.now) result text }
{
    let reply = settled(alloc, problem);
    *length = hand_over(&reply.text, out);
    reply.status
}

/// Checks a certificate file of a problem, and hands over the verdict, or the line of an error.
#[unsafe(no_mangle)]
pub extern "C" fn netflow_check(
    alloc: Global,
    problem: &[u8],
    certificate: &[u8],
    out: &mut [u8],
    length: &mut usize,
) -> u32
    ensures value { (text : List ℕ) × IsHandedOver text out.old out.new length.new
        × IsReply (IsCheckText problem.now certificate.now) (IsLineRejection problem.now certificate.now) result text }
{
    let reply = checked(alloc, problem, certificate);
    *length = hand_over(&reply.text, out);
    reply.status
}
