//! Writing certificates.

ghost use Rattle.std.specs.Prelude.{◌≡◌, ◌<◌, ◌≤◌, ◌++◌, IfOk, OnOk, length};
ghost use Rattle.net_normal.specs.Limits.{flow_node_limit};
ghost use Rattle.net_check.specs.Certificates.{HasShape};
ghost use Rattle.net_dimacs.specs.Certificates.{account_of, IsCertificateText, IsOnlyCertificate};
ghost use Rattle.net_dimacs.specs.CertificateWritten.{value_line, flow_line, flow_lines, potential_line, potential_lines, side_line, member_lines};
ghost use Rattle.net_dimacs.specs.Written.{line};
ghost use Rattle.net_dimacs.specs.CertificateWritten.{certificate_text, IsValue, IsAmount, AreAmounts, FitsTypes};

use crate::OutOfMemory;
use itoa::Buffer;
use net_check::{Certificate, Side};
use net_normal::{FlowArc, Problem};
use std::alloc::{AllocError, Global};

/// Formats a certificate of a problem: its value, a line for each arc with its flow and a line for
/// each node with its potential; or the side of a cut and a line for each node of its set.
///
/// Nodes are numbered from 1, and an arc is identified by its two nodes; both are in the problem's
/// order. Does not check whether the certificate settles the problem. Fails only if memory runs
/// out.
pub fn write_certificate(
    alloc: Global,
    problem: &Problem,
    certificate: &Certificate,
) -> Result<Vec<u8>, OutOfMemory>
    requires { HasShape problem.now certificate.now }
    ensures value { IfOk result (λ text.
        text.items ≡ certificate_text problem.now.arcs.items (account_of certificate.now)) }

    // The text contains this certificate, and no other certificate of the problem.
    ensures ok { IfOk result (λ text.
        IsCertificateText text.items (length problem.now.supplies.items) problem.now.arcs.items (account_of certificate.now)) }
    ensures only { IfOk result (λ text.
        IsOnlyCertificate text.items (length problem.now.supplies.items) problem.now.arcs.items (account_of certificate.now)) }
{
    write_whole_certificate(alloc, problem, certificate)
}

fn write_whole_certificate(
    alloc: Global,
    problem: &Problem,
    certificate: &Certificate,
) -> Result<Vec<u8>, AllocError>
    requires { HasShape problem.now certificate.now }
    ensures value { IfOk result (λ text.
        text.items ≡ certificate_text problem.now.arcs.items (account_of certificate.now)) }
    ensures fits { IfOk result (λ _. FitsTypes (account_of certificate.now)) }
{
    let mut text = Vec::new(alloc);
    match certificate {
        Certificate::Optimal {
            value,
            flows,
            potentials,
        } => {
            push_value(&mut text, *value)?;
            push_flows(&mut text, &problem.arcs, flows)?;
            push_potentials(&mut text, potentials)?;
        }
        Certificate::Cut { flags, side } => {
            push_side(&mut text, *side)?;
            push_members(&mut text, flags)?;
        }
    }
    Ok(text)
}

fn push_value(text: &mut Vec<u8>, value: i128) -> Result<(), AllocError>
    ensures ok { OnOk result (text.new.items ≡ text.old.items ++ value_line value) }
    ensures fits { IsValue value }
{
    let mut buffer = Buffer::new();
    text.extend_from_slice(b"s ")?;
    text.extend_from_slice(buffer.format(value).as_bytes())?;
    text.extend_from_slice(b"\n")
}

fn push_flows(text: &mut Vec<u8>, arcs: &[FlowArc], flows: &[i64]) -> Result<(), AllocError>
    requires { length flows.now ≡ length arcs.now }
    ensures ok { OnOk result (text.new.items ≡ text.old.items ++ flow_lines arcs.now flows.now) }
    ensures fits { OnOk result (AreAmounts flows.now) }
{
    for (place, arc) in arcs.iter().enumerate() {
        push_flow(text, *arc, flows[place])?;
    }
    Ok(())
}

fn push_flow(text: &mut Vec<u8>, arc: FlowArc, flow: i64) -> Result<(), AllocError>
    ensures ok { OnOk result (text.new.items ≡ text.old.items ++ flow_line arc flow) }
    ensures fits { IsAmount flow }
{
    let src = i64::from(arc.src) + 1;
    let dst = i64::from(arc.dst) + 1;
    push_line(text, b"f", &[src, dst, flow])
}

fn push_potentials(text: &mut Vec<u8>, potentials: &[i64]) -> Result<(), AllocError>
    requires { length potentials.now ≤ flow_node_limit }
    ensures ok { OnOk result (text.new.items ≡ text.old.items ++ potential_lines 0 potentials.now) }
    ensures fits { OnOk result (AreAmounts potentials.now) }
{
    for (node, potential) in potentials.iter().enumerate() {
        push_potential(text, node, *potential)?;
    }
    Ok(())
}

fn push_potential(text: &mut Vec<u8>, node: usize, potential: i64) -> Result<(), AllocError>
    requires { node < flow_node_limit }
    ensures ok { OnOk result (text.new.items ≡ text.old.items ++ potential_line node potential) }
    ensures fits { IsAmount potential }
{
    push_line(text, b"v", &[node as i64 + 1, potential])
}

fn push_side(text: &mut Vec<u8>, side: Side) -> Result<(), AllocError>
    ensures ok { OnOk result (text.new.items ≡ text.old.items ++ side_line side) }
{
    match side {
        Side::Over => push_line(text, b"x over", &[]),
        Side::Under => push_line(text, b"x under", &[]),
    }
}

fn push_members(text: &mut Vec<u8>, flags: &[bool]) -> Result<(), AllocError>
    requires { length flags.now ≤ flow_node_limit }
    ensures ok { OnOk result (text.new.items ≡ text.old.items ++ member_lines 0 flags.now) }
{
    for (node, is_in) in flags.iter().enumerate() {
        if *is_in {
            push_line(text, b"m", &[node as i64 + 1])?;
        }
    }
    Ok(())
}

/// Appends one line: its kind, and its numbers, each after a space. Fails only if memory runs out.
fn push_line(text: &mut Vec<u8>, kind: &[u8], numbers: &[i64]) -> Result<(), AllocError>
    ensures ok { OnOk result (text.new.items ≡ text.old.items ++ line kind.now numbers.now) }
{
    text.extend_from_slice(kind)?;
    for number in numbers {
        let mut buffer = Buffer::new();
        text.push(b' ')?;
        text.extend_from_slice(buffer.format(*number).as_bytes())?;
    }
    text.extend_from_slice(b"\n")
}
