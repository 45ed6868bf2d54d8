//! The meaning of a line of a certificate file.

ghost use Rattle.std.specs.Prelude.{◌≡◌};
ghost use Rattle.net_dimacs.specs.Lines.{fields_of};
ghost use Rattle.net_dimacs.specs.Claims.{mark_of, claimed, value_claim, flow_claim, potential_claim, member_claim, side_claim};

use crate::fields::split_field;
use crate::integer::{Numbers, numbers_of};
use net_check::Side;

/// The meaning of a line that is neither blank nor a comment. Nodes are counted from 0. A number
/// that does not fit its type is `None`.
#[derive(Clone, Copy)]
pub enum Claim {
    /// The value, as in `s 8`.
    Value(Option<i128>),
    /// An arc's tail and head and its flow, as in `f 1 2 4`.
    Flow(Option<u32>, Option<u32>, Option<i64>),
    /// A node and its potential, as in `v 2 1`.
    Potential(Option<u32>, Option<i64>),
    /// The side of a cut, as in `x over`.
    Side(Side),
    /// A node of a cut, as in `m 3`.
    Member(Option<u32>),
    /// Anything else, as `q` or `f 1 2`.
    Other,
}

/// The kind of line that a first field indicates.
#[derive(Clone, Copy)]
pub enum Mark {
    /// It begins with `c`.
    Comment,
    /// `s`
    Value,
    /// `f`
    Flow,
    /// `v`
    Potential,
    /// `x`
    Side,
    /// `m`
    Member,
    /// Anything else.
    Other,
}

/// Parses a line. Returns `None` for a blank line and for a comment.
pub fn claim_of(line: &[u8]) -> Option<Claim>
    ensures { result ≡ claimed line.now }
{
    let (field, rest) = split_field(line)?;
    match mark_of(field) {
        Mark::Comment => None,
        Mark::Value => Some(value_claim(numbers_of(rest))),
        Mark::Flow => Some(flow_claim(numbers_of(rest))),
        Mark::Potential => Some(potential_claim(numbers_of(rest))),
        Mark::Side => Some(side_claim(rest)),
        Mark::Member => Some(member_claim(numbers_of(rest))),
        Mark::Other => Some(Claim::Other),
    }
}

fn mark_of(field: &[u8]) -> Mark
    ensures { result ≡ mark_of field.now }
{
    match field {
        [b'c', ..] => Mark::Comment,
        [b's'] => Mark::Value,
        [b'f'] => Mark::Flow,
        [b'v'] => Mark::Potential,
        [b'x'] => Mark::Side,
        [b'm'] => Mark::Member,
        _ => Mark::Other,
    }
}

fn value_claim(numbers: Numbers) -> Claim
    ensures { result ≡ value_claim numbers }
{
    match numbers {
        Numbers::One(value) => Claim::Value(value.value()),
        _ => Claim::Other,
    }
}

fn flow_claim(numbers: Numbers) -> Claim
    ensures { result ≡ flow_claim numbers }
{
    match numbers {
        Numbers::Three(src, dst, flow) => Claim::Flow(src.place(), dst.place(), flow.amount()),
        _ => Claim::Other,
    }
}

fn potential_claim(numbers: Numbers) -> Claim
    ensures { result ≡ potential_claim numbers }
{
    match numbers {
        Numbers::Two(node, potential) => Claim::Potential(node.place(), potential.amount()),
        _ => Claim::Other,
    }
}

fn member_claim(numbers: Numbers) -> Claim
    ensures { result ≡ member_claim numbers }
{
    match numbers {
        Numbers::One(node) => Claim::Member(node.place()),
        _ => Claim::Other,
    }
}

fn side_claim(rest: &[u8]) -> Claim
    ensures { result ≡ side_claim (fields_of rest.now) }
{
    let Some((word, rest)) = split_field(rest) else {
        return Claim::Other;
    };
    if split_field(rest).is_some() {
        return Claim::Other;
    }
    match word {
        b"over" => Claim::Side(Side::Over),
        b"under" => Claim::Side(Side::Under),
        _ => Claim::Other,
    }
}
