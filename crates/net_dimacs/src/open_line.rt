//! The buffer for an incomplete line.

ghost use Rattle.std.specs.Prelude.{◌≡◌, ◌+◌, ◌<◌, ◌≤◌, ◌++◌, OnOk, length, vec_len};
ghost use Rattle.arrayvec.specs.ArrayVec.{array_vec_len};
ghost use Rattle.net_dimacs.specs.Limits.{open_line_limit};
ghost use Rattle.net_dimacs.specs.Lines.{is_feed, HasNone};
ghost use Rattle.net_dimacs.specs.OpenLines.{IsSameStatement, short_field, short_long_field, short_number};
ghost use Rattle.net_dimacs.specs.Scans.{IsReadAlike};

use crate::fields::split_field;
use crate::integer::short_size_of;
use arrayvec::ArrayVec;
use itoa::Buffer;
use std::alloc::AllocError;

/// The maximum number of bytes stored of an incomplete line: seven fields, a space after each, and
/// the last byte.
const OPEN_LINE: usize = 155;

/// The maximum length of a field that is stored unchanged: a sign and a number of 64 bits.
const OPEN_FIELD: usize = 21;

/// A line with this many fields is invalid.
const TOO_MANY: usize = 7;

/// A shortened line.
type Front = ArrayVec<u8, OPEN_LINE>;

/// Shortens an incomplete line to the bytes that determine its meaning.
///
/// The last byte stays, since it may be a CR.
pub fn shorten(pending: &mut Vec<u8>) -> Result<(), AllocError>
    requires { HasNone is_feed pending.old.items }
    ensures alike { OnOk result (IsReadAlike pending.new.items pending.old.items) }
    ensures few { OnOk result (vec_len pending.new ≤ open_line_limit) }
    ensures shorter { OnOk result (vec_len pending.new ≤ vec_len pending.old) }
    ensures no_feed { OnOk result (HasNone is_feed pending.new.items) }
{
    if pending.len() <= OPEN_LINE {
        return Ok(());
    }
    let Some((last, line)) = pending.split_last() else {
        return Ok(());
    };
    let mut front = front_of(line);
    front.push(*last);
    pending.clear();
    pending.extend_from_slice(front.as_slice())?;
    Ok(())
}

/// Returns a shortened line: the fields that determine its meaning, each shortened.
fn front_of(line: &[u8]) -> Front
    requires { HasNone is_feed line.now }
    ensures alike { IsSameStatement result.items line.now }
    ensures few { array_vec_len result < open_line_limit }
    ensures no_feed { HasNone is_feed result.items }
{
    let mut front = Front::new();
    let mut rest = line;
    for _ in 0..TOO_MANY {
        let Some((field, after)) = split_field(rest) else {
            return front;
        };
        push_field(&mut front, field);
        if after.is_empty() {
            return front;
        }
        front.push(b' ');
        rest = after;
    }
    front
}

/// Appends the shortened form of a field.
fn push_field(front: &mut Front, field: &[u8])
    requires { array_vec_len front.old + OPEN_FIELD ≤ OPEN_LINE }
    ensures text { front.new.items ≡ front.old.items ++ short_field field.now }
    ensures few { array_vec_len front.new ≤ array_vec_len front.old + OPEN_FIELD }
{
    if field.len() <= OPEN_FIELD {
        hold(front, field);
    } else {
        push_long_field(front, field);
    }
}

fn push_long_field(front: &mut Front, field: &[u8])
    requires { array_vec_len front.old + OPEN_FIELD ≤ OPEN_LINE }
    ensures text { front.new.items ≡ front.old.items ++ short_long_field field.now }
    ensures few { array_vec_len front.new ≤ array_vec_len front.old + OPEN_FIELD }
{
    match field {
        [] => {}
        [b'c', ..] => front.push(b'c'),
        [b'+', digits @ ..] => push_number(front, b'+', digits),
        [b'-', digits @ ..] => push_number(front, b'-', digits),
        _ => push_number(front, b'+', field),
    }
}

/// Appends a sign and the number of the digits, or `x` if they are not digits, which is invalid in
/// any line.
fn push_number(front: &mut Front, sign: u8, digits: &[u8])
    requires { array_vec_len front.old + OPEN_FIELD ≤ OPEN_LINE }
    ensures text { front.new.items ≡ front.old.items ++ short_number sign digits.now }
    ensures few { array_vec_len front.new ≤ array_vec_len front.old + OPEN_FIELD }
{
    match short_size_of(digits) {
        None => front.push(b'x'),
        Some(size) => {
            let mut buffer = Buffer::new();
            front.push(sign);
            hold(front, buffer.format(size).as_bytes());
        }
    }
}

fn hold(front: &mut Front, bytes: &[u8])
    requires { array_vec_len front.old + length bytes.now ≤ OPEN_LINE }
    ensures text { front.new.items ≡ front.old.items ++ bytes.now }
    ensures few { array_vec_len front.new ≡ array_vec_len front.old + length bytes.now }
{
    match front.try_extend_from_slice(bytes) {
        Ok(()) => {}
        Err(_) => unreachable!(),
    }
}
