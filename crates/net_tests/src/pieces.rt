//! Problems that are read in pieces: byte by byte, and in two pieces that are cut at each byte.

use crate::comparison::expect;
use net_dimacs::{ProblemFault, Reading, write_problem};
use net_normal::Problem;
use std::alloc::{AllocError, Global};
use std::test::Fail;

/// A problem of another program, whose lines end with CR LF. Node 3 wants as much as node 1 supplies.
const BALANCED: &str =
    "c tiny\r\n\r\np min 3 3\r\nn 1 4\r\nn 3 -4\r\na 1 2 2 5 1\r\na 1 3 0 5 3\r\na 2 3 0 5 1\r\n";

/// The same, but node 3 wants one unit more.
const UNBALANCED: &str =
    "c tiny\r\n\r\np min 3 3\r\nn 1 4\r\nn 3 -5\r\na 1 2 2 5 1\r\na 1 3 0 5 3\r\na 2 3 0 5 1\r\n";

/// Problems as they are read, written again without comments; and the errors of inputs that are no problems.
const INPUTS: &[(&str, &str)] = &[
    (
        BALANCED,
        "p min 3 3\nn 1 4\nn 3 -4\na 1 2 2 5 1\na 1 3 0 5 3\na 2 3 0 5 1\n",
    ),
    (
        UNBALANCED,
        "p min 3 3\nn 1 4\nn 3 -5\na 1 2 2 5 1\na 1 3 0 5 3\na 2 3 0 5 1\n",
    ),
    ("p max 2 1\n", "E70 BadLine problem 1"),
    ("a 1 2 0 1 1\n", "E71 NoProblemLine problem 1"),
    ("p min 2 1\na 1 2 0 1 1\nn 1 1\n", "E72 LineOrder problem 3"),
    ("p min 2 1\na 1 3 0 1 1\n", "E73 NodeNumber problem 2"),
    ("p min 2 1\nn 1 1\nn 1 1\n", "E74 DoubleNode problem 3"),
    ("p min 0 0\n", "E75 Count problem 1"),
    ("p min 2 2\na 1 2 0 1 1\n", "E75 Count problem 3"),
    (
        "p min 2 1\na 1 2 0 1 1\na 1 2 0 1 1\n",
        "E75 Count problem 3",
    ),
    ("p min 2 1\na 1 2 2 1 1\n", "E76 Bounds problem 2"),
    (
        "p min 2 1\na 1 2 0 1000000000000000001 1\n",
        "E77 TooLarge problem 2",
    ),
];

/// The text of a problem, or the error.
fn shown(alloc: Global, read: Result<Problem, ProblemFault>) -> Result<String, AllocError> {
    match read {
        Ok(problem) => String::from_utf8_lossy(alloc, &write_problem(alloc, &problem)?),
        Err(fault) => format!(in alloc; "{fault}"),
    }
}

/// Feeds a problem byte by byte.
fn byte_by_byte(alloc: Global, input: &[u8]) -> Result<Reading, AllocError> {
    let mut reading = Reading::new(alloc);
    for byte in input {
        reading = reading.feed(&[*byte])?;
    }
    Ok(reading)
}

fn read_by_bytes(alloc: Global, input: &[u8]) -> Result<String, AllocError> {
    shown(alloc, byte_by_byte(alloc, input)?.finish())
}

#[test]
fn problems_are_read_byte_by_byte(rt: HostRuntime) -> Result<(), Fail> {
    for (input, wanted) in INPUTS {
        expect(input, read_by_bytes(rt.alloc(), input.as_bytes()), wanted)?;
    }
    Ok(())
}

fn read_in_two(alloc: Global, front: &[u8], back: &[u8]) -> Result<String, AllocError> {
    let reading = Reading::new(alloc).feed(front)?.feed(back)?;
    shown(alloc, reading.finish())
}

/// Cuts an input at each byte, so also between each CR and its LF.
fn cut_everywhere(alloc: Global, input: &str, wanted: &str) -> Result<(), Fail> {
    for place in 0..input.len() + 1 {
        let (front, back) = input.as_bytes().split_at(place);
        expect(input, read_in_two(alloc, front, back), wanted)?;
    }
    Ok(())
}

#[test]
fn problems_are_read_in_two_pieces(rt: HostRuntime) -> Result<(), Fail> {
    for (input, wanted) in INPUTS {
        cut_everywhere(rt.alloc(), input, wanted)?;
    }
    Ok(())
}
