//! Errors of reading a problem file or a certificate file.

ghost use Rattle.std.specs.Prelude.{◌≡◌};
ghost use Rattle.net_dimacs.specs.declared.problem_fault.ProblemFault.TheVariants as faults;
ghost use Rattle.net_dimacs.specs.Faults.{number_of, name_of};

use std::alloc::AllocError;
use std::fmt;
use thiserror::Error;

/// The error in a line, or of a missing line at the end of the file.
#[derive(Clone, Copy, Debug, PartialEq, Eq, Error)]
pub enum LineFault {
    /// The kind of line, the number of fields or the form of a number is invalid, as in `a 1 2`.
    BadLine,
    /// There is no `p` line before this line, as in the file `n 1 4`, or none at all.
    NoProblemLine,
    /// A second `p` line, or an `n` line after an `a` line.
    LineOrder,
    /// A node outside 1 to NODES, as in `n 3 1` after `p min 2 0`.
    NodeNumber,
    /// A second `n` line for a node.
    DoubleNode,
    /// Too many or too few `a` lines, NODES below 1, or a negative ARCS, as in `p min 0 0`.
    Count,
    /// LOW below 0 or above CAP, as in `a 1 2 5 3 1`.
    Bounds,
    /// A number exceeds its limit, as in `p min 20001 0`, or the file does.
    TooLarge,
    /// A line that is not the one that a certificate of the problem has at this position, as
    /// `v 2 0` at the beginning, or a missing line.
    Certificate,
}

impl LineFault {
    /// Returns the number of the error, from 70 to 78.
    pub fn number(self) -> u8
        ensures { result ≡ number_of self }
    {
        match self {
            LineFault::BadLine => 70,
            LineFault::NoProblemLine => 71,
            LineFault::LineOrder => 72,
            LineFault::NodeNumber => 73,
            LineFault::DoubleNode => 74,
            LineFault::Count => 75,
            LineFault::Bounds => 76,
            LineFault::TooLarge => 77,
            LineFault::Certificate => 78,
        }
    }

    /// Returns the name of the error.
    pub fn name(self) -> &'static str
        ensures { result.now ≡ name_of self }
    {
        match self {
            LineFault::BadLine => "BadLine",
            LineFault::NoProblemLine => "NoProblemLine",
            LineFault::LineOrder => "LineOrder",
            LineFault::NodeNumber => "NodeNumber",
            LineFault::DoubleNode => "DoubleNode",
            LineFault::Count => "Count",
            LineFault::Bounds => "Bounds",
            LineFault::TooLarge => "TooLarge",
            LineFault::Certificate => "Certificate",
        }
    }
}

impl fmt::Display for LineFault {
    ghost use Rattle.std.specs.Prelude.{Some};
    ghost use Rattle.net_dimacs.specs.Faults.{line_fault_text};

    ghost output = { λ fault. Some (line_fault_text fault) };

    /// Writes the code and the name: `E75 Count`.
    fn fmt<W: fmt::Write>(&self, f: &mut fmt::Formatter<W>) -> fmt::Result {
        let number = self.number();
        let name = self.name();
        write!(f, "E{number} {name}")
    }
}

/// An error and its line.
#[derive(Clone, Copy, Debug, PartialEq, Eq, Error)]
pub struct Rejection {
    pub fault: LineFault,
    /// The number of the line, from 1. For a missing line, the number of the line after the last.
    pub line: usize,
}

impl fmt::Display for Rejection {
    ghost use Rattle.std.specs.Prelude.{Some};
    ghost use Rattle.net_dimacs.specs.Faults.{rejection_text};

    ghost output = { λ rejection. Some (rejection_text rejection) };

    /// Prints the error in the form `E76 Bounds problem 2`. For other files than problems, the
    /// caller prints the name of the input.
    fn fmt<W: fmt::Write>(&self, f: &mut fmt::Formatter<W>) -> fmt::Result {
        let fault = self.fault;
        let line = self.line;
        write!(f, "{fault} problem {line}")
    }
}

/// Why a problem file or a certificate file was not read.
#[derive(Clone, Copy, Debug, PartialEq, Eq, Error)]
pub enum ProblemFault {
    /// Allocation failed.
    OutOfMemory,
    /// The file is not a valid problem, or not a valid certificate of its problem: its first error.
    Rejected(Rejection),
}

impl ProblemFault {
    /// Builds the error of a line.
    pub(crate) fn rejected(fault: LineFault, line: usize) -> ProblemFault
        ensures { result ≡ ProblemFault.Rejected (record { fault = fault; line = line }) }
    {
        ProblemFault::Rejected(Rejection { fault, line })
    }
}

impl fmt::Display for ProblemFault {
    ghost use Rattle.std.specs.Prelude.{Some};
    ghost use Rattle.net_dimacs.specs.Faults.{problem_fault_text};

    ghost output = { λ fault. Some (problem_fault_text fault) };

    /// Writes `out of memory`, or the error with its line: `E76 Bounds problem 2`.
    fn fmt<W: fmt::Write>(&self, f: &mut fmt::Formatter<W>) -> fmt::Result {
        match self {
            ProblemFault::OutOfMemory => f.write_str("out of memory"),
            ProblemFault::Rejected(rejection) => write!(f, "{rejection}"),
        }
    }
}

impl From<AllocError> for ProblemFault {
    ghost from_gives = { λ _ e. e ≡ faults.OutOfMemory };

    fn from(_fault: AllocError) -> ProblemFault {
        ProblemFault::OutOfMemory
    }
}
