//! Errors of a call, as they are reported to the user.

ghost use Rattle.std.specs.Prelude.{◌≡◌};
ghost use Rattle.net_driver.specs.FaultLines.{detail_gap, text_word};

use net_base::{ErrorCode, Span};
use net_dimacs::LineFault;
use std::alloc::{AllocError, AllocFailed};
use std::fmt;
use thiserror::Error;

/// The input in which an error is.
#[derive(Clone, Copy, Debug, PartialEq, Eq)]
pub enum TextName {
    Model,
    Data,
    Problem,
    Certificate,
}

impl TextName {
    /// Returns the name of the input in the line of an error.
    pub fn word(self) -> &'static str
        ensures { result.now ≡ text_word self }
    {
        match self {
            TextName::Model => "model",
            TextName::Data => "data",
            TextName::Problem => "problem",
            TextName::Certificate => "certificate",
        }
    }
}

/// An error in a model or its data, with its position.
#[derive(Debug, Drop, Error)]
pub struct Rejection {
    pub kind: ErrorCode,
    pub text: TextName,
    pub span: Span,
    /// The position of the start of the span, both counted from 1.
    pub line: u64,
    pub column: u64,
    /// The detail of the error, such as a name with its key; empty for most errors.
    pub detail: String,
}

fn detail_gap(detail: &str) -> &'static str
    ensures { result.now ≡ detail_gap detail.now }
{
    if detail.is_empty() { "" } else { " " }
}

impl fmt::Display for Rejection {
    ghost use Rattle.std.specs.Prelude.{Some};
    ghost use Rattle.net_driver.specs.FaultLines.{rejection_line};

    ghost output = { λ rejection. Some (rejection_line rejection) };

    /// Prints the error in the form `E12 Undeclared model 3:30 B`.
    fn fmt<W: fmt::Write>(&self, f: &mut fmt::Formatter<W>) -> fmt::Result {
        let kind = self.kind;
        let text = self.text.word();
        let line = self.line;
        let column = self.column;
        let detail = self.detail.as_str();
        let gap = detail_gap(detail);
        write!(f, "{kind} {text} {line}:{column}{gap}{detail}")
    }
}

/// An error in a problem or certificate file, with its line.
#[derive(Clone, Copy, Debug, Error)]
pub struct LineRejection {
    pub text: TextName,
    pub fault: LineFault,
    /// The number of the line, from 1; for a missing line at the end, the number of the line after
    /// the last.
    pub line: usize,
}

impl fmt::Display for LineRejection {
    ghost use Rattle.std.specs.Prelude.{Some};
    ghost use Rattle.net_driver.specs.FaultLines.{line_rejection_line};

    ghost output = { λ rejection. Some (line_rejection_line rejection) };

    /// Prints the error in the form `E75 Count problem 3`.
    fn fmt<W: fmt::Write>(&self, f: &mut fmt::Formatter<W>) -> fmt::Result {
        let fault = self.fault;
        let text = self.text.word();
        let line = self.line;
        write!(f, "{fault} {text} {line}")
    }
}

/// An error of a call. It borrows nothing, and prints as one line.
#[derive(Debug, Drop, Error)]
pub enum Fault {
    /// `out of memory`
    OutOfMemory,
    /// `E10 Syntax model 2:16`
    Rejected(Rejection),
    /// `E75 Count problem 3`
    RejectedLine(LineRejection),
    /// `E90 ReadFault model`
    Unread(TextName),
    /// `E91 WriteFault`
    Unwritten,
}

impl fmt::Display for Fault {
    ghost use Rattle.std.specs.Prelude.{Some};
    ghost use Rattle.net_driver.specs.FaultLines.{fault_line};

    ghost output = { λ fault. Some (fault_line fault) };

    fn fmt<W: fmt::Write>(&self, f: &mut fmt::Formatter<W>) -> fmt::Result {
        match self {
            Fault::OutOfMemory => f.write_str("out of memory"),
            Fault::Rejected(rejection) => write!(f, "{rejection}"),
            Fault::RejectedLine(rejection) => write!(f, "{rejection}"),
            Fault::Unread(text) => {
                let text = text.word();
                write!(f, "E90 ReadFault {text}")
            }
            Fault::Unwritten => f.write_str("E91 WriteFault"),
        }
    }
}

impl From<AllocError> for Fault {
    ghost use Rattle.net_driver.specs.declared.driver_fault.Fault.TheVariants.{OutOfMemory};

    ghost from_gives = { λ _ e. e ≡ OutOfMemory };

    fn from(_fault: AllocError) -> Fault {
        Fault::OutOfMemory
    }
}

impl<T: Drop> From<AllocFailed<T>> for Fault {
    ghost use Rattle.net_driver.specs.declared.driver_fault.Fault.TheVariants.{OutOfMemory};

    ghost from_gives = { λ _ e. e ≡ OutOfMemory };

    fn from(_fault: AllocFailed<T>) -> Fault {
        Fault::OutOfMemory
    }
}
