//! Exit statuses.

ghost use Rattle.std.specs.Prelude.{◌≡◌};
ghost use Rattle.netflow.specs.Statuses.{code_of, status_of_fault, status_of_exit_kind};

use net_driver::{ExitKind, Fault};

/// How the program ends.
#[derive(Clone, Copy)]
pub enum Status {
    Done,
    /// There is no feasible flow, or a certificate was rejected.
    Refuted,
    /// An input was rejected.
    Rejected,
    /// A file could not be read, or the output could not be written.
    EndFailed,
    OutOfMemory,
    /// The command line was rejected.
    Usage,
}

impl Status {
    /// Returns the exit status as a number.
    pub fn code(self) -> u8
        ensures value { result ≡ code_of self }
    {
        match self {
            Status::Done => 0,
            Status::Refuted => 2,
            Status::Rejected => 3,
            Status::EndFailed => 4,
            Status::OutOfMemory => 5,
            Status::Usage => 64,
        }
    }

    /// Returns the status of a run that ended with this error.
    pub fn of_fault(fault: &Fault) -> Status
        ensures value { result ≡ status_of_fault fault.now }
    {
        match fault {
            Fault::OutOfMemory => Status::OutOfMemory,
            Fault::Rejected(_) => Status::Rejected,
            Fault::RejectedLine(_) => Status::Rejected,
            Fault::Unread(_) => Status::EndFailed,
            Fault::Unwritten => Status::EndFailed,
        }
    }

    /// Returns the status of a run that completed with this result.
    pub fn of_exit_kind(exit_kind: ExitKind) -> Status
        ensures value { result ≡ status_of_exit_kind exit_kind }
    {
        match exit_kind {
            ExitKind::Done => Status::Done,
            ExitKind::Refuted => Status::Refuted,
        }
    }
}
