//! The state after the lines read so far.

ghost use Rattle.std.specs.Prelude.{◌≡◌, OnOk, OnErr, IsErrOf, option_to_list};
ghost use Rattle.net_dimacs.specs.declared.progress.LineStop.TheVariants as line_stops;

use crate::problem_draft::ProblemDraft;
use crate::problem_fault::{LineFault, ProblemFault, Rejection};
use crate::problem_line::LineStatement;
use net_normal::Problem;
use std::alloc::{AllocError, AllocFailed, Global};

/// The state after the lines read so far.
#[derive(Drop)]
pub enum Progress {
    /// Nothing yet.
    Start,
    /// A partial problem.
    Open(ProblemDraft),
    /// The first error.
    Rejected(Rejection),
}

impl Progress {
    ghost use Rattle.net_dimacs.specs.Reading.{with_optional_statement, new_state, finished, Start, Gives};
    ghost use Rattle.net_dimacs.specs.Problems.{BeginsProblem};
    ghost use Rattle.net_dimacs.specs.Drafts.{state_of, GivesState};

    /// Adds the content of the line with this number. Allocates memory only for an accepted `p`
    /// line.
    pub fn take(
        &mut self,
        alloc: Global,
        line: usize,
        line_statement: Option<LineStatement>,
    ) -> Result<(), AllocError>
        ensures ok { OnOk result (state_of self.new ≡ with_optional_statement line (state_of self.old) line_statement) }
        ensures err { OnErr result ((state_of self.old ≡ Start) × BeginsProblem (option_to_list line_statement)) }
    {
        let Some(statement) = line_statement else {
            return Ok(());
        };
        match self {
            Progress::Rejected(_) => {}
            Progress::Start => *self = Progress::begun(alloc, line, statement)?,
            Progress::Open(draft) => {
                if let Err(fault) = draft.take(statement) {
                    *self = Progress::Rejected(Rejection { fault, line });
                }
            }
        }
        Ok(())
    }

    /// Returns the state after the first line with a meaning.
    fn begun(alloc: Global, line: usize, statement: LineStatement) -> Result<Progress, AllocError>
        ensures { GivesState (new_state line statement) statement result }
    {
        let draft = match statement {
            LineStatement::Problem(nodes, arcs) => ProblemDraft::new(alloc, nodes, arcs),
            LineStatement::Other => Err(LineStop::Line(LineFault::BadLine)),
            _ => Err(LineStop::Line(LineFault::NoProblemLine)),
        };
        match draft {
            Ok(draft) => Ok(Progress::Open(draft)),
            Err(LineStop::Line(fault)) => Ok(Progress::Rejected(Rejection { fault, line })),
            Err(LineStop::OutOfMemory) => Err(AllocError),
        }
    }

    /// Completes the problem at the end of the file; `line` is the number of the line after the
    /// last.
    pub fn finished(self, line: usize) -> Result<Problem, ProblemFault>
        ensures value { Gives (finished line (state_of self)) result }
        ensures memory { IsErrOf result ProblemFault.OutOfMemory → ⊥ }
    {
        match self {
            Progress::Start => Err(ProblemFault::rejected(LineFault::NoProblemLine, line)),
            Progress::Rejected(rejection) => Err(ProblemFault::Rejected(rejection)),
            Progress::Open(draft) => {
                if draft.arcs.len() < draft.arc_count {
                    return Err(ProblemFault::rejected(LineFault::Count, line));
                }
                Ok(draft.problem())
            }
        }
    }
}

/// Why a line was not accepted.
#[derive(Clone, Copy)]
pub enum LineStop {
    OutOfMemory,
    Line(LineFault),
}

impl From<LineFault> for LineStop {
    ghost from_gives = { λ fault e. e ≡ line_stops.Line fault };

    fn from(fault: LineFault) -> LineStop {
        LineStop::Line(fault)
    }
}

impl From<AllocError> for LineStop {
    ghost from_gives = { λ _ e. e ≡ line_stops.OutOfMemory };

    fn from(_fault: AllocError) -> LineStop {
        LineStop::OutOfMemory
    }
}

impl<T: Drop> From<AllocFailed<T>> for LineStop {
    ghost from_gives = { λ _ e. e ≡ line_stops.OutOfMemory };

    fn from(_fault: AllocFailed<T>) -> LineStop {
        LineStop::OutOfMemory
    }
}
