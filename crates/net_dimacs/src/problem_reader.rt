//! Reading problems from DIMACS files.

ghost use Rattle.std.specs.Prelude.{◌≡◌, ◌+◌, ◌<◌, ◌≤◌, ◌⊎◌, length, IfOk, IsErrOf};
ghost use Rattle.std.specs.Str.Lines.{lines};
ghost use Rattle.net_dimacs.specs.Limits.{text_limit};
ghost use Rattle.net_dimacs.specs.Reading.{read_text, Gives, IfRejected};
ghost use Rattle.net_dimacs.specs.Problems.{BeginsProblem, statements_of, IsProblemText, IsOnlyProblem, IsNoProblemText};

use crate::line_scan::Scan;
use crate::problem_fault::{LineFault, ProblemFault};
use crate::reading::TEXT_LIMIT;
use net_normal::Problem;
use std::alloc::Global;

/// Reads a problem from a file. Returns the first error if there is one.
///
/// Allocates memory only at the `p` line.
pub fn read_problem(alloc: Global, text: &[u8]) -> Result<Problem, ProblemFault>
    // The result is the problem, or the first error.
    ensures value { Gives (read_text text.now) result }

    // A problem that is returned is the content of the file, and the file contains no other
    // problem.
    ensures ok { IfOk result (λ problem. IsProblemText text.now problem.supplies.items problem.arcs.items) }
    ensures only { IfOk result (λ problem. IsOnlyProblem text.now problem.supplies.items problem.arcs.items) }

    // A file is rejected only if it contains no problem or exceeds the limit.
    ensures rejected { IfRejected result (λ _. (text_limit < length text.now) ⊎ IsNoProblemText text.now) }
    ensures place { IfRejected result (λ rejection. (1 ≤ rejection.line) × (rejection.line ≤ length (lines text.now) + 1)) }

    // Memory is allocated only after a `p` line with counts within the limits, before which there
    // are only blank lines and comments.
    ensures memory { IsErrOf result ProblemFault.OutOfMemory →
        (length text.now ≤ text_limit) × BeginsProblem (statements_of text.now) }
{
    read_whole(alloc, text)
}

fn read_whole(alloc: Global, text: &[u8]) -> Result<Problem, ProblemFault>
    ensures value { Gives (read_text text.now) result }
    ensures memory { IsErrOf result ProblemFault.OutOfMemory →
        (length text.now ≤ text_limit) × BeginsProblem (statements_of text.now) }
{
    if text.len() > TEXT_LIMIT {
        return Err(ProblemFault::rejected(LineFault::TooLarge, 1));
    }
    Scan::new().ended(alloc, text)
}
