//! Reading the lines of a file in order.

ghost use Rattle.std.specs.Prelude.{◌≡◌, ◌+◌, ◌-◌, ◌<◌, ◌≤◌, ◌^◌, ◌++◌, ℕ, List, length, vec_len, OnOk, OnErr, IsErrOf};
ghost use Rattle.std.specs.Str.Lines.{lines};

use crate::fields::split_line;
use crate::problem_fault::ProblemFault;
use crate::problem_line::statement_of;
use crate::progress::Progress;
use net_normal::Problem;
use std::alloc::{AllocError, Global};

/// The state after some complete lines.
#[derive(Drop)]
pub struct Scan {
    /// The number of the next line, from 1.
    pub line: usize,
    /// The content of the lines before it.
    pub progress: Progress,
}

impl Scan {
    ghost use Rattle.net_dimacs.specs.Lines.{EndsLine, HasNone, is_feed};
    ghost use Rattle.net_dimacs.specs.Drafts.{state_of};
    ghost use Rattle.net_dimacs.specs.Scans.{reads};
    ghost use Rattle.net_dimacs.specs.Reading.{Start, Gives};
    ghost use Rattle.net_dimacs.specs.Problems.{BeginsProblem, statements_of};

    /// Creates the state before the first line.
    pub fn new() -> Scan
        ensures { result ≡ record { line = 1; progress = Progress.Start } }
    {
        Scan {
            line: 1,
            progress: Progress::Start,
        }
    }

    /// Reads the lines of the next bytes.
    pub fn take_lines(&mut self, alloc: Global, text: &[u8]) -> Result<(), AllocError>
        requires { self.old.line + length text.now < 2 ^ 64 - 1 }
        ensures lines { OnOk result ((more : List (List ℕ)) → reads self.new more ≡ reads self.old (lines text.now ++ more)) }
        ensures count { OnOk result (self.new.line ≤ self.old.line + length text.now) }
        ensures memory { OnErr result ((state_of self.old.progress ≡ Start) × BeginsProblem (statements_of text.now)) }
    {
        let mut rest = text;
        while let Some((line, after)) = split_line(rest) {
            self.progress.take(alloc, self.line, statement_of(line))?;
            self.line += 1;
            rest = after;
        }
        Ok(())
    }

    /// Reads bytes that end with an LF. They continue the incomplete line `pending`, which is empty
    /// afterwards.
    pub fn take_whole(
        &mut self,
        alloc: Global,
        pending: &mut Vec<u8>,
        whole: &[u8],
    ) -> Result<(), AllocError>
        requires lines { EndsLine whole.now }
        requires few { self.old.line + vec_len pending.old + length whole.now < 2 ^ 64 - 1 }
        ensures ok { OnOk result ((more : List ℕ) →
            reads self.new (lines (pending.new.items ++ more)) ≡ reads self.old (lines (pending.old.items ++ (whole.now ++ more)))) }
        ensures count { OnOk result (self.new.line + vec_len pending.new ≤ self.old.line + vec_len pending.old + length whole.now) }
        ensures no_feed { OnOk result (HasNone is_feed pending.old.items → HasNone is_feed pending.new.items) }
    {
        if whole.is_empty() {
            return Ok(());
        }
        pending.extend_from_slice(whole)?;
        self.take_lines(alloc, pending)?;
        pending.clear();
        Ok(())
    }

    /// Reads the last bytes of the file and completes the problem.
    pub fn ended(mut self, alloc: Global, rest: &[u8]) -> Result<Problem, ProblemFault>
        requires { self.line + length rest.now < 2 ^ 64 - 1 }
        ensures value { Gives (reads self (lines rest.now)) result }
        ensures memory { IsErrOf result ProblemFault.OutOfMemory → (state_of self.progress ≡ Start) × BeginsProblem (statements_of rest.now) }
    {
        self.take_lines(alloc, rest)?;
        self.progress.finished(self.line)
    }
}
