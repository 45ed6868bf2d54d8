//! Reading a problem file in pieces.

ghost use Rattle.std.specs.Prelude.{◌≡◌, ℕ, ◌+◌, ◌<◌, ◌≤◌, ◌⊎◌, List, [], ◌++◌, IfOk, length, vec_len};
ghost use Rattle.std.proofs.Props.{props};
ghost use Rattle.net_dimacs.specs.Limits.{open_line_limit};
ghost use Rattle.net_dimacs.specs.Lines.{is_feed, HasNone};

use crate::OutOfMemory;
use crate::fields::after_last_feed;
use crate::line_scan::Scan;
use crate::open_line::shorten;
use crate::problem_fault::{LineFault, ProblemFault};
use net_normal::Problem;
use std::alloc::Global;

/// The state of reading a problem file. Of the text, only the shortened form of an incomplete line
/// is stored.
#[derive(Drop)]
pub struct Reading {
    alloc: Global,
    /// The number of bytes read so far.
    length: usize,
    /// The content of the complete lines, unless the file exceeds the limit.
    scan: Scan,
    /// The bytes after the last LF, possibly shortened.
    pending: Vec<u8>,
    ghost few_lines: { scan.line + vec_len pending ≤ length + 1 },
    ghost no_feed: { HasNone is_feed pending.items } by { Prim.hlevel props },
    ghost short: { vec_len pending ≤ open_line_limit },
}

impl Reading {
    ghost use Rattle.std.specs.Str.Lines.{lines};
    ghost use Rattle.net_dimacs.specs.Limits.{text_limit};
    ghost use Rattle.net_dimacs.specs.Problems.{IsProblemText, IsOnlyProblem, IsNoProblemText};
    ghost use Rattle.net_dimacs.specs.Reading.{read_text, Gives, IfRejected};
    ghost use Rattle.net_dimacs.specs.Scans.{Stands};

    /// Creates the state before the first byte. Allocates no memory.
    pub fn new(alloc: Global) -> Reading
        ensures { Stands result [] }
    {
        Reading {
            alloc,
            length: 0,
            scan: Scan::new(),
            pending: Vec::new(alloc),
        }
    }

    /// Reads the next piece of the file. Fails only if memory runs out.
    pub fn feed(self, piece: &[u8]) -> Result<Reading, OutOfMemory>
        ensures { IfOk result (λ r. (text : List ℕ) → Stands self text → Stands r (text ++ piece.now)) }
    {
        let Reading {
            alloc,
            length,
            mut scan,
            mut pending,
        } = self;
        let length = length.saturating_add(piece.len());
        if length <= TEXT_LIMIT {
            let (whole, rest) = piece.split_at(after_last_feed(piece));
            scan.take_whole(alloc, &mut pending, whole)?;
            pending.extend_from_slice(rest)?;
            shorten(&mut pending)?;
        }
        Ok(Reading {
            alloc,
            length,
            scan,
            pending,
        })
    }

    /// Completes the problem, with the same result as [`crate::read_problem`].
    pub fn finish(self) -> Result<Problem, ProblemFault>
        ensures value { (text : List ℕ) → Stands self text → Gives (read_text text) result }

        // A problem that is returned is the content of the file, and the file contains no other
        // problem.
        ensures ok { (text : List ℕ) → Stands self text →
            IfOk result (λ problem. IsProblemText text problem.supplies.items problem.arcs.items) }
        ensures only { (text : List ℕ) → Stands self text →
            IfOk result (λ problem. IsOnlyProblem text problem.supplies.items problem.arcs.items) }

        // A file is rejected only if it contains no problem or exceeds the limit.
        ensures rejected { (text : List ℕ) → Stands self text →
            IfRejected result (λ _. (text_limit < length text) ⊎ IsNoProblemText text) }
        ensures place { (text : List ℕ) → Stands self text →
            IfRejected result (λ rejection. (1 ≤ rejection.line) × (rejection.line ≤ length (lines text) + 1)) }
    {
        self.read_out()
    }

    fn read_out(self) -> Result<Problem, ProblemFault>
        ensures { (text : List ℕ) → Stands self text → Gives (read_text text) result }
    {
        if self.length > TEXT_LIMIT {
            return Err(ProblemFault::rejected(LineFault::TooLarge, 1));
        }
        self.scan.ended(self.alloc, &self.pending)
    }
}

/// The maximum size of a problem file or a certificate file: 64 MiB.
pub const TEXT_LIMIT: usize = 64 * 1024 * 1024;
