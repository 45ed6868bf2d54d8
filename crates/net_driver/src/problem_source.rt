//! Reading problems from sources in pieces.

ghost use Rattle.std.specs.Prelude.{◌≡◌, ◌==◌, ◌⊎◌, List, ℕ, true, IfOk, IfErr, IsErrOf};
ghost use Rattle.net_dimacs.specs.Scans.{Stands};
ghost use Rattle.net_driver.specs.Checked.{IsProblemRejection};
ghost use Rattle.net_driver.specs.LineTexts.{IsProblemOf};
ghost use Rattle.net_driver.specs.ProblemSources.{GivesText};
ghost use Rattle.net_driver.specs.Runs.{IsAskedFew, lines_limit};

use crate::checking::fault_of;
use crate::driver_fault::{Fault, TextName};
use net_dimacs::{Reading, TEXT_LIMIT};
use net_io::{ReadFault, Source};
use net_normal::Problem;
use std::alloc::Global;

/// The size of the read buffer, in bytes.
const PIECE: usize = 4096;

/// Reads a problem file from a source, to its end or to one byte past the limit. [`finished`]
/// returns whether it is valid. Only the read buffer and the shortened form of an incomplete line
/// are in memory.
pub(crate) fn read_problem_from<S: Source>(alloc: Global, source: &mut S) -> Result<Reading, Fault>
    ensures value { IfOk result (GivesText (record { old = S.remaining source.old; new = S.remaining source.new })) }
    ensures err { IfErr result (λ fault. (fault ≡ Fault.OutOfMemory)
        ⊎ ((fault ≡ Fault.Unread TextName.Problem) × (S.failed source.new ≡ true))) }
    ensures flag { S.failed source.new ≡ true → (S.failed source.old ≡ true) ⊎ (result ≡ Err (Fault.Unread TextName.Problem)) }
    ensures reads { IsAskedFew lines_limit (S.reads source.old) (S.reads source.new) }
{
    match read_pieces(alloc, source) {
        Ok(reading) => Ok(reading),
        Err(ReadFault::OutOfMemory) => Err(Fault::OutOfMemory),
        Err(ReadFault::Failed) => Err(Fault::Unread(TextName::Problem)),
    }
}

/// Returns whether a read of `count` bytes reached the end. A short read did not.
fn is_end(count: usize) -> bool
    ensures { result ≡ (count == 0) }
{
    count == 0
}

fn read_pieces<S: Source>(alloc: Global, source: &mut S) -> Result<Reading, ReadFault>
    ensures value { IfOk result (GivesText (record { old = S.remaining source.old; new = S.remaining source.new })) }
    ensures failed { IsErrOf result ReadFault.Failed → S.failed source.new ≡ true }
    ensures flag { S.failed source.new ≡ true → (S.failed source.old ≡ true) ⊎ (result ≡ Err ReadFault.Failed) }
    ensures reads { IsAskedFew lines_limit (S.reads source.old) (S.reads source.new) }
{
    let mut reading = Reading::new(alloc);
    let mut piece = [0; PIECE];
    let mut length = 0;
    while length <= TEXT_LIMIT {
        let room = PIECE.min(TEXT_LIMIT + 1 - length);
        let count = source.read(&mut piece[..room])?;
        if is_end(count) {
            return Ok(reading);
        }
        reading = reading.feed(&piece[..count])?;
        length += count;
    }
    Ok(reading)
}

/// Returns the problem of the file that was read, or its first error.
pub(crate) fn finished(reading: Reading) -> Result<Problem, Fault>
    ensures ok { (text : List ℕ) → Stands reading text → IfOk result (IsProblemOf text) }
    ensures rejected { (text : List ℕ) → Stands reading text → IfErr result (IsProblemRejection text) }
{
    match reading.finish() {
        Ok(problem) => Ok(problem),
        Err(fault) => Err(fault_of(TextName::Problem, fault)),
    }
}
