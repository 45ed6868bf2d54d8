//! Sinks of bytes.

ghost use Rattle.std.specs.Prelude.{◌≡◌, ℕ, ◌<◌, Bool, ◌||◌, List, Option, None, is_err, IfOk, OnOk, OnErr, length, false, Some};
ghost use Rattle.std.specs.Io.{WritesAtMost};
ghost use Rattle.std.specs.Io.KnownBytes.{Appends, WriteAppends};
ghost use Rattle.net_io.specs.Ends.{WritesFront};
ghost use Rattle.net_io.specs.declared.sink.ReadFault.TheVariants as read_faults;

use std::alloc::AllocError;
use thiserror::Error;

/// A destination of bytes.
pub trait Sink {
    // The bytes written so far, if they are known.
    ghost taken: { Self → Option (List ℕ) } = { λ _. None };

    // Whether a write has failed.
    ghost failed: { Self → Bool };

    /// Writes a prefix of `bytes` and returns its length, which is positive unless `bytes` is
    /// empty.
    fn write(&mut self, bytes: &[u8]) -> Result<usize, Failed>
        ensures bound { WritesAtMost result bytes.now }
        ensures some { IfOk result (λ n. 0 < length bytes.now → 0 < n) }
        ensures bytes { WriteAppends (taken self.old) (taken self.new) result bytes.now }
        ensures flag { failed self.new ≡ (failed self.old || is_err result) };
}

/// Writes all of `text`. On an error, a prefix was written.
pub fn write_whole<W: Sink>(sink: &mut W, text: &[u8]) -> Result<(), Failed>
    ensures ok { OnOk result (Appends (W.taken sink.old) (W.taken sink.new) text.now) }
    ensures err { OnErr result (WritesFront (W.taken sink.old) (W.taken sink.new) text.now) }
    ensures flag { W.failed sink.new ≡ (W.failed sink.old || is_err result) }
{
    let mut rest = text;
    while !rest.is_empty() {
        let count = sink.write(rest)?;
        let (_, after) = rest.split_at(count);
        rest = after;
    }
    Ok(())
}

/// An error of a read or a write.
#[derive(Clone, Copy, Debug, Error)]
#[error("a read or a write failed")]
pub struct Failed;

/// Why a source could not be read.
#[derive(Clone, Copy, Debug, Error)]
pub enum ReadFault {
    /// Allocation failed.
    #[error("out of memory")]
    OutOfMemory,
    /// A read of the source failed.
    #[error("a read failed")]
    Failed,
}

impl From<Failed> for ReadFault {
    ghost from_gives = { λ _ e. e ≡ read_faults.Failed };

    fn from(_fault: Failed) -> ReadFault {
        ReadFault::Failed
    }
}

impl From<AllocError> for ReadFault {
    ghost from_gives = { λ _ e. e ≡ read_faults.OutOfMemory };

    fn from(_fault: AllocError) -> ReadFault {
        ReadFault::OutOfMemory
    }
}

/// A sink that appends to a vector. A write fails if allocation fails.
#[derive(Drop)]
pub struct GrowingSink {
    /// The vector with the bytes written so far.
    pub taken: Vec<u8>,
    /// Whether a write has failed.
    pub failed: bool,
}

impl GrowingSink {
    /// Creates a sink for which no write has failed.
    pub fn new(taken: Vec<u8>) -> GrowingSink
        ensures taken { result.taken ≡ taken }
        ensures flag { result.failed ≡ false }
    {
        GrowingSink {
            taken,
            failed: false,
        }
    }
}

impl Sink for GrowingSink {
    ghost taken = { λ s. Some s.taken.items };

    ghost failed = { λ s. s.failed };

    fn write(&mut self, bytes: &[u8]) -> Result<usize, Failed> {
        match self.taken.extend_from_slice(bytes) {
            Ok(()) => Ok(bytes.len()),
            Err(_) => {
                self.failed = true;
                Err(Failed)
            }
        }
    }
}
