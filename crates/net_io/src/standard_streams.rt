//! Sources and sinks based on std's readers and writers.

ghost use Rattle.std.specs.Prelude.{◌≡◌, false};

use crate::sink::{Failed, Sink};
use crate::source::Source;
use std::io::{Read, Write};

/// A reader as a source. Each error of the reader, including an interruption, is `Failed`.
#[derive(Drop)]
pub struct OfRead<R> {
    pub reader: R,
    /// Whether a read has failed.
    pub failed: bool,
    /// The number of reads so far, at most `u64::MAX`.
    pub reads: u64,
}

impl<R> OfRead<R> {
    /// Creates a source from which nothing has been read.
    pub fn new(reader: R) -> OfRead<R>
        ensures reader { result.reader ≡ reader }
        ensures flag { result.failed ≡ false }
        ensures reads { result.reads ≡ 0 }
    {
        OfRead {
            reader,
            failed: false,
            reads: 0,
        }
    }
}

impl<R: Read> Source for OfRead<R> {
    ghost remaining = { λ s. R.remaining s.reader };

    ghost failed = { λ s. s.failed };

    ghost reads = { λ s. s.reads };

    fn read(&mut self, buf: &mut [u8]) -> Result<usize, Failed> {
        self.reads = self.reads.saturating_add(1);
        match self.reader.read(buf) {
            Ok(count) => Ok(count),
            Err(_) => {
                self.failed = true;
                Err(Failed)
            }
        }
    }
}

/// A writer as a sink. Each error of the writer is `Failed`, and so is a write that accepts no
/// bytes.
#[derive(Drop)]
pub struct OfWrite<W> {
    pub writer: W,
    /// Whether a write has failed.
    pub failed: bool,
}

impl<W> OfWrite<W> {
    /// Creates a sink for which no write has failed.
    pub fn new(writer: W) -> OfWrite<W>
        ensures writer { result.writer ≡ writer }
        ensures flag { result.failed ≡ false }
    {
        OfWrite {
            writer,
            failed: false,
        }
    }
}

impl<W: Write> Sink for OfWrite<W> {
    ghost taken = { λ s. W.contents s.writer };

    ghost failed = { λ s. s.failed };

    fn write(&mut self, bytes: &[u8]) -> Result<usize, Failed> {
        match self.writer.write(bytes) {
            Ok(count) if count > 0 || bytes.is_empty() => Ok(count),
            _ => {
                self.failed = true;
                Err(Failed)
            }
        }
    }
}
