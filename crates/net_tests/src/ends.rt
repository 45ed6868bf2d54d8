//! Streams in memory that fail at each call.

use crate::comparison::expect;
use net_io::{MemorySink, MemorySource, OfWrite, ReadFault, read_to_limit, write_whole};
use std::alloc::{AllocError, Global};
use std::io::{self, Write};
use std::test::Fail;

const FIVE: &[u8] = &[1, 2, 3, 4, 5];

/// Returns the result of reading five bytes, one in each call, if this many calls succeed.
fn read_of(alloc: Global, calls: u64) -> Result<String, AllocError> {
    let mut source = MemorySource::new(FIVE, 1, Some(calls));
    match read_to_limit(alloc, &mut source, 9) {
        Ok(text) => format!(in alloc; "{text:?}"),
        Err(ReadFault::Failed) => String::from_str(alloc, "failed"),
        Err(ReadFault::OutOfMemory) => Err(AllocError),
    }
}

/// The number of calls that succeed, and the result of reading. The sixth call reads the end.
const READS: &[(u64, &str)] = &[
    (0, "failed"),
    (1, "failed"),
    (2, "failed"),
    (3, "failed"),
    (4, "failed"),
    (5, "failed"),
    (6, "[1, 2, 3, 4, 5]"),
];

#[test]
fn a_source_fails_at_each_call(rt: HostRuntime) -> Result<(), Fail> {
    for (calls, wanted) in READS {
        expect(wanted, read_of(rt.alloc(), *calls), wanted)?;
    }
    Ok(())
}

/// Returns which of five bytes a sink with this capacity accepts, two in each call, if this many
/// calls succeed; and whether all were written.
fn written_to(alloc: Global, room: usize, calls: Option<u64>) -> Result<String, AllocError> {
    let mut sink = MemorySink::new(Vec::with_capacity(alloc, room)?, 2, calls);
    let wrote = write_whole(&mut sink, FIVE).is_ok();
    format!(in alloc; "{:?} {wrote}", sink.taken)
}

/// The capacity of a sink, the number of calls that succeed, and the result.
const WRITES: &[(usize, Option<u64>, &str)] = &[
    (9, Some(0), "[] false"),
    (9, Some(1), "[1, 2] false"),
    (9, Some(2), "[1, 2, 3, 4] false"),
    (9, Some(3), "[1, 2, 3, 4, 5] true"),
    (5, Some(3), "[1, 2, 3, 4, 5] true"),
    (3, None, "[1, 2, 3] false"),
    (0, None, "[] false"),
];

#[test]
fn a_sink_fails_at_each_call(rt: HostRuntime) -> Result<(), Fail> {
    for (room, calls, wanted) in WRITES {
        expect(wanted, written_to(rt.alloc(), *room, *calls), wanted)?;
    }
    Ok(())
}

/// What a writer with this room took of five bytes; and whether all was written.
fn filled(alloc: Global, room: usize) -> Result<String, AllocError> {
    let mut sink = OfWrite::new(Filling::new(alloc, room)?);
    let wrote = write_whole(&mut sink, FIVE).is_ok();
    let failed = sink.failed;
    format!(in alloc; "{:?} {wrote}, failed {failed}", sink.writer.taken)
}

/// The room of a writer, and what is written: a write of no byte is a failed one.
const FILLED: &[(usize, &str)] = &[
    (0, "[] false, failed true"),
    (1, "[1] false, failed true"),
    (4, "[1, 2, 3, 4] false, failed true"),
    (5, "[1, 2, 3, 4, 5] true, failed false"),
];

#[test]
fn a_writer_that_takes_nothing_has_failed(rt: HostRuntime) -> Result<(), Fail> {
    for (room, wanted) in FILLED {
        expect(wanted, filled(rt.alloc(), *room), wanted)?;
    }
    Ok(())
}

/// A writer that accepts one byte per call until it is full, then none.
#[derive(Drop)]
pub struct Filling {
    pub taken: Vec<u8>,
    room: usize,
}

impl Filling {
    /// Creates a writer that accepts at most `room` bytes. A write allocates nothing.
    pub fn new(alloc: Global, room: usize) -> Result<Filling, AllocError> {
        Ok(Filling {
            taken: Vec::with_capacity(alloc, room)?,
            room,
        })
    }
}

impl Write for Filling {
    fn write(&mut self, bytes: &[u8]) -> io::Result<usize> {
        let count = bytes.len().min(self.room).min(1);
        self.taken.extend_from_slice(&bytes[..count])?;
        self.room -= count;
        Ok(count)
    }

    fn flush(&mut self) -> io::Result<()> {
        Ok(())
    }
}
