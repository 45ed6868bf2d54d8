//! Sources and sinks in memory, which can simulate failures.

ghost use Rattle.std.specs.Prelude.{◌≡◌, ℕ, ◌+◌, ◌-◌, ◌^◌, ◌<◌, ◌≤◌, ◌||◌, ◌&&◌, ◌==◌, ◌++◌, min, false, not, is_err, length, take, IfOk, OnErr, Some};
ghost use Rattle.std.specs.Prelude.{vec_len, vec_capacity};
ghost use Rattle.std.specs.Io.{ReadsAtMost, WritesAtMost};
ghost use Rattle.std.specs.Io.KnownBytes.{ReadConsumes, WriteAppends};
ghost use Rattle.net_io.specs.Ends.{is_due, counted};

use crate::sink::{Failed, Sink};
use crate::source::Source;

/// A source that returns known bytes.
#[derive(Drop)]
pub struct MemorySource<'b> {
    /// The bytes that are left to read.
    pub rest: &'b [u8],
    /// The most bytes that one read returns.
    pub bytes_per_call: usize,
    /// The number of reads before the first failing one, if reads are to fail. All later reads fail
    /// too.
    pub calls_before_failure: Option<u64>,
    /// Whether a read has failed.
    pub failed: bool,
    /// The number of reads so far, at most `u64::MAX`.
    pub reads: u64,
    pub ghost some_bytes: { 1 ≤ bytes_per_call },
}

impl<'b> MemorySource<'b> {
    /// Creates a source of `rest`, which returns at most `bytes_per_call` bytes in each read.
    pub fn new(
        rest: &'b [u8],
        bytes_per_call: usize,
        calls_before_failure: Option<u64>,
    ) -> MemorySource<'b>
        requires { 1 ≤ bytes_per_call }
        ensures rest { result.rest.now ≡ rest.now }
        ensures pace { result.bytes_per_call ≡ bytes_per_call }
        ensures calls { result.calls_before_failure ≡ calls_before_failure }
        ensures flag { result.failed ≡ false }
        ensures reads { result.reads ≡ 0 }
    {
        MemorySource {
            rest,
            bytes_per_call,
            calls_before_failure,
            failed: false,
            reads: 0,
        }
    }
}

impl Source for MemorySource<'_> {
    ghost remaining = { λ s. Some s.rest.now };

    ghost failed = { λ s. s.failed };

    ghost reads = { λ s. s.reads };

    fn read(&mut self, buf: &mut [u8]) -> Result<usize, Failed>
        ensures bound { ReadsAtMost result buf.new }
        ensures bytes { ReadConsumes (Some self.old.rest.now) (Some self.new.rest.now) result buf.new }
        ensures flag { self.new.failed ≡ (self.old.failed || is_err result) }
        ensures reads { self.new.reads ≡ min (self.old.reads + 1) (2 ^ 64 - 1) }

        ensures fails { is_err result ≡ is_due self.old.calls_before_failure }
        ensures calls { self.new.calls_before_failure ≡ counted self.old.calls_before_failure }
        ensures count { IfOk result (λ n.
            n ≡ min (min self.old.bytes_per_call (length buf.old)) (length self.old.rest.now)) }
        ensures pace { self.new.bytes_per_call ≡ self.old.bytes_per_call }
    {
        self.reads = self.reads.saturating_add(1);
        if !counts_down(&mut self.calls_before_failure) {
            self.failed = true;
            return Err(Failed);
        }
        let count = self.bytes_per_call.min(buf.len()).min(self.rest.len());
        let (given, rest) = self.rest.split_at(count);
        buf[..count].copy_from_slice(given);
        self.rest = rest;
        Ok(count)
    }
}

/// Counts one call. Returns false if the call must fail.
fn counts_down(calls: &mut Option<u64>) -> bool
    ensures due { result ≡ not (is_due calls.old) }
    ensures left { calls.new ≡ counted calls.old }
{
    match *calls {
        None => true,
        Some(0) => false,
        Some(left) => {
            *calls = Some(left - 1);
            true
        }
    }
}

/// A sink that fills a vector up to its capacity and allocates nothing.
#[derive(Drop)]
pub struct MemorySink {
    /// The vector with the bytes written so far.
    pub taken: Vec<u8>,
    /// The number of bytes that still fit.
    pub room: usize,
    /// The most bytes that one write accepts.
    pub bytes_per_call: usize,
    /// The number of writes before the first failing one, if writes are to fail. All later writes
    /// fail too.
    pub calls_before_failure: Option<u64>,
    /// Whether a write has failed.
    pub failed: bool,
    pub ghost some_bytes: { 1 ≤ bytes_per_call },
    pub ghost fits: { vec_len taken + room ≤ vec_capacity taken },
}

impl MemorySink {
    /// Creates a sink that fills a vector up to its capacity, with at most `bytes_per_call` bytes
    /// in each write.
    pub fn new(
        taken: Vec<u8>,
        bytes_per_call: usize,
        calls_before_failure: Option<u64>,
    ) -> MemorySink
        requires { 1 ≤ bytes_per_call }
        ensures taken { result.taken ≡ taken }
        ensures room { result.room ≡ vec_capacity taken - vec_len taken }
        ensures pace { result.bytes_per_call ≡ bytes_per_call }
        ensures calls { result.calls_before_failure ≡ calls_before_failure }
        ensures flag { result.failed ≡ false }
    {
        let room = taken.capacity() - taken.len();
        MemorySink {
            taken,
            room,
            bytes_per_call,
            calls_before_failure,
            failed: false,
        }
    }

    /// Appends the bytes that one write accepts, and returns their number.
    fn fill(&mut self, bytes: &[u8]) -> usize
        ensures count { result ≡ min (min self.old.bytes_per_call (length bytes.now)) self.old.room }
        ensures bytes { self.new.taken.items ≡ self.old.taken.items ++ take result bytes.now }
        ensures room { self.new.room + result ≡ self.old.room }
        ensures pace { self.new.bytes_per_call ≡ self.old.bytes_per_call }
        ensures calls { self.new.calls_before_failure ≡ self.old.calls_before_failure }
        ensures flag { self.new.failed ≡ self.old.failed }
    {
        let count = self.bytes_per_call.min(bytes.len()).min(self.room);
        match self.taken.extend_from_slice(&bytes[..count]) {
            Ok(()) => {
                self.room -= count;
                count
            }
            Err(_) => unreachable!(),
        }
    }
}

impl Sink for MemorySink {
    ghost taken = { λ s. Some s.taken.items };

    ghost failed = { λ s. s.failed };

    fn write(&mut self, bytes: &[u8]) -> Result<usize, Failed>
        ensures bound { WritesAtMost result bytes.now }
        ensures some { IfOk result (λ n. 0 < length bytes.now → 0 < n) }
        ensures bytes { WriteAppends (Some self.old.taken.items) (Some self.new.taken.items) result bytes.now }
        ensures flag { self.new.failed ≡ (self.old.failed || is_err result) }

        ensures fails { is_err result ≡ (is_due self.old.calls_before_failure
            || (self.old.room == 0 && not (length bytes.now == 0))) }
        ensures calls { self.new.calls_before_failure ≡ counted self.old.calls_before_failure }
        ensures count { IfOk result (λ n.
            n ≡ min (min self.old.bytes_per_call (length bytes.now)) self.old.room) }
        ensures room { IfOk result (λ n. self.new.room + n ≡ self.old.room) }
        ensures left { OnErr result ((self.new.taken ≡ self.old.taken) × (self.new.room ≡ self.old.room)) }
        ensures pace { self.new.bytes_per_call ≡ self.old.bytes_per_call }
    {
        let is_full = self.room == 0 && !bytes.is_empty();
        if !counts_down(&mut self.calls_before_failure) || is_full {
            self.failed = true;
            return Err(Failed);
        }
        Ok(self.fill(bytes))
    }
}
