//! Output through a buffer of one page.

ghost use Rattle.std.specs.Prelude.{◌≡◌, ◌+◌, ◌≤◌, ◌||◌, ◌++◌, OnErr, OnOk, false, is_err, length, true};
ghost use Rattle.std.specs.Io.KnownBytes.{Appends};
ghost use Rattle.net_io.specs.Ends.{WritesFront};
ghost use Rattle.net_io.specs.Paging as paging;
ghost use Rattle.net_io.specs.Paging.{SendsTo};

use crate::sink::{Failed, Sink, write_whole};
use arrayvec::ArrayVec;
use std::marker::Model;

/// The size of a page in bytes.
const PAGE: usize = 4096;

/// Bytes that are not yet written to a sink. After a write has failed, nothing more is written.
#[derive(Drop)]
pub struct Page {
    bytes: ArrayVec<u8, PAGE>,
    failed: bool,
}

impl Model for Page {
    ghost use Rattle.net_io.specs.Paging.{Held};

    ghost Value = { Held };

    ghost view = { λ p. record { bytes = p.bytes.items; failed = p.failed } };
}

impl Page {
    /// Creates an empty page.
    pub fn new() -> Page
        ensures { result ≡ paging.empty }
    {
        Page {
            bytes: ArrayVec::new(),
            failed: false,
        }
    }

    /// Appends bytes to the page. Writes the page first if they do not fit, and writes them too if
    /// they are longer than a page.
    pub fn send<W: Sink>(&mut self, sink: &mut W, bytes: &[u8])
        ensures { SendsTo W.taken W.failed sink.old sink.new self.old bytes.now self.new }
    {
        if self.failed {
            return;
        }
        if self.send_bytes(sink, bytes).is_err() {
            self.failed = true;
        }
    }

    fn send_bytes<W: Sink>(&mut self, sink: &mut W, bytes: &[u8]) -> Result<(), Failed>
        ensures ok { OnOk result (paging.Passes (W.taken sink.old) (W.taken sink.new) self.old.bytes bytes.now self.new.bytes) }
        ensures err { OnErr result (WritesFront (W.taken sink.old) (W.taken sink.new) (self.old.bytes ++ bytes.now)) }
        ensures flag { W.failed sink.new ≡ (W.failed sink.old || is_err result) }
        ensures same { self.new.failed ≡ self.old.failed }
    {
        if bytes.len() <= self.bytes.remaining_capacity() {
            self.hold(bytes);
            return Ok(());
        }
        write_whole(sink, self.bytes.as_slice())?;
        self.bytes.clear();
        if bytes.len() <= PAGE {
            self.hold(bytes);
            Ok(())
        } else {
            write_whole(sink, bytes)
        }
    }

    fn hold(&mut self, bytes: &[u8])
        requires { length self.now.bytes + length bytes.now ≤ PAGE }
        ensures text { self.new.bytes ≡ self.old.bytes ++ bytes.now }
        ensures same { self.new.failed ≡ self.old.failed }
    {
        match self.bytes.try_extend_from_slice(bytes) {
            Ok(()) => {}
            Err(_) => unreachable!(),
        }
    }

    /// Writes the bytes of the page. Returns an error if a write has failed.
    pub fn finish<W: Sink>(self, sink: &mut W) -> Result<(), Failed>
        ensures ok { OnOk result ((self.failed ≡ false) × Appends (W.taken sink.old) (W.taken sink.new) self.bytes) }
        ensures err { OnErr result ((self.failed ≡ false → WritesFront (W.taken sink.old) (W.taken sink.new) self.bytes)
            × (self.failed ≡ true → sink.new ≡ sink.old)) }
        ensures flag { self.failed ≡ false → W.failed sink.new ≡ (W.failed sink.old || is_err result) }
    {
        if self.failed {
            return Err(Failed);
        }
        write_whole(sink, self.bytes.as_slice())
    }
}
