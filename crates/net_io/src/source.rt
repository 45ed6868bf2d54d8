//! Sources of bytes.

ghost use Rattle.std.specs.Prelude.{◌≡◌, ℕ, ◌+◌, ◌-◌, ◌^◌, ◌<◌, ◌≤◌, ◌⊎◌, Bool, true, ◌||◌, min, List, Option, None, is_err, IfOk, OnErr, IsErrOf, vec_len};
ghost use Rattle.std.specs.Io.{ReadsAtMost};
ghost use Rattle.std.specs.Io.KnownBytes.{ReadConsumes};
ghost use Rattle.net_io.specs.Ends.{ReadsToLimit, ReadsFront};

use crate::sink::{Failed, ReadFault};
use std::alloc::Global;

/// A source of bytes.
pub trait Source {
    // The bytes that are left to read, if they are known.
    ghost remaining: { Self → Option (List ℕ) } = { λ _. None };

    // Whether a read has failed.
    ghost failed: { Self → Bool };

    // The number of reads so far, at most 2^64 - 1.
    ghost reads: { Self → ℕ };

    /// Reads into the beginning of `buf` and returns the number of bytes. 0 means the end, if `buf`
    /// is not empty.
    fn read(&mut self, buf: &mut [u8]) -> Result<usize, Failed>
        ensures bound { ReadsAtMost result buf.new }
        ensures bytes { ReadConsumes (remaining self.old) (remaining self.new) result buf.new }
        ensures flag { failed self.new ≡ (failed self.old || is_err result) }
        ensures reads { reads self.new ≡ min (reads self.old + 1) (2 ^ 64 - 1) };
}

/// The size of the read buffer, in bytes.
const PIECE: usize = 4096;

/// Reads a source to its end, or up to `limit + 1` bytes, with at most `limit + 1` reads.
///
/// On an error, the bytes read so far (at most `limit + 1`) are lost.
pub fn read_to_limit<S: Source>(
    alloc: Global,
    source: &mut S,
    limit: usize,
) -> Result<Vec<u8>, ReadFault>
    requires { limit + 2 < 2 ^ 64 }
    ensures value { IfOk result (λ text. ReadsToLimit limit (S.remaining source.old) (S.remaining source.new) text.items) }
    ensures failed { IsErrOf result ReadFault.Failed → S.failed source.new ≡ true }
    ensures front { OnErr result (ReadsFront limit (S.remaining source.old) (S.remaining source.new)) }
    ensures reads { S.reads source.new ≤ S.reads source.old + (limit + 1) }
    ensures flag { S.failed source.new ≡ true → (S.failed source.old ≡ true) ⊎ (result ≡ Err ReadFault.Failed) }
{
    let mut text = Vec::new(alloc);
    let mut piece = [0; PIECE];
    for _ in 0..limit + 2 {
        let room = PIECE.min(limit + 1 - text.len());
        let count = source.read(&mut piece[..room])?;
        text.extend_from_slice(&piece[..count])?;
        if count == 0 || text.len() > limit {
            return Ok(text);
        }
    }
    unreachable!()
}
