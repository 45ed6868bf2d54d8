//! The line of an error on standard error.

ghost use Rattle.std.specs.Prelude.{◌≡◌, Err};
ghost use Rattle.netflow.specs.Calls.{IsErrorPrinted, Writes};
ghost use Rattle.netflow.specs.Statuses.{status_of_fault};

use crate::status::Status;
use arrayvec::ArrayString;
use net_driver::Fault;
use net_io::{Failed, Sink, write_whole};
use std::fmt::Write;
use std::str;

/// The most bytes of a line. A name in the inputs has at most 255 bytes and a key at most four
/// members, so only a name after `--objective` can be too long.
const LINE: usize = 4096;

/// The line of an error whose own line does not fit.
const TOO_LONG: &str = "the line of this error is too long\n";

/// Standard error as a sink.
#[derive(Drop)]
pub struct ErrorStream<'r, R> {
    pub runtime: &'r R,
    /// Whether a write has failed.
    pub failed: bool,
}

impl<R: Eprint> Sink for ErrorStream<'_, R> {
    ghost failed = { λ s. s.failed };

    fn write(&mut self, bytes: &[u8]) -> Result<usize, Failed> {
        let is_shown = match str::from_utf8(bytes) {
            Ok(text) => eprint!(self.runtime; "{text}").is_ok(),
            Err(_) => false,
        };
        if is_shown {
            Ok(bytes.len())
        } else {
            self.failed = true;
            Err(Failed)
        }
    }
}

/// Writes a text. If standard error is closed, only the status of the program reports the error.
fn write_text<E: Sink>(errors: &mut E, text: &[u8])
    ensures { Writes (record { taken = E.taken; failed = E.failed; old = errors.old; new = errors.new }) text.now }
{
    let _ = write_whole(errors, text);
}

/// Writes the line of an error; returns the status.
pub fn print_error<E: Sink>(errors: &mut E, fault: &Fault) -> Status
    ensures status { result ≡ status_of_fault fault.now }
    ensures printed { IsErrorPrinted (record { taken = E.taken; failed = E.failed; old = errors.old; new = errors.new }) (Err fault.now) }
{
    let mut line = ArrayString::<LINE>::new();
    match writeln!(line, "{fault}") {
        Ok(()) => write_text(errors, line.as_str().as_bytes()),
        Err(_) => write_text(errors, TOO_LONG.as_bytes()),
    }
    Status::of_fault(fault)
}
