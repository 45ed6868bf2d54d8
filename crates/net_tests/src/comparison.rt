//! The comparison in tests.

ghost use Rattle.std.specs.Prelude.{◌≡◌, IsOk, IfOk};

use std::alloc::AllocError;
use std::test::Fail;

/// Compares the result for an input with the expected one.
///
/// Fails if they differ, with the input and both results as the message, and if memory ran out
/// before there was a result.
pub fn expect(text: &str, answered: Result<String, AllocError>, wanted: &str) -> Result<(), Fail>
    ensures answered { IsOk result → IsOk answered }
    ensures rejects { IsOk result → IfOk answered (λ reported. reported.bytes.items ≡ wanted.now) }
    ensures passes { IfOk answered (λ reported. reported.bytes.items ≡ wanted.now → IsOk result) }
{
    let reported = answered?;
    if reported.as_str() == wanted {
        Ok(())
    } else {
        Err(Fail::new(format_args!("{text}: {reported}, not {wanted}")))
    }
}
