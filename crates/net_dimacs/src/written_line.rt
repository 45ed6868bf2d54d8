//! Writing a line of a problem.

ghost use Rattle.std.specs.Prelude.{◌≡◌, ◌+◌, ◌≤◌, ◌∷◌, ◌++◌, length};
ghost use Rattle.std.specs.Fmt.{signed_decimal};
ghost use Rattle.arrayvec.specs.ArrayVec.{array_vec_len};
ghost use Rattle.net_io.specs.Paging.{SendsTo};
ghost use Rattle.net_dimacs.specs.Written.{line};

use arrayvec::ArrayVec;
use itoa::Buffer;
use net_io::{Page, Sink};

/// The maximum length of a line: a kind of 8 bytes, five numbers of 40 bytes, each after a space,
/// and LF.
const LINE: usize = 214;

/// The bytes of a line.
type Line = ArrayVec<u8, LINE>;

/// Sends a line through a page: a kind, and numbers, each after a space.
pub fn send_line<W: Sink>(sink: &mut W, page: &mut Page, kind: &[u8], numbers: &[i64])
    requires kind { length kind.now ≤ 8 }
    requires numbers { length numbers.now ≤ 5 }
    ensures { SendsTo W.taken W.failed sink.old sink.new page.old (line kind.now numbers.now) page.new }
{
    let line = line_of(kind, numbers);
    page.send(sink, line.as_slice());
}

fn line_of(kind: &[u8], numbers: &[i64]) -> Line
    requires kind { length kind.now ≤ 8 }
    requires numbers { length numbers.now ≤ 5 }
    ensures { result.items ≡ line kind.now numbers.now }
{
    let mut line = Line::new();
    hold(&mut line, kind);
    for number in numbers {
        hold_number(&mut line, *number);
    }
    line.push(b'\n');
    line
}

fn hold_number(line: &mut Line, number: i64)
    requires { array_vec_len line.old + 41 ≤ LINE }
    ensures text { line.new.items ≡ line.old.items ++ 32 ∷ signed_decimal number }
    ensures few { array_vec_len line.new ≤ array_vec_len line.old + 41 }
{
    let mut buffer = Buffer::new();
    line.push(b' ');
    hold(line, buffer.format(number).as_bytes());
}

fn hold(line: &mut Line, bytes: &[u8])
    requires { array_vec_len line.old + length bytes.now ≤ LINE }
    ensures text { line.new.items ≡ line.old.items ++ bytes.now }
    ensures few { array_vec_len line.new ≡ array_vec_len line.old + length bytes.now }
{
    match line.try_extend_from_slice(bytes) {
        Ok(()) => {}
        Err(_) => unreachable!(),
    }
}
