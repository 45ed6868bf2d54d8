//! Writing the names of nodes and arcs within a line.

ghost use Rattle.std.specs.Prelude.{◌≡◌, ◌∷◌, [], IsTrue, Some};
ghost use Rattle.net_io.specs.Paging.{SendsTo};
ghost use Rattle.net_expr.specs.References as texts;
ghost use Rattle.net_report.specs.References.{declared_name};
ghost use Rattle.net_report.specs.Links as lines;

use crate::links::ends_line;
use itoa::Buffer;
use net_inst::Declared;
use net_io::{Page, Sink};
use net_sets::{Member, Text, Tuple};

/// Sends the name of a node or an arc as written within a line, followed by its key in brackets if
/// it is indexed.
pub(crate) fn send_name<W: Sink>(
    sink: &mut W,
    page: &mut Page,
    declared: &Declared<'_>,
    key: &Tuple<'_>,
)
    ensures { SendsTo W.taken W.failed sink.old sink.new page.old (lines.in_line (declared_name (Some declared.now) key.now)) page.new }
{
    send_in_line(sink, page, declared.name.as_str().as_bytes());
    if declared.indexed {
        page.send(sink, b"[");
        send_members(sink, page, key.as_slice());
        page.send(sink, b"]");
    }
}

fn send_members<W: Sink>(sink: &mut W, page: &mut Page, members: &[Member<'_>])
    ensures { SendsTo W.taken W.failed sink.old sink.new page.old (lines.in_line (texts.members_text members.now)) page.new }
{
    if let [first, further @ ..] = members {
        send_member(sink, page, first);
        send_further(sink, page, further);
    }
}

/// Sends members, each after a comma.
fn send_further<W: Sink>(sink: &mut W, page: &mut Page, members: &[Member<'_>])
    ensures { SendsTo W.taken W.failed sink.old sink.new page.old (lines.in_line (texts.further_text members.now)) page.new }
{
    for member in members {
        page.send(sink, b",");
        send_member(sink, page, member);
    }
}

fn send_member<W: Sink>(sink: &mut W, page: &mut Page, member: &Member<'_>)
    ensures { SendsTo W.taken W.failed sink.old sink.new page.old (lines.in_line (texts.member_text member.now)) page.new }
{
    match member {
        Member::Number(number) => {
            let mut buffer = Buffer::new();
            page.send(sink, buffer.format(*number).as_bytes());
        }
        Member::Name(text) => {
            page.send(sink, b"'");
            send_text(sink, page, text);
            page.send(sink, b"'");
        }
    }
}

/// Returns whether bytes contain neither a single quote nor a line-ending byte.
fn is_plain(bytes: &[u8]) -> bool
    ensures text { IsTrue result → lines.in_line (texts.doubled bytes.now) ≡ bytes.now }
    ensures line { IsTrue result → lines.in_line bytes.now ≡ bytes.now }
{
    for byte in bytes {
        if *byte == b'\'' || ends_line(*byte) {
            return false;
        }
    }
    true
}

/// Sends a text with each single quote doubled.
fn send_text<W: Sink>(sink: &mut W, page: &mut Page, text: &Text<'_>)
    ensures { SendsTo W.taken W.failed sink.old sink.new page.old (lines.in_line (texts.doubled text.now)) page.new }
{
    match text.as_slice() {
        Some(bytes) if is_plain(bytes) => page.send(sink, bytes),
        _ => {
            for byte in text.bytes() {
                send_text_byte(sink, page, byte);
            }
        }
    }
}

/// Sends a byte of a text, a single quote twice.
fn send_text_byte<W: Sink>(sink: &mut W, page: &mut Page, byte: u8)
    ensures { SendsTo W.taken W.failed sink.old sink.new page.old (lines.in_line (texts.doubled (byte ∷ []))) page.new }
{
    if byte == b'\'' {
        page.send(sink, b"''");
    } else {
        page.send(sink, &[within_line(byte)]);
    }
}

fn within_line(byte: u8) -> u8
    ensures { result ≡ lines.within_line byte }
{
    if ends_line(byte) { b' ' } else { byte }
}

/// Sends bytes with a space for each line-ending byte.
fn send_in_line<W: Sink>(sink: &mut W, page: &mut Page, bytes: &[u8])
    ensures { SendsTo W.taken W.failed sink.old sink.new page.old (lines.in_line bytes.now) page.new }
{
    if is_plain(bytes) {
        page.send(sink, bytes);
    } else {
        for byte in bytes {
            page.send(sink, &[within_line(*byte)]);
        }
    }
}
