//! The lines that map the numbers of a problem back to the names of its model.

ghost use Rattle.std.specs.Prelude.{◌≡◌, ◌+◌, ◌^◌, ◌<◌, ◌≤◌, ◌||◌, ◌∷◌, ◌++◌, OnErr, OnOk, MatchOption, is_err, length, not, string_bytes, vec_len, ℕ, List};
ghost use Rattle.std.specs.Io.KnownBytes.{Appends};
ghost use Rattle.std.specs.List.{prefix_len, AllByRecursion};
ghost use Rattle.std.specs.Str.{IsUtf8};
ghost use Rattle.net_io.specs.Ends.{WritesFront};
ghost use Rattle.net_io.specs.Paging.{SendsTo};
ghost use Rattle.net_lex.specs.LineEnds.{ends_line, HasNoLineEnd};
ghost use Rattle.net_report.specs.References.{declared_name, names_in, names_of};
ghost use Rattle.net_report.specs.Links as lines;
ghost use Rattle.net_inst.specs.Lists.{Listed};
ghost use Rattle.net_report.specs.LineNames.{HasLineNames};
ghost use Rattle.net_report.specs.Links.{in_line};

use crate::written_name::send_name;
use itoa::Buffer;
use net_inst::{Declared, DeclaredRows, NameList, Names};
use net_io::{Failed, Page, Sink};
use net_normal::{Link, Sense};
use net_sets::Tuple;
use std::alloc::AllocError;

/// Writes the comment lines at the top of a problem through a buffer of one page: the constant and
/// the sign that give the objective value from a cost, and the name for each number. Allocates no
/// memory.
///
/// The link has a number and an offset for each arc name; number 0 means that the problem omits the
/// arc. On `Failed`, a prefix of the lines was written.
pub fn write_links_to<W: Sink>(names: &Names<'_>, link: &Link, sink: &mut W) -> Result<(), Failed>
    requires { vec_len link.now.numbers ≡ length names.now.arcs.keys }
    ensures ok { OnOk result (Appends (W.taken sink.old) (W.taken sink.new) (lines.link_text names.now link.now)) }
    ensures err { OnErr result (WritesFront (W.taken sink.old) (W.taken sink.new) (lines.link_text names.now link.now)) }
    ensures flag { W.failed sink.new ≡ (W.failed sink.old || is_err result) }
{
    let mut page = Page::new();
    send_links(sink, &mut page, names, link);
    page.finish(sink)
}

fn send_links<W: Sink>(sink: &mut W, page: &mut Page, names: &Names<'_>, link: &Link)
    requires { vec_len link.now.numbers ≡ length names.now.arcs.keys }
    ensures { SendsTo W.taken W.failed sink.old sink.new page.old (lines.link_text names.now link.now) page.new }
{
    send_constant(sink, page, link.constant);
    page.send(sink, sign_line(link.sense));
    send_nodes(sink, page, &names.nodes);
    send_arcs(sink, page, &names.arcs, link);
}

fn send_constant<W: Sink>(sink: &mut W, page: &mut Page, constant: i128)
    ensures { SendsTo W.taken W.failed sink.old sink.new page.old (lines.constant_line constant) page.new }
{
    let mut buffer = Buffer::new();
    page.send(sink, b"c constant ");
    page.send(sink, buffer.format(constant).as_bytes());
    page.send(sink, b"\n");
}

fn sign_line(sense: Sense) -> &'static [u8]
    ensures value { result.now ≡ lines.sign_line sense }
{
    match sense {
        Sense::Minimise => b"c sign 1\n",
        Sense::Maximise => b"c sign -1\n",
    }
}

fn send_nodes<W: Sink>(sink: &mut W, page: &mut Page, nodes: &NameList<'_>)
    ensures { SendsTo W.taken W.failed sink.old sink.new page.old (lines.node_lines 0 (names_in nodes.now)) page.new }
{
    // Several declarations can have more nodes than a `u64` counts.
    let mut count: u128 = 0;
    for declaration in nodes.declarations() {
        let own_count = declaration.rows.len();
        send_declared_nodes(sink, page, count, declaration);
        count += own_count as u128;
    }
}

/// Sends a line for each node of a declaration; `count` nodes come before them.
fn send_declared_nodes<W: Sink>(
    sink: &mut W,
    page: &mut Page,
    count: u128,
    declaration: &DeclaredRows<'_>,
)
    requires { count + length declaration.now.rows < 2 ^ 128 }
    ensures { SendsTo W.taken W.failed sink.old sink.new page.old (lines.node_lines count (names_of declaration.now)) page.new }
{
    for place in 0..declaration.rows.len() {
        let key = declaration.rows.key(place);
        let number = count + place as u128 + 1;
        send_node(sink, page, number, &declaration.declared, &key);
    }
}

fn send_node<W: Sink>(
    sink: &mut W,
    page: &mut Page,
    number: u128,
    declared: &Declared<'_>,
    key: &Tuple<'_>,
)
    ensures { SendsTo W.taken W.failed sink.old sink.new page.old (lines.node_line number (declared_name (Some declared.now) key.now)) page.new }
{
    let mut buffer = Buffer::new();
    page.send(sink, b"c node ");
    page.send(sink, buffer.format(number).as_bytes());
    page.send(sink, b" ");
    send_name(sink, page, declared, key);
    page.send(sink, b"\n");
}

fn send_arcs<W: Sink>(sink: &mut W, page: &mut Page, arcs: &NameList<'_>, link: &Link)
    requires { vec_len link.now.numbers ≡ length arcs.now.keys }
    ensures { SendsTo W.taken W.failed sink.old sink.new page.old (lines.arc_lines link.now.numbers.items link.now.offsets.items (names_in arcs.now)) page.new }
{
    let mut numbers = link.numbers.as_slice();
    let mut offsets = link.offsets.as_slice();
    for declaration in arcs.declarations() {
        let own_count = declaration.rows.len();
        let (own_numbers, later_numbers) = numbers.split_at(own_count);
        let (own_offsets, later_offsets) = offsets.split_at(own_count);
        send_declared_arcs(sink, page, declaration, own_numbers, own_offsets);
        numbers = later_numbers;
        offsets = later_offsets;
    }
}

/// Sends a line for each arc of a declaration.
fn send_declared_arcs<W: Sink>(
    sink: &mut W,
    page: &mut Page,
    declaration: &DeclaredRows<'_>,
    numbers: &[u32],
    offsets: &[i64],
)
    requires numbers { length numbers.now ≡ length declaration.now.rows }
    requires offsets { length offsets.now ≡ length declaration.now.rows }
    ensures { SendsTo W.taken W.failed sink.old sink.new page.old (lines.arc_lines numbers.now offsets.now (names_of declaration.now)) page.new }
{
    for place in 0..declaration.rows.len() {
        let key = declaration.rows.key(place);
        send_arc(
            sink,
            page,
            numbers[place],
            offsets[place],
            &declaration.declared,
            &key,
        );
    }
}

fn send_arc<W: Sink>(
    sink: &mut W,
    page: &mut Page,
    number: u32,
    offset: i64,
    declared: &Declared<'_>,
    key: &Tuple<'_>,
)
    ensures { SendsTo W.taken W.failed sink.old sink.new page.old (lines.arc_line number offset (declared_name (Some declared.now) key.now)) page.new }
{
    let mut buffer = Buffer::new();
    page.send(sink, b"c arc ");
    page.send(sink, buffer.format(number).as_bytes());
    page.send(sink, b" ");
    page.send(sink, buffer.format(offset).as_bytes());
    page.send(sink, b" ");
    send_name(sink, page, declared, key);
    page.send(sink, b"\n");
}

/// Appends a text as written within a line: with a space for each line-ending byte, LF or CR. Fails
/// only if memory runs out.
pub fn push_in_line(line: &mut String, text: &str) -> Result<(), AllocError>
    ensures ok { OnOk result (string_bytes line.new ≡ string_bytes line.old ++ lines.in_line text.now) }
{
    let mut left = text;
    while let Some((before, behind)) = cut_at_line_end(left) {
        line.push_str(before)?;
        line.push_str(" ")?;
        left = behind;
    }
    line.push_str(left)
}

/// Splits a text at the first line-ending byte, which is dropped. Returns `None` if there is none.
fn cut_at_line_end(text: &str) -> Option<(&str, &str)>
    ensures { MatchOption result
        (lines.in_line text.now ≡ text.now)
        (λ r. (lines.in_line text.now ≡ r.0.now ++ 32 ∷ lines.in_line r.1.now) × (length r.1.now < length text.now) × IsUtf8 r.1.now) }
{
    let plain = plain_len(text.as_bytes());
    if plain < text.len() {
        Some((&text[..plain], &text[plain + 1..]))
    } else {
        None
    }
}

/// Returns the number of bytes before the first line-ending byte.
fn plain_len(bytes: &[u8]) -> usize
    ensures value { result ≡ prefix_len (λ b. not (ends_line b)) bytes.now }
    ensures within { result ≤ length bytes.now }
{
    bytes.iter().take_while(|b| !ends_line(**b)).count()
}

pub(crate) fn ends_line(byte: u8) -> bool
    ensures { result ≡ ends_line byte }
{
    byte == b'\n' || byte == b'\r'
}

/// Theorem: a name without line endings is unchanged as written within a line.
pub fn line_names_are_names()
    ensures value { (name : List ℕ) → HasNoLineEnd name → in_line name ≡ name }
{}

/// Theorem: if no declared name and no text of a key contains a line ending, no printed name of a
/// node or an arc contains one, so all names are unchanged as written within a line.
pub fn names_stay_within_lines()
    ensures value { (listed : Listed) → HasLineNames listed → AllByRecursion HasNoLineEnd (names_in listed) }
    ensures unchanged { (listed : Listed) → HasLineNames listed → AllByRecursion (λ name. in_line name ≡ name) (names_in listed) }
{}
