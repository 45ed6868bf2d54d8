//! Tokens.

ghost use Rattle.std.specs.Prelude.{◌≡◌, ◌≤◌, length, take};
ghost use Rattle.net_lex.specs.Places.{line_of, column_of};

use net_base::{Excerpt, Span};

/// The kind of a token.
#[derive(Clone, Copy, Debug, PartialEq, Eq)]
pub enum Kind {
    /// `supply`; in data files also `2nd`.
    Name,
    /// `param`, a reserved word of models.
    Key,
    /// `1.5e3`; in data files also `-2`.
    Num,
    /// `'New York'`.
    Str,
    /// `:=`, punctuation.
    Mark,
    /// A single `.` in data: a missing value.
    Dot,
}

/// A token: its kind, its text as a slice of the source, and its span.
#[derive(Drop)]
pub struct Token<'s> {
    pub kind: Kind,
    pub text: Excerpt<'s>,
    pub span: Span,
}

impl<'s> Token<'s> {
    /// Returns a copy of the token; copies no text.
    pub fn copied(&self) -> Token<'s>
        ensures { result ≡ self.now }
    {
        Token {
            kind: self.kind,
            text: self.text.copied(),
            span: self.span,
        }
    }
}

/// Returns the line and the column of a byte of a text, both counted from 1. A line ends with its
/// LF, and columns count bytes.
pub fn line_column(text: &[u8], offset: usize) -> (u64, u64)
    requires { offset ≤ length text.now }
    ensures line { result.0 ≡ line_of (take offset text.now) }
    ensures column { result.1 ≡ column_of (take offset text.now) }
{
    let before = &text[..offset];
    (line_after(before), column_after(before))
}

fn line_after(before: &[u8]) -> u64
    ensures { result ≡ line_of before.now }
{
    before.iter().filter(|b| **b == b'\n').count() as u64 + 1
}

fn column_after(before: &[u8]) -> u64
    ensures { result ≡ column_of before.now }
{
    let mut column: u64 = 1;
    for b in before {
        column = if *b == b'\n' { 1 } else { column + 1 };
    }
    column
}
