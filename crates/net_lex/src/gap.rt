//! Blanks and comments between tokens.
ghost use Rattle.std.specs.Prelude.{◌≡◌, ◌≤◌, ℕ, List, Ok, Err, length, drop, MatchResult};
ghost use Rattle.std.specs.List.{prefix_len};
ghost use Rattle.std.specs.Str.{IsCharBoundary};
ghost use Rattle.net_lex.specs.GapFront.{place_after, opened_at, after_gap};
ghost use Rattle.net_lex.specs.Characters.{is_blank};
ghost use Rattle.net_lex.specs.declared.gap.Place.TheVariants.{Between};

use crate::bytes::byte_at;

/// The state between two bytes of blanks and comments.
#[derive(Clone, Copy)]
enum Place {
    Between,
    /// Inside `# a comment`.
    Line,
    /// Before the `*` of `/*`.
    Opening,
    /// Inside `/* a comment */`.
    Block,
    /// Before the `/` of `*/`.
    Closing,
}

fn is_blank(byte: u8) -> bool
    ensures { result ≡ is_blank byte }
{
    byte == b' ' || byte == b'\n' || byte == b'\r' || byte == b'\t'
}

fn place_after(place: Place, byte: u8, next: u8) -> Option<Place>
    ensures { result ≡ place_after place byte next }
{
    match place {
        Place::Between if is_blank(byte) => Some(Place::Between),
        Place::Between if byte == b'#' => Some(Place::Line),
        Place::Between if byte == b'/' && next == b'*' => Some(Place::Opening),
        Place::Between => None,
        Place::Line if byte == b'\n' => Some(Place::Between),
        Place::Line => Some(Place::Line),
        Place::Opening => Some(Place::Block),
        Place::Block if byte == b'*' && next == b'/' => Some(Place::Closing),
        Place::Block => Some(Place::Block),
        Place::Closing => Some(Place::Between),
    }
}

fn opened_at(place: Place, here: usize, opened: usize) -> usize
    ensures value { (text : List ℕ) → drop result text ≡ opened_at place (drop here text) (drop opened text) }
    ensures within { (n : ℕ) → here ≤ n → opened ≤ n → result ≤ n }
{
    match place {
        Place::Between => here,
        Place::Line | Place::Opening | Place::Block | Place::Closing => opened,
    }
}

fn blank_len(bytes: &[u8]) -> usize
    ensures value { result ≡ prefix_len is_blank bytes.now }
    ensures within { result ≤ length bytes.now }
{
    bytes.iter().take_while(|b| is_blank(**b)).count()
}

/// Returns the length of the leading blanks and comments, or the position of an unclosed comment as
/// the error.
fn commented_len(text: &str) -> Result<usize, usize>
    ensures value { MatchResult result
        (λ n. after_gap Between text.now text.now ≡ Ok (drop n text.now))
        (λ n. after_gap Between text.now text.now ≡ Err (drop n text.now)) }
    ensures cut { MatchResult result (IsCharBoundary text.now) (λ n. n ≤ length text.now) }
{
    let bytes = text.as_bytes();
    let mut place = Place::Between;
    let mut opened = 0;
    for at in 0..bytes.len() {
        opened = opened_at(place, at, opened);
        match place_after(place, bytes[at], byte_at(bytes, at + 1)) {
            Some(next) => place = next,
            None => return Ok(at),
        }
    }
    match place {
        Place::Between | Place::Line => Ok(bytes.len()),
        Place::Opening | Place::Block | Place::Closing => Err(opened),
    }
}

/// Returns the length of the leading blanks and comments, or the position of an unclosed comment as
/// the error. Counts blanks alone unless a comment may follow.
pub(crate) fn gap_len(text: &str) -> Result<usize, usize>
    ensures value { MatchResult result
        (λ n. after_gap Between text.now text.now ≡ Ok (drop n text.now))
        (λ n. after_gap Between text.now text.now ≡ Err (drop n text.now)) }
    ensures cut { MatchResult result (IsCharBoundary text.now) (λ n. n ≤ length text.now) }
{
    let bytes = text.as_bytes();
    let blanks = blank_len(bytes);
    let next = byte_at(bytes, blanks);
    if next == b'#' || next == b'/' {
        commented_len(text)
    } else {
        Ok(blanks)
    }
}
