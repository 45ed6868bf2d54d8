//! Splitting a text into lines, and a line into fields.

ghost use Rattle.std.specs.Prelude.{◌≡◌, ◌==◌, not, true, ◌-◌, ◌<◌, ◌≤◌, slice_index, ◌∷◌, [], length, drop, IfSome, MatchOption};
ghost use Rattle.std.specs.List.{position, AllByRecursion};
ghost use Rattle.std.specs.Str.Lines.{lines, strip_carriage_return};
ghost use Rattle.net_dimacs.specs.Lines.{is_blank, is_feed, fields_of, HasNone, IsFirstField};

/// Splits off the first line of a text. Returns `None` if the text is empty.
///
/// Removes the LF of the line and a CR before it. A CR at the end of the text stays.
pub fn split_line(text: &[u8]) -> Option<(&[u8], &[u8])>
    ensures parts { MatchOption result (lines text.now ≡ []) (λ p. lines text.now ≡ p.0.now ∷ lines p.1.now) }
    ensures shorter { IfSome result (λ p. length p.1.now < length text.now) }
{
    if text.is_empty() {
        return None;
    }
    let end = first_feed(text).unwrap_or(text.len());
    let (line, rest) = text.split_at(end);
    if rest.is_empty() {
        return Some((line, rest));
    }
    Some((without_return(line), &rest[1..]))
}

/// Returns the length of the prefix that ends with the last LF, or 0 if there is none.
pub fn after_last_feed(bytes: &[u8]) -> usize
    ensures within { result ≤ length bytes.now }
    ensures feed { 0 < result → slice_index bytes.now (result - 1) ≡ 10 }
    ensures no_feed { HasNone is_feed (drop result bytes.now) }
{
    let mut end = bytes.len();
    while end > 0 && bytes[end - 1] != b'\n' {
        end -= 1;
    }
    end
}

/// Returns the index of the first LF.
pub fn first_feed(text: &[u8]) -> Option<usize>
    ensures { result ≡ position (λ b. b == 10) text.now }
{
    text.iter().position(|byte| *byte == b'\n')
}

/// Removes a CR at the end of a line, if there is one.
fn without_return(line: &[u8]) -> &[u8]
    ensures { result.now ≡ strip_carriage_return line.now }
{
    if line.is_empty() || line[line.len() - 1] != b'\r' {
        return line;
    }
    &line[..line.len() - 1]
}

/// Splits off the first field of some bytes. Returns `None` if there is no field.
pub fn split_field(bytes: &[u8]) -> Option<(&[u8], &[u8])>
    ensures parts { MatchOption result (fields_of bytes.now ≡ []) (λ p. fields_of bytes.now ≡ p.0.now ∷ fields_of p.1.now) }
    ensures cut { MatchOption result (AllByRecursion (λ b. is_blank b ≡ true) bytes.now) (λ p. IsFirstField bytes.now p.0.now p.1.now) }
    ensures shorter { IfSome result (λ p. length p.1.now < length bytes.now) }
{
    let start = first_other(bytes).unwrap_or(bytes.len());
    let (_, rest) = bytes.split_at(start);
    if rest.is_empty() {
        return None;
    }
    let end = first_blank(rest).unwrap_or(rest.len());
    Some(rest.split_at(end))
}

/// Returns the index of the first byte that is neither a space nor a tab.
fn first_other(bytes: &[u8]) -> Option<usize>
    ensures { result ≡ position (λ b. not (is_blank b)) bytes.now }
{
    bytes.iter().position(|byte| !is_blank(*byte))
}

/// Returns the index of the first space or tab.
fn first_blank(bytes: &[u8]) -> Option<usize>
    ensures { result ≡ position is_blank bytes.now }
{
    bytes.iter().position(|byte| is_blank(*byte))
}

/// Returns whether a byte separates fields: a space or a tab.
#[inline(always)]
pub fn is_blank(byte: u8) -> bool
    ensures { result ≡ is_blank byte }
{
    byte == b' ' || byte == b'\t'
}
