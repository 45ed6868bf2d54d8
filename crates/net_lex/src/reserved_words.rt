//! Reserved words, and the punctuation of models and data.

ghost use Rattle.std.specs.Prelude.{◌≡◌, ◌==◌, [], ◌∷◌, map};
ghost use Rattle.std.specs.List.{filter};
ghost use Rattle.net_lex.specs.Bytes.{first};
ghost use Rattle.net_lex.specs.Words.{reserved, is_among, is_reserved, model_marks, model_mark_len, data_mark_len};

use crate::bytes::{first, second};

/// Returns the reserved words of models that begin with this letter.
fn reserved_with(letter: u8) -> &'static [&'static [u8]]
    ensures { map (λ word. word.now) result.now ≡ filter (λ word. first word == letter) reserved }
{
    match letter {
        b'a' => &[b"and", b"arc"],
        b'b' => &[b"by"],
        b'c' => &[b"check", b"cross"],
        b'd' => &[b"default", b"diff", b"dimen", b"div"],
        b'e' => &[b"else", b"exists"],
        b'f' => &[b"forall", b"from"],
        b'i' => &[b"if", b"in", b"integer", b"inter"],
        b'I' => &[b"Infinity"],
        b'l' => &[b"less"],
        b'm' => &[b"max", b"maximize", b"min", b"minimize", b"mod"],
        b'n' => &[b"net_in", b"net_out", b"node", b"not"],
        b'o' => &[b"obj", b"or"],
        b'p' => &[b"param", b"prod"],
        b's' => &[b"set", b"setof", b"sum", b"symbolic", b"symdiff"],
        b't' => &[b"then", b"to"],
        b'u' => &[b"union"],
        b'w' => &[b"within"],
        _ => &[],
    }
}

/// Returns whether a text is a reserved word of models.
#[tactic(auto, unfolding(crate::specs::Words::is_reserved))]
pub(crate) fn is_reserved(text: &[u8]) -> bool
    ensures { result ≡ is_reserved text.now }
{
    reserved_with(first(text)).contains(&text)
}

/// Returns the length of the data punctuation with which a text begins, or 0.
#[tactic(auto, unfolding(crate::specs::Words::data_mark_len))]
pub(crate) fn data_mark_len(text: &[u8]) -> usize
    ensures { result ≡ data_mark_len text.now }
{
    match text {
        [b':', b'=', ..] => 2,
        [b';' | b':' | b',' | b'(' | b')' | b'[' | b']' | b'*', ..] => 1,
        _ => 0,
    }
}

/// Returns whether two bytes are a punctuation token of models.
fn is_model_pair(front: u8, next: u8) -> bool
    ensures { result ≡ is_among model_marks (front ∷ next ∷ []) }
{
    match next {
        b'=' => matches!(front, b':' | b'<' | b'>' | b'=' | b'!'),
        b'>' => front == b'<',
        b'.' | b'*' | b'&' | b'|' => front == next,
        _ => false,
    }
}

/// Returns whether a single byte is a punctuation token of models.
fn is_model_mark(byte: u8) -> bool
    ensures { result ≡ is_among model_marks (byte ∷ []) }
{
    match byte {
        b';' | b':' | b',' | b'.' | b'(' | b')' | b'{' | b'}' | b'[' | b']' => true,
        b'+' | b'-' | b'*' | b'/' | b'^' | b'&' | b'!' | b'<' | b'>' | b'=' => true,
        _ => false,
    }
}

/// Returns the length of the model punctuation with which a text begins, or 0.
pub(crate) fn model_mark_len(text: &[u8]) -> usize
    ensures { result ≡ model_mark_len text.now }
{
    let front = first(text);
    if is_model_pair(front, second(text)) {
        2
    } else if is_model_mark(front) {
        1
    } else {
        0
    }
}
