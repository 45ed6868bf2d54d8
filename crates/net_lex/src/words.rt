//! The tokens of a text, stored as their positions in it.

ghost use Rattle.std.specs.Prelude.{◌≡◌, ◌-◌, ◌≤◌, ◌<◌, ◌^◌, ◌∷◌, [], drop, length, map, slice_get, take, All, IfErr, IfOk, MatchOption, MatchResult};
ghost use Rattle.std.specs.Str.{IsUtf8};
ghost use Rattle.net_lex.specs.Limits.{limits};
ghost use Rattle.net_lex.specs.Numerals.{IsNumFault, IsValue};
ghost use Rattle.net_lex.specs.Packed.{IsIn, unpacked};

use crate::token::{Kind, Token};
use crate::whole::{NumFault, whole_of};
use net_base::{Excerpt, Span};
use std::alloc::{AllocError, Global};
use std::marker::Model;

/// The position of a token in its text, its kind, and the code of its value: the value plus 1 if it is from 0 to 65,534, else 0, as
/// for tokens that are not numerals. A text has at most 2^24 bytes, a token 255.
#[derive(Clone, Copy)]
pub struct PackedToken {
    pub(crate) start: u32,
    pub(crate) len: u8,
    pub(crate) kind: Kind,
    pub(crate) value_code: u16,
}

const _: () = prove!(size_of::<PackedToken>() == 8);

impl PackedToken {
    /// Returns the position and the kind of a token, with the code of its value.
    pub(crate) fn of(token: &Token<'_>, value_code: u16) -> PackedToken
        requires start { token.now.span.start < 2 ^ 32 }
        requires short { length token.now.text ≤ 255 }
        ensures value { result ≡ record { start = token.now.span.start; len = length token.now.text; kind = token.now.kind; value_code = value_code } }
        ensures utf8 { IsUtf8 token.now.text }
    {
        let text = token.text.as_str();
        PackedToken {
            start: token.span.start as u32,
            len: text.len() as u8,
            kind: token.kind,
            value_code,
        }
    }
}

/// Returns the text of a token.
fn text_at<'s>(text: &'s str, token: PackedToken) -> &'s str
    requires { IsIn text.now token }
    ensures { result.now ≡ (unpacked text.entry.now token).text }
{
    let start = token.start as usize;
    &text[start..start + usize::from(token.len)]
}

/// A token by its position in its text, which contracts see as the token.
#[derive(Drop)]
pub struct Word<'t, 's> {
    text: &'t &'s str,
    token: PackedToken,
}

impl<'t, 's> Model for Word<'t, 's> {
    ghost use Rattle.net_lex.specs.declared.token.Token.{Token};
    ghost use Rattle.net_lex.specs.Packed.{IsIn, unpacked};

    ghost Value = { Token };

    ghost view = { λ w. unpacked w.text.now.now w.token };

    ghost invariant = { λ w. IsIn w.text.now.now w.token };
}

impl<'t, 's> Word<'t, 's> {
    /// Returns a copy of the reference.
    pub fn copied(&self) -> Word<'t, 's>
        ensures { result ≡ self.now }
    {
        Word {
            text: self.text,
            token: self.token,
        }
    }

    /// Returns the kind of the token.
    pub fn kind(&self) -> Kind
        ensures { result ≡ self.now.kind }
    {
        self.token.kind
    }

    /// Returns the text of the token.
    pub fn text(&self) -> Excerpt<'s>
        ensures { result ≡ self.now.text }
    {
        let text = self.text;
        Excerpt::new(text_at(text, self.token))
    }

    /// Returns the span of the token.
    pub fn span(&self) -> Span
        ensures { result ≡ self.now.span }
    {
        let token = self.token;
        let start = token.start as usize;
        Span {
            start,
            end: start + usize::from(token.len),
        }
    }

    /// Returns the value of a numeral as `whole_of` does for its text, without reading it again if the value is from 0 to 65,534.
    pub fn number(&self) -> Result<i64, NumFault>
        ensures { MatchResult result (λ v. IsValue limits.value self.now.text v) (λ why. IsNumFault limits.value self.now.text why) }
    {
        match self.token.value_code {
            0 => whole_of(self.text().as_str()),
            code => Ok(i64::from(code) - 1),
        }
    }

    /// Returns the token.
    pub fn token(&self) -> Token<'s>
        ensures { result ≡ self.now }
    {
        Token {
            kind: self.kind(),
            text: self.text(),
            span: self.span(),
        }
    }
}

/// Consecutive tokens of a text, which contracts see as their list.
#[derive(Drop)]
pub struct Words<'t, 's> {
    text: &'t &'s str,
    tokens: &'t [PackedToken],
}

impl<'t, 's> Model for Words<'t, 's> {
    ghost use Rattle.std.specs.Prelude.{All, List, map};
    ghost use Rattle.net_lex.specs.declared.token.Token.{Token};
    ghost use Rattle.net_lex.specs.Packed.{IsIn, unpacked};

    ghost Value = { List Token };

    ghost view = { λ w. map (unpacked w.text.now.now) w.tokens.now };

    ghost invariant = { λ w. All (IsIn w.text.now.now) w.tokens.now };
}

impl<'t, 's> Words<'t, 's> {
    /// Returns a copy of the reference; copies no tokens.
    pub fn copied(&self) -> Words<'t, 's>
        ensures { result ≡ self.now }
    {
        Words {
            text: self.text,
            tokens: self.tokens,
        }
    }

    /// Returns the number of tokens.
    pub fn len(&self) -> usize
        ensures { result ≡ length self.now }
    {
        self.tokens.len()
    }

    /// Returns the first token, and the tokens after it.
    pub fn split_first(&self) -> Option<(Word<'t, 's>, Words<'t, 's>)>
        ensures { MatchOption result (self.now ≡ []) (λ r. self.now ≡ r.0 ∷ r.1) }
    {
        let (token, rest) = self.tokens.split_first()?;
        let word = Word {
            text: self.text,
            token: *token,
        };
        Some((
            word,
            Words {
                text: self.text,
                tokens: rest,
            },
        ))
    }

    /// Returns the last token.
    pub fn last(&self) -> Option<Word<'t, 's>>
        ensures { result ≡ slice_get self.now (length self.now - 1) }
    {
        let token = self.tokens.last()?;
        Some(Word {
            text: self.text,
            token: *token,
        })
    }

    /// Returns the first `count` tokens, and the tokens after them.
    pub fn split_at(&self, count: usize) -> (Words<'t, 's>, Words<'t, 's>)
        requires { count ≤ length self.now }
        ensures front { result.0 ≡ take count self.now }
        ensures back { result.1 ≡ drop count self.now }
    {
        let (front, back) = self.tokens.split_at(count);
        let front = Words {
            text: self.text,
            tokens: front,
        };
        (
            front,
            Words {
                text: self.text,
                tokens: back,
            },
        )
    }
}

impl<'t, 's> Iterator for Words<'t, 's> {
    type Item = Word<'t, 's>;

    ghost use Rattle.std.specs.Iterator.{YieldsFirst, item_count};

    ghost next_gives = { YieldsFirst (λ w. w) };

    ghost remaining = { item_count (λ w. w) };

    fn next(&mut self) -> Option<Word<'t, 's>> {
        let (word, rest) = self.split_first()?;
        *self = rest;
        Some(word)
    }
}

/// The tokens of a text, which contracts see as their list.
#[derive(Drop)]
pub struct WordList<'s> {
    text: &'s str,
    tokens: Vec<PackedToken>,
}

impl<'s> Model for WordList<'s> {
    ghost use Rattle.std.specs.Prelude.{All, List, map};
    ghost use Rattle.net_lex.specs.declared.token.Token.{Token};
    ghost use Rattle.net_lex.specs.Packed.{IsIn, unpacked};

    ghost Value = { List Token };

    ghost view = { λ w. map (unpacked w.text.now) w.tokens.items };

    ghost invariant = { λ w. All (IsIn w.text.now) w.tokens.items };
}

impl<'s> WordList<'s> {
    /// Creates the list of the tokens at these positions of a text.
    pub(crate) fn new(text: &'s str, tokens: Vec<PackedToken>) -> WordList<'s>
        requires { All (IsIn text.now) tokens.items }
        ensures { result ≡ map (unpacked text.entry.now) tokens.items }
    {
        WordList { text, tokens }
    }

    /// Returns all tokens.
    pub fn words(&self) -> Words<'_, 's>
        ensures { result ≡ self.now }
    {
        Words {
            text: &self.text,
            tokens: self.tokens.as_slice(),
        }
    }

    /// Returns a copy of the tokens, of 40 bytes each. Fails only if memory runs out, and not for
    /// an empty list.
    pub(crate) fn to_tokens(&self, alloc: Global) -> Result<Vec<Token<'s>>, AllocError>
        ensures value { IfOk result (λ tokens. tokens.items ≡ self.now) }
        ensures some { IfErr result (λ _. 0 < length self.now) }
    {
        let mut tokens = Vec::new(alloc);
        for word in self.words() {
            tokens.push(word.token())?;
        }
        Ok(tokens)
    }
}
