//! The sorts of tokens that the grammar of data expects.

ghost use Rattle.std.specs.Prelude.{◌≡◌};
ghost use Rattle.net_data.specs.Tests.{is_name, is_member, is_cell, is_word, is_mark, is_comma, is_of};

use net_lex::{Kind, Word};

/// The sort of a token.
#[derive(Clone, Copy)]
pub enum Expected {
    /// A name.
    Name,
    /// A name, a number or a string.
    Member,
    /// A member or the missing-value dot.
    Cell,
    /// `:=`
    Assign,
    /// `:`
    Colon,
    /// `;`
    Semicolon,
    /// `(`
    Opening,
    /// `)`
    Closing,
    /// `data`
    Data,
    /// `end`
    End,
    /// `set`
    Set,
    /// `param`
    Param,
    /// `default`
    Default,
    /// `tr`
    Transposed,
}

fn is_name(token: &Word<'_, '_>) -> bool
    ensures { result ≡ is_name token.now }
{
    match token.kind() {
        Kind::Name => true,
        Kind::Key | Kind::Num | Kind::Str | Kind::Mark | Kind::Dot => false,
    }
}

/// Returns whether a token is a name, a number or a string.
pub(crate) fn is_member(token: &Word<'_, '_>) -> bool
    ensures { result ≡ is_member token.now }
{
    match token.kind() {
        Kind::Name | Kind::Num | Kind::Str => true,
        Kind::Key | Kind::Mark | Kind::Dot => false,
    }
}

/// Returns whether a token is a member or the missing-value dot.
fn is_cell(token: &Word<'_, '_>) -> bool
    ensures { result ≡ is_cell token.now }
{
    match token.kind() {
        Kind::Name | Kind::Num | Kind::Str | Kind::Dot => true,
        Kind::Key | Kind::Mark => false,
    }
}

/// Returns whether a token is of this sort.
pub(crate) fn is_of(sort: Expected, token: &Word<'_, '_>) -> bool
    ensures { result ≡ is_of sort token.now }
{
    match sort {
        Expected::Name => is_name(token),
        Expected::Member => is_member(token),
        Expected::Cell => is_cell(token),
        Expected::Assign => is_mark(b":=", token),
        Expected::Colon => is_mark(b":", token),
        Expected::Semicolon => is_mark(b";", token),
        Expected::Opening => is_mark(b"(", token),
        Expected::Closing => is_mark(b")", token),
        Expected::Data => is_word(b"data", token),
        Expected::End => is_word(b"end", token),
        Expected::Set => is_word(b"set", token),
        Expected::Param => is_word(b"param", token),
        Expected::Default => is_word(b"default", token),
        Expected::Transposed => is_word(b"tr", token),
    }
}

/// Returns whether a token is this name.
pub(crate) fn is_word(text: &[u8], token: &Word<'_, '_>) -> bool
    ensures { result ≡ is_word text.now token.now }
{
    match token.kind() {
        Kind::Name => text == token.text().as_str().as_bytes(),
        Kind::Key | Kind::Num | Kind::Str | Kind::Mark | Kind::Dot => false,
    }
}

/// Returns whether a token is this punctuation.
pub(crate) fn is_mark(text: &[u8], token: &Word<'_, '_>) -> bool
    ensures { result ≡ is_mark text.now token.now }
{
    match token.kind() {
        Kind::Mark => text == token.text().as_str().as_bytes(),
        Kind::Key | Kind::Name | Kind::Num | Kind::Str | Kind::Dot => false,
    }
}

pub(crate) fn is_comma(token: &Word<'_, '_>) -> bool
    ensures { result ≡ is_comma token.now }
{
    is_mark(b",", token)
}
