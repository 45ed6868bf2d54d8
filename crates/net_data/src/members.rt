//! The members and tuples of a set in a data file.

ghost use Rattle.std.specs.Prelude.{◌≡◌, ◌≤◌, length, drop};
ghost use Rattle.net_data.specs.Meaning.{AreItems};
ghost use Rattle.net_data.specs.Rows.{first_item, begins_tuple, more_items, inside_len};
ghost use Rattle.net_data.specs.Commas.{in_set, bare};
ghost use Rattle.net_data.specs.Spots.{spot_after, rests};

use crate::cells::Cells;
use crate::expected_token::{is_comma, is_mark, is_member};
use crate::next_token::{after_commas, front};
use net_lex::{Word, Words};
use std::marker::Model;

/// The members and tuples of a set; contracts see their tokens, without the commas outside tuples.
#[derive(Drop)]
pub struct Members<'t, 's> {
    tokens: Words<'t, 's>,
}

impl<'t, 's> Model for Members<'t, 's> {
    ghost use Rattle.std.specs.Prelude.{List};
    ghost use Rattle.net_lex.specs.declared.token.Token.{Token};
    ghost use Rattle.net_data.specs.Commas.{in_set, bare};

    ghost Value = { List Token };

    ghost view = { λ members. bare in_set members.tokens };
}

impl<'t, 's> Members<'t, 's> {
    pub(crate) fn new(tokens: Words<'t, 's>) -> Members<'t, 's>
        ensures { result ≡ bare in_set tokens.entry }
    {
        Members { tokens }
    }
}

impl<'t, 's> Members<'t, 's> {
    /// Returns a copy of the slice reference; copies no tokens.
    pub fn copied(&self) -> Members<'t, 's>
        ensures { result ≡ self.now }
    {
        let tokens = &self.tokens;
        Members {
            tokens: tokens.copied(),
        }
    }

    /// Returns the members of the first item: those of a tuple, or a single member.
    pub fn first(&self) -> Option<Cells<'t, 's>>
        ensures { result ≡ first_item self.now }
    {
        first_item(&self.tokens)
    }

    /// Returns whether the first item is a tuple.
    pub fn begins_tuple(&self) -> bool
        ensures { result ≡ begins_tuple self.now }
    {
        begins_tuple(&self.tokens)
    }

    /// Returns the items after the first one.
    pub fn rest(&self) -> Members<'t, 's>
        ensures value { result ≡ more_items self.now }
        ensures items { AreItems self.now → AreItems result }
    {
        more_items(&self.tokens)
    }
}

fn begins_tuple(tokens: &Words<'_, '_>) -> bool
    ensures { result ≡ begins_tuple (bare in_set tokens.now) }
{
    match front(tokens) {
        None => false,
        Some((token, _)) => is_mark(b"(", &token),
    }
}

/// Returns the number of tokens of a tuple before its `)`.
fn inside_len(tokens: &Words<'_, '_>) -> usize
    ensures value { result ≡ inside_len tokens.now }
    ensures within { result ≤ length tokens.now }
{
    let mut len = 0;
    'tokens: for token in tokens.copied() {
        if is_mark(b")", &token) {
            return len;
        }
        len += 1;
    }
    len
}

fn first_item<'t, 's>(tokens: &Words<'t, 's>) -> Option<Cells<'t, 's>>
    ensures { result ≡ first_item (bare in_set tokens.now) }
{
    let items = after_commas(tokens);
    match items.split_first() {
        None => None,
        Some((token, rest)) => {
            if is_mark(b"(", &token) {
                let (inside, _) = rest.split_at(inside_len(&rest));
                return Some(Cells::new(inside));
            }
            let (alone, _) = items.split_at(1);
            Some(Cells::new(alone))
        }
    }
}

fn more_items<'t, 's>(tokens: &Words<'t, 's>) -> Members<'t, 's>
    ensures { result ≡ more_items (bare in_set tokens.now) }
{
    match front(tokens) {
        None => Members::new(tokens.copied()),
        Some((token, rest)) => {
            if is_mark(b"(", &token) {
                let (_, closed) = rest.split_at(inside_len(&rest));
                return Members::new(after_first(&closed));
            }
            if is_mark(b";", &token) {
                let (_, none) = rest.split_at(rest.len());
                return Members::new(none);
            }
            Members::new(rest)
        }
    }
}

fn after_first<'t, 's>(tokens: &Words<'t, 's>) -> Words<'t, 's>
    ensures { result ≡ drop 1 tokens.now }
{
    match tokens.split_first() {
        None => tokens.copied(),
        Some((_, rest)) => rest,
    }
}

/// The position of a token in the items of a set, as far as it determines which tokens can follow.
#[derive(Clone, Copy)]
pub enum Spot {
    /// Outside tuples.
    Outside,
    /// After the `(` of a tuple.
    Opened,
    /// After the first member of a tuple.
    First,
    /// After a comma of a tuple.
    Parted,
    /// After a later member of a tuple.
    Later,
}

impl Spot {
    /// Returns the position after a token, or `None` if the token is not allowed here.
    pub fn after(self, token: &Word<'_, '_>) -> Option<Spot>
        ensures { result ≡ spot_after self token.now }
    {
        match self {
            Spot::Outside if is_member(token) || is_comma(token) => Some(Spot::Outside),
            Spot::Outside if is_mark(b"(", &token) => Some(Spot::Opened),
            Spot::Outside => None,
            Spot::Opened if is_member(token) => Some(Spot::First),
            Spot::Opened => None,
            Spot::First if is_comma(token) => Some(Spot::Parted),
            Spot::First => None,
            Spot::Parted if is_member(token) => Some(Spot::Later),
            Spot::Parted => None,
            Spot::Later if is_comma(token) => Some(Spot::Parted),
            Spot::Later if is_mark(b")", token) => Some(Spot::Outside),
            Spot::Later => None,
        }
    }

    /// Returns whether no tuple is open.
    pub fn rests(self) -> bool
        ensures { result ≡ rests self }
    {
        match self {
            Spot::Outside => true,
            Spot::Opened | Spot::First | Spot::Parted | Spot::Later => false,
        }
    }
}
