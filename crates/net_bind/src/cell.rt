//! Tokens in data files, and their values as members.

ghost use Rattle.std.specs.Prelude.{◌≡◌, [], ◌∷◌};
ghost use Rattle.net_tree.specs.Numerals.{number_in};
ghost use Rattle.net_bind.specs.Cells.{member_in, tuple_in, number_or_name as wanted_number_or_name};

use net_base::Span;
use net_lex::{Kind, Word};
use net_sets::{Member, Text, Tuple};
use net_tree::number_in_word;
use std::marker::Model;

/// Returns the value of a token of a data file as a member.
#[tactic(auto, unfolding(crate::specs::Cells::member_in))]
pub(crate) fn member_in<'s>(word: &Word<'_, 's>) -> Member<'s>
    ensures { result ≡ member_in word.now }
{
    match word.kind() {
        Kind::Num => number_or_name(word),
        _ => Member::Name(Text::new(&word.text())),
    }
}

fn number_or_name<'s>(numeral: &Word<'_, 's>) -> Member<'s>
    ensures { result ≡ wanted_number_or_name numeral.now.text (number_in numeral.now.text) }
{
    match number_in_word(numeral) {
        Some(number) => Member::Number(number),
        None => Member::Name(Text::new(&numeral.text())),
    }
}

/// Returns the tuple of these members, at most four.
pub(crate) fn tuple_in<'s>(cells: &[Word<'_, 's>]) -> Tuple<'s>
    ensures { result ≡ tuple_in cells.now }
{
    let mut tuple = Tuple::new();
    for cell in cells {
        if !tuple.has_room() {
            return tuple;
        }
        tuple.add(member_in(cell));
    }
    tuple
}

/// A token with the member that it names, which contracts see as the token.
#[derive(Drop)]
pub(crate) struct KeyWord<'t, 's> {
    word: Word<'t, 's>,
    member: Member<'s>,
}

impl<'t, 's> Model for KeyWord<'t, 's> {
    ghost use Rattle.std.specs.Prelude.{◌≡◌};
    ghost use Rattle.net_lex.specs.declared.token.Token.{Token};
    ghost use Rattle.net_bind.specs.Cells.{member_in};

    ghost Value = { Token };

    ghost view = { λ k. k.word };

    ghost invariant = { λ k. k.member ≡ member_in k.word };
}

impl<'t, 's> KeyWord<'t, 's> {
    pub(crate) fn new(word: &Word<'t, 's>) -> KeyWord<'t, 's>
        ensures { result ≡ word.now }
    {
        KeyWord {
            word: word.copied(),
            member: member_in(word),
        }
    }

    /// Returns the span of the token.
    pub(crate) fn span(&self) -> Span
        ensures { result ≡ self.now.span }
    {
        self.word.span()
    }

    /// Returns a copy of the member.
    fn member(&self) -> Member<'s>
        ensures { result ≡ member_in self.now }
    {
        self.member.copied()
    }
}

/// Returns the tuple of two members.
pub(crate) fn pair_in<'s>(first: &KeyWord<'_, 's>, second: &KeyWord<'_, 's>) -> Tuple<'s>
    ensures { result ≡ tuple_in (first.now ∷ second.now ∷ []) }
{
    let mut tuple = Tuple::single(first.member());
    tuple.add(second.member());
    tuple
}
