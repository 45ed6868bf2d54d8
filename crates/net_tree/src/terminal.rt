//! Tokens of trees with what the parser decoded from them. Contracts see each as its token.

ghost use Rattle.std.specs.Prelude.{◌≡◌};
ghost use Rattle.net_tree.specs.Operations.{is_outflow};
ghost use Rattle.net_tree.specs.Numerals.{NumeralsHaveNumbers, number_in, number_of};
ghost use Rattle.net_tree.specs.Role.{role_of};

use crate::role::{Role, role_of};
use net_lex::{Token, Word, whole_of};
use std::marker::Model;

/// A token with its grammatical role.
#[derive(Drop)]
pub struct Terminal<'s> {
    token: Token<'s>,
    role: Role,
}

/// A name, a numeral or a string, with the value of a numeral.
#[derive(Drop)]
pub struct Leaf<'s> {
    token: Token<'s>,
    number: Option<i64>,
}

/// `net_in` or `net_out`.
#[derive(Drop)]
pub struct NetWord<'s> {
    token: Token<'s>,
    is_outflow: bool,
}

impl<'s> Model for Terminal<'s> {
    ghost use Rattle.std.specs.Prelude.{◌≡◌};
    ghost use Rattle.net_lex.specs.declared.token.Token.{Token};
    ghost use Rattle.net_tree.specs.Role.{role_of};

    ghost Value = { Token };

    ghost view = { λ t. t.token };

    ghost invariant = { λ t. t.role ≡ role_of t.token };
}

impl<'s> Model for Leaf<'s> {
    ghost use Rattle.std.specs.Prelude.{◌≡◌};
    ghost use Rattle.net_lex.specs.declared.token.Token.{Token};
    ghost use Rattle.net_tree.specs.Numerals.{number_of};

    ghost Value = { Token };

    ghost view = { λ l. l.token };

    ghost invariant = { λ l. l.number ≡ number_of l.token };
}

impl<'s> Model for NetWord<'s> {
    ghost use Rattle.std.specs.Prelude.{◌≡◌};
    ghost use Rattle.net_lex.specs.declared.token.Token.{Token};
    ghost use Rattle.net_tree.specs.Operations as operations;

    ghost Value = { Token };

    ghost view = { λ w. w.token };

    ghost invariant = { λ w. w.is_outflow ≡ operations.is_outflow w.token };
}

/// Returns the value of a numeral, if it is an integer of absolute value at most 10^12.
fn number_in(numeral: &str) -> Option<i64>
    ensures { result ≡ number_in numeral.now }
{
    match whole_of(numeral) {
        Ok(number) => Some(number),
        Err(_) => None,
    }
}

/// Returns the value of a token of data, if it is a numeral whose value is an integer of absolute value at most 10^12. Does not
/// read the numeral again if its token has the value.
pub fn number_in_word(word: &Word<'_, '_>) -> Option<i64>
    ensures { result ≡ number_in word.now.text }
{
    match word.number() {
        Ok(number) => Some(number),
        Err(_) => None,
    }
}

#[tactic(auto, unfolding(crate::specs::Numerals::number_of))]
fn number_of(token: &Token<'_>) -> Option<i64>
    ensures { result ≡ number_of token.now }
{
    match role_of(token) {
        Role::Number => number_in(token.text.as_str()),
        _ => None,
    }
}

#[tactic(auto, unfolding(crate::specs::Operations::is_outflow))]
fn is_outflow(token: &Token<'_>) -> bool
    ensures { result ≡ is_outflow token.now }
{
    token.text.as_str() == "net_out"
}

impl<'s> Terminal<'s> {
    /// Builds a terminal from a token and its role.
    pub fn new(token: Token<'s>, role: Role) -> Terminal<'s>
        requires { role ≡ role_of token }
        ensures { result ≡ token.entry }
    {
        Terminal { token, role }
    }

    /// Returns the token.
    pub fn token(&self) -> &Token<'s>
        ensures { result.now ≡ self.now }
    {
        &self.token
    }

    /// Returns the grammatical role of the token.
    pub fn role(&self) -> Role
        ensures { result ≡ role_of self.now }
    {
        self.role
    }
}

impl<'s> Leaf<'s> {
    /// Builds a leaf from its token.
    pub fn new(token: Token<'s>) -> Leaf<'s>
        ensures { result ≡ token.entry }
    {
        let number = number_of(&token);
        Leaf { token, number }
    }

    /// Returns the token.
    pub fn token(&self) -> &Token<'s>
        ensures { result.now ≡ self.now }
    {
        &self.token
    }

    /// Returns the value of a numeral; `None` for a name or a string.
    pub fn number(&self) -> Option<i64>
        ensures { result ≡ number_of self.now }
    {
        self.number
    }
}

impl<'s> NetWord<'s> {
    /// Builds a net term from its token.
    pub fn new(token: Token<'s>) -> NetWord<'s>
        ensures { result ≡ token.entry }
    {
        let is_outflow = is_outflow(&token);
        NetWord { token, is_outflow }
    }

    /// Returns the token.
    pub fn token(&self) -> &Token<'s>
        ensures { result.now ≡ self.now }
    {
        &self.token
    }

    /// Returns whether it is `net_out`, the negation of `net_in`.
    pub fn is_outflow(&self) -> bool
        ensures { result ≡ is_outflow self.now }
    {
        self.is_outflow
    }
}

/// Theorem: each numeral among the tokens of a text has a number, an integer within the limit. So no
/// leaf of a model, and no member of a data file, is a numeral without a number.
pub fn numerals_have_numbers()
    ensures value { NumeralsHaveNumbers }
{}
