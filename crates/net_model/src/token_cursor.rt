//! The tokens that the parser has not yet consumed.

ghost use Rattle.std.specs.Prelude.{◌≡◌, ◌<◌, ◌≤◌, ◌∷◌, [], drop, length, IfOk, IfErr, MatchOption};
ghost use Rattle.net_model.specs.declared.model_parser.ParseError.TheVariants.{OutOfMemory};
ghost use Rattle.net_tree.specs.Role.{role_of};
ghost use Rattle.net_tree.specs.WellFormed.{joins};
ghost use Rattle.net_model.specs.Conditions.{signed_net_next};
ghost use Rattle.net_model.specs.Declarations.{any_left};
ghost use Rattle.net_model.specs.Expressions.{operator_at, ends_braces};
ghost use Rattle.net_model.specs.Reading.{Gives, first_role, next_is, is_sort, expect};

use crate::expected::{Expected, ends_braces, is_not, is_sort, joins};
use crate::model_parser::{Awaiting, ParseError};
use crate::stored::{Carried, boxed};
use net_lex::Token;
use net_tree::{Operator, Role, role_of};
use std::alloc::Global;
use std::marker::Model;

/// The tokens that are not yet consumed, with the role of the next one. The role is found when the
/// cursor reaches the token.
#[derive(Drop)]
pub(crate) struct TokenCursor<'t, 's> {
    tokens: &'t [Token<'s>],
    at: usize,
    role: Option<Role>,
}

impl<'t, 's> Model for TokenCursor<'t, 's> {
    ghost use Rattle.std.specs.Prelude.{◌≡◌, ◌≤◌, List, drop, length};
    ghost use Rattle.net_lex.specs.declared.token.Token.{Token};
    ghost use Rattle.net_model.specs.Reading.{first_role};

    ghost Value = { List Token };

    ghost view = { λ c. drop c.at c.tokens.now };

    ghost invariant = { λ c. (c.at ≤ length c.tokens.now) × (c.role ≡ first_role (drop c.at c.tokens.now)) };
}

impl<'t, 's> TokenCursor<'t, 's> {
    pub(crate) fn new(tokens: &'t [Token<'s>]) -> TokenCursor<'t, 's>
        ensures { result ≡ tokens.now }
    {
        TokenCursor::starting_at(tokens, 0)
    }

    /// Returns a cursor at the token with this index, or at the end.
    fn starting_at(tokens: &'t [Token<'s>], at: usize) -> TokenCursor<'t, 's>
        requires { at ≤ length tokens.now }
        ensures { result ≡ drop at tokens.now }
    {
        let role = role_at(tokens, at);
        TokenCursor { tokens, at, role }
    }

    /// Returns the number of remaining tokens.
    pub(crate) fn len(&self) -> usize
        ensures { result ≡ length self.now }
    {
        self.tokens.len() - self.at
    }

    #[tactic(auto, using(crate::proofs::Roles::roles))]
    pub(crate) fn has_more(&self) -> bool
        ensures { result ≡ any_left self.now }
    {
        self.role.is_some()
    }

    /// Returns the role of the next token.
    pub(crate) fn role(&self) -> Option<Role>
        ensures { result ≡ first_role self.now }
    {
        self.role
    }

    /// Consumes and returns the next token.
    pub(crate) fn next(&mut self) -> Option<Token<'s>>
        ensures { MatchOption result ((self.old ≡ []) × (self.new ≡ [])) (λ t. self.old ≡ t ∷ self.new) }
    {
        match self.next_with_role() {
            Some((_, token)) => Some(token),
            None => None,
        }
    }

    /// Consumes the next token. Returns its role and the token.
    #[tactic(auto, using(crate::proofs::Roles::roles))]
    pub(crate) fn next_with_role(&mut self) -> Option<(Role, Token<'s>)>
        ensures { MatchOption result ((self.old ≡ []) × (self.new ≡ [])) (λ p. (self.old ≡ p.1 ∷ self.new) × (p.0 ≡ role_of p.1)) }
    {
        match self.role {
            Some(role) => {
                let token = self.tokens[self.at].copied();
                *self = TokenCursor::starting_at(self.tokens, self.at + 1);
                Some((role, token))
            }
            None => None,
        }
    }

    /// Returns whether the next token is of this sort.
    #[tactic(auto, using(crate::proofs::Roles::roles))]
    pub(crate) fn next_is(&self, sort: Expected) -> bool
        ensures { result ≡ next_is (is_sort sort) self.now }
    {
        match self.role {
            Some(role) => is_sort(sort, role),
            None => false,
        }
    }

    /// Returns whether a sign and a net term come next.
    #[tactic(auto, using(crate::proofs::Roles::roles))]
    pub(crate) fn next_is_signed_net(&self) -> bool
        ensures { result ≡ signed_net_next self.now }
    {
        self.next_is(Expected::Sign)
            && TokenCursor::starting_at(self.tokens, self.at + 1).next_is(Expected::Net)
    }

    /// Returns whether the next token joins operands of this precedence, after `count` links.
    #[tactic(auto, using(crate::proofs::Roles::roles))]
    pub(crate) fn next_joins(&self, joining: u8, count: usize) -> bool
        ensures { result ≡ next_is (joins joining count) self.now }
    {
        match self.role {
            Some(role) => joins(joining, count, role),
            None => false,
        }
    }

    /// Returns whether braces that continue here have no items.
    #[tactic(auto, using(crate::proofs::Roles::roles))]
    pub(crate) fn next_ends_braces(&self) -> bool
        ensures { result ≡ next_is ends_braces self.now }
    {
        match self.role {
            Some(role) => ends_braces(role),
            None => false,
        }
    }
}

/// Returns the role of the token with this index, if there is one.
fn role_at(tokens: &[Token<'_>], at: usize) -> Option<Role>
    ensures { result ≡ first_role (drop at tokens.now) }
{
    if at < tokens.len() {
        Some(role_of(&tokens[at]))
    } else {
        None
    }
}

/// Consumes a token of this sort. Returns an error if the next token is of another sort.
#[tactic(auto, unfolding(crate::specs::Reading::expect))]
pub(crate) fn expect<'t, 's>(
    sort: Expected,
    awaiting: Awaiting,
    tokens: &mut TokenCursor<'t, 's>,
) -> Result<Token<'s>, ParseError>
    ensures value { Gives (λ t. t) result tokens.new (expect sort awaiting tokens.old) }
    ensures shorter { IfOk result (λ x. length tokens.new < length tokens.old) }
    // Allocates no memory, so it never returns `OutOfMemory`.
    ensures sure { IfErr result (λ e. e ≡ OutOfMemory → ⊥) }
{
    let left = tokens.len();
    match tokens.next_with_role() {
        Some((role, token)) if is_sort(sort, role) => Ok(token),
        _ => Err(ParseError::Rejected(left, awaiting)),
    }
}

/// Parses an operator; `not` is followed by `in` or `within`.
#[tactic(auto, unfolding(crate::specs::Expressions::operator_at))]
pub(crate) fn operator_at<'t, 's>(
    alloc: Global,
    tokens: &mut TokenCursor<'t, 's>,
) -> Result<Carried<Operator<'s>>, ParseError>
    ensures value { Gives (λ o. o) result tokens.new (operator_at tokens.old) }
    ensures shorter { IfOk result (λ x. length tokens.new < length tokens.old) }
{
    match tokens.next_with_role() {
        None => Err(ParseError::Rejected(0, Awaiting::Other)),
        Some((role, token)) => {
            if is_not(role) {
                let second = expect(Expected::Membership, Awaiting::Other, tokens)?;
                let second = boxed(alloc, second)?;
                Ok(Carried::new(Operator::two(token, second)))
            } else {
                Ok(Carried::new(Operator::one(token)))
            }
        }
    }
}
