//! Parsing the conditions of nodes.

ghost use Rattle.std.specs.Prelude.{◌≡◌, ◌<◌, ◌≤◌, Some, None, length, map, IfOk, IfErr};
ghost use Rattle.net_tree.specs.Precedence.{of_sum};
ghost use Rattle.net_tree.specs.Tree.{one, between};
ghost use Rattle.net_tree.specs.View.{tree, link_of, links_of, condition_of};
ghost use Rattle.net_model.specs.Conditions as grammar;
ghost use Rattle.net_model.specs.Expressions.{nested, climb, unary};
ghost use Rattle.net_model.specs.Reading.{Gives, ◌>>=◌ as ◌▷◌, read_as, expect};
ghost use Rattle.net_model.specs.declared.expected.Expected.TheVariants as sorts;
ghost use Rattle.net_model.specs.declared.model_parser.Awaiting.TheVariants as awaiting;
ghost use Rattle.net_model.specs.declared.model_parser.ParseError.TheVariants.{OutOfMemory};

use crate::chains::{chained, climb_to, linked};
use crate::expected::{Expected, is_sort};
use crate::model_parser::{Awaiting, ParseError};
use crate::stored::{Carried, Stored, boxed, push};
use crate::token_cursor::{TokenCursor, expect, operator_at};
use net_base::Items;
use net_lex::Token;
use net_tree::{Expr, LinkedOperand, NetCond, NetWord, Relation, Role, Sign, Terminal, precedence};
use std::alloc::Global;

/// Parses `net_in` or `net_out`.
#[tactic(auto, using(net_tree::proofs::Views::views), unfolding(crate::specs::Conditions::net_at))]
fn net_at<'t, 's>(
    alloc: Global,
    tokens: &mut TokenCursor<'t, 's>,
) -> Result<Stored<Expr<'s>>, ParseError>
    ensures value { Gives tree result tokens.new (grammar.net_at tokens.old) }
    ensures shorter { IfOk result (λ x. length tokens.new < length tokens.old) }
{
    let word = expect(Expected::Net, Awaiting::Other, tokens)?;
    let parts = boxed(alloc, (None, NetWord::new(word)))?;
    Stored::new(alloc, Expr::Net(parts))
}

/// Parses a net term, after which no other is allowed.
fn only_net_at<'t, 's>(
    alloc: Global,
    tokens: &mut TokenCursor<'t, 's>,
) -> Result<(Stored<Expr<'s>>, bool), ParseError>
    ensures value { Gives (λ x. (tree x.0, x.1)) result tokens.new (grammar.only_net_at tokens.old) }
    ensures shorter { IfOk result (λ x. length tokens.new < length tokens.old) }
{
    Ok((net_at(alloc, tokens)?, false))
}

/// Parses `- net_in`.
#[tactic(auto, using(net_tree::proofs::Views::views), unfolding(crate::specs::Conditions::signed_net_at))]
fn signed_net_at<'t, 's>(
    alloc: Global,
    tokens: &mut TokenCursor<'t, 's>,
) -> Result<Stored<Expr<'s>>, ParseError>
    ensures value { Gives tree result tokens.new (grammar.signed_net_at tokens.old) }
    ensures shorter { IfOk result (λ x. length tokens.new < length tokens.old) }
{
    let sign = expect(Expected::Sign, Awaiting::Other, tokens)?;
    let word = expect(Expected::Net, Awaiting::Other, tokens)?;
    let parts = boxed(alloc, (Some(Sign::new(sign)), NetWord::new(word)))?;
    Stored::new(alloc, Expr::Net(parts))
}

/// Parses a term; also returns whether a net term is still allowed.
#[tactic(auto, unfolding(crate::specs::Conditions::term_at))]
fn term_at<'t, 's>(
    alloc: Global,
    depth: u8,
    free: bool,
    tokens: &mut TokenCursor<'t, 's>,
) -> Result<(Stored<Expr<'s>>, bool), ParseError>
    ensures value { Gives (λ x. (tree x.0, x.1)) result tokens.new (grammar.term_at (nested depth) free tokens.old) }
    ensures shorter { IfOk result (λ x. length tokens.new < length tokens.old) }
{
    if free && tokens.next_is(Expected::Net) {
        only_net_at(alloc, tokens)
    } else {
        Ok((climb_to(alloc, depth, precedence::PRODUCT, tokens)?, free))
    }
}

/// Parses the first term, which can be a net term with a sign.
#[tactic(auto, unfolding(crate::specs::Conditions::first_term_at))]
fn first_term_at<'t, 's>(
    alloc: Global,
    depth: u8,
    free: bool,
    tokens: &mut TokenCursor<'t, 's>,
) -> Result<(Stored<Expr<'s>>, bool), ParseError>
    ensures value { Gives (λ x. (tree x.0, x.1)) result tokens.new (grammar.first_term_at (nested depth) free tokens.old) }
    ensures shorter { IfOk result (λ x. length tokens.new < length tokens.old) }
{
    if free && tokens.next_is_signed_net() {
        Ok((signed_net_at(alloc, tokens)?, false))
    } else {
        term_at(alloc, depth, free, tokens)
    }
}

/// Parses a sign and the term after it.
#[tactic(auto, using(net_tree::proofs::Views::views, crate::proofs::Making::link_made), unfolding(crate::specs::Conditions::further_term_at))]
fn further_term_at<'t, 's>(
    alloc: Global,
    depth: u8,
    free: bool,
    tokens: &mut TokenCursor<'t, 's>,
) -> Result<(Stored<LinkedOperand<'s>>, bool), ParseError>
    ensures value { Gives (λ x. (link_of x.0, x.1)) result tokens.new (grammar.further_term_at (nested depth) free tokens.old) }
    ensures shorter { IfOk result (λ x. length tokens.new < length tokens.old) }
{
    let operator = operator_at(alloc, tokens)?;
    let (operand, free) = term_at(alloc, depth, free, tokens)?;
    Ok((linked(alloc, operator, operand)?, free))
}

/// Parses the terms after the first one.
#[tactic(auto, unfolding(crate::specs::Conditions::further_terms))]
fn further_terms<'t, 's>(
    alloc: Global,
    depth: u8,
    first: bool,
    tokens: &mut TokenCursor<'t, 's>,
) -> Result<(Carried<Items<LinkedOperand<'s>>>, bool), ParseError>
    ensures value { Gives (λ x. (map link_of x.0, x.1)) result tokens.new (grammar.further_terms (nested depth) first tokens.old) }
    ensures shorter { IfOk result (λ x. length tokens.new ≤ length tokens.old) }
{
    let mut found = Vec::new(alloc);
    let mut free = first;
    while tokens.next_is(Expected::Sign) {
        let (link, now) = further_term_at(alloc, depth, free, tokens)?;
        push(&mut found, link)?;
        free = now;
    }
    Ok((Carried::new(Items::new(found)), free))
}

/// Parses a sum; also returns whether a net term is still allowed after it.
#[tactic(auto, using(net_tree::proofs::Views::views), unfolding(crate::specs::Conditions::sum_at))]
fn sum_at<'t, 's>(
    alloc: Global,
    depth: u8,
    free: bool,
    tokens: &mut TokenCursor<'t, 's>,
) -> Result<(Stored<Expr<'s>>, bool), ParseError>
    ensures value { Gives (λ x. (tree x.0, x.1)) result tokens.new (grammar.sum_at (nested depth) free tokens.old) }
    ensures shorter { IfOk result (λ x. length tokens.new < length tokens.old) }
{
    let (first, free) = first_term_at(alloc, depth, free, tokens)?;
    let (more, free) = further_terms(alloc, depth, free, tokens)?;
    Ok((chained(alloc, precedence::PRODUCT, first, more)?, free))
}

/// Returns whether a second relation can follow the first one in a condition.
fn chains(first: Role, second: Role) -> bool
    ensures { result ≡ grammar.chains first second }
{
    match first {
        Role::Relation(Relation::AtMost) => matches!(second, Role::Relation(Relation::AtMost)),
        Role::Relation(Relation::AtLeast) => matches!(second, Role::Relation(Relation::AtLeast)),
        _ => false,
    }
}

#[tactic(auto, using(crate::proofs::Roles::roles))]
fn chain_next(bound: Role, tokens: &TokenCursor<'_, '_>) -> bool
    ensures { result ≡ grammar.chain_next bound tokens.now }
{
    match tokens.role() {
        Some(role) => chains(bound, role),
        None => false,
    }
}

/// The beginning of a condition: its colon, its first sum and its first relation.
#[derive(Drop)]
struct Begun<'s> {
    colon: Token<'s>,
    left: Stored<Expr<'s>>,
    bound: Terminal<'s>,
}

/// Consumes a relation that can bound a net inflow. Returns an error if another token is next.
#[tactic(auto, unfolding(crate::specs::Reading::expect))]
fn bound_at<'t, 's>(tokens: &mut TokenCursor<'t, 's>) -> Result<Terminal<'s>, ParseError>
    ensures value { Gives (λ t. t) result tokens.new (expect sorts.Bound awaiting.Other tokens.old) }
    ensures shorter { IfOk result (λ x. length tokens.new < length tokens.old) }
    // Allocates no memory, so it never returns `OutOfMemory`.
    ensures sure { IfErr result (λ e. e ≡ OutOfMemory → ⊥) }
{
    let left = tokens.len();
    match tokens.next_with_role() {
        Some((role, token)) if is_sort(Expected::Bound, role) => Ok(Terminal::new(token, role)),
        _ => Err(ParseError::Rejected(left, Awaiting::Other)),
    }
}

/// Builds a condition with one relation.
fn one<'s>(
    alloc: Global,
    begun: Begun<'s>,
    right: Stored<Expr<'s>>,
) -> Result<Stored<NetCond<'s>>, ParseError>
    ensures value { IfOk result (λ c. condition_of c ≡ one begun.entry.colon (tree begun.entry.left) begun.entry.bound (tree right.entry)) }
    ensures memory { IfErr result (λ e. e ≡ OutOfMemory) }
{
    let Begun { colon, left, bound } = begun;
    let condition = NetCond::One(colon, left.into_inner(), bound, right.into_inner());
    Stored::new(alloc, condition)
}

/// Parses the second of two relations and the last sum.
fn between_at<'t, 's>(
    alloc: Global,
    depth: u8,
    begun: Begun<'s>,
    middle: Stored<Expr<'s>>,
    tokens: &mut TokenCursor<'t, 's>,
) -> Result<Stored<NetCond<'s>>, ParseError>
    ensures value { Gives condition_of result tokens.new (expect sorts.Bound awaiting.Other tokens.old ▷ λ q. climb of_sum (unary (nested depth)) q.1 ▷ λ z.
        read_as (between begun.entry.colon (tree begun.entry.left) begun.entry.bound (tree middle.entry) q.0 z.0) z.1) }
    ensures shorter { IfOk result (λ x. length tokens.new ≤ length tokens.old) }
{
    let second = bound_at(tokens)?;
    let high = climb_to(alloc, depth, precedence::SUM, tokens)?;
    let Begun { colon, left, bound } = begun;
    let condition = NetCond::Between(
        colon,
        left.into_inner(),
        bound,
        middle.into_inner(),
        second,
        high.into_inner(),
    );
    Stored::new(alloc, condition)
}

/// Continues after the second sum, if the first had no net term.
#[tactic(auto, unfolding(crate::specs::Conditions::high_at))]
fn high_at<'t, 's>(
    alloc: Global,
    depth: u8,
    begun: Begun<'s>,
    middle: Stored<Expr<'s>>,
    tokens: &mut TokenCursor<'t, 's>,
) -> Result<Stored<NetCond<'s>>, ParseError>
    ensures value { Gives condition_of result tokens.new (grammar.high_at (nested depth) begun.entry.colon (tree begun.entry.left) begun.entry.bound
        (tree middle.entry) tokens.old) }
    ensures shorter { IfOk result (λ x. length tokens.new ≤ length tokens.old) }
{
    if chain_next(begun.bound.role(), tokens) {
        between_at(alloc, depth, begun, middle, tokens)
    } else {
        Ok(one(alloc, begun, middle)?)
    }
}

#[tactic(auto, unfolding(crate::specs::Conditions::middle_at))]
fn middle_at<'t, 's>(
    alloc: Global,
    depth: u8,
    begun: Begun<'s>,
    tokens: &mut TokenCursor<'t, 's>,
) -> Result<Stored<NetCond<'s>>, ParseError>
    ensures value { Gives condition_of result tokens.new (grammar.middle_at (nested depth) begun.entry.colon (tree begun.entry.left)
        begun.entry.bound tokens.old) }
    ensures shorter { IfOk result (λ x. length tokens.new ≤ length tokens.old) }
{
    let (middle, free) = sum_at(alloc, depth, true, tokens)?;
    if free {
        return Err(ParseError::Rejected(tokens.len(), Awaiting::Other));
    }
    high_at(alloc, depth, begun, middle, tokens)
}

/// Continues after the first sum and the relation.
#[tactic(auto, unfolding(crate::specs::Conditions::bounded_at))]
fn bounded_at<'t, 's>(
    alloc: Global,
    depth: u8,
    begun: Begun<'s>,
    free: bool,
    tokens: &mut TokenCursor<'t, 's>,
) -> Result<Stored<NetCond<'s>>, ParseError>
    ensures value { Gives condition_of result tokens.new (grammar.bounded_at (nested depth) begun.entry.colon (tree begun.entry.left) free
        begun.entry.bound tokens.old) }
    ensures shorter { IfOk result (λ x. length tokens.new ≤ length tokens.old) }
{
    if free {
        middle_at(alloc, depth, begun, tokens)
    } else {
        let right = climb_to(alloc, depth, precedence::SUM, tokens)?;
        Ok(one(alloc, begun, right)?)
    }
}

#[tactic(auto, unfolding(crate::specs::Conditions::said_at))]
fn said_at<'t, 's>(
    alloc: Global,
    depth: u8,
    tokens: &mut TokenCursor<'t, 's>,
) -> Result<Stored<NetCond<'s>>, ParseError>
    ensures value { Gives condition_of result tokens.new (grammar.said_at (nested depth) tokens.old) }
    ensures shorter { IfOk result (λ x. length tokens.new ≤ length tokens.old) }
{
    let colon = expect(Expected::Colon, Awaiting::Other, tokens)?;
    let (left, free) = sum_at(alloc, depth, true, tokens)?;
    let bound = bound_at(tokens)?;
    let begun = Begun { colon, left, bound };
    bounded_at(alloc, depth, begun, free, tokens)
}

/// Parses the condition of a node's net flow.
#[tactic(auto, unfolding(crate::specs::Conditions::condition_at))]
pub(crate) fn condition_at<'t, 's>(
    alloc: Global,
    depth: u8,
    tokens: &mut TokenCursor<'t, 's>,
) -> Result<Stored<NetCond<'s>>, ParseError>
    ensures value { Gives condition_of result tokens.new (grammar.condition_at (nested depth) tokens.old) }
    ensures shorter { IfOk result (λ x. length tokens.new ≤ length tokens.old) }
{
    if tokens.next_is(Expected::Colon) {
        said_at(alloc, depth, tokens)
    } else {
        Stored::new(alloc, NetCond::Absent)
    }
}
