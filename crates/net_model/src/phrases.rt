//! Parsing phrases.

ghost use Rattle.std.specs.Prelude.{◌≡◌, ◌<◌, ◌≤◌, Some, None, length, map, IfOk, IfErr};
ghost use Rattle.net_tree.specs.Tree.{valued};
ghost use Rattle.net_tree.specs.View as view;
ghost use Rattle.net_model.specs.Expressions.{nested};
ghost use Rattle.net_model.specs.Phrases as grammar;
ghost use Rattle.net_model.specs.Reading.{Gives};
ghost use Rattle.net_model.specs.declared.model_parser.ParseError.TheVariants.{OutOfMemory};

use crate::chains::climb_to;
use crate::choices::wide_of;
use crate::expected::Expected;
use crate::expressions::named_of;
use crate::model_parser::{Awaiting, ParseError};
use crate::stored::{Carried, Stored, push};
use crate::token_cursor::{TokenCursor, expect};
use net_base::Items;
use net_lex::Token;
use net_tree::{Begins, Body, Expr, Leaf, Phrase, Relation, Role, Terminal, precedence};
use std::alloc::Global;

/// Returns what follows this keyword in a phrase, if the declaration has such a phrase.
fn slot_of(owner: Owner, role: Role) -> Option<Slot>
    ensures { result ≡ grammar.slot_of owner role }
{
    match owner {
        Owner::Set => set_slot(role),
        Owner::Param => param_slot(role),
        Owner::Arc => arc_slot(role),
    }
}

fn set_slot(role: Role) -> Option<Slot>
    ensures { result ≡ grammar.set_slot role }
{
    match role {
        Role::Phrase(Begins::Dimen) => Some(Slot::Number),
        Role::Relation(Relation::Within) => Some(Slot::Set),
        Role::Becomes => Some(Slot::Value),
        _ => None,
    }
}

fn param_slot(role: Role) -> Option<Slot>
    ensures { result ≡ grammar.param_slot role }
{
    match role {
        Role::Phrase(Begins::Symbolic | Begins::Integer) => Some(Slot::Nothing),
        Role::Relation(Relation::AtMost | Relation::AtLeast | Relation::Less) => Some(Slot::Sum),
        Role::Relation(Relation::Greater | Relation::Unequal) => Some(Slot::Sum),
        Role::Relation(Relation::In) => Some(Slot::Set),
        Role::Phrase(Begins::Default) | Role::Becomes => Some(Slot::Value),
        _ => None,
    }
}

fn arc_slot(role: Role) -> Option<Slot>
    ensures { result ≡ grammar.arc_slot role }
{
    match role {
        Role::Relation(Relation::AtMost | Relation::AtLeast) => Some(Slot::Sum),
        Role::Phrase(Begins::Integer) => Some(Slot::Nothing),
        Role::Phrase(Begins::From | Begins::To) => Some(Slot::Node),
        Role::Phrase(Begins::Obj) => Some(Slot::Price),
        _ => None,
    }
}

/// Returns whether this keyword begins a phrase that is allowed only once and has occurred.
fn stood_before(owner: Owner, stood: Stood, role: Role) -> bool
    ensures { result ≡ grammar.stood_before owner stood role }
{
    match role {
        Role::Phrase(Begins::Dimen) => stood.dimen,
        Role::Phrase(Begins::Default) => stood.default,
        Role::Phrase(Begins::From) => stood.from,
        Role::Phrase(Begins::To) => stood.to,
        Role::Becomes => stood.becomes,
        Role::Relation(Relation::AtLeast) => is_arc(owner) && stood.at_least,
        Role::Relation(Relation::AtMost) => is_arc(owner) && stood.at_most,
        _ => false,
    }
}

fn is_arc(owner: Owner) -> bool
    ensures { result ≡ grammar.is_arc owner }
{
    match owner {
        Owner::Arc => true,
        Owner::Set | Owner::Param => false,
    }
}

/// Returns the phrases that have occurred, including the one that this keyword begins.
fn and_then_stood(stood: Stood, role: Role) -> Stood
    ensures { result ≡ grammar.and_then_stood stood role }
{
    let mut stood = stood;
    stood.after_node = false;
    match role {
        Role::Phrase(Begins::Dimen) => stood.dimen = true,
        Role::Phrase(Begins::Default) => stood.default = true,
        Role::Phrase(Begins::From) => {
            stood.from = true;
            stood.after_node = true;
        }
        Role::Phrase(Begins::To) => {
            stood.to = true;
            stood.after_node = true;
        }
        Role::Becomes => stood.becomes = true,
        Role::Relation(Relation::AtLeast) => stood.at_least = true,
        Role::Relation(Relation::AtMost) => stood.at_most = true,
        _ => {}
    }
    stood
}

fn goes_on(owner: Owner, stood: Stood, role: Role) -> bool
    ensures { result ≡ grammar.goes_on owner stood role }
{
    if matches!(role, Role::Comma) {
        return true;
    }
    if stood_before(owner, stood, role) {
        return false;
    }
    slot_of(owner, role).is_some()
}

/// Returns what is expected at a token that is not accepted.
fn awaited(owner: Owner, stood: Stood, role: Role) -> Awaiting
    ensures { result ≡ grammar.awaited owner stood role }
{
    if stood_before(owner, stood, role) {
        Awaiting::FurtherPhrase
    } else if stood.after_node {
        Awaiting::PhraseAfterNode
    } else {
        Awaiting::Phrase
    }
}

/// Returns whether a phrase comes next, or the comma before one.
#[tactic(auto, using(crate::proofs::Roles::roles))]
fn phrase_next(owner: Owner, stood: Stood, tokens: &TokenCursor<'_, '_>) -> bool
    ensures { result ≡ grammar.phrase_next owner stood tokens.now }
{
    match tokens.role() {
        Some(role) => goes_on(owner, stood, role),
        None => false,
    }
}

/// Builds the body of a phrase from an expression.
fn valued<'s>(alloc: Global, value: Stored<Expr<'s>>) -> Result<Stored<Body<'s>>, ParseError>
    ensures value { IfOk result (λ b. view.body_of b ≡ valued (view.tree value.entry)) }
    ensures memory { IfErr result (λ e. e ≡ OutOfMemory) }
{
    Stored::new(alloc, Body::Valued(value.into_inner()))
}

/// Parses the body of a phrase, after its keyword.
#[tactic(auto, using(net_tree::proofs::Views::views))]
fn body_of<'t, 's>(
    alloc: Global,
    depth: u8,
    slot: Slot,
    tokens: &mut TokenCursor<'t, 's>,
) -> Result<Stored<Body<'s>>, ParseError>
    ensures value { Gives view.body_of result tokens.new (grammar.body_of (nested depth) slot tokens.old) }
    ensures shorter { IfOk result (λ x. length tokens.new ≤ length tokens.old) }
{
    match slot {
        Slot::Nothing => Stored::new(alloc, Body::Plain),
        Slot::Number => {
            let number = expect(Expected::Number, Awaiting::Other, tokens)?;
            Stored::new(alloc, Body::Valued(Expr::Leaf(Leaf::new(number))))
        }
        Slot::Set => valued(alloc, climb_to(alloc, depth, precedence::UNION, tokens)?),
        Slot::Sum => valued(alloc, climb_to(alloc, depth, precedence::SUM, tokens)?),
        Slot::Value => valued(alloc, wide_of(alloc, depth, precedence::UNION, tokens)?),
        Slot::Node => {
            let name = expect(Expected::Name, Awaiting::Other, tokens)?;
            valued(alloc, named_of(alloc, depth, name, tokens)?)
        }
        Slot::Price => {
            let name = expect(Expected::Name, Awaiting::Objective, tokens)?;
            let price = climb_to(alloc, depth, precedence::SUM, tokens)?;
            Stored::new(alloc, Body::Priced(name, price.into_inner()))
        }
    }
}

/// Parses an optional comma before a phrase.
#[tactic(auto, unfolding(crate::specs::Phrases::comma_at))]
fn comma_at<'t, 's>(tokens: &mut TokenCursor<'t, 's>) -> Result<Option<Token<'s>>, ParseError>
    ensures value { Gives (λ c. c) result tokens.new (grammar.comma_at tokens.old) }
    ensures shorter { IfOk result (λ x. length tokens.new ≤ length tokens.old) }
    // Allocates no memory, so it never returns `OutOfMemory`.
    ensures sure { IfErr result (λ e. e ≡ OutOfMemory → ⊥) }
{
    if tokens.next_is(Expected::Comma) {
        Ok(tokens.next())
    } else {
        Ok(None)
    }
}

fn phrase_of<'s>(
    alloc: Global,
    comma: Option<Token<'s>>,
    word: Terminal<'s>,
    body: Stored<Body<'s>>,
) -> Result<Stored<Phrase<'s>>, ParseError>
    ensures value { IfOk result (λ p. view.phrase_of p ≡ record { comma = comma.entry; word = word.entry; body = view.body_of body.entry }) }
    ensures memory { IfErr result (λ e. e ≡ OutOfMemory) }
{
    let body = body.into_inner();
    Stored::new(alloc, Phrase { comma, word, body })
}

/// Parses a phrase after its comma; also returns which phrases have occurred.
#[tactic(auto, unfolding(crate::specs::Phrases::worded))]
fn worded<'t, 's>(
    alloc: Global,
    depth: u8,
    owner: Owner,
    stood: Stood,
    comma: Option<Token<'s>>,
    tokens: &mut TokenCursor<'t, 's>,
) -> Result<(Stored<Phrase<'s>>, Stood), ParseError>
    ensures value { Gives (λ p. (view.phrase_of p.0, p.1)) result tokens.new (grammar.worded (nested depth) owner stood comma.entry tokens.old) }
    ensures shorter { IfOk result (λ x. length tokens.new < length tokens.old) }
{
    let left = tokens.len();
    let Some((role, word)) = tokens.next_with_role() else {
        return Err(ParseError::Rejected(0, Awaiting::Phrase));
    };
    if stood_before(owner, stood, role) {
        return Err(ParseError::Rejected(left, Awaiting::FurtherPhrase));
    }
    match slot_of(owner, role) {
        None => Err(ParseError::Rejected(left, Awaiting::Phrase)),
        Some(slot) => {
            let body = body_of(alloc, depth, slot, tokens)?;
            let phrase = phrase_of(alloc, comma, Terminal::new(word, role), body)?;
            Ok((phrase, and_then_stood(stood, role)))
        }
    }
}

/// Parses a phrase; also returns which phrases have occurred.
#[tactic(auto, unfolding(crate::specs::Phrases::phrase_at))]
fn phrase_at<'t, 's>(
    alloc: Global,
    depth: u8,
    owner: Owner,
    stood: Stood,
    tokens: &mut TokenCursor<'t, 's>,
) -> Result<(Stored<Phrase<'s>>, Stood), ParseError>
    ensures value { Gives (λ p. (view.phrase_of p.0, p.1)) result tokens.new (grammar.phrase_at (nested depth) owner stood tokens.old) }
    ensures shorter { IfOk result (λ x. length tokens.new < length tokens.old) }
{
    let comma = comma_at(tokens)?;
    worded(alloc, depth, owner, stood, comma, tokens)
}

/// Parses all phrases; also returns which phrases have occurred.
#[tactic(auto, unfolding(crate::specs::Phrases::phrases))]
pub(crate) fn phrases<'t, 's>(
    alloc: Global,
    depth: u8,
    owner: Owner,
    tokens: &mut TokenCursor<'t, 's>,
) -> Result<(Carried<Items<Phrase<'s>>>, Stood), ParseError>
    ensures value { Gives (λ p. (map view.phrase_of p.0, p.1)) result tokens.new (grammar.phrases (nested depth) owner tokens.old) }
    ensures shorter { IfOk result (λ x. length tokens.new ≤ length tokens.old) }
{
    let mut found = Vec::new(alloc);
    let mut stood = Stood {
        dimen: false,
        default: false,
        becomes: false,
        at_least: false,
        at_most: false,
        from: false,
        to: false,
        after_node: false,
    };
    while phrase_next(owner, stood, tokens) {
        let (phrase, now) = phrase_at(alloc, depth, owner, stood, tokens)?;
        push(&mut found, phrase)?;
        stood = now;
    }
    Ok((Carried::new(Items::new(found)), stood))
}

/// Parses the semicolon after the phrases.
#[tactic(auto, unfolding(crate::specs::Phrases::phrases_end))]
pub(crate) fn phrases_end<'t, 's>(
    owner: Owner,
    stood: Stood,
    tokens: &mut TokenCursor<'t, 's>,
) -> Result<Token<'s>, ParseError>
    ensures value { Gives (λ t. t) result tokens.new (grammar.phrases_end owner stood tokens.old) }
    ensures shorter { IfOk result (λ x. length tokens.new < length tokens.old) }
    // Allocates no memory, so it never returns `OutOfMemory`.
    ensures sure { IfErr result (λ e. e ≡ OutOfMemory → ⊥) }
{
    let left = tokens.len();
    match tokens.next_with_role() {
        None => Err(ParseError::Rejected(0, Awaiting::Phrase)),
        Some((role, token)) => {
            if matches!(role, Role::Semicolon) {
                Ok(token)
            } else {
                Err(ParseError::Rejected(left, awaited(owner, stood, role)))
            }
        }
    }
}

/// A declaration with phrases.
#[derive(Clone, Copy)]
pub enum Owner {
    Set,
    Param,
    Arc,
}

/// What follows the keyword of a phrase.
#[derive(Clone, Copy)]
pub enum Slot {
    Nothing,
    /// `dimen 2`
    Number,
    /// A set or a member: `within S`.
    Set,
    /// `>= 0`
    Sum,
    /// An expression or an `if`: `default 0`.
    Value,
    /// `from N[i]`
    Node,
    /// `obj Cost 3`
    Price,
}

/// Which of the phrases that are allowed only once have occurred.
#[derive(Clone, Copy)]
pub struct Stood {
    pub dimen: bool,
    pub default: bool,
    pub becomes: bool,
    pub at_least: bool,
    pub at_most: bool,
    pub from: bool,
    pub to: bool,
    /// Whether the last phrase was `from` or `to`.
    pub after_node: bool,
}
