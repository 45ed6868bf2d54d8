//! Parsing declarations.

ghost use Rattle.std.specs.Prelude.{◌≡◌, ◌<◌, ◌≤◌, List, [], Option, length, map, IfOk};
ghost use Rattle.net_lex.specs.declared.token.Token.{Token};
ghost use Rattle.net_tree.specs.Precedence.{of_union};
ghost use Rattle.net_tree.specs.Tree as tree;
ghost use Rattle.net_tree.specs.Tree.{Declaration};
ghost use Rattle.net_tree.specs.View.{declaration_of, indexing_of, option_part, phrase_of};
ghost use Rattle.net_model.specs.Declarations as grammar;
ghost use Rattle.net_model.specs.Expressions.{nested, part_at, wide};
ghost use Rattle.net_model.specs.Phrases.{phrases, phrases_end};
ghost use Rattle.net_model.specs.Reading.{Gives, ◌>>=◌ as ◌▷◌, read_as, expect};
ghost use Rattle.net_model.specs.declared.model_parser.Awaiting.TheVariants as awaiting;
ghost use Rattle.net_model.specs.declared.expected.Expected.TheVariants as sorts;

use crate::braces::braces_of;
use crate::chains::climb_to;
use crate::choices::wide_of;
use crate::conditions::condition_at;
use crate::expected::Expected;
use crate::model_parser::{Awaiting, ParseError};
use crate::phrases::{Owner, phrases, phrases_end};
use crate::stored::{Stored, push};
use crate::token_cursor::{TokenCursor, expect};
use net_base::Items;
use net_lex::Token;
use net_tree::{Braces, Decl, Declares, Part, Phrase, Role, precedence};
use std::alloc::Global;

/// Parses the indexing of a declaration, if present.
#[tactic(auto, unfolding(crate::specs::Declarations::indexing_at))]
fn indexing_at<'t, 's>(
    alloc: Global,
    depth: u8,
    tokens: &mut TokenCursor<'t, 's>,
) -> Result<Stored<Option<Braces<'s>>>, ParseError>
    ensures value { Gives indexing_of result tokens.new (grammar.indexing_at (nested depth) tokens.old) }
    ensures shorter { IfOk result (λ x. length tokens.new ≤ length tokens.old) }
{
    if tokens.next_is(Expected::OpenBrace) {
        let braces = braces_of(alloc, depth, tokens)?.into_inner();
        Stored::new(alloc, Some(braces))
    } else {
        Stored::new(alloc, None)
    }
}

/// Parses the phrases of a declaration and the semicolon after them.
fn phrased<'t, 's>(
    alloc: Global,
    depth: u8,
    owner: Owner,
    tokens: &mut TokenCursor<'t, 's>,
) -> Result<Stored<(Items<Phrase<'s>>, Token<'s>)>, ParseError>
    ensures value { (made : List tree.Phrase → Token → Declaration)
        → Gives (λ p. made (map phrase_of p.0) p.1) result tokens.new
        (phrases (nested depth) owner tokens.old ▷ λ p. phrases_end owner p.0.1 p.1 ▷ λ e. read_as (made p.0.0 e.0) e.1) }
    ensures shorter { IfOk result (λ x. length tokens.new ≤ length tokens.old) }
{
    let (said, stood) = phrases(alloc, depth, owner, tokens)?;
    let end = phrases_end(owner, stood, tokens)?;
    Stored::new(alloc, (said.into_inner(), end))
}

/// Parses the name of a parameter or an arc, its indexing, its phrases and its semicolon.
fn detailed<'t, 's>(
    alloc: Global,
    depth: u8,
    owner: Owner,
    tokens: &mut TokenCursor<'t, 's>,
) -> Result<Stored<(Token<'s>, Option<Braces<'s>>, Items<Phrase<'s>>, Token<'s>)>, ParseError>
    ensures value { (made : Token → Option tree.Braces → List tree.Phrase → Token → Declaration)
        → Gives (λ p. made p.0 (indexing_of p.1) (map phrase_of p.2) p.3) result tokens.new
        (expect sorts.Name awaiting.Other tokens.old ▷ λ n. grammar.indexing_at (nested depth) n.1 ▷ λ b. phrases (nested depth) owner b.1 ▷ λ p.
        phrases_end owner p.0.1 p.1 ▷ λ e. read_as (made n.0 b.0 p.0.0 e.0) e.1) }
    ensures shorter { IfOk result (λ x. length tokens.new ≤ length tokens.old) }
{
    let name = expect(Expected::Name, Awaiting::Other, tokens)?;
    let indexing = indexing_at(alloc, depth, tokens)?;
    let (said, end) = phrased(alloc, depth, owner, tokens)?.into_inner();
    Stored::new(alloc, (name, indexing.into_inner(), said, end))
}

#[tactic(auto, unfolding(crate::specs::Declarations::set_at))]
fn set_at<'t, 's>(
    alloc: Global,
    depth: u8,
    word: Token<'s>,
    tokens: &mut TokenCursor<'t, 's>,
) -> Result<Stored<Decl<'s>>, ParseError>
    ensures value { Gives declaration_of result tokens.new (grammar.set_at (nested depth) word.entry tokens.old) }
    ensures shorter { IfOk result (λ x. length tokens.new ≤ length tokens.old) }
{
    let name = expect(Expected::Name, Awaiting::Other, tokens)?;
    let (said, end) = phrased(alloc, depth, Owner::Set, tokens)?.into_inner();
    Stored::new(alloc, Decl::Set(word, name, said, end))
}

#[tactic(auto, unfolding(crate::specs::Declarations::param_at))]
fn param_at<'t, 's>(
    alloc: Global,
    depth: u8,
    word: Token<'s>,
    tokens: &mut TokenCursor<'t, 's>,
) -> Result<Stored<Decl<'s>>, ParseError>
    ensures value { Gives declaration_of result tokens.new (grammar.param_at (nested depth) word.entry tokens.old) }
    ensures shorter { IfOk result (λ x. length tokens.new ≤ length tokens.old) }
{
    let (name, indexing, said, end) = detailed(alloc, depth, Owner::Param, tokens)?.into_inner();
    Stored::new(alloc, Decl::Param(word, name, indexing, said, end))
}

#[tactic(auto, unfolding(crate::specs::Declarations::arc_at))]
fn arc_at<'t, 's>(
    alloc: Global,
    depth: u8,
    word: Token<'s>,
    tokens: &mut TokenCursor<'t, 's>,
) -> Result<Stored<Decl<'s>>, ParseError>
    ensures value { Gives declaration_of result tokens.new (grammar.arc_at (nested depth) word.entry tokens.old) }
    ensures shorter { IfOk result (λ x. length tokens.new ≤ length tokens.old) }
{
    let (name, indexing, said, end) = detailed(alloc, depth, Owner::Arc, tokens)?.into_inner();
    Stored::new(alloc, Decl::Arc(word, name, indexing, said, end))
}

#[tactic(auto, unfolding(crate::specs::Declarations::check_at))]
fn check_at<'t, 's>(
    alloc: Global,
    depth: u8,
    word: Token<'s>,
    tokens: &mut TokenCursor<'t, 's>,
) -> Result<Stored<Decl<'s>>, ParseError>
    ensures value { Gives declaration_of result tokens.new (grammar.check_at (nested depth) word.entry tokens.old) }
    ensures shorter { IfOk result (λ x. length tokens.new ≤ length tokens.old) }
{
    let indexing = indexing_at(alloc, depth, tokens)?;
    let colon = expect(Expected::Colon, Awaiting::Other, tokens)?;
    let condition = climb_to(alloc, depth, precedence::OR, tokens)?;
    let end = expect(Expected::Semicolon, Awaiting::Other, tokens)?;
    let check = Decl::Check(
        word,
        indexing.into_inner(),
        colon,
        condition.into_inner(),
        end,
    );
    Stored::new(alloc, check)
}

#[tactic(auto, unfolding(crate::specs::Declarations::node_at))]
fn node_at<'t, 's>(
    alloc: Global,
    depth: u8,
    word: Token<'s>,
    tokens: &mut TokenCursor<'t, 's>,
) -> Result<Stored<Decl<'s>>, ParseError>
    ensures value { Gives declaration_of result tokens.new (grammar.node_at (nested depth) word.entry tokens.old) }
    ensures shorter { IfOk result (λ x. length tokens.new ≤ length tokens.old) }
{
    let name = expect(Expected::Name, Awaiting::Other, tokens)?;
    let indexing = indexing_at(alloc, depth, tokens)?;
    let condition = condition_at(alloc, depth, tokens)?;
    let end = expect(Expected::Semicolon, Awaiting::Other, tokens)?;
    let node = Decl::Node(
        word,
        name,
        indexing.into_inner(),
        condition.into_inner(),
        end,
    );
    Stored::new(alloc, node)
}

/// Parses the expression of an objective, if present.
#[tactic(auto, using(net_tree::proofs::Views::views), unfolding(crate::specs::Expressions::part_at, crate::specs::Expressions::present_at))]
fn value_part<'t, 's>(
    alloc: Global,
    depth: u8,
    tokens: &mut TokenCursor<'t, 's>,
) -> Result<Stored<Option<Part<'s>>>, ParseError>
    ensures value { Gives option_part result tokens.new (part_at sorts.Colon (wide (nested depth) of_union) tokens.old) }
    ensures shorter { IfOk result (λ x. length tokens.new ≤ length tokens.old) }
{
    if !tokens.next_is(Expected::Colon) {
        return Stored::new(alloc, None);
    }
    let Some(mark) = tokens.next() else {
        return Err(ParseError::Rejected(0, Awaiting::Other));
    };
    let value = wide_of(alloc, depth, precedence::UNION, tokens)?.into_inner();
    Stored::new(alloc, Some(Part { mark, value }))
}

/// Returns what is expected after an objective, depending on whether it has an expression.
fn after_objective(part: &Option<Part<'_>>) -> Awaiting
    ensures { result ≡ grammar.after_objective (option_part part.now) }
{
    match part {
        None => Awaiting::Objective,
        Some(_) => Awaiting::Other,
    }
}

#[tactic(auto, unfolding(crate::specs::Declarations::objective_at))]
fn objective_at<'t, 's>(
    alloc: Global,
    depth: u8,
    word: Token<'s>,
    tokens: &mut TokenCursor<'t, 's>,
) -> Result<Stored<Decl<'s>>, ParseError>
    ensures value { Gives declaration_of result tokens.new (grammar.objective_at (nested depth) word.entry tokens.old) }
    ensures shorter { IfOk result (λ x. length tokens.new ≤ length tokens.old) }
{
    let name = expect(Expected::Name, Awaiting::Other, tokens)?;
    let part = value_part(alloc, depth, tokens)?;
    let end = expect(Expected::Semicolon, after_objective(part.get()), tokens)?;
    Stored::new(alloc, Decl::Objective(word, name, part.into_inner(), end))
}

/// Parses the declaration that begins with this keyword.
#[tactic(auto, unfolding(crate::specs::Declarations::declared_at))]
fn declared_at<'t, 's>(
    alloc: Global,
    depth: u8,
    kind: Declares,
    word: Token<'s>,
    tokens: &mut TokenCursor<'t, 's>,
) -> Result<Stored<Decl<'s>>, ParseError>
    ensures value { Gives declaration_of result tokens.new (grammar.declared_at (nested depth) kind word.entry tokens.old) }
    ensures shorter { IfOk result (λ x. length tokens.new ≤ length tokens.old) }
{
    match kind {
        Declares::Set => set_at(alloc, depth, word, tokens),
        Declares::Param => param_at(alloc, depth, word, tokens),
        Declares::Check => check_at(alloc, depth, word, tokens),
        Declares::Node => node_at(alloc, depth, word, tokens),
        Declares::Arc => arc_at(alloc, depth, word, tokens),
        Declares::Objective => objective_at(alloc, depth, word, tokens),
    }
}

/// Parses a declaration.
#[tactic(auto, unfolding(crate::specs::Declarations::declaration_at))]
fn declaration_at<'t, 's>(
    alloc: Global,
    depth: u8,
    tokens: &mut TokenCursor<'t, 's>,
) -> Result<Stored<Decl<'s>>, ParseError>
    ensures value { Gives declaration_of result tokens.new (grammar.declaration_at (nested depth) tokens.old) }
    ensures shorter { IfOk result (λ x. length tokens.new < length tokens.old) }
{
    let left = tokens.len();
    let Some((role, word)) = tokens.next_with_role() else {
        return Err(ParseError::Rejected(0, Awaiting::Declaration));
    };
    match role {
        Role::Declaration(kind) => declared_at(alloc, depth, kind, word, tokens),
        _ => Err(ParseError::Rejected(left, Awaiting::Declaration)),
    }
}

/// Parses all tokens as declarations.
pub(crate) fn declarations<'t, 's>(
    alloc: Global,
    depth: u8,
    tokens: &mut TokenCursor<'t, 's>,
) -> Result<Items<Decl<'s>>, ParseError>
    ensures value { Gives (λ d. (map declaration_of d, tt)) result tokens.new (grammar.model_at depth tokens.old) }
    ensures whole { IfOk result (λ d. tokens.new ≡ []) }
{
    let mut found = Vec::new(alloc);
    while tokens.has_more() {
        let declaration = declaration_at(alloc, depth, tokens)?;
        push(&mut found, declaration)?;
    }
    Ok(Items::new(found))
}
