//! The trees of declarations, phrases and node conditions.

ghost use Rattle.std.specs.Prelude.{◌≡◌, map, option_map};
ghost use Rattle.std.specs.Option.{option_copied};
ghost use Rattle.net_tree.specs.PhraseValues as values;
ghost use Rattle.net_tree.specs.View.{tree, body_of, phrase_of};

use crate::expr::{Braces, Expr, Part};
use crate::role::{Begins, Relation, Role};
use crate::terminal::Terminal;
use net_base::Items;
use net_lex::Token;

/// The part of a phrase after its keyword.
#[derive(Drop)]
pub enum Body<'s> {
    /// Nothing: `integer`, `symbolic`.
    Plain,
    /// An expression: `>= 0`, `default a`, `within S`; after `dimen` a numeral, after `from` and
    /// `to` the name of a node with or without subscripts.
    Valued(Expr<'s>),
    /// An objective's name and a coefficient: `obj Cost 3`.
    Priced(Token<'s>, Expr<'s>),
}

/// A phrase of a declaration, with the comma before it.
#[derive(Drop)]
pub struct Phrase<'s> {
    pub comma: Option<Token<'s>>,
    pub word: Terminal<'s>,
    pub body: Body<'s>,
}

/// The condition on the net flow of a node, with the colon before it.
#[derive(Drop)]
pub enum NetCond<'s> {
    /// Nothing.
    Absent,
    /// `: net_in = 3`
    One(Token<'s>, Expr<'s>, Terminal<'s>, Expr<'s>),
    /// `: 1 <= net_in <= 4`
    Between(Token<'s>, Expr<'s>, Terminal<'s>, Expr<'s>, Terminal<'s>, Expr<'s>),
}

/// A declaration. Its first token is its keyword, its last the semicolon.
#[derive(Drop)]
pub enum Decl<'s> {
    /// `set S dimen 2;`
    Set(Token<'s>, Token<'s>, Items<Phrase<'s>>, Token<'s>),
    /// `param p {S} >= 0;`
    Param(Token<'s>, Token<'s>, Option<Braces<'s>>, Items<Phrase<'s>>, Token<'s>),
    /// `check {i in S}: p[i] > 0;`: the keyword, the indexing, `:`, the condition
    Check(Token<'s>, Option<Braces<'s>>, Token<'s>, Expr<'s>, Token<'s>),
    /// `node N {i in S}: net_in = p[i];`
    Node(Token<'s>, Token<'s>, Option<Braces<'s>>, NetCond<'s>, Token<'s>),
    /// `arc A {i in S} >= 0, <= 9, to N[i], obj Cost 1;`
    Arc(Token<'s>, Token<'s>, Option<Braces<'s>>, Items<Phrase<'s>>, Token<'s>),
    /// `minimize Cost;`, `maximize Total: A + 3;`: the keyword, the name, `:` and the expression
    Objective(Token<'s>, Token<'s>, Option<Part<'s>>, Token<'s>),
}

/// A model: its declarations in order.
#[derive(Drop)]
pub struct Model<'s> {
    pub declarations: Items<Decl<'s>>,
}

/// The keyword of a phrase that has an expression and occurs at most once.
#[derive(Clone, Copy)]
pub enum PhraseWord {
    /// `>=` of an arc
    AtLeast,
    /// `<=` of an arc
    AtMost,
    From,
    To,
    /// `:=`
    Becomes,
    Default,
}

fn is_word(word: PhraseWord, role: Role) -> bool
    ensures { result ≡ values.is_word word role }
{
    match (word, role) {
        (PhraseWord::AtLeast, Role::Relation(Relation::AtLeast)) => true,
        (PhraseWord::AtMost, Role::Relation(Relation::AtMost)) => true,
        (PhraseWord::From, Role::Phrase(Begins::From)) => true,
        (PhraseWord::To, Role::Phrase(Begins::To)) => true,
        (PhraseWord::Becomes, Role::Becomes) => true,
        (PhraseWord::Default, Role::Phrase(Begins::Default)) => true,
        _ => false,
    }
}

fn body_value<'a, 's>(body: &'a Body<'s>) -> Option<&'a Expr<'s>>
    ensures { option_map tree (option_copied result) ≡ values.expression_of (body_of body.entry.now) }
{
    match body {
        Body::Valued(expr) => Some(expr),
        Body::Plain => None,
        Body::Priced(_, _) => None,
    }
}

/// Returns the expression of the first phrase with this keyword.
pub fn phrase_value<'a, 's>(word: PhraseWord, phrases: &'a [Phrase<'s>]) -> Option<&'a Expr<'s>>
    ensures { option_map tree (option_copied result) ≡ values.phrase_value (values.is_word word) (map phrase_of phrases.entry.now) }
{
    for phrase in phrases {
        if is_word(word, phrase.word.role()) {
            return body_value(&phrase.body);
        }
    }
    None
}
