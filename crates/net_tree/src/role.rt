//! The grammatical roles of tokens.

ghost use Rattle.std.specs.Prelude.{◌≡◌, map};
ghost use Rattle.net_tree.specs.Role.{marks, keys, role_in, role_of};

use crate::precedence;
use net_lex::{Kind, Token};

/// The keyword of a declaration.
#[derive(Clone, Copy)]
pub enum Declares {
    Set,
    Param,
    Check,
    Node,
    Arc,
    /// `minimize`, `maximize`
    Objective,
}

/// A keyword that only begins a phrase.
#[derive(Clone, Copy)]
pub enum Begins {
    Dimen,
    Symbolic,
    Integer,
    Default,
    From,
    To,
    Obj,
}

/// The relation of a comparison operator.
#[derive(Clone, Copy)]
pub enum Relation {
    /// `=`, `==`
    Equal,
    /// `<>`, `!=`
    Unequal,
    /// `<`
    Less,
    /// `<=`
    AtMost,
    /// `>`
    Greater,
    /// `>=`
    AtLeast,
    In,
    Within,
}

/// The grammatical role of a token in a model.
#[derive(Clone, Copy)]
pub enum Role {
    Name,
    Number,
    Text,
    /// `(`
    Open,
    /// `)`
    Close,
    /// `{`
    OpenBrace,
    /// `}`
    CloseBrace,
    /// `[`
    OpenSquare,
    /// `]`
    CloseSquare,
    Comma,
    Colon,
    Semicolon,
    /// `:=`
    Becomes,
    /// `+`, `-`
    Sign,
    /// `..`
    Range,
    By,
    /// An operator that joins any number of operands, with its precedence: `*`, `div`, `mod`,
    /// `cross`, `inter`, `union`, `diff`, `symdiff`, `and`, `or`.
    Joining(u8),
    Relation(Relation),
    Not,
    If,
    Then,
    Else,
    /// `sum`, `min`, `max`
    Reduction,
    /// `net_in`, `net_out`
    Net,
    Declaration(Declares),
    Phrase(Begins),
    /// Punctuation or a word of AMPL that this profile does not support: `/`, `^`, `**`, `&`, `&&`,
    /// `||`, `!`, `.`, `prod`, `exists`, `forall`, `setof`, `Infinity`, `less`.
    LeftOut,
    /// A token that no model contains.
    Unknown,
}

/// Returns the punctuation tokens with their roles, the most frequent first.
#[tactic(auto, unfolding(crate::specs::Role::marks))]
fn marks() -> &'static [(&'static [u8], Role)]
    ensures { map (λ word. (word.0.now, word.1)) result.now ≡ marks }
{
    &[
        (b",", Role::Comma),
        (b";", Role::Semicolon),
        (b"[", Role::OpenSquare),
        (b"]", Role::CloseSquare),
        (b"(", Role::Open),
        (b")", Role::Close),
        (b"{", Role::OpenBrace),
        (b"}", Role::CloseBrace),
        (b":", Role::Colon),
        (b"+", Role::Sign),
        (b"-", Role::Sign),
        (b"*", Role::Joining(precedence::PRODUCT)),
        (b"=", Role::Relation(Relation::Equal)),
        (b"<=", Role::Relation(Relation::AtMost)),
        (b">=", Role::Relation(Relation::AtLeast)),
        (b"<", Role::Relation(Relation::Less)),
        (b">", Role::Relation(Relation::Greater)),
        (b"..", Role::Range),
        (b":=", Role::Becomes),
        (b"<>", Role::Relation(Relation::Unequal)),
        (b"==", Role::Relation(Relation::Equal)),
        (b"!=", Role::Relation(Relation::Unequal)),
        (b".", Role::LeftOut),
        (b"/", Role::LeftOut),
        (b"**", Role::LeftOut),
        (b"^", Role::LeftOut),
        (b"&", Role::LeftOut),
        (b"&&", Role::LeftOut),
        (b"||", Role::LeftOut),
        (b"!", Role::LeftOut),
    ]
}

/// Returns the reserved words with their roles, the most frequent first.
#[tactic(auto, unfolding(crate::specs::Role::keys))]
fn keys() -> &'static [(&'static [u8], Role)]
    ensures { map (λ word. (word.0.now, word.1)) result.now ≡ keys }
{
    &[
        (b"in", Role::Relation(Relation::In)),
        (b"sum", Role::Reduction),
        (b"param", Role::Declaration(Declares::Param)),
        (b"set", Role::Declaration(Declares::Set)),
        (b"cross", Role::Joining(precedence::CROSS)),
        (b"within", Role::Relation(Relation::Within)),
        (b"and", Role::Joining(precedence::AND)),
        (b"obj", Role::Phrase(Begins::Obj)),
        (b"from", Role::Phrase(Begins::From)),
        (b"to", Role::Phrase(Begins::To)),
        (b"if", Role::If),
        (b"then", Role::Then),
        (b"else", Role::Else),
        (b"or", Role::Joining(precedence::OR)),
        (b"not", Role::Not),
        (b"arc", Role::Declaration(Declares::Arc)),
        (b"node", Role::Declaration(Declares::Node)),
        (b"net_in", Role::Net),
        (b"net_out", Role::Net),
        (b"by", Role::By),
        (b"check", Role::Declaration(Declares::Check)),
        (b"div", Role::Joining(precedence::PRODUCT)),
        (b"mod", Role::Joining(precedence::PRODUCT)),
        (b"min", Role::Reduction),
        (b"max", Role::Reduction),
        (b"union", Role::Joining(precedence::UNION)),
        (b"diff", Role::Joining(precedence::UNION)),
        (b"symdiff", Role::Joining(precedence::UNION)),
        (b"inter", Role::Joining(precedence::INTER)),
        (b"minimize", Role::Declaration(Declares::Objective)),
        (b"maximize", Role::Declaration(Declares::Objective)),
        (b"default", Role::Phrase(Begins::Default)),
        (b"dimen", Role::Phrase(Begins::Dimen)),
        (b"symbolic", Role::Phrase(Begins::Symbolic)),
        (b"integer", Role::Phrase(Begins::Integer)),
        (b"exists", Role::LeftOut),
        (b"forall", Role::LeftOut),
        (b"Infinity", Role::LeftOut),
        (b"less", Role::LeftOut),
        (b"prod", Role::LeftOut),
        (b"setof", Role::LeftOut),
    ]
}

/// Looks up the role of a text in a table. Returns `Unknown` if it is not there.
fn role_in(table: &[(&'static [u8], Role)], text: &[u8]) -> Role
    ensures { result ≡ role_in (map (λ word. (word.0.now, word.1)) table.now) text.now }
{
    for (word, role) in table {
        if *word == text {
            return *role;
        }
    }
    Role::Unknown
}

/// Returns the grammatical role of a token in a model.
#[tactic(auto, unfolding(crate::specs::Role::role_of))]
pub fn role_of(token: &Token<'_>) -> Role
    ensures { result ≡ role_of token.now }
{
    match token.kind {
        Kind::Name => Role::Name,
        Kind::Num => Role::Number,
        Kind::Str => Role::Text,
        Kind::Key => role_in(keys(), token.text.as_str().as_bytes()),
        Kind::Mark => role_in(marks(), token.text.as_str().as_bytes()),
        Kind::Dot => Role::Unknown,
    }
}
