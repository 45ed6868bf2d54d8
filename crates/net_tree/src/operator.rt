//! Operators, signs and reductions. The parser makes them from their tokens.

ghost use Rattle.std.specs.Prelude.{◌≡◌, map};
ghost use Rattle.net_tree.specs.declared.operator.OperatorWords.TheVariants as words;
ghost use Rattle.net_tree.specs.Operations as operations;

use net_base::Boxed;
use net_lex::Token;
use std::marker::Model;

/// The operation of a binary operator.
#[derive(Clone, Copy)]
pub enum BinOp {
    /// `+`
    Plus,
    /// `-`
    Minus,
    /// `*`
    Times,
    /// `div`
    Div,
    /// `mod`
    Mod,
    /// `..`
    Range,
    /// `cross`
    Cross,
    /// `inter`
    Inter,
    /// `union`
    Union,
    /// `diff`
    Diff,
    /// `symdiff`
    Symdiff,
    /// `=`, `==`
    Equal,
    /// `<>`, `!=`
    Unequal,
    /// `<`
    Less,
    /// `<=`
    AtMost,
    /// `>`
    Greater,
    /// `>=`
    AtLeast,
    /// `in`
    In,
    /// `not in`
    NotIn,
    /// `within`
    Within,
    /// `not within`
    NotWithin,
    /// `and`
    And,
    /// `or`
    Or,
    /// Not an operation on two values: `by`, `,`.
    Other,
}

/// The operation of a reduction over an indexing.
#[derive(Clone, Copy)]
pub enum Reduction {
    /// `sum`
    Sum,
    /// `min`
    Min,
    /// `max`
    Max,
}

/// The tokens of an operator.
#[derive(Drop)]
pub enum OperatorWords<'s> {
    /// `+`, `and`, `in`; in a list `,`
    One(Token<'s>),
    /// `not in`, `not within`
    Two(Token<'s>, Boxed<Token<'s>>),
}

/// A binary operator, which contracts see as its tokens.
#[derive(Drop)]
pub struct Operator<'s> {
    words: OperatorWords<'s>,
    op: BinOp,
}

/// A sign before an operand, which contracts see as its token.
#[derive(Drop)]
pub struct Sign<'s> {
    token: Token<'s>,
    is_minus: bool,
}

/// `sum`, `min` or `max`, which contracts see as its token.
#[derive(Drop)]
pub struct Reducer<'s> {
    token: Token<'s>,
    reduction: Reduction,
}

impl<'s> Model for Operator<'s> {
    ghost use Rattle.std.specs.Prelude.{◌≡◌};
    ghost use Rattle.net_tree.specs.declared.operator.OperatorWords.{OperatorWords};
    ghost use Rattle.net_tree.specs.Operations.{operation};

    ghost Value = { OperatorWords };

    ghost view = { λ o. o.words };

    ghost invariant = { λ o. o.op ≡ operation o.words };
}

impl<'s> Model for Sign<'s> {
    ghost use Rattle.std.specs.Prelude.{◌≡◌};
    ghost use Rattle.net_lex.specs.declared.token.Token.{Token};
    ghost use Rattle.net_tree.specs.Operations as operations;

    ghost Value = { Token };

    ghost view = { λ s. s.token };

    ghost invariant = { λ s. s.is_minus ≡ operations.is_minus s.token };
}

impl<'s> Model for Reducer<'s> {
    ghost use Rattle.std.specs.Prelude.{◌≡◌};
    ghost use Rattle.net_lex.specs.declared.token.Token.{Token};
    ghost use Rattle.net_tree.specs.Operations as operations;

    ghost Value = { Token };

    ghost view = { λ r. r.token };

    ghost invariant = { λ r. r.reduction ≡ operations.reduction r.token };
}

/// Returns the operators with their operations, the most frequent first.
#[tactic(auto, unfolding(crate::specs::Operations::operations))]
fn operations() -> &'static [(&'static [u8], BinOp)]
    ensures { map (λ word. (word.0.now, word.1)) result.now ≡ operations.operations }
{
    &[
        (b"+", BinOp::Plus),
        (b"-", BinOp::Minus),
        (b"*", BinOp::Times),
        (b"=", BinOp::Equal),
        (b"in", BinOp::In),
        (b">", BinOp::Greater),
        (b"<", BinOp::Less),
        (b">=", BinOp::AtLeast),
        (b"<=", BinOp::AtMost),
        (b"<>", BinOp::Unequal),
        (b"and", BinOp::And),
        (b"or", BinOp::Or),
        (b"..", BinOp::Range),
        (b"div", BinOp::Div),
        (b"mod", BinOp::Mod),
        (b"==", BinOp::Equal),
        (b"!=", BinOp::Unequal),
        (b"cross", BinOp::Cross),
        (b"union", BinOp::Union),
        (b"inter", BinOp::Inter),
        (b"diff", BinOp::Diff),
        (b"symdiff", BinOp::Symdiff),
        (b"within", BinOp::Within),
    ]
}

/// Looks up the operation of an operator in a table. Returns `Other` if it is not there.
fn operation_in(table: &[(&'static [u8], BinOp)], text: &[u8]) -> BinOp
    ensures { result ≡ operations.operation_in (map (λ word. (word.0.now, word.1)) table.now) text.now }
{
    for (word, op) in table {
        if *word == text {
            return *op;
        }
    }
    BinOp::Other
}

fn denied(op: BinOp) -> BinOp
    ensures { result ≡ operations.denied op }
{
    match op {
        BinOp::In => BinOp::NotIn,
        BinOp::Within => BinOp::NotWithin,
        _ => BinOp::Other,
    }
}

fn spelled(token: &Token<'_>) -> BinOp
    ensures { result ≡ operations.operation_in operations.operations token.now.text }
{
    operation_in(operations(), token.text.as_str().as_bytes())
}

impl<'s> Operator<'s> {
    /// Builds an operator of one token, which can be a comma.
    #[tactic(auto, unfolding(crate::specs::Operations::operation))]
    pub fn one(token: Token<'s>) -> Operator<'s>
        ensures { result ≡ words.One token.entry }
    {
        let op = spelled(&token);
        Operator {
            words: OperatorWords::One(token),
            op,
        }
    }

    /// Builds an operator of `not` and the keyword after it.
    #[tactic(auto, unfolding(crate::specs::Operations::operation))]
    pub fn two(not: Token<'s>, word: Boxed<Token<'s>>) -> Operator<'s>
        ensures { result ≡ words.Two not.entry word.entry }
    {
        let op = denied(spelled(word.get()));
        Operator {
            words: OperatorWords::Two(not, word),
            op,
        }
    }

    /// Returns the operation.
    pub fn op(&self) -> BinOp
        ensures { result ≡ operations.operation self.now }
    {
        self.op
    }
}

impl<'s> Sign<'s> {
    /// Builds a sign from its token, `+` or `-`.
    #[tactic(auto, unfolding(crate::specs::Operations::is_minus))]
    pub fn new(token: Token<'s>) -> Sign<'s>
        ensures { result ≡ token.entry }
    {
        let is_minus = token.text.as_str() == "-";
        Sign { token, is_minus }
    }

    /// Returns whether the sign is `-`.
    pub fn is_minus(&self) -> bool
        ensures { result ≡ operations.is_minus self.now }
    {
        self.is_minus
    }

    /// Returns the token.
    pub fn token(&self) -> &Token<'s>
        ensures { result.now ≡ self.now }
    {
        &self.token
    }
}

#[tactic(auto, unfolding(crate::specs::Operations::reduction))]
fn reduction_of(word: &Token<'_>) -> Reduction
    ensures { result ≡ operations.reduction word.now }
{
    match word.text.as_str() {
        "min" => Reduction::Min,
        "max" => Reduction::Max,
        _ => Reduction::Sum,
    }
}

impl<'s> Reducer<'s> {
    /// Builds a reduction from its token: `sum`, `min` or `max`.
    pub fn new(token: Token<'s>) -> Reducer<'s>
        ensures { result ≡ token.entry }
    {
        let reduction = reduction_of(&token);
        Reducer { token, reduction }
    }

    /// Returns the operation.
    pub fn reduction(&self) -> Reduction
        ensures { result ≡ operations.reduction self.now }
    {
        self.reduction
    }

    /// Returns the token.
    pub fn token(&self) -> &Token<'s>
        ensures { result.now ≡ self.now }
    {
        &self.token
    }
}
