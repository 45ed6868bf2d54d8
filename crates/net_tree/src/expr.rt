//! The trees of expressions.

use crate::operator::{Operator, Reducer, Sign};
use crate::terminal::{Leaf, NetWord};
use net_base::{Boxed, Items};
use net_lex::Token;

/// An expression of any kind: number, member, set or condition. It contains all its tokens,
/// including brackets and commas.
#[derive(Drop)]
#[cycle(tree)]
pub enum Expr<'s> {
    /// `3`, `'NE'`, `i`
    Leaf(Leaf<'s>),
    /// `cost[i, j]`: the name, `[`, the subscripts, `]`
    Indexed(Boxed<(Token<'s>, Token<'s>, Operands<'s>, Token<'s>)>),
    /// `(a + b)`: `(`, the expression, `)`
    Parens(Boxed<(Token<'s>, Expr<'s>, Token<'s>)>),
    /// `(i, j)`: `(`, the components, `)`
    Tuple(Boxed<(Token<'s>, Operands<'s>, Token<'s>)>),
    /// `not (a < b)`: `not`, `(`, the condition, `)`
    Negated(Boxed<(Token<'s>, Token<'s>, Expr<'s>, Token<'s>)>),
    /// `{i in A: a[i] > 0}` as a set
    Braced(Boxed<Braces<'s>>),
    /// `- a`: the sign and its operand
    Signed(Boxed<(Sign<'s>, Expr<'s>)>),
    /// `sum {i in A} a[i]`: the keyword with the indexing, and the summand
    Reduction(Boxed<(Reducer<'s>, Braces<'s>)>, Boxed<Expr<'s>>),
    /// `a + b - c`: the maximum precedence of an operand (see [`precedence`](crate::precedence)),
    /// and the operands with their operators
    Chain(u8, Boxed<Operands<'s>>),
    /// `if a then b else c`: `if` and the condition, `then` and its branch, `else` and its branch
    If(Boxed<Part<'s>>, Boxed<Part<'s>>, Option<Boxed<Part<'s>>>),
    /// `net_in` in a node's condition, `- net_in` as its first term
    Net(Boxed<(Option<Sign<'s>>, NetWord<'s>)>),
}

/// A sequence of expressions, such as `a, b` and `a + b`: the first one, and the others with the
/// commas or operators before them.
#[derive(Drop)]
#[cycle(tree)]
pub struct Operands<'s> {
    pub first: Expr<'s>,
    pub more: Items<LinkedOperand<'s>>,
}

/// An operator or a comma, and the expression after it.
#[derive(Drop)]
#[cycle(tree)]
pub struct LinkedOperand<'s> {
    pub operator: Operator<'s>,
    pub operand: Expr<'s>,
}

/// A clause introduced by punctuation or a keyword: `: a > b`, `else 0`.
#[derive(Drop)]
#[cycle(tree)]
pub struct Part<'s> {
    pub mark: Token<'s>,
    pub value: Expr<'s>,
}

/// An indexing expression: braces with their contents.
#[derive(Drop)]
#[cycle(tree)]
pub enum Braces<'s> {
    /// `{}`, and `{: a > b}` with only a condition
    Empty(Token<'s>, Option<Boxed<Part<'s>>>, Token<'s>),
    /// `{i in A, j in B: i > j}`: `{`, the items, the condition, `}`
    Filled(Token<'s>, Operands<'s>, Option<Boxed<Part<'s>>>, Token<'s>),
}
