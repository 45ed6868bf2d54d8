//! Syntax trees of models: declarations and expressions with all their tokens.
#![tactic(auto)]

mod declaration;
mod expr;
mod item;
mod operator;
pub mod precedence;
mod role;
mod span;
mod terminal;

pub use declaration::{Body, Decl, Model, NetCond, Phrase, PhraseWord, phrase_value};
pub use expr::{Braces, Expr, LinkedOperand, Operands, Part};
pub use item::{sides_of, single_name};
pub use operator::{BinOp, Operator, Reducer, Reduction, Sign};
pub use role::{Begins, Declares, Relation, Role, role_of};
pub use span::{braces_span, condition_span, span_between, span_of};
pub use terminal::{Leaf, NetWord, Terminal, number_in_word, numerals_have_numbers};
