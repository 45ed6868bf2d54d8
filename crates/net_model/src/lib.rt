//! The parser: from the tokens of a model to its declarations.
#![tactic(auto)]

mod braces;
mod chains;
mod checked_model;
mod choices;
mod conditions;
mod declarations;
mod expected;
mod expressions;
mod model_fault;
mod model_parser;
mod phrases;
mod stored;
mod token_cursor;

pub use checked_model::CheckedModel;
pub use model_parser::{
    free_model, grammar_complete, grammar_sound, grammar_unique, one_tree, parse_declarations,
    parse_model, parsed_or_rejected, read_back,
};
pub use net_base::Fault as ModelFault;
pub use net_tree::{Decl, Expr, Model, NetCond};
