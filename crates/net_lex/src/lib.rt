//! The lexer: tokens of model and data files.
#![tactic(auto)]

mod bare_word;
mod bytes;
mod data_text;
mod error_search;
mod gap;
mod model_text;
mod numeral;
mod reserved_words;
mod scan;
mod shape;
mod significand;
mod string;
mod token;
mod tokens;
mod whole;
mod words;

pub use data_text::{DATA_LIMIT, lex_data};
pub use error_search::{
    first_error, one_first_fault, one_reading, read_or_rejected, tokens_have_no_line_ends,
};
pub use model_text::{MODEL_LIMIT, lex_model};
pub use net_base::{Fault as LexFault, Span};
pub use token::{Kind, Token, line_column};
pub use whole::{NumFault, VALUE_LIMIT, whole_of};
pub use words::{Word, WordList, Words};
