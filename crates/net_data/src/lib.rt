//! The parser of data files: the statements with their tables.
#![tactic(auto)]

mod cells;
mod data_parser;
mod expected_token;
mod heading;
mod members;
mod next_token;
mod param_statement;
mod set_statement;
mod statement;

pub use cells::Cells;
pub use data_parser::{
    grammar_is_complete, grammar_is_sound, grammar_is_unambiguous, group_by_group,
    no_statements_go_on, one_meaning, parse_data, set_row_by_row,
};
pub use members::Members;
pub use net_base::Fault as DataFault;
pub use statement::{
    ColumnsStatement, DefaultValue, Given, ListStatement, NamedSet, SetStatement, Single,
    Statement, TableStatement, Tables, Transposed,
};
