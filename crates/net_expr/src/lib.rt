//! The evaluator: values of expressions (members, sets and truth values), and the keys of indexing
//! expressions.
#![tactic(auto)]

mod arithmetic;
mod declared_rows;
mod eval;
mod expression_calls;
mod fitting;
mod index_item;
mod indexing;
mod keys;
mod list;
mod name;
mod operators;
mod range_operator;
mod reference;
mod row;
mod row_list;
mod scope;
mod selecting;
mod set_operator;
mod subscripts;
mod value;
mod width;
mod world;

pub use arithmetic::{is_small, is_small_wide};
pub use eval::evaluate;
pub use expression_calls::{
    errors_are_in_expressions, holds, index_of, keys_are_distinct, member, members,
    values_keep_sets,
};
pub use indexing::{Indexing, indexing_of, kept_indexing_of};
pub use name::key_count;
pub use net_sets::{Member, Text, Tuple};
pub use operators::truth;
pub use reference::{push_member, push_reference, reported_reference};
pub use row::{Keys, Row};
pub use row_list::{RowList, RowRef};
pub use scope::{Binding, Scope};
pub use subscripts::key_of;
pub use value::{Value, reject_tree};
pub use world::{Entry, Env, World};
