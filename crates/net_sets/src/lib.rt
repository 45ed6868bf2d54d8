//! Members, tuples, sets of tuples and tables.
#![tactic(auto)]

mod component_index;
mod cow;
mod cursor;
mod indexed_set;
mod kept;
mod key;
mod key_list;
mod key_values;
mod member;
mod name_map;
mod number_run;
mod operations;
mod range;
mod rows;
mod short_tuple;
mod table;
mod text;
mod tuple;
mod tuple_set;
mod tuple_store;

pub use cow::Cow;
pub use cursor::Cursor;
pub use indexed_set::{IndexedSet, SharedSet};
pub use key::HashKey;
pub use key_list::KeyList;
pub use key_values::KeyValues;
pub use member::Member;
pub use name_map::NameMap;
pub use operations::{
    cross, difference, intersection, is_within, narrowest, products_are_lists,
    range_has_what_it_lists, symmetric_difference, union, walks_those_that_agree, widest,
};
pub use range::Range;
pub use table::Table;
pub use text::{Text, TextBytes};
pub use tuple::{ARITY_LIMIT, Tuple};
pub use tuple_set::{SetFault, TUPLES_LIMIT, TupleSet};
