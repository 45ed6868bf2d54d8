//! The check of a model's names: the first name error. No meaning is kept: net_expr finds it again
//! by the world and the scope.
#![tactic(auto)]

mod declaration_names;
mod expression_names;
mod hints;
mod iteration;
mod meaning;
mod name_fault;
mod name_laws;
mod name_scope;

pub use declaration_names::check_names;
pub use hints::Hints;
pub use meaning::{Meaning, Need};
pub use name_laws::{front_of_names, name_errors_are_in_model, new_dummy, well_named_each};
