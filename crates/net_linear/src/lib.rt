//! Linear evaluation: ranges of the net inflow from conditions of nodes, and linear forms from
//! objectives.
#![tactic(auto)]

mod arc_names;
mod coefficient_list;
mod condition;
mod form;
mod key_numbers;
mod linear_value;
mod net_term;
mod objective_price;
mod objectives;
mod products;
mod term;

pub use condition::{Comparison, Sides, node_range};
pub use form::{Affine, conditions_are_sound, forms_have_value, objectives_are_sound};
pub use key_numbers::{KeyNumbers, NumberedNames};
pub use net_term::NetTerm;
pub use objective_price::with_price;
pub use objectives::{key_of, objective};
