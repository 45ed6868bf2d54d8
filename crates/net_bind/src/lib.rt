//! Evaluation of a model with its data: the members of declared sets and the values of declared
//! parameters.
#![tactic(auto)]

mod bind_world;
mod boxed_values;
mod by_name;
mod cell;
mod cell_group;
mod check;
mod constant_phrase;
mod crossing;
mod data_item;
mod data_row;
mod declared_names;
mod eval_laws;
mod from_data;
mod given;
mod param_data;
mod parameter;
mod parameter_keys;
mod restriction;
mod set_declaration;
mod set_phrase;
mod superset;
mod value_source;
mod world_calls;

pub use bind_world::bind;
pub use eval_laws::{
    bound_worlds_have_parameters, bound_worlds_have_sets, checks_are_sound,
    errors_are_in_model_or_data, parameters_are_sound, restrictions_are_sound,
    rows_come_before_sources, statements_are_taken_by_rows, well_named_are_new, worlds_are_sound,
};
pub use net_base::Fault as EvalFault;
pub use net_expr::{Entry, Keys, Member, Scope, Text, Tuple, World};
pub use world_calls::{holds, index_of, members, value};
