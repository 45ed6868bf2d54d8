//! The nodes and arcs of a model by name: the network of a model in its world.
#![tactic(auto)]

mod arc;
mod arc_draft;
mod arc_text;
mod draft;
mod inst_laws;
mod network;
mod network_names;
mod node;
mod node_name;
mod price;

pub use inst_laws::{
    arcs_are_written, assignments_are_alike, assignments_are_sound, errors_are_in_model,
    flows_stand_for_assignments, names_are_declared, names_declared_once_are_apart,
    network_without_objective_is_one, networks_are_sound, objective_is_written,
    problems_represent_networks, ranges_are_conditions,
};
pub use net_base::Fault as InstFault;
pub use network::{Named, instantiate, instantiate_for};
pub use network_names::{Declared, DeclaredRows, NameList, Names};
