//! The normal form: translates an instance into a minimum-cost flow problem and a link that maps
//! flows back to assignments.
#![tactic(auto)]

mod arc_part;
mod instance;
mod limits;
mod node_part;
mod node_sums;
mod normal_form;
mod problem;
mod profile;

pub use instance::{InstArc, Instance, NodeRange, Sense};
pub use limits::{
    ARC_LIMIT, COST_LIMIT, FLOW_ARC_LIMIT, FLOW_LIMIT, FLOW_NODE_LIMIT, NODE_LIMIT, RANGE_LIMIT,
    VALUE_LIMIT,
};
pub use normal_form::{forms_are_alike, normalise, normalise_lean};
pub use problem::{FlowArc, Link, Problem};
pub use profile::Profile;
pub use std::alloc::AllocError as OutOfMemory;
