//! The unverified part of the solver: heuristics that propose an answer to a minimum-cost flow problem.
//!
//! It is proved that each call returns and that no index leaves its list, and nothing else. net_solve verifies each answer.
#![tactic(auto)]

mod attaching;
mod block;
mod bottleneck;
mod by_node;
mod cheapest_paths;
mod excess;
mod guess;
mod guessing;
mod incidence;
mod node_queue;
mod pivoting;
mod preflow;
mod price_lists;
mod prices;
mod simplex;
mod simplex_arc;
mod starting;
mod tree;
mod unchecked_lists;

pub use guess::{Cut, Guess, Work};
pub use guessing::{find_counted_guess, find_cut, find_guess};
pub use node_queue::NodeQueue;
