//! Results in the model's names: mapping flows back to assignments, and the text of name maps,
//! plans, prices and cuts.
#![tactic(auto)]

mod cut_text;
mod display;
mod links;
mod prices;
mod written_name;

pub use cut_text::write_cut;
pub use display::{map_back, write_display};
pub use links::{line_names_are_names, names_stay_within_lines, push_in_line, write_links_to};
pub use prices::push_prices;
pub use std::alloc::AllocError as OutOfMemory;
