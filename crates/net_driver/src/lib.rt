//! The public calls: from input files to an output text.
#![tactic(auto)]

mod answer;
mod checking;
mod compile_run;
mod compiled;
mod compiled_network;
mod driver_fault;
mod driver_laws;
mod line_runs;
mod network_reader;
mod priced_run;
mod problem_source;
mod reporting;
mod solve_run;

pub use answer::{Answer, Outcome, solve_model, solve_model_with, solve_outcome_with};
pub use checking::{check_bytes, verdict_line};
pub use compile_run::{run_compile, run_compile_with};
pub use compiled::{Compiled, CompiledText, Options, compile, compile_with};
pub use driver_fault::{Fault, LineRejection, Rejection, TextName};
pub use driver_laws::{
    answers_are_accepted, answers_solve_models, compilations_are_read_back, compilations_are_sound,
    compiled_problems_represent_models, cuts_are_missed, errors_are_sound,
    first_error_is_in_its_file, inputs_mean_one_network, line_names_are_exact,
    models_have_one_network, names_are_declared_once, nodes_and_arcs_are_apart, one_first_fault,
    one_of_network_and_error, prices_prove_plans, printed_prices_prove_plans, read_or_rejected,
    solutions_are_sound, texts_have_one_answer, well_named,
};
pub use line_runs::{run_check, run_min, solve_min};
pub use net_base::{ErrorCode, Span};
pub use net_check::{Reason, Side, Verdict};
pub use net_dimacs::LineFault;
pub use net_inst::{Named, Names};
pub use net_io::{Failed, Sink, Source};
pub use net_normal::{Link, Problem};
pub use net_sets::HashKey;
pub use net_solve::Settled;
pub use network_reader::read_network;
pub use priced_run::run_solve_with_prices;
pub use solve_run::{ExitKind, run_solve, run_solve_with};
pub use std::alloc::AllocError as OutOfMemory;
