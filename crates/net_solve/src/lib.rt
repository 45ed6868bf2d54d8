//! Solvers of minimum-cost flow problems whose answers are certificates.
//!
//! `Plain` always has an answer: a heuristic proposes one, and the verified primal-dual algorithm starts from it. `Scaling` is cost
//! scaling by itself, whose phases and steps are counted.
#![tactic(auto)]

mod amounts;
mod balancing;
mod carried;
mod discharging;
mod ending;
mod forest;
mod gaps;
mod growing;
mod lowering;
mod primal_dual;
mod pseudoflow;
mod pseudoflow_start;
mod rounding;
mod row_tests;
mod rows;
mod saturating;
mod scaling;
mod scanning;
mod sending;
mod slack;
mod solver;
mod solving;

pub use solving::{FirstSolver, first_solver, solve, solve_problem};
/// What `solve` returns: a verified certificate of the problem.
pub use net_check::Certificate as Settled;
pub use net_guess::{Guess, find_guess};
pub use primal_dual::settle;
pub use scaling::{Scaling, ScalingRun};
pub use solver::{Plain, Solver};
pub use std::alloc::AllocError as OutOfMemory;
