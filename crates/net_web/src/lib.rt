//! netflow's calls for hosts that are not Rattle, such as a web page or a program in C: from bytes to
//! bytes, without files.
//!
//! Each call takes its input files as bytes, and memory for its output. It returns the program's exit
//! status and stores the length of the output, which is in the memory if it fits.
#![tactic(auto)]

mod exports;
mod replies;

pub use exports::{netflow_check, netflow_compile, netflow_min, netflow_solve};
