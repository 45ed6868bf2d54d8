//! The DIMACS file format for minimum-cost flow problems, and the file format of their
//! certificates.
#![tactic(auto)]

mod certificate_draft;
mod certificate_reader;
mod certificate_writer;
mod claim;
mod fields;
mod integer;
mod line_scan;
mod number_field;
mod open_line;
mod problem_draft;
mod problem_fault;
mod problem_line;
mod problem_reader;
mod problem_writer;
mod progress;
mod reading;
mod written_line;

pub use certificate_reader::{read_certificate, written_texts_are_read_back};
pub use certificate_writer::write_certificate;
pub use net_io::{Failed, MemorySink, MemorySource, OfRead, OfWrite, Sink, Source};
pub use problem_fault::{LineFault, ProblemFault, Rejection};
pub use problem_reader::read_problem;
pub use problem_writer::{write_problem, write_problem_to};
pub use reading::{Reading, TEXT_LIMIT};
pub use std::alloc::AllocError as OutOfMemory;
