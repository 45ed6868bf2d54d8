//! Minimum-cost flow: compiles models, solves problems, and checks certificates.
#![tactic(auto)]

mod call;
mod command_words;
mod error_line;
mod matched;
mod program;
mod status;

use crate::call::RuntimeFiles;
use crate::error_line::ErrorStream;
use crate::program::{called_words, run_program};
use net_io::OfWrite;
use std::io;
use std::process::ExitCode;

fn main(rt: HostRuntime) -> io::Result<ExitCode> {
    let mut errors = ErrorStream {
        runtime: &rt,
        failed: false,
    };
    let status = match called_words(&rt, &mut errors) {
        Ok(words) => {
            let files = RuntimeFiles { runtime: &rt };
            let mut output = OfWrite::new(io::writer(&rt));
            run_program(&rt, &files, &mut output, &mut errors, &words)
        }
        Err(status) => status,
    };
    Ok(ExitCode::from(status.code()))
}
