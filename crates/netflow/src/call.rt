//! What to run, and on which files.

ghost use Rattle.netflow.specs.CommandLine.{IsCallOf, path_at};
ghost use Rattle.std.specs.Option.{option_copied};
ghost use Rattle.std.specs.Prelude.{◌≡◌, string_bytes, option_map, ℕ, List, Option, false, ⊤, IfSome};

use crate::command_words::{Action, CommandWords};
use either::{Either, Left, Right};
use net_driver::{HashKey, Options};
use net_io::{OfRead, Source};
use std::fs;
use std::fs::Files;
use std::io::Input;

/// A call with the paths of its files.
pub enum Call<'w> {
    /// The model, the data, and the options.
    Compile(&'w str, &'w str, Options<'w>),
    /// The model, the data, and the options.
    Solve(&'w str, &'w str, Options<'w>),
    /// The model, the data, and the options; a plan is printed with prices.
    SolveWithPrices(&'w str, &'w str, Options<'w>),
    /// The problem.
    Min(&'w str),
    /// The problem and the certificate.
    Check(&'w str, &'w str),
}

/// Returns the path with this index, counted from 0, or an empty path if there is none.
fn path_at(words: &CommandWords, at: usize) -> &str
    ensures { result.now ≡ path_at words.now at }
{
    match words.paths.get(at) {
        Some(path) => path.as_str(),
        None => "",
    }
}

/// Returns the name of the chosen objective, or `None` if none was given.
fn objective_in(words: &CommandWords) -> Option<&str>
    ensures { option_copied result ≡ option_map string_bytes words.now.objective }
{
    match &words.objective {
        None => None,
        Some(name) => Some(name.as_str()),
    }
}

/// Returns the options, with this key of the hashes.
fn options_in(words: &CommandWords, key: Option<HashKey>) -> Options<'_>
    ensures lean { result.lean ≡ words.now.lean }
    ensures objective { option_copied result.objective ≡ option_map string_bytes words.now.objective }
{
    Options {
        objective: objective_in(words),
        lean: words.lean,
        key,
    }
}

/// Returns the call of the subcommand `solve`.
fn solve_call(words: &CommandWords, key: Option<HashKey>) -> Call<'_>
    requires { words.now.command ≡ Action.Solve }
    ensures { IsCallOf words.now result }
{
    let model = path_at(words, 0);
    let data = path_at(words, 1);
    let options = options_in(words, key);
    if words.prices {
        Call::SolveWithPrices(model, data, options)
    } else {
        Call::Solve(model, data, options)
    }
}

/// Returns the call that the arguments request, with this key of the hashes.
pub fn call_of(words: &CommandWords, key: Option<HashKey>) -> Call<'_>
    ensures value { IsCallOf words.now result }
{
    match words.command {
        Action::Compile => {
            let options = options_in(words, key);
            Call::Compile(path_at(words, 0), path_at(words, 1), options)
        }
        Action::Solve => solve_call(words, key),
        Action::Min => Call::Min(path_at(words, 0)),
        Action::Check => Call::Check(path_at(words, 0), path_at(words, 1)),
    }
}

/// Files that can be opened by their paths.
pub trait InputFiles {
    /// An opened file.
    type Input: Source + Drop;

    // Opening this path can give this file, or `None` if there is no file to read.
    ghost opens: { Self → List ℕ → Option Self.Input → Type 0 };

    /// Opens the file at a path, or returns `None` if it cannot be opened.
    fn open(&self, path: &str) -> Option<Self::Input>
        ensures opened { opens self.now path.now result }
        ensures unread { IfSome result (λ file. Self.Input.failed file ≡ false) };
}

/// The path of standard input.
const STANDARD_INPUT: &str = "/dev/stdin";

/// The files of a runtime, with its standard input at `/dev/stdin`.
#[derive(Drop)]
pub struct RuntimeFiles<'r, R> {
    pub runtime: &'r R,
}

impl<R: Files + Input> InputFiles for RuntimeFiles<'_, R> {
    type Input = OfRead<Either<R::File, R::Reader>>;

    // std's contracts do not say which bytes a file has, so opening it can give any file.
    ghost opens = { λ _ _ _. ⊤ };

    fn open(&self, path: &str) -> Option<OfRead<Either<R::File, R::Reader>>> {
        // A process can read a socket or another user's pipe as its standard input, but the system
        // does not let it open them by this path.
        if path == STANDARD_INPUT {
            return Some(OfRead::new(Right(self.runtime.reader())));
        }
        match fs::open(self.runtime, path) {
            Ok(file) => Some(OfRead::new(Left(file))),
            Err(_) => None,
        }
    }
}
