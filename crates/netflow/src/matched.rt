//! The values that clap found for a subcommand.

ghost use Rattle.std.specs.Prelude.{◌≡◌, [], ◌∷◌, map, option_map, string_bytes, codes, IfOk};
ghost use Rattle.clap.specs.Words.{first_of};
ghost use Rattle.clap.specs.Matches.{found_of};
ghost use Rattle.clap.specs.Walk.{rows_of};
ghost use Rattle.netflow.specs.CommandLine.{path_names, asked_objective, asked_lean, asked_prices, is_set, given};

use crate::command_words::Action;
use clap::ArgMatches;
use std::alloc::{AllocError, Global};

/// Returns the value of a path argument.
#[tactic(auto, using(crate::proofs::Rows::first_given))]
fn path_of(alloc: Global, matches: &ArgMatches<'_>, name: &str) -> Result<String, AllocError>
    ensures { IfOk result (λ path. string_bytes path ≡ given (rows_of (found_of matches.now)) name.now) }
{
    String::from_str(alloc, matches.get_str(name).unwrap_or(""))
}

fn one_path(alloc: Global, matches: &ArgMatches<'_>, name: &str) -> Result<Vec<String>, AllocError>
    ensures { IfOk result (λ paths. map string_bytes paths.items ≡ given (rows_of (found_of matches.now)) name.now ∷ []) }
{
    let mut paths = Vec::new(alloc);
    paths.push(path_of(alloc, matches, name)?)?;
    Ok(paths)
}

fn two_paths(
    alloc: Global,
    matches: &ArgMatches<'_>,
    first: &str,
    second: &str,
) -> Result<Vec<String>, AllocError>
    ensures { IfOk result (λ paths. map string_bytes paths.items
        ≡ given (rows_of (found_of matches.now)) first.now ∷ given (rows_of (found_of matches.now)) second.now ∷ []) }
{
    let mut paths = Vec::new(alloc);
    paths.push(path_of(alloc, matches, first)?)?;
    paths.push(path_of(alloc, matches, second)?)?;
    Ok(paths)
}

/// Returns the values of a subcommand's path arguments, in order.
pub(crate) fn paths_of(
    alloc: Global,
    action: Action,
    matches: &ArgMatches<'_>,
) -> Result<Vec<String>, AllocError>
    ensures { IfOk result (λ paths.
        map string_bytes paths.items ≡ map (given (rows_of (found_of matches.now))) (path_names action)) }
{
    match action {
        Action::Compile => two_paths(alloc, matches, "MODEL", "DATA"),
        Action::Solve => two_paths(alloc, matches, "MODEL", "DATA"),
        Action::Min => one_path(alloc, matches, "PROBLEM"),
        Action::Check => two_paths(alloc, matches, "PROBLEM", "CERTIFICATE"),
    }
}

/// Returns the value of `--objective`.
#[tactic(auto, using(crate::proofs::Rows::first_given))]
fn name_of(alloc: Global, matches: &ArgMatches<'_>) -> Result<Option<String>, AllocError>
    ensures { IfOk result (λ name. option_map string_bytes name ≡ first_of (codes "NAME") (rows_of (found_of matches.now))) }
{
    match matches.get_str("NAME") {
        None => Ok(None),
        Some(name) => Ok(Some(String::from_str(alloc, name)?)),
    }
}

/// Returns the value of `--objective`, for a subcommand that has this option.
pub(crate) fn objective_of(
    alloc: Global,
    action: Action,
    matches: &ArgMatches<'_>,
) -> Result<Option<String>, AllocError>
    ensures { IfOk result (λ name. option_map string_bytes name ≡ asked_objective action (rows_of (found_of matches.now))) }
{
    match action {
        Action::Compile | Action::Solve => name_of(alloc, matches),
        Action::Min | Action::Check => Ok(None),
    }
}

/// Returns whether a flag is set; a flag that is not given has no value, or `false`.
#[tactic(auto, using(crate::proofs::Rows::first_given))]
fn flag_of(matches: &ArgMatches<'_>, name: &str) -> bool
    ensures { result ≡ is_set (rows_of (found_of matches.now)) name.now }
{
    match matches.get_str(name) {
        Some(value) => value == "true",
        None => false,
    }
}

/// Returns whether the lean form is requested, for a subcommand that has this flag.
pub(crate) fn lean_of(action: Action, matches: &ArgMatches<'_>) -> bool
    ensures { result ≡ asked_lean action (rows_of (found_of matches.now)) }
{
    match action {
        Action::Compile | Action::Solve => flag_of(matches, "lean"),
        Action::Min | Action::Check => false,
    }
}

/// Returns whether prices are requested, for the subcommand that has this flag.
pub(crate) fn prices_of(action: Action, matches: &ArgMatches<'_>) -> bool
    ensures { result ≡ asked_prices action (rows_of (found_of matches.now)) }
{
    match action {
        Action::Solve => flag_of(matches, "prices"),
        Action::Compile | Action::Min | Action::Check => false,
    }
}
