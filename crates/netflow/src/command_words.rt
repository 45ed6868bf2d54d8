//! The command line. Only this file and `matched.rt` depend on clap.

ghost use Rattle.std.specs.Prelude.{◌≡◌, false, map, string_bytes, IfOk, IfErr, IfSome, IfNone};
ghost use Rattle.clap.specs.Words.{App, rule_of, with_subcommand};
ghost use Rattle.netflow.specs.CommandLine.{path_rule, objective_rule, lean_rule, prices_rule, action_word, IsApp, IsAskedBy};
ghost use Rattle.netflow.specs.CommandLine.{solve_app, compile_app, min_app, check_app, netflow_app, bare_app};
ghost use Rattle.netflow.specs.CommandLine.{IsMissing, IsNoAction, IsRejection};
ghost use Rattle.netflow.specs.declared.command_words.WordsFault.TheVariants as words_faults;

use crate::matched::{lean_of, objective_of, paths_of, prices_of};
use clap::error::ErrorKind;
use clap::{Arg, ArgAction, Command};
use std::alloc::{AllocError, Global};
use thiserror::Error;

/// The subcommands.
#[derive(Clone, Copy)]
pub enum Action {
    /// `netflow compile MODEL DATA`
    Compile,
    /// `netflow solve MODEL DATA`
    Solve,
    /// `netflow min PROBLEM`
    Min,
    /// `netflow check PROBLEM CERTIFICATE`
    Check,
}

/// The request of a command line.
#[derive(Drop)]
pub struct CommandWords {
    pub command: Action,
    /// The values of the path arguments, in order.
    pub paths: Vec<String>,
    /// The value of `--objective`, possibly empty, or `None` if it is not given.
    pub objective: Option<String>,
    /// Whether the lean form of the problem is requested.
    pub lean: bool,
    /// Whether prices are requested with a plan.
    pub prices: bool,
}

/// Why arguments are not a valid request.
#[derive(Debug, Drop, Error)]
pub enum WordsFault {
    #[error("out of memory")]
    OutOfMemory,
    /// Invalid arguments, or a request for help or the version.
    #[error(transparent)]
    Usage(clap::Error),
}

impl From<AllocError> for WordsFault {
    ghost from_gives = { λ _ e. e ≡ words_faults.OutOfMemory };

    fn from(_fault: AllocError) -> WordsFault {
        WordsFault::OutOfMemory
    }
}

/// The version that `--version` prints, the same as in CHANGELOG.md.
const VERSION: &str = "0.10.0";

const ABOUT: &str = "Minimum-cost flow: solves and compiles AMPL network models, solves DIMACS
problems, and checks certificates";

const STATUSES: &str = "Exit status:
  0   done; of check: yes
  2   no feasible flow; of check: no
  3   refused: the line on standard error says what and where
  4   a file could not be read, or the output not written
  5   out of memory
  64  wrong words on the command line

Example:
  netflow solve transport.mod transport.dat
  netflow compile transport.mod transport.dat > transport.min
  netflow min transport.min > transport.sol
  netflow check transport.min transport.sol

Tools:
  netflow-plan      a plan with decimals and several data files, or why none
  netflow-explain   what an error means, and how to fix it
  netflow-why       why there is no plan, and what one more unit costs
  netflow-report    a plan as a page for the browser
  netflow-sheet     data from spreadsheets, and plans for them
  netflow-convert   models with variables, as nodes and arcs

Documents: the folder docs (installed: share/doc/netflow), and man netflow";

const COMPILE_ABOUT: &str = "Compiles a model to a DIMACS problem on standard output";

const COMPILE_HELP: &str =
    "The problem begins with comment lines that map its numbers to the names of the
model.

Example:
  netflow compile transport.mod transport.dat > transport.min
  netflow compile transport.mod /dev/null
  netflow compile transport.mod transport.dat --lean > transport.min";

const SOLVE_ABOUT: &str = "Solves a model and prints its plan, or why there is none";

const SOLVE_HELP: &str =
    "The plan is the objective's value and the value of each arc. If there is no
plan, netflow prints a set of nodes that supplies more than its arcs can carry,
or less than they must (status 2). With --prices it also prints the price of
each node and the reduced cost of each arc, which prove the plan.

Example:
  netflow solve transport.mod transport.dat
  netflow solve transport.mod transport.dat --prices
  netflow solve transport.mod transport.dat --objective Profit";

const MIN_ABOUT: &str = "Solves a DIMACS problem and prints a certificate";

const MIN_HELP: &str =
    "The certificate is a minimum-cost flow with potentials, or a set of nodes that
proves that no flow is feasible (status 2).

Example:
  netflow min transport.min > transport.sol
  netflow compile transport.mod /dev/null | netflow min /dev/stdin";

const CHECK_ABOUT: &str = "Checks a certificate of a DIMACS problem";

const CHECK_HELP: &str = "Prints yes, or no with the first condition that fails and its arc or node.

Example:
  netflow check transport.min transport.sol";

fn path<'a>(alloc: Global, name: &'a str, help: &'a str) -> Arg<'a>
    ensures rule { rule_of result ≡ path_rule name.entry.now }
    ensures local { result.global ≡ false }
{
    Arg::new(alloc, name)
        .required(true)
        .action(ArgAction::Set)
        .help(help)
}

/// Builds the option that chooses an objective.
fn objective<'a>(alloc: Global) -> Arg<'a>
    ensures rule { rule_of result ≡ objective_rule }
    ensures local { result.global ≡ false }
{
    Arg::new(alloc, "NAME")
        .long("objective")
        .action(ArgAction::Set)
        .help("The objective to use if the model has several")
}

/// Builds the flag that requests the lean form.
fn lean<'a>(alloc: Global) -> Arg<'a>
    ensures rule { rule_of result ≡ lean_rule }
    ensures local { result.global ≡ false }
{
    Arg::new(alloc, "lean")
        .long("lean")
        .action(ArgAction::SetTrue)
        .help("Build a problem without lower bounds or fixed arcs")
}

/// Builds the flag that requests prices.
fn prices<'a>(alloc: Global) -> Arg<'a>
    ensures rule { rule_of result ≡ prices_rule }
    ensures local { result.global ≡ false }
{
    Arg::new(alloc, "prices")
        .long("prices")
        .action(ArgAction::SetTrue)
        .help("Print the prices that prove the plan after it")
}

fn compile_command<'a>(alloc: Global) -> Result<Command<'a>, AllocError>
    ensures { IfOk result (IsApp compile_app) }
{
    Command::new(alloc, "compile")
        .about(COMPILE_ABOUT)
        .after_help(COMPILE_HELP)
        .arg(path(alloc, "MODEL", "The model: its objective, nodes and arcs"))?
        .arg(path(alloc, "DATA", "The model's data; /dev/null if it has none"))?
        .arg(objective(alloc))?
        .arg(lean(alloc))
}

fn solve_command<'a>(alloc: Global) -> Result<Command<'a>, AllocError>
    ensures { IfOk result (IsApp solve_app) }
{
    Command::new(alloc, "solve")
        .about(SOLVE_ABOUT)
        .after_help(SOLVE_HELP)
        .arg(path(alloc, "MODEL", "The model: its objective, nodes and arcs"))?
        .arg(path(alloc, "DATA", "The model's data; /dev/null if it has none"))?
        .arg(objective(alloc))?
        .arg(lean(alloc))?
        .arg(prices(alloc))
}

fn min_command<'a>(alloc: Global) -> Result<Command<'a>, AllocError>
    ensures { IfOk result (IsApp min_app) }
{
    Command::new(alloc, "min")
        .about(MIN_ABOUT)
        .after_help(MIN_HELP)
        .arg(path(
            alloc,
            "PROBLEM",
            "A minimum-cost flow problem in the DIMACS format",
        ))
}

fn check_command<'a>(alloc: Global) -> Result<Command<'a>, AllocError>
    ensures { IfOk result (IsApp check_app) }
{
    Command::new(alloc, "check")
        .about(CHECK_ABOUT)
        .after_help(CHECK_HELP)
        .arg(path(
            alloc,
            "PROBLEM",
            "A minimum-cost flow problem in the DIMACS format",
        ))?
        .arg(path(alloc, "CERTIFICATE", "The certificate to check"))
}

/// Builds the command without its subcommands.
fn bare_command<'a>(alloc: Global) -> Command<'a>
    ensures { IsApp bare_app result }
{
    Command::new(alloc, "netflow")
        .version(VERSION)
        .about(ABOUT)
        .after_help(STATUSES)
        .subcommand_required(true)
        .arg_required_else_help(true)
}

/// Adds a subcommand, unless memory ran out for either command.
fn with_subcommand<'a>(
    program: Result<Command<'a>, AllocError>,
    subcommand: Result<Command<'a>, AllocError>,
) -> Result<Command<'a>, AllocError>
    ensures { (app inner : App) → IfOk program.entry (IsApp app) → IfOk subcommand.entry (IsApp inner) → IfOk result (IsApp (with_subcommand app inner.top)) }
{
    program?.subcommand(subcommand?)
}

fn command<'a>(alloc: Global) -> Result<Command<'a>, AllocError>
    ensures { IfOk result (IsApp netflow_app) }
{
    let with_solve = with_subcommand(Ok(bare_command(alloc)), solve_command(alloc));
    let with_compile = with_subcommand(with_solve, compile_command(alloc));
    let with_min = with_subcommand(with_compile, min_command(alloc));
    with_subcommand(with_min, check_command(alloc))
}

fn action_of(name: &str) -> Option<Action>
    ensures some { IfSome result (λ action. action_word action ≡ name.now) }
    ensures none { IfNone result (IsNoAction name.now) }
{
    match name {
        "compile" => Some(Action::Compile),
        "solve" => Some(Action::Solve),
        "min" => Some(Action::Min),
        "check" => Some(Action::Check),
        _ => None,
    }
}

/// Returns the usage error for a subcommand that is not the program's own. clap reports all of them
/// itself, but its contract does not say so.
fn no_command(command: &mut Command<'_>) -> WordsFault
    ensures { IsMissing result }
{
    match command.error(ErrorKind::MissingSubcommand, "no such command") {
        Ok(error) => WordsFault::Usage(error),
        Err(_) => WordsFault::OutOfMemory,
    }
}

/// Parses the arguments; the first is the program's name. Returns `Usage` with clap's message for
/// invalid arguments and for a request for help or the version.
pub fn words_of(alloc: Global, words: &[String]) -> Result<CommandWords, WordsFault>
    ensures value { IfOk result (IsAskedBy (map string_bytes words.now)) }
    ensures rejected { IfErr result (IsRejection (map string_bytes words.now)) }
{
    let mut command = command(alloc)?;
    let matches = match command.try_get_matches_from_mut(words) {
        Ok(matches) => matches,
        Err(error) if error.kind() == ErrorKind::OutOfMemory => {
            return Err(WordsFault::OutOfMemory);
        }
        Err(error) => return Err(WordsFault::Usage(error)),
    };
    let Some((name, found)) = matches.subcommand() else {
        return Err(no_command(&mut command));
    };
    let Some(action) = action_of(name) else {
        return Err(no_command(&mut command));
    };
    let paths = paths_of(alloc, action, found)?;
    let objective = objective_of(alloc, action, found)?;
    let lean = lean_of(action, found);
    let prices = prices_of(action, found);
    Ok(CommandWords {
        command: action,
        paths,
        objective,
        lean,
        prices,
    })
}
