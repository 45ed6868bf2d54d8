//! Parsing the tokens of a model.

ghost use Rattle.std.specs.Prelude.{◌≡◌, IfOk, IfErr, [], Ok, ◌≤◌, ◌<◌, ℕ, List, Err};
ghost use Rattle.net_tree.specs.View.{model};
ghost use Rattle.net_model.specs.Declarations.{model_at, nesting_limit};
ghost use Rattle.net_model.specs.Faults.{Reports};
ghost use Rattle.net_model.specs.Meaning.{Means, IsRejected};
ghost use Rattle.net_tree.specs.View as view;
ghost use Rattle.net_model.specs.Models.{Parses, meant, IsFault, Decided};
ghost use Rattle.net_tree.specs.Tree.{Tree, Declaration};
ghost use Rattle.net_tree.specs.Print.{put, print};
ghost use Rattle.net_tree.specs.Depth.{model_depth};
ghost use Rattle.net_tree.specs.WellFormed.{IsWellFormed};
ghost use Rattle.net_tree.specs.Declarations.{AreDeclarations};
ghost use Rattle.net_model.specs.Reading.{Tokens};
ghost use Rattle.net_model.specs.GrammarLaws.{IsComplete, IsSound, IsUnique};
ghost use Rattle.net_model.specs.declared.model_parser.ParseError.TheVariants.{TooDeep};

use crate::checked_model::CheckedModel;
use crate::declarations::declarations;
use crate::model_fault::reported;
use crate::token_cursor::TokenCursor;
use net_base::Fault;
use net_lex::Token;
use net_names::check_names;
use net_sets::HashKey;
use net_tree::Model;
use std::alloc::{AllocError, AllocFailed, Global};

/// Returns the maximum nesting depth.
fn deepest() -> u8
    ensures { result ≡ nesting_limit }
{
    64
}

/// Parses the tokens of a model by the grammar alone. Does not check names.
///
/// Returns E10, E11, E14, E15 or E16 at the first token that is not allowed, or an error that
/// memory ran out.
pub fn parse_declarations<'s>(alloc: Global, tokens: &[Token<'s>]) -> Result<Model<'s>, Fault>
    // The result is the tree that the grammar gives, or the error at the first token that is not
    // allowed.
    ensures value { Reports tokens.now result (model_at nesting_limit tokens.now) }
    // The tokens are those of the model, which is well-formed and within the nesting limit.
    ensures means { IfOk result (λ m. Means tokens.now (model m)) }
    // An error is at the first token after which no well-formed model (for the nesting limit: none
    // within the limit) can continue, or at the end.
    ensures rejected { IfErr result (IsRejected tokens.now) }
{
    let mut cursor = TokenCursor::new(tokens);
    match declarations(alloc, deepest(), &mut cursor) {
        Ok(declarations) => Ok(Model { declarations }),
        Err(stop) => Err(reported(alloc, stop, tokens)),
    }
}

fn checked<'s>(
    alloc: Global,
    key: HashKey,
    tokens: &[Token<'s>],
    model: Model<'s>,
) -> Result<CheckedModel<'s>, Fault>
    requires read { model_at nesting_limit tokens.now ≡ Ok ((view.model model, tt), []) }
    requires means { Means tokens.now (view.model model) }
    ensures value { Parses result (meant tokens.now) }
    ensures means { IfOk result (λ m. Means tokens.now (view.model m)) }
    ensures rejected { IfErr result (IsFault tokens.now) }
{
    match check_names(alloc, key, &model) {
        Ok(hints) => Ok(CheckedModel::new(model, hints)),
        Err(fault) => {
            free_model(model);
            Err(fault)
        }
    }
}

/// Parses the tokens of a model and checks its names.
///
/// Tokens that the grammar does not allow are rejected first, whatever the names are: E10, E11, E14, E15 or E16 at the first token that
/// is not allowed. Then the first name, from the left, that is not declared or used as it must be is rejected: E12, E13, or E14 of an
/// `obj` phrase, at the name and with it as the detail. `key` is that of the run; it decides only how names are hashed.
pub fn parse_model<'s>(
    alloc: Global,
    key: HashKey,
    tokens: &[Token<'s>],
) -> Result<CheckedModel<'s>, Fault>
    ensures value { Parses result (meant tokens.now) }
    // The model prints as the tokens, has the grammar's form and is nested at most 64 deep.
    ensures means { IfOk result (λ m. Means tokens.now (view.model m)) }
    // The error is the grammar's; or, if the grammar finds none, it is the first error of the names.
    ensures rejected { IfErr result (IsFault tokens.now) }
{
    match parse_declarations(alloc, tokens) {
        Ok(model) => checked(alloc, key, tokens, model),
        Err(fault) => Err(fault),
    }
}

/// Frees a model.
///
/// Verifying the drop of a model is expensive. It is done once here instead of in each caller.
pub fn free_model(_model: Model<'_>) {}

/// What the grammar expects at the position of a rejected token.
#[derive(Clone, Copy)]
pub enum Awaiting {
    /// The keyword of a declaration, or the end of the text.
    Declaration,
    /// A phrase, or the end of the declaration.
    Phrase,
    /// The same as `Phrase`, and the token would begin a phrase that has already occurred.
    FurtherPhrase,
    /// The same as `Phrase`, directly after the node of `from` or `to`.
    PhraseAfterNode,
    /// The name of an objective after `obj`, or the rest of a declared objective after its name.
    Objective,
    /// Anything else: an operand, a bracket, a name.
    Other,
}

/// Why parsing stops.
#[derive(Clone, Copy)]
pub enum ParseError {
    OutOfMemory,
    /// A token that is not allowed: the number of tokens from it to the end, and what was expected
    /// instead.
    Rejected(usize, Awaiting),
    /// A token that exceeds the nesting limit: the number of tokens from it to the end.
    TooDeep(usize),
}

impl From<AllocError> for ParseError {
    ghost use Rattle.std.specs.Prelude.{◌≡◌};
    ghost use Rattle.net_model.specs.declared.model_parser.ParseError.TheVariants.{OutOfMemory};

    ghost from_gives = { λ _ e. e ≡ OutOfMemory };

    fn from(_rejected: AllocError) -> ParseError {
        ParseError::OutOfMemory
    }
}

impl<T: Drop> From<AllocFailed<T>> for ParseError {
    ghost use Rattle.std.specs.Prelude.{◌≡◌};
    ghost use Rattle.net_model.specs.declared.model_parser.ParseError.TheVariants.{OutOfMemory};

    ghost from_gives = { λ _ e. e ≡ OutOfMemory };

    fn from(_rejected: AllocFailed<T>) -> ParseError {
        ParseError::OutOfMemory
    }
}

/// Theorem: two well-formed expressions, or two well-formed models, with the same tokens are equal.
pub fn one_tree()
    ensures expressions { (x y : Tree) → IsWellFormed x → IsWellFormed y → put x [] ≡ put y [] → x ≡ y }
    ensures models { (x y : List Declaration) → AreDeclarations x → AreDeclarations y → print x ≡ print y → x ≡ y }
{}

/// Theorem: the tokens of each well-formed model are parsed as that model if it is within the
/// nesting limit, and otherwise up to the token that exceeds the limit.
pub fn read_back()
    ensures kept { (limit : ℕ) (x : List Declaration) → AreDeclarations x → model_depth x ≤ limit → model_at limit (print x) ≡ Ok ((x, tt), []) }
    ensures exceeded { (limit : ℕ) (x : List Declaration) → AreDeclarations x → limit < model_depth x → (left : ℕ)
        × (model_at limit (print x) ≡ Err (TooDeep left)) }
{}

/// Theorem: any tokens are a model whose names are valid, or have a first error.
pub fn parsed_or_rejected()
    ensures value { (tokens : Tokens) → Decided tokens }
{}

/// Theorem: the tokens of each well-formed model are a model of the grammar: the one whose abstract
/// syntax the tree has.
pub fn grammar_complete()
    ensures value { IsComplete }
{}

/// Theorem: each model of the grammar is the abstract syntax of a well-formed tree with the same
/// tokens.
pub fn grammar_sound()
    ensures value { IsSound }
{}

/// Theorem: no tokens are two models of the grammar.
pub fn grammar_unique()
    ensures value { IsUnique }
{}
