//! What is asked of the world of a model with its data.

ghost use Rattle.std.specs.Prelude.{[]};
ghost use Rattle.net_tree.specs.View as view;
ghost use Rattle.net_bind.specs.Binding.{AreNew};

use crate::bound::world_shown;
use crate::instances::network_shown;
use crate::steps::line_of;
use crate::values::{index_shown, members_shown, truth_shown, value_shown};
use net_base::Excerpt;
use net_bind::{Member, Scope, World, bind, well_named_are_new};
use net_data::{Tables, parse_data};
use net_driver::well_named;
use net_lex::{Token, Words, lex_data, lex_model};
use net_model::{CheckedModel, free_model, parse_declarations, parse_model};
use net_names::Hints;
use net_sets::HashKey;
use net_tree::{Braces, Decl, Expr, Model};
use std::alloc::{AllocError, Global};

/// What is called with a world.
#[derive(Clone, Copy)]
pub enum Call {
    /// `value` of the left side of a check's comparison.
    Value,
    /// `members` of the left side.
    Members,
    /// `holds` of the comparison.
    Holds,
    /// `index_of` of the check's braces.
    IndexOf,
}

/// A call, the number of the dummy `i`, if it is in scope, and a check that has the expression.
#[derive(Clone, Copy)]
pub struct Question<'s> {
    pub call: Call,
    pub dummy: Option<i64>,
    pub check: &'s str,
}

/// What is shown of a model and its data.
#[derive(Clone, Copy)]
pub enum Shown<'s> {
    /// The answer to a question about their world.
    Answer(Question<'s>),
    /// The world: what `bind` answers.
    World,
    /// The network.
    Network,
}

fn scope_of<'s>(alloc: Global, dummy: Option<i64>) -> Result<Scope<'s>, AllocError> {
    match dummy {
        Some(number) => { Scope::new(alloc).with(alloc, Excerpt::new("i"), Member::Number(number)) }
        None => Ok(Scope::new(alloc)),
    }
}

/// The left side of a comparison.
fn left_side<'a, 's>(condition: &'a Expr<'s>) -> &'a Expr<'s> {
    match condition {
        Expr::Chain(_, operands) => &operands.get().first,
        _ => condition,
    }
}

/// What a call answers that takes an expression.
fn of_condition<'s>(
    alloc: Global,
    call: Call,
    world: &World<'s>,
    scope: &Scope<'s>,
    condition: &Expr<'s>,
) -> Result<String, AllocError> {
    match call {
        Call::Value => value_shown(alloc, world, scope, left_side(condition)),
        Call::Members => members_shown(alloc, world, scope, left_side(condition)),
        _ => truth_shown(alloc, world, scope, condition),
    }
}

/// The braces and the condition of a check.
fn parts_of<'a, 's>(declaration: &'a Decl<'s>) -> Option<(&'a Option<Braces<'s>>, &'a Expr<'s>)> {
    match declaration {
        Decl::Check(_, braces, _, condition, _) => Some((braces, condition)),
        _ => None,
    }
}

/// What a question comes to.
fn of_check<'s>(
    alloc: Global,
    question: Question<'s>,
    world: &World<'s>,
    declaration: &Decl<'s>,
) -> Result<String, AllocError> {
    let scope = scope_of(alloc, question.dummy)?;
    match (question.call, parts_of(declaration)) {
        (Call::IndexOf, Some((Some(braces), _))) => index_shown(alloc, world, &scope, braces),
        (call, Some((_, condition))) => of_condition(alloc, call, world, &scope, condition),
        _ => String::from_str(alloc, "no check"),
    }
}

fn of_first<'s>(
    alloc: Global,
    question: Question<'s>,
    world: &World<'s>,
    model: &Model<'s>,
) -> Result<String, AllocError> {
    match model.declarations.as_slice() {
        [check, ..] => of_check(alloc, question, world, check),
        [] => String::from_str(alloc, "no declaration"),
    }
}

/// Evaluates a question with a single check, whose names are those of the world.
fn of_tokens<'s>(
    alloc: Global,
    question: Question<'s>,
    world: &World<'s>,
    tokens: &[Token<'s>],
) -> Result<String, AllocError> {
    match parse_declarations(alloc, tokens) {
        Ok(model) => {
            let shown = of_first(alloc, question, world, &model);
            free_model(model);
            shown
        }
        Err(fault) => line_of(alloc, &fault),
    }
}

fn answered<'s>(
    alloc: Global,
    question: Question<'s>,
    world: &World<'s>,
) -> Result<String, AllocError> {
    match lex_model(alloc, question.check.as_bytes()) {
        Ok(tokens) => of_tokens(alloc, question, world, tokens.as_slice()),
        Err(fault) => line_of(alloc, &fault),
    }
}

/// What is shown of a model and its tables.
fn of_tables<'s>(
    alloc: Global,
    shown: Shown<'s>,
    model: &Model<'s>,
    hints: &Hints<'s>,
    tables: &Tables<'_, 's>,
) -> Result<String, AllocError>
    requires { AreNew [] (view.model model.now) }
{
    match bind(alloc, model, hints, tables) {
        Ok(world) => match shown {
            Shown::Answer(question) => answered(alloc, question, &world),
            Shown::World => world_shown(alloc, model, &world),
            Shown::Network => network_shown(alloc, model, &world),
        },
        Err(fault) => line_of(alloc, &fault),
    }
}

fn of_data_tokens<'s>(
    alloc: Global,
    shown: Shown<'s>,
    model: &CheckedModel<'s>,
    tokens: &Words<'_, 's>,
) -> Result<String, AllocError>
    requires { AreNew [] (view.model model.now) }
{
    match parse_data(alloc, tokens) {
        Ok(tables) => of_tables(alloc, shown, model.model(), model.hints(), &tables),
        Err(fault) => line_of(alloc, &fault),
    }
}

fn of_model<'s>(
    alloc: Global,
    shown: Shown<'s>,
    model: &CheckedModel<'s>,
    data: &'s str,
) -> Result<String, AllocError>
    requires { AreNew [] (view.model model.now) }
{
    match lex_data(alloc, data.as_bytes()) {
        Ok(tokens) => of_data_tokens(alloc, shown, model, &tokens.words()),
        Err(fault) => line_of(alloc, &fault),
    }
}

fn of_model_tokens<'s>(
    alloc: Global,
    shown: Shown<'s>,
    tokens: &[Token<'s>],
    data: &'s str,
) -> Result<String, AllocError> {
    match parse_model(alloc, HashKey::of_texts(&[], data.as_bytes()), tokens) {
        Ok(model) => {
            well_named();
            well_named_are_new();
            let text = of_model(alloc, shown, &model, data);
            free_model(model.into_model());
            text
        }
        Err(fault) => line_of(alloc, &fault),
    }
}

/// What is shown of a model with its data, or the first error of the two.
pub fn shown_of<'s>(
    alloc: Global,
    shown: Shown<'s>,
    model: &'s str,
    data: &'s str,
) -> Result<String, AllocError> {
    match lex_model(alloc, model.as_bytes()) {
        Ok(tokens) => of_model_tokens(alloc, shown, tokens.as_slice(), data),
        Err(fault) => line_of(alloc, &fault),
    }
}
