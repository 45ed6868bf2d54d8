//! Parameters whose values all come from the data, or from one numeral. Nothing is evaluated at
//! their keys, so no row with dummies is needed for a key.

ghost use Rattle.std.specs.Prelude.{◌≡◌, [], Ok, IsTrue, List, map};
ghost use Rattle.std.specs.List.{AllByRecursion};
ghost use Rattle.std.specs.Option.{IfSome};
ghost use Rattle.net_tree.specs.View.{tree, phrase_of};
ghost use Rattle.net_base.specs.declared.diagnostic.Span.{Span as Position};
ghost use Rattle.net_expr.specs.declared.row.Row.{Row as Place};
ghost use Rattle.net_bind.specs.BoundParameters as bound;
ghost use Rattle.net_bind.specs.FromData as from_data;
ghost use Rattle.net_bind.specs.ParameterViews.{parameter_of};
ghost use Rattle.net_expr.specs.Worlds.{World as Declared};

use crate::bind_world::BindingEnv;
use crate::constant_phrase::{are_constant, are_met, is_numeral};
use crate::data_row::Values;
use crate::given::NamedData;
use crate::param_data::data_of;
use crate::parameter::{Parameter, is_number, parameter_entry, takes_texts};
use net_base::{Boxed, Fault};
use net_expr::{Entry, Env, Scope, member};
use net_sets::{KeyValues, Member, Table};
use net_tree::{Expr, Phrase, PhraseWord, phrase_value};
use std::alloc::Global;

/// Returns whether a phrase or a statement gives a value to keys without one.
pub(crate) fn has_source(phrases: &[Phrase<'_>], named_data: &[NamedData<'_, '_, '_>]) -> bool {
    for named in named_data {
        if named.default.is_some() {
            return true;
        }
    }
    phrase_value(PhraseWord::Becomes, phrases).is_some()
        || phrase_value(PhraseWord::Default, phrases).is_some()
}

/// Returns whether a value is of the parameter's kind, and its phrases allow it.
fn fits(parameter: &Parameter<'_, '_>, takes_texts: bool, member: &Member<'_>) -> bool
    requires { takes_texts ≡ bound.takes_texts (map phrase_of parameter.now.phrases.now) }
    ensures { (w : Declared) → IsTrue result → from_data.Fits w (parameter_of parameter.now) member.now }
{
    if takes_texts || is_number(member) {
        are_met(parameter.phrases, member)
    } else {
        false
    }
}

/// Returns whether all values of a table are of the parameter's kind, and its phrases allow them.
fn all_fit<'s>(parameter: &Parameter<'_, 's>, table: &Table<'s>) -> bool
    ensures { (w : Declared) → IsTrue result → AllByRecursion (λ row. from_data.Fits w (parameter_of parameter.now) row.1) table.now }
{
    let takes_texts = takes_texts(parameter.phrases);
    for row in 0..table.len() {
        let Some(member) = table.member(row) else {
            return false;
        };
        if !fits(parameter, takes_texts, member) {
            return false;
        }
    }
    true
}

fn values_fit<'s>(parameter: &Parameter<'_, 's>, values: &Values<'s>) -> bool
    ensures { (w : Declared) → IsTrue result → AllByRecursion (λ row. from_data.Fits w (parameter_of parameter.now) row.1) values.now.0 }
{
    all_fit(parameter, &values.table)
}

/// Evaluates a parameter whose values all come from the data, if that is so and no value is
/// rejected. Otherwise returns `None`, or an error in the data.
pub(crate) fn from_data_alone<'s>(
    alloc: Global,
    earlier: &BindingEnv<'_, 's>,
    parameter: &Parameter<'_, 's>,
    named_data: &[NamedData<'_, '_, 's>],
) -> Result<Option<Boxed<Entry<'s>>>, Fault>
    ensures { (rows : List Place) → from_data.Answers (bound.with_data earlier.now.env earlier.now.widths.now (parameter_of parameter.now) named_data.now
        rows) result }
{
    if !are_constant(parameter.phrases) {
        return Ok(None);
    }
    let mut values = Values::over(alloc, parameter.index.copied()?)?;
    let is_assigned = phrase_value(PhraseWord::Becomes, parameter.phrases).is_some();
    let otherwise = phrase_value(PhraseWord::Default, parameter.phrases).is_some();
    let default = data_of(
        alloc,
        earlier.widths,
        parameter,
        is_assigned,
        named_data,
        &mut values,
    )?;
    if is_assigned || otherwise || default.is_some() {
        return Ok(None);
    }
    if !values_fit(parameter, &values) {
        return Ok(None);
    }
    let values = KeyValues::of_table(values.into_table());
    Ok(Some(parameter_entry(alloc, parameter, values)?))
}

/// Returns the value of an expression if it is a numeral.
fn numeral_of<'s>(alloc: Global, env: &Env<'_, 's>, expr: &Expr<'s>) -> Option<Member<'s>>
    ensures { IfSome result (from_data.IsNumeral env.now (tree expr.now)) }
{
    if !is_numeral(expr) {
        return None;
    }
    match member(alloc, env, &Scope::new(alloc), expr) {
        Ok(member) => Some(member),
        Err(_) => None,
    }
}

/// Returns the value at each key of a parameter without data, if a numeral gives it.
fn same_value<'s>(alloc: Global, env: &Env<'_, 's>, phrases: &[Phrase<'s>]) -> Option<Member<'s>>
    ensures { IfSome result (from_data.IsSame env.now (map phrase_of phrases.now)) }
{
    let assigned = phrase_value(PhraseWord::Becomes, phrases);
    match assigned {
        Some(expr) => numeral_of(alloc, env, expr),
        None => match phrase_value(PhraseWord::Default, phrases) {
            Some(expr) => numeral_of(alloc, env, expr),
            None => None,
        },
    }
}

/// Evaluates a parameter without data if one numeral gives the values at all keys, and that value is
/// not rejected. Otherwise returns `None`.
pub(crate) fn same_everywhere<'s>(
    alloc: Global,
    earlier: &BindingEnv<'_, 's>,
    parameter: &Parameter<'_, 's>,
) -> Result<Option<Boxed<Entry<'s>>>, Fault>
    ensures { (rows : List Place) (at : Position) → bound.index_list at rows ≡ Ok parameter.now.index.now → from_data.Answers (bound.with_data
        earlier.now.env earlier.now.widths.now (parameter_of parameter.now) [] rows) result }
{
    let env = &earlier.env;
    let phrases = parameter.phrases;
    if !are_constant(phrases) {
        return Ok(None);
    }
    let Some(member) = same_value(alloc, env, phrases) else {
        return Ok(None);
    };
    if !fits(parameter, takes_texts(phrases), &member) {
        return Ok(None);
    }
    let values = KeyValues::same(parameter.index.copied()?, member);
    Ok(Some(parameter_entry(alloc, parameter, values)?))
}
