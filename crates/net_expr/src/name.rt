//! Values of names and other atoms.

ghost use Rattle.std.specs.Prelude.{◌≡◌, []};
ghost use Rattle.std.specs.Option.{option_copied};
ghost use Rattle.net_sets.specs.Sets.{has, at_key};
ghost use Rattle.net_tree.specs.Tree as trees;
ghost use Rattle.net_tree.specs.Numerals.{number_of};
ghost use Rattle.net_base.specs.Outcomes.{Refines, Yields};
ghost use Rattle.net_expr.specs.Values as values;
ghost use Rattle.net_expr.specs.Worlds as worlds;

use crate::reference::reported_reference;
use crate::scope::Scope;
use crate::value::Value;
use crate::world::{Entry, Env};
use net_base::{Detail, ErrorCode, Excerpt, Fault, Language, Span};
use net_lex::Token;
use net_sets::{Cow, KeyList, Member, Text, Tuple};
use net_tree::{Leaf, Role, role_of};
use std::alloc::Global;

fn missing<'w, 's>(at: Span, detail: Detail, listed: bool) -> Result<Value<'w, 's>, Fault>
    ensures { Yields (worlds.missing at detail listed) result }
{
    let error_code = if listed {
        ErrorCode::NoValue
    } else {
        ErrorCode::OutsideSet
    };
    Err(Fault::of_text(Language::Model, error_code, at, detail))
}

/// Builds the error for a key of a parameter that has no value.
fn no_value<'w, 's>(
    alloc: Global,
    at: Span,
    name: &Excerpt<'s>,
    count: Option<u8>,
    keys: &KeyList<'s>,
    key: &Tuple<'s>,
) -> Result<Value<'w, 's>, Fault>
    ensures { Refines (worlds.missing at (worlds.reference name.now count key.now) (has keys.now key.now)) result }
{
    let detail = reported_reference(alloc, name, count, key)?;
    missing(at, detail, keys.contains(key))
}

/// Returns the number of members of a key; without indexing, keys are empty.
pub fn key_count(count: Option<u8>) -> usize
    ensures { result ≡ worlds.key_count count }
{
    match count {
        None => 0,
        Some(number) => usize::from(number),
    }
}

/// Returns the value of a declared name at its subscripts.
fn entry_at<'w, 's>(
    alloc: Global,
    at: Span,
    name: &Excerpt<'s>,
    entry: Option<&'w Entry<'s>>,
    key: Tuple<'s>,
) -> Result<Value<'w, 's>, Fault>
    ensures { Refines (worlds.entry_at at name.now (option_copied entry.entry) key.entry) result }
{
    match entry {
        None => Err(Fault::of_model(ErrorCode::KindMismatch, at)),
        Some(Entry::Set(dimension, set)) => {
            if key.len() == 0 {
                Ok(Value::Many(Some(*dimension), Cow::borrowed(set)))
            } else {
                Err(Fault::of_model(ErrorCode::Arity, at))
            }
        }
        Some(Entry::Parameter(count, keys, values)) => {
            if key.len() == key_count(*count) {
                match values.get(&key) {
                    Some(member) => Ok(Value::One(member.copied())),
                    None => no_value(alloc, at, name, *count, keys, &key),
                }
            } else {
                Err(Fault::of_model(ErrorCode::Arity, at))
            }
        }
    }
}

/// Returns the value of a name at its subscripts; a dummy has none.
pub(crate) fn name_at<'w, 's>(
    alloc: Global,
    at: Span,
    env: &Env<'w, 's>,
    scope: &Scope<'s>,
    name: &Excerpt<'s>,
    key: Tuple<'s>,
) -> Result<Value<'w, 's>, Fault>
    ensures { Refines (worlds.name_at at env.now name.now (worlds.bound scope.now name.now) key.entry) result }
{
    match scope.get(name) {
        None => entry_at(alloc, at, name, env.find(name), key),
        Some(member) => {
            if key.len() == 0 {
                Ok(Value::One(member.copied()))
            } else {
                Err(Fault::of_model(ErrorCode::Arity, at))
            }
        }
    }
}

/// Returns the value of a name without subscripts.
fn plain_name<'w, 's>(
    alloc: Global,
    at: Span,
    env: &Env<'w, 's>,
    scope: &Scope<'s>,
    name: &Excerpt<'s>,
) -> Result<Value<'w, 's>, Fault>
    ensures { Refines (worlds.name_at at env.now name.now (worlds.bound scope.now name.now) []) result }
{
    match scope.get(name) {
        None => entry_at(alloc, at, name, env.find(name), Tuple::new()),
        Some(member) => Ok(Value::One(member.copied())),
    }
}

fn numeral<'w, 's>(token: &Token<'s>, number: Option<i64>) -> Result<Value<'w, 's>, Fault>
    ensures { Yields (values.number_value token.now.span number) result }
{
    match number {
        None => Err(Fault::of_model(ErrorCode::ValueTooLarge, token.span)),
        Some(number) => Ok(Value::One(Member::Number(number))),
    }
}

/// Returns the value of a token; `number` is that of a numeral.
#[tactic(auto, unfolding(net_tree::specs::Numerals::number_of))]
fn token_value<'w, 's>(
    alloc: Global,
    env: &Env<'w, 's>,
    scope: &Scope<'s>,
    token: &Token<'s>,
    number: Option<i64>,
) -> Result<Value<'w, 's>, Fault>
    requires { number ≡ number_of token.now }
    ensures { Refines (values.value env.now scope.now (trees.leaf token.now)) result }
{
    match role_of(token) {
        Role::Number => numeral(token, number),
        Role::Text => Ok(Value::One(Member::Name(Text::new(&token.text)))),
        Role::Name => plain_name(alloc, token.span, env, scope, &token.text),
        _ => Err(Fault::of_model(ErrorCode::KindMismatch, token.span)),
    }
}

/// Returns the value of an atom.
pub(crate) fn leaf<'w, 's>(
    alloc: Global,
    env: &Env<'w, 's>,
    scope: &Scope<'s>,
    leaf: &Leaf<'s>,
) -> Result<Value<'w, 's>, Fault>
    ensures { Refines (values.value env.now scope.now (trees.leaf leaf.now)) result }
{
    token_value(alloc, env, scope, leaf.token(), leaf.number())
}
