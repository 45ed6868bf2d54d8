//! Restrictions on the values of a parameter in its phrases: `>= 0`, `in S`.

ghost use Rattle.std.specs.Prelude.{◌≡◌, IfOk, map};
ghost use Rattle.net_tree.specs.View.{tree, body_of, phrase_of};
ghost use Rattle.net_base.specs.Outcomes.{Refines, diagnostic_at};
ghost use Rattle.net_base.specs.declared.error_code.ErrorCode.TheVariants.{Restriction};
ghost use Rattle.net_base.specs.declared.diagnostic.Fault.TheVariants.{At};
ghost use Rattle.net_base.specs.declared.diagnostic.Language.TheVariants.{Model};
ghost use Rattle.net_bind.specs.Restrictions as restrictions;
ghost use Rattle.net_expr.specs.Numbers as numbers;
ghost use Rattle.net_expr.specs.Sets.{fits};
ghost use Rattle.net_expr.specs.Worlds as worlds;
ghost use Rattle.net_expr.specs.declared.value.Value.TheVariants.{One};
ghost use Rattle.net_tree.specs.declared.role.Relation.TheVariants as relations;

use net_base::{ErrorCode, Excerpt, Fault, Language, Span};
use net_expr::{Env, Row, Value, evaluate, reported_reference};
use net_sets::{Member, Tuple};
use net_tree::{Body, Expr, Phrase, Relation, Role, Terminal, span_of};
use std::alloc::{AllocError, Global};

/// Returns the relation by which a phrase restricts a value, if it does.
pub(crate) fn relation_of(word: &Terminal<'_>) -> Option<Relation>
    ensures { result ≡ restrictions.relation word.now }
{
    match word.role() {
        Role::Relation(relation) => restricting(relation),
        _ => None,
    }
}

fn restricting(relation: Relation) -> Option<Relation>
    ensures { result ≡ restrictions.restricting relation }
{
    match relation {
        Relation::Equal | Relation::Within => None,
        _ => Some(relation),
    }
}

fn number_of(at: Span, member: &Member<'_>) -> Result<i64, Fault>
    ensures { Refines (numbers.number at (One member.now)) result }
{
    match member {
        Member::Number(number) => Ok(*number),
        Member::Name(_) => Err(Fault::of_model(ErrorCode::KindMismatch, at)),
    }
}

fn number_in(at: Span, value: &Value<'_, '_>) -> Result<i64, Fault>
    ensures { Refines (numbers.number at value.now) result }
{
    match value {
        Value::One(member) => number_of(at, member),
        Value::Several(_) => Err(Fault::of_model(ErrorCode::KindMismatch, at)),
        Value::Many(_, _) => Err(Fault::of_model(ErrorCode::KindMismatch, at)),
        Value::Truth(_) => Err(Fault::of_model(ErrorCode::KindMismatch, at)),
    }
}

fn compared(relation: Relation, a: &i64, b: &i64) -> bool
    ensures { result ≡ restrictions.compared relation a.now b.now }
{
    match relation {
        Relation::Less => *a < *b,
        Relation::AtMost => *a <= *b,
        Relation::Greater => *a > *b,
        Relation::AtLeast => *a >= *b,
        Relation::Equal | Relation::Unequal | Relation::In | Relation::Within => true,
    }
}

fn ordered<'s>(
    at: Span,
    relation: Relation,
    member: &Member<'s>,
    value: &Value<'_, 's>,
) -> Result<bool, Fault>
    ensures { Refines (restrictions.ordered at (restrictions.compared relation) member.now value.now) result }
{
    let first = number_of(at, member)?;
    let second = number_in(at, value)?;
    Ok(compared(relation, &first, &second))
}

fn unequal<'s>(at: Span, member: &Member<'s>, value: &Value<'_, 's>) -> Result<bool, Fault>
    ensures { Refines (restrictions.related at relations.Unequal member.now value.now) result }
{
    match value {
        Value::One(other) => Ok(!(*member == *other)),
        Value::Several(_) => Err(Fault::of_model(ErrorCode::KindMismatch, at)),
        Value::Many(_, _) => Err(Fault::of_model(ErrorCode::KindMismatch, at)),
        Value::Truth(_) => Err(Fault::of_model(ErrorCode::KindMismatch, at)),
    }
}

fn is_single(dimension: Option<u8>) -> bool
    ensures { result ≡ fits dimension 1 }
{
    match dimension {
        None => true,
        Some(dimension) => dimension == 1,
    }
}

fn among<'s>(at: Span, member: &Member<'s>, value: &Value<'_, 's>) -> Result<bool, Fault>
    ensures { Refines (restrictions.related at relations.In member.now value.now) result }
{
    match value {
        Value::Many(dimension, set) => {
            if is_single(*dimension) {
                Ok(set.get().contains(&Tuple::single(member.copied())))
            } else {
                Err(Fault::of_model(ErrorCode::Arity, at))
            }
        }
        Value::One(_) => Err(Fault::of_model(ErrorCode::KindMismatch, at)),
        Value::Several(_) => Err(Fault::of_model(ErrorCode::KindMismatch, at)),
        Value::Truth(_) => Err(Fault::of_model(ErrorCode::KindMismatch, at)),
    }
}

/// Returns whether a value satisfies a relation to another.
fn related<'s>(
    at: Span,
    relation: Relation,
    member: &Member<'s>,
    value: &Value<'_, 's>,
) -> Result<bool, Fault>
    ensures { Refines (restrictions.related at relation member.now value.now) result }
{
    match relation {
        Relation::Less => ordered(at, relation, member, value),
        Relation::AtMost => ordered(at, relation, member, value),
        Relation::Greater => ordered(at, relation, member, value),
        Relation::AtLeast => ordered(at, relation, member, value),
        Relation::Unequal => unequal(at, member, value),
        Relation::In => among(at, member, value),
        Relation::Equal | Relation::Within => Ok(true),
    }
}

/// The value of a parameter at a key.
#[derive(Drop)]
pub(crate) struct KeyedValue<'a, 's> {
    /// The name of the parameter.
    pub(crate) name: &'a Excerpt<'s>,
    /// The number of members of its keys, or `None` without indexing.
    pub(crate) keys: Option<u8>,
    pub(crate) row: &'a Row<'s>,
    pub(crate) member: &'a Member<'s>,
}

/// Builds the error for a value that a phrase does not allow; the parameter with the key is its
/// detail. Fails only if memory runs out.
fn reject_value(alloc: Global, at: Span, keyed: &KeyedValue<'_, '_>) -> Result<Fault, AllocError>
    ensures { IfOk result (λ f. f ≡ At (diagnostic_at Model Restriction at (worlds.reference keyed.now.name.now keyed.now.keys keyed.now.row.now.key))) }
{
    let detail = reported_reference(alloc, keyed.name, keyed.keys, &keyed.row.key)?;
    Ok(Fault::of_text(Language::Model, ErrorCode::Restriction, at, detail))
}

fn restricted_by<'s>(
    alloc: Global,
    env: &Env<'_, 's>,
    keyed: &KeyedValue<'_, 's>,
    relation: Option<Relation>,
    expr: &Expr<'s>,
) -> Result<(), Fault>
    ensures { Refines (restrictions.restricted_by env.now keyed.now.row.now.scope (worlds.reference keyed.now.name.now keyed.now.keys
        keyed.now.row.now.key) keyed.now.member.now relation (tree expr.now)) result }
{
    let Some(relation) = relation else {
        return Ok(());
    };
    let value = evaluate(alloc, env, &keyed.row.scope, expr)?;
    let at = span_of(expr);
    if related(at, relation, keyed.member, &value)? {
        Ok(())
    } else {
        Err(reject_value(alloc, at, keyed)?)
    }
}

fn restricted_in<'s>(
    alloc: Global,
    env: &Env<'_, 's>,
    keyed: &KeyedValue<'_, 's>,
    word: &Terminal<'s>,
    body: &Body<'s>,
) -> Result<(), Fault>
    ensures { Refines (restrictions.restricted_in env.now keyed.now.row.now.scope (worlds.reference keyed.now.name.now keyed.now.keys
        keyed.now.row.now.key) keyed.now.member.now word.now (body_of body.now)) result }
{
    match body {
        Body::Plain => Ok(()),
        Body::Valued(expr) => restricted_by(alloc, env, keyed, relation_of(word), expr),
        Body::Priced(_, _) => Ok(()),
    }
}

/// Checks a value against all phrases in order.
pub(crate) fn restricted<'s>(
    alloc: Global,
    env: &Env<'_, 's>,
    keyed: &KeyedValue<'_, 's>,
    phrases: &[Phrase<'s>],
) -> Result<(), Fault>
    ensures { Refines (restrictions.restricted env.now keyed.now.row.now.scope (worlds.reference keyed.now.name.now keyed.now.keys
        keyed.now.row.now.key) keyed.now.member.now (map phrase_of phrases.now)) result }
{
    for phrase in phrases {
        restricted_in(alloc, env, keyed, &phrase.word, &phrase.body)?;
    }
    Ok(())
}
