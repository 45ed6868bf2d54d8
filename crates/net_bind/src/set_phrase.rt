//! Phrases of a set declaration: `dimen 2`, `within S`, `:= {1, 2}`.

ghost use Rattle.std.specs.Prelude.{◌≡◌, IfOk, None, map};
ghost use Rattle.std.specs.Option.{option_copied};
ghost use Rattle.net_tree.specs.Spans as trees;
ghost use Rattle.net_tree.specs.View.{tree, body_of, phrase_of};
ghost use Rattle.net_base.specs.Outcomes.{Refines};
ghost use Rattle.net_bind.specs.SetPhrases as phrases;
ghost use Rattle.net_bind.specs.declared.set_phrase.SetWord.TheVariants as words;

use crate::boxed_values::{StoredSet, boxed, unboxed, value_of};
use crate::crossing::{is_product, product_of};
use crate::superset::Superset;
use net_base::{Boxed, ErrorCode, Fault, Items, Span};
use net_expr::{Env, Value};
use net_sets::{ARITY_LIMIT, Member, TupleSet};
use net_tree::{Begins, Body, Expr, Phrase, Relation, Role, span_of};
use std::alloc::{AllocError, Global};

/// The keyword of a phrase.
#[derive(Clone, Copy)]
pub(crate) enum SetWord {
    Dimension,
    Within,
    Becomes,
    Other,
}

/// The content of a phrase.
#[derive(Drop)]
pub(crate) enum Claim<'w, 's> {
    Nothing,
    /// `dimen 2`
    Dimension(u8),
    /// `within S`
    Within(Option<u8>, Superset<'w, 's>),
    /// `:= {1, 2}`
    Becomes(Option<u8>, StoredSet<'w, 's>),
}

/// The content of a phrase, and the span of its expression.
#[derive(Drop)]
pub(crate) struct SetPhrase<'w, 's> {
    pub(crate) at: Span,
    pub(crate) claim: Claim<'w, 's>,
}

/// The contents of phrases, and their common dimension.
#[derive(Drop)]
pub(crate) struct Claims<'w, 's> {
    pub(crate) dimension: Option<u8>,
    pub(crate) phrases: Items<SetPhrase<'w, 's>>,
}

fn set_word(role: Role) -> SetWord
    ensures { result ≡ phrases.set_word role }
{
    match role {
        Role::Phrase(Begins::Dimen) => SetWord::Dimension,
        Role::Relation(Relation::Within) => SetWord::Within,
        Role::Becomes => SetWord::Becomes,
        _ => SetWord::Other,
    }
}

fn dimension<'w, 's>(at: Span, value: &Value<'_, 's>) -> Result<Claim<'w, 's>, Fault>
    ensures { Refines (phrases.dimension at value.now) result }
{
    match value {
        Value::One(Member::Number(number)) => {
            if *number >= 1 && *number <= ARITY_LIMIT as i64 {
                Ok(Claim::Dimension(number.unsigned_abs() as u8))
            } else {
                Err(Fault::of_model(ErrorCode::Arity, at))
            }
        }
        _ => Err(Fault::of_model(ErrorCode::KindMismatch, at)),
    }
}

fn claimed<'w, 's>(
    alloc: Global,
    word: SetWord,
    at: Span,
    value: Boxed<Value<'w, 's>>,
) -> Result<Claim<'w, 's>, Fault>
    ensures { Refines (phrases.claimed word at value.entry) result }
{
    match word {
        SetWord::Dimension => dimension(at, value.get()),
        SetWord::Within => within(alloc, at, unboxed(value)),
        SetWord::Becomes => becomes(alloc, at, unboxed(value)),
        SetWord::Other => Ok(Claim::Nothing),
    }
}

fn within<'w, 's>(alloc: Global, at: Span, value: Value<'w, 's>) -> Result<Claim<'w, 's>, Fault>
    ensures { Refines (phrases.claimed words.Within at value.entry) result }
{
    match value.into_set() {
        Some((dimension, set)) => {
            let set = StoredSet::new(alloc, set)?;
            Ok(Claim::Within(dimension, Superset::whole(alloc, set)))
        }
        None => Err(Fault::of_model(ErrorCode::KindMismatch, at)),
    }
}

fn becomes<'w, 's>(alloc: Global, at: Span, value: Value<'w, 's>) -> Result<Claim<'w, 's>, Fault>
    ensures { Refines (phrases.claimed words.Becomes at value.entry) result }
{
    match value.into_set() {
        Some((dimension, set)) => Ok(Claim::Becomes(dimension, StoredSet::new(alloc, set)?)),
        None => Err(Fault::of_model(ErrorCode::KindMismatch, at)),
    }
}

fn evaluated<'w, 's>(
    alloc: Global,
    env: &Env<'w, 's>,
    word: SetWord,
    expr: &Expr<'s>,
) -> Result<Claim<'w, 's>, Fault>
    ensures { Refines (phrases.evaluated env.now word (tree expr.now)) result }
{
    let value = value_of(alloc, env, expr)?;
    claimed(alloc, word, span_of(expr), value)
}

/// Returns the content of `within` and a product, which is not enumerated.
fn product_claim<'w, 's>(
    alloc: Global,
    env: &Env<'w, 's>,
    expr: &Expr<'s>,
) -> Result<Claim<'w, 's>, Fault>
    ensures { Refines (phrases.product_claim env.now (tree expr.now)) result }
{
    match product_of(alloc, env, expr)? {
        Some(product) => {
            let (dimension, tuples) = product.into_parts();
            Ok(Claim::Within(dimension, tuples))
        }
        None => Err(Fault::of_model(ErrorCode::KindMismatch, span_of(expr))),
    }
}

fn claim_of<'w, 's>(
    alloc: Global,
    env: &Env<'w, 's>,
    word: SetWord,
    expr: &Expr<'s>,
) -> Result<Claim<'w, 's>, Fault>
    ensures { Refines (phrases.claim_of env.now word (tree expr.now)) result }
{
    match word {
        SetWord::Within => {
            if is_product(expr) {
                product_claim(alloc, env, expr)
            } else {
                evaluated(alloc, env, word, expr)
            }
        }
        SetWord::Dimension | SetWord::Becomes | SetWord::Other => {
            evaluated(alloc, env, word, expr)
        }
    }
}

fn set_phrase<'w, 's>(
    alloc: Global,
    env: &Env<'w, 's>,
    word: SetWord,
    expr: &Expr<'s>,
) -> Result<SetPhrase<'w, 's>, Fault>
    ensures { Refines (phrases.set_phrase env.now word (tree expr.now)) result }
{
    let claim = claim_of(alloc, env, word, expr)?;
    let at = span_of(expr);
    Ok(SetPhrase { at, claim })
}

fn dimension_of(claim: &Claim<'_, '_>) -> Option<u8>
    ensures { result ≡ phrases.dimension_of claim.now }
{
    match claim {
        Claim::Nothing => None,
        Claim::Dimension(dimension) => Some(*dimension),
        Claim::Within(dimension, _) => *dimension,
        Claim::Becomes(dimension, _) => *dimension,
    }
}

/// Returns the common dimension of two phrases, which must agree.
fn agreed(at: Span, before: Option<u8>, now: Option<u8>) -> Result<Option<u8>, Fault>
    ensures { Refines (phrases.agreed at before now) result }
{
    match (before, now) {
        (None, now) => Ok(now),
        (Some(dimension), None) => Ok(Some(dimension)),
        (Some(dimension), Some(other)) => {
            if dimension == other {
                Ok(Some(dimension))
            } else {
                Err(Fault::of_model(ErrorCode::Arity, at))
            }
        }
    }
}

fn with_phrase<'w, 's>(
    claims: Claims<'w, 's>,
    phrase: SetPhrase<'w, 's>,
) -> Result<Claims<'w, 's>, Fault>
    ensures { Refines (phrases.with_phrase claims.entry phrase.entry) result }
{
    let Claims { dimension, phrases } = claims;
    let dimension = agreed(phrase.at, dimension, dimension_of(&phrase.claim))?;
    let mut all = phrases.into_vec();
    all.push(phrase)?;
    Ok(Claims {
        dimension,
        phrases: Items::new(all),
    })
}

fn in_body<'w, 's>(
    alloc: Global,
    env: &Env<'w, 's>,
    word: SetWord,
    body: &Body<'s>,
    claims: Claims<'w, 's>,
) -> Result<Claims<'w, 's>, Fault>
    ensures { Refines (phrases.in_body env.now word (body_of body.now) claims.entry) result }
{
    match body {
        Body::Plain => Ok(claims),
        Body::Valued(expr) => {
            let phrase = set_phrase(alloc, env, word, expr)?;
            with_phrase(claims, phrase)
        }
        Body::Priced(_, _) => Ok(claims),
    }
}

fn unclaimed<'w, 's: 'w>(alloc: Global) -> Claims<'w, 's>
    ensures { result ≡ phrases.unclaimed }
{
    Claims {
        dimension: None,
        phrases: Items::new(Vec::new(alloc)),
    }
}

/// Evaluates the phrases of a set in order; each must agree with those before it in the dimension.
pub(crate) fn set_phrases<'w, 's>(
    alloc: Global,
    env: &Env<'w, 's>,
    all: &[Phrase<'s>],
) -> Result<Claims<'w, 's>, Fault>
    ensures { Refines (phrases.set_phrases env.now (map phrase_of all.now)) result }
{
    let mut claims = unclaimed(alloc);
    for phrase in all {
        claims = in_body(
            alloc,
            env,
            set_word(phrase.word.role()),
            &phrase.body,
            claims,
        )?;
    }
    Ok(claims)
}

fn becomes_set<'c, 's>(claim: &'c Claim<'_, 's>) -> Option<&'c TupleSet<'s>>
    ensures { option_copied result ≡ phrases.becomes claim.entry.now None }
{
    match claim {
        Claim::Becomes(_, set) => Some(set.get()),
        Claim::Nothing => None,
        Claim::Dimension(_) => None,
        Claim::Within(_, _) => None,
    }
}

/// Returns the set of `:=`.
pub(crate) fn assigned<'c, 's>(all: &'c [SetPhrase<'_, 's>]) -> Option<&'c TupleSet<'s>>
    ensures { option_copied result ≡ phrases.assigned all.entry.now }
{
    for phrase in all {
        if let Some(set) = becomes_set(&phrase.claim) {
            return Some(set);
        }
    }
    None
}

/// Returns the set of `:=`. Copies it only if it is that of another declaration.
pub(crate) fn into_assigned<'s>(
    alloc: Global,
    all: Items<SetPhrase<'_, 's>>,
) -> Result<Option<Boxed<TupleSet<'s>>>, AllocError>
    ensures { IfOk result (λ set. set ≡ phrases.assigned all.entry) }
{
    for phrase in all.into_vec() {
        if let Claim::Becomes(_, set) = phrase.claim {
            return Ok(Some(boxed(alloc, set.into_set(alloc)?)?));
        }
    }
    Ok(None)
}
