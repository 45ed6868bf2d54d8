//! Phrases that compare the values of a parameter with numerals. Nothing is evaluated for a value.

ghost use Rattle.std.specs.Prelude.{◌≡◌, ◌∷◌, [], true, Ok, IsTrue, map};
ghost use Rattle.net_base.specs.declared.diagnostic.Detail.{Detail};
ghost use Rattle.net_base.specs.declared.diagnostic.Span.{Span as Position};
ghost use Rattle.net_sets.specs.declared.member.Member.TheVariants.{Number};
ghost use Rattle.net_tree.specs.View.{tree, body_of, phrase_of};
ghost use Rattle.net_expr.specs.declared.value.Value.TheVariants.{One};
ghost use Rattle.net_expr.specs.Worlds.{World as Declared};
ghost use Rattle.net_bind.specs.FromData as from_data;
ghost use Rattle.net_bind.specs.Restrictions as restrictions;

use crate::restriction::relation_of;
use net_sets::Member;
use net_tree::{Body, Expr, Phrase, Relation};

/// Returns the value of an expression if it is a numeral.
#[tactic(auto, using(net_tree::proofs::Views::views))]
fn numeral(expr: &Expr<'_>) -> Option<i64>
    ensures { result ≡ from_data.numeral (tree expr.now) }
{
    match expr {
        Expr::Leaf(leaf) => leaf.number(),
        Expr::Indexed(_) | Expr::Parens(_) | Expr::Tuple(_) | Expr::Negated(_) => None,
        Expr::Braced(_) | Expr::Signed(_) | Expr::Reduction(_, _) | Expr::Chain(_, _) => None,
        Expr::If(_, _, _) | Expr::Net(_) => None,
    }
}

/// Returns whether an expression is a numeral.
#[tactic(auto, using(net_tree::proofs::Views::views))]
pub(crate) fn is_numeral(expr: &Expr<'_>) -> bool
    ensures { result ≡ from_data.is_numeral (tree expr.now) }
{
    numeral(expr).is_some()
}

/// Returns whether a phrase restricts no value, or compares it with a numeral.
fn is_constant(phrase: &Phrase<'_>) -> bool
    ensures { result ≡ from_data.are_constant (phrase_of phrase.now ∷ []) }
{
    match (relation_of(&phrase.word), &phrase.body) {
        (Some(_), Body::Valued(expr)) => is_numeral(expr),
        _ => true,
    }
}

pub(crate) fn are_constant(phrases: &[Phrase<'_>]) -> bool
    ensures { result ≡ from_data.are_constant (map phrase_of phrases.now) }
{
    for phrase in phrases {
        if !is_constant(phrase) {
            return false;
        }
    }
    true
}

/// Returns whether two numbers satisfy a relation that can restrict a value.
fn holds(relation: Relation, number: i64, bound: i64) -> bool
    ensures { (at : Position) → IsTrue result → restrictions.related at relation (Number number) (One (Number bound)) ≡ Ok true }
{
    match relation {
        Relation::Less => number < bound,
        Relation::AtMost => number <= bound,
        Relation::Greater => number > bound,
        Relation::AtLeast => number >= bound,
        Relation::Unequal => number != bound,
        Relation::In => false,
        Relation::Equal | Relation::Within => true,
    }
}

/// Returns whether a value satisfies a relation to a numeral. A string satisfies none here; `<>`,
/// which it does satisfy, is left to evaluation.
fn satisfies(relation: Relation, member: &Member<'_>, expr: &Expr<'_>) -> bool
    ensures { (w : Declared) (d : Detail) → IsTrue result → restrictions.restricted_by w [] d member.now (Some relation) (tree expr.now) ≡ Ok tt }
{
    match (member, numeral(expr)) {
        (Member::Number(number), Some(bound)) => holds(relation, *number, bound),
        _ => false,
    }
}

/// Returns whether a phrase that is constant allows a value.
fn allows(phrase: &Phrase<'_>, member: &Member<'_>) -> bool
    ensures { (w : Declared) (d : Detail) → IsTrue result → restrictions.restricted_in w [] d member.now phrase.now.word (body_of phrase.now.body) ≡ Ok tt }
{
    match (relation_of(&phrase.word), &phrase.body) {
        (Some(relation), Body::Valued(expr)) => satisfies(relation, member, expr),
        _ => true,
    }
}

/// Returns whether phrases that are constant allow a value.
pub(crate) fn are_met(phrases: &[Phrase<'_>], member: &Member<'_>) -> bool
    ensures { (w : Declared) (d : Detail) → IsTrue result → restrictions.restricted w [] d member.now (map phrase_of phrases.now) ≡ Ok tt }
{
    for phrase in phrases {
        if !allows(phrase, member) {
            return false;
        }
    }
    true
}
