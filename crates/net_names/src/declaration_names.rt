//! Checking the names of declarations.

ghost use Rattle.std.specs.Prelude.{◌≡◌, [], OnOk, map};
ghost use Rattle.std.specs.Option.{option_map};
ghost use Rattle.net_names.specs.declared.meaning.Need.TheVariants as needs;
ghost use Rattle.net_tree.specs.View.{indexing_of, option_part, body_of, phrase_of, condition_of, declaration_of};
ghost use Rattle.net_tree.specs.View as view;
ghost use Rattle.net_names.specs.Dummies.{with_indexing};
ghost use Rattle.net_names.specs.Items as items;
ghost use Rattle.net_names.specs.Names as names;
ghost use Rattle.net_names.specs.Scopes as scopes;
ghost use Rattle.net_names.specs.Reported.{Reports, ReportsOf, declared_before, Decides};
ghost use Rattle.net_names.specs.Reported as reported;

use crate::expression_names::{check, check_name, read_braces};
use crate::hints::Hints;
use crate::meaning::{Meaning, Need};
use crate::name_fault::NameFault;
use crate::name_scope::NameScope;
use net_base::{ErrorCode, Fault};
use net_lex::Token;
use net_sets::HashKey;
use net_tree::{Begins, Body, Braces, Decl, Expr, Model, NetCond, Part, Phrase, Role, role_of};
use std::alloc::Global;

/// Checks a name that is declared.
fn check_declared<'s>(scope: &NameScope<'s>, name: &Token<'s>) -> Result<(), NameFault<'s>>
    ensures { Decides (declared_before (scopes.meaning_in name.now.text scope.now) name.now) result }
{
    match scope.meaning(&name.text) {
        None => Ok(()),
        Some(_) => Err(NameFault::At(ErrorCode::Redeclared, name.copied())),
    }
}

/// Checks the indexing of a declaration, and adds its dummies to the scope.
fn read_indexing<'s>(
    scope: &mut NameScope<'s>,
    indexing: &Option<Braces<'s>>,
) -> Result<(), NameFault<'s>>
    ensures value { Reports (names.indexing_fault scope.old (indexing_of indexing.now)) result }
    ensures grown { OnOk result (scope.new ≡ with_indexing scope.old (indexing_of indexing.now)) }
{
    match indexing {
        None => Ok(()),
        Some(braces) => read_braces(Need::Value, scope, braces),
    }
}

/// Returns the need for a name after the keyword of a phrase.
fn need_after(role: Role) -> Need
    ensures { result ≡ names.need_after role }
{
    match role {
        Role::Phrase(Begins::From | Begins::To) => Need::Node,
        _ => Need::Value,
    }
}

fn check_body<'s>(
    need: Need,
    scope: &mut NameScope<'s>,
    body: &Body<'s>,
) -> Result<(), NameFault<'s>>
    ensures value { Reports (names.body_fault need scope.old (body_of body.now)) result }
    ensures kept { OnOk result (scope.new ≡ scope.old) }
{
    match body {
        Body::Plain => Ok(()),
        Body::Valued(value) => check(need, scope, value),
        Body::Priced(objective, price) => {
            check_name(Need::Objective, scope, objective)?;
            check(Need::Value, scope, price)
        }
    }
}

fn check_phrases<'s>(scope: &mut NameScope<'s>, phrases: &[Phrase<'s>]) -> Result<(), NameFault<'s>>
    ensures value { Reports (names.phrases_fault scope.old (map phrase_of phrases.now)) result }
    ensures kept { OnOk result (scope.new ≡ scope.old) }
{
    for phrase in phrases {
        check_body(need_after(phrase.word.role()), scope, &phrase.body)?;
    }
    Ok(())
}

/// Checks the two sides of a comparison.
fn check_sides<'s>(
    scope: &mut NameScope<'s>,
    left: &Expr<'s>,
    right: &Expr<'s>,
) -> Result<(), NameFault<'s>>
    ensures value { Reports (reported.first (names.tree_fault needs.Value scope.old (view.tree left.now))
        (names.tree_fault needs.Value scope.old (view.tree right.now))) result }
    ensures kept { OnOk result (scope.new ≡ scope.old) }
{
    check(Need::Value, scope, left)?;
    check(Need::Value, scope, right)
}

/// Checks the three sides of a comparison with two relations.
fn check_between<'s>(
    scope: &mut NameScope<'s>,
    low: &Expr<'s>,
    middle: &Expr<'s>,
    high: &Expr<'s>,
) -> Result<(), NameFault<'s>>
    ensures value { Reports (reported.first (names.tree_fault needs.Value scope.old (view.tree low.now))
        (reported.first (names.tree_fault needs.Value scope.old (view.tree middle.now)) (names.tree_fault needs.Value scope.old (view.tree high.now)))) result }
    ensures kept { OnOk result (scope.new ≡ scope.old) }
{
    check(Need::Value, scope, low)?;
    check_sides(scope, middle, high)
}

/// Checks the condition of a node's net flow.
fn check_condition<'s>(
    scope: &mut NameScope<'s>,
    condition: &NetCond<'s>,
) -> Result<(), NameFault<'s>>
    ensures value { Reports (names.condition_fault scope.old (condition_of condition.now)) result }
    ensures kept { OnOk result (scope.new ≡ scope.old) }
{
    match condition {
        NetCond::Absent => Ok(()),
        NetCond::One(_, left, _, right) => check_sides(scope, left, right),
        NetCond::Between(_, low, _, middle, _, high) => check_between(scope, low, middle, high),
    }
}

/// Checks a declaration with indexing and phrases, and adds its dummies to the scope.
fn read_phrased<'s>(
    scope: &mut NameScope<'s>,
    name: &Token<'s>,
    indexing: &Option<Braces<'s>>,
    phrases: &[Phrase<'s>],
) -> Result<(), NameFault<'s>>
    ensures value { Reports (reported.first (declared_before (scopes.meaning_in name.now.text scope.old) name.now)
        (reported.first (names.indexing_fault scope.old (indexing_of indexing.now))
        (names.phrases_fault (with_indexing scope.old (indexing_of indexing.now)) (map phrase_of phrases.now)))) result }
    ensures grown { OnOk result (scope.new ≡ with_indexing scope.old (indexing_of indexing.now)) }
{
    check_declared(scope, name)?;
    read_indexing(scope, indexing)?;
    check_phrases(scope, phrases)
}

/// Checks a node, and adds its dummies to the scope.
fn read_node<'s>(
    scope: &mut NameScope<'s>,
    node: &Token<'s>,
    indexing: &Option<Braces<'s>>,
    condition: &NetCond<'s>,
) -> Result<(), NameFault<'s>>
    ensures value { Reports (reported.first (declared_before (scopes.meaning_in node.now.text scope.old) node.now)
        (reported.first (names.indexing_fault scope.old (indexing_of indexing.now))
        (names.condition_fault (with_indexing scope.old (indexing_of indexing.now)) (condition_of condition.now)))) result }
    ensures grown { OnOk result (scope.new ≡ with_indexing scope.old (indexing_of indexing.now)) }
{
    check_declared(scope, node)?;
    read_indexing(scope, indexing)?;
    check_condition(scope, condition)
}

/// Checks a `check` statement, and adds its dummies to the scope.
fn read_check<'s>(
    scope: &mut NameScope<'s>,
    indexing: &Option<Braces<'s>>,
    condition: &Expr<'s>,
) -> Result<(), NameFault<'s>>
    ensures value { Reports (reported.first (names.indexing_fault scope.old (indexing_of indexing.now))
        (names.tree_fault needs.Value (with_indexing scope.old (indexing_of indexing.now)) (view.tree condition.now))) result }
    ensures grown { OnOk result (scope.new ≡ with_indexing scope.old (indexing_of indexing.now)) }
{
    read_indexing(scope, indexing)?;
    check(Need::Value, scope, condition)
}

fn check_set<'s>(
    scope: &mut NameScope<'s>,
    set: &Token<'s>,
    phrases: &[Phrase<'s>],
) -> Result<(), NameFault<'s>>
    ensures value { Reports (reported.first (declared_before (scopes.meaning_in set.now.text scope.old) set.now)
        (names.phrases_fault scope.old (map phrase_of phrases.now))) result }
    ensures kept { OnOk result (scope.new ≡ scope.old) }
{
    check_declared(scope, set)?;
    check_phrases(scope, phrases)
}

/// Checks the expression of an objective.
#[tactic(auto, using(net_tree::proofs::Views::views, crate::proofs::Walking::walking))]
fn check_stated<'s>(
    scope: &mut NameScope<'s>,
    value: &Option<Part<'s>>,
) -> Result<(), NameFault<'s>>
    ensures value { Reports (names.part_fault needs.Total scope.old (option_part value.now)) result }
    ensures kept { OnOk result (scope.new ≡ scope.old) }
{
    match value {
        None => Ok(()),
        Some(part) => check(Need::Total, scope, &part.value),
    }
}

fn check_objective<'s>(
    scope: &mut NameScope<'s>,
    objective: &Token<'s>,
    value: &Option<Part<'s>>,
) -> Result<(), NameFault<'s>>
    ensures value { Reports (reported.first (declared_before (scopes.meaning_in objective.now.text scope.old) objective.now)
        (names.part_fault needs.Total scope.old (option_part value.now))) result }
    ensures kept { OnOk result (scope.new ≡ scope.old) }
{
    check_declared(scope, objective)?;
    check_stated(scope, value)
}

/// Checks a declaration, and adds its dummies to the scope.
fn read_declaration<'s>(
    scope: &mut NameScope<'s>,
    declaration: &Decl<'s>,
) -> Result<(), NameFault<'s>>
    ensures value { Reports (names.declaration_fault scope.old (declaration_of declaration.now)) result }
    ensures grown { OnOk result (scope.new ≡ items.with_dummies scope.old (declaration_of declaration.now)) }
{
    match declaration {
        Decl::Set(_, name, phrases, _) => check_set(scope, name, phrases.as_slice()),
        Decl::Param(_, name, indexing, phrases, _) => {
            read_phrased(scope, name, indexing, phrases.as_slice())
        }
        Decl::Check(_, indexing, _, condition, _) => read_check(scope, indexing, condition),
        Decl::Node(_, name, indexing, condition, _) => {
            read_node(scope, name, indexing, condition)
        }
        Decl::Arc(_, name, indexing, phrases, _) => {
            read_phrased(scope, name, indexing, phrases.as_slice())
        }
        Decl::Objective(_, name, value, _) => check_objective(scope, name, value),
    }
}

/// Returns the name that a declaration declares, with its meaning.
fn declared<'a, 's>(declaration: &'a Decl<'s>) -> Option<(&'a Token<'s>, Meaning)>
    ensures { option_map (λ p. (p.0.now, p.1)) result ≡ names.declared (declaration_of declaration.entry.now) }
{
    match declaration {
        Decl::Set(_, name, _, _) => Some((name, Meaning::Set)),
        Decl::Param(_, name, _, _, _) => Some((name, Meaning::Param)),
        Decl::Check(_, _, _, _, _) => None,
        Decl::Node(_, name, _, _, _) => Some((name, Meaning::Node)),
        Decl::Arc(_, name, _, _, _) => Some((name, Meaning::Arc)),
        Decl::Objective(_, name, value, _) => match value {
            None => Some((name, Meaning::Objective)),
            Some(_) => Some((name, Meaning::StatedObjective)),
        },
    }
}

/// Checks a declaration, and adds the name that it declares to the scope.
fn check_declaration<'s>(
    scope: &mut NameScope<'s>,
    declaration: &Decl<'s>,
) -> Result<(), NameFault<'s>>
    ensures value { Reports (names.declaration_fault scope.old (declaration_of declaration.now)) result }
    ensures grown { OnOk result (scope.new ≡ names.with_declaration scope.old (declaration_of declaration.now)) }
{
    let known = scope.len();
    read_declaration(scope, declaration)?;
    scope.forget_after(known);
    match declared(declaration) {
        None => Ok(()),
        Some((name, meaning)) => {
            scope.add(&name.text, meaning)?;
            Ok(())
        }
    }
}

fn check_declarations<'s>(
    scope: &mut NameScope<'s>,
    declarations: &[Decl<'s>],
) -> Result<(), NameFault<'s>>
    ensures { Reports (names.names_fault scope.old (map declaration_of declarations.now)) result }
{
    for declaration in declarations {
        check_declaration(scope, declaration)?;
    }
    Ok(())
}

/// Checks the names of a model. Returns the first error, reported at the name and with it: E12,
/// E13, or E14 for an `obj` phrase that names an objective with an expression. If there is none,
/// returns what evaluation can use.
///
/// A declaration is in the scope of those before it. `key` is that of the run. Takes time
/// proportional to the number of tokens. Stack use grows only with the depth of the trees.
pub fn check_names<'s>(alloc: Global, key: HashKey, model: &Model<'s>) -> Result<Hints<'s>, Fault>
    ensures { ReportsOf (names.names_fault [] (view.model model.now)) result }
{
    let mut scope = NameScope::new(alloc, key);
    match check_declarations(&mut scope, model.declarations.as_slice()) {
        Ok(()) => Ok(scope.into_hints()),
        Err(fault) => Err(fault.reported(alloc)),
    }
}
