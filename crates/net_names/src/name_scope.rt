//! The names in scope and their meanings.

ghost use Rattle.std.specs.Prelude.{◌≡◌, ◌++◌, ◌∷◌, [], None, length, take, OnOk};
ghost use Rattle.net_names.specs.Scopes.{meaning_in};
ghost use Rattle.net_tree.specs.View.{tree, links_of};
ghost use Rattle.net_names.specs.Dummies as dummies;

use crate::hints::Hints;
use crate::meaning::Meaning;
use net_base::Excerpt;
use net_sets::{HashKey, NameMap};
use net_tree::{Expr, LinkedOperand, single_name};
use std::alloc::{AllocError, Global};
use std::marker::Model;

/// The names in scope, in the order in which they were declared. The last ones can be removed.
/// Contracts do not see the hints.
#[derive(Drop)]
pub(crate) struct NameScope<'s> {
    meanings: NameMap<'s, Meaning>,
    hints: Hints<'s>,
}

impl<'s> Model for NameScope<'s> {
    ghost use Rattle.std.specs.Prelude.{ℕ, List};
    ghost use Rattle.net_names.specs.declared.meaning.Meaning.{Meaning};

    ghost Value = { List (List ℕ × Meaning) };

    ghost view = { λ s. s.meanings };
}

impl<'s> NameScope<'s> {
    /// Creates an empty scope. The key has to be that of the run.
    pub(crate) fn new(alloc: Global, key: HashKey) -> NameScope<'s>
        ensures { result ≡ [] }
    {
        NameScope {
            meanings: NameMap::new(alloc, key),
            hints: Hints::new(alloc, key),
        }
    }

    /// Returns the number of names in scope.
    pub(crate) fn len(&self) -> usize
        ensures { result ≡ length self.now }
    {
        self.meanings.len()
    }

    /// Returns the meaning of a name, or `None` if it is not in scope.
    pub(crate) fn meaning(&self, name: &Excerpt<'s>) -> Option<Meaning>
        ensures { result ≡ meaning_in name.now self.now }
    {
        self.meanings.get(name).copied()
    }

    /// Adds a name that is not in scope. Fails only if memory runs out.
    pub(crate) fn add(&mut self, name: &Excerpt<'s>, meaning: Meaning) -> Result<(), AllocError>
        requires { meaning_in name.now self.old ≡ None }
        ensures { OnOk result (self.new ≡ self.old ++ (name.now, meaning) ∷ []) }
    {
        self.meanings.add(name, meaning)
    }

    /// Truncates the scope to the first `known` names.
    pub(crate) fn forget_after(&mut self, known: usize)
        ensures { self.new ≡ take known self.old }
    {
        self.meanings.truncate(known);
    }

    /// Records that a set is iterated by a component. Fails only if memory runs out.
    pub(crate) fn record_iterated(&mut self, set: &Excerpt<'s>) -> Result<(), AllocError>
        ensures { self.new ≡ self.old }
    {
        self.hints.add_iterated(set)
    }

    /// Returns the hints that were recorded.
    pub(crate) fn into_hints(self) -> Hints<'s> {
        let NameScope {
            meanings: _meanings,
            hints,
        } = self;
        hints
    }
}

/// Returns whether a component is a simple name that is not declared.
pub(crate) fn is_new<'s>(scope: &NameScope<'s>, component: &Expr<'s>) -> bool
    ensures { result ≡ dummies.is_new scope.now (tree component.now) }
{
    match single_name(component) {
        None => false,
        Some(name) => scope.meaning(&name.text).is_none(),
    }
}

/// Adds a component to the scope if it is a new dummy. Fails only if memory runs out.
pub(crate) fn add_component<'s>(
    scope: &mut NameScope<'s>,
    component: &Expr<'s>,
) -> Result<(), AllocError>
    ensures { OnOk result (scope.new ≡ dummies.with_component scope.old (tree component.now)) }
{
    match single_name(component) {
        None => Ok(()),
        Some(name) => {
            if scope.meaning(&name.text).is_none() {
                scope.add(&name.text, Meaning::Dummy)
            } else {
                Ok(())
            }
        }
    }
}

fn add_components<'s>(
    scope: &mut NameScope<'s>,
    links: &[LinkedOperand<'s>],
) -> Result<(), AllocError>
    ensures { OnOk result (scope.new ≡ dummies.with_components scope.old (links_of links.now)) }
{
    for link in links {
        add_component(scope, &link.operand)?;
    }
    Ok(())
}

fn add_tuple<'s>(
    scope: &mut NameScope<'s>,
    first: &Expr<'s>,
    more: &[LinkedOperand<'s>],
) -> Result<(), AllocError>
    ensures { OnOk result (scope.new ≡ dummies.with_components (dummies.with_component scope.old (tree first.now)) (links_of more.now)) }
{
    add_component(scope, first)?;
    add_components(scope, more)
}

/// Adds the new dummies on the left side of an item's `in`. Fails only if memory runs out.
#[tactic(auto, using(net_tree::proofs::Views::views))]
pub(crate) fn add_left<'s>(scope: &mut NameScope<'s>, left: &Expr<'s>) -> Result<(), AllocError>
    ensures { OnOk result (scope.new ≡ dummies.with_left scope.old (tree left.now)) }
{
    match left {
        Expr::Tuple(parts) => {
            let series = &parts.get().1;
            add_tuple(scope, &series.first, series.more.as_slice())
        }
        Expr::Leaf(_) => add_component(scope, left),
        Expr::Indexed(_) | Expr::Parens(_) | Expr::Negated(_) | Expr::Braced(_) => Ok(()),
        Expr::Signed(_) | Expr::Reduction(_, _) | Expr::Chain(_, _) => Ok(()),
        Expr::If(_, _, _) | Expr::Net(_) => Ok(()),
    }
}
