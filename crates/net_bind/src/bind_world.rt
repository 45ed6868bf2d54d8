//! Computing the world of a model and its data.

ghost use Rattle.std.specs.Prelude.{◌≡◌, [], None, OnOk, map};
ghost use Rattle.net_tree.specs.View as view;
ghost use Rattle.net_tree.specs.View.{declaration_of, phrase_of, indexing_of};
ghost use Rattle.net_bind.specs.BoundSets as sets;
ghost use Rattle.net_bind.specs.BoundParameters as parameters;
ghost use Rattle.net_expr.specs.Worlds.{entry_of};
ghost use Rattle.net_bind.specs.Binding as binding;
ghost use Rattle.net_expr.specs.declared.world.Entry.{Entry as AnEntry};
ghost use Rattle.net_base.specs.Outcomes.{Outcome, Refines, Updates, and_then, each};

use crate::boxed_values::unboxed;
use crate::by_name::data_by_name;
use crate::check::all_checked;
use crate::declared_names::declared;
use crate::given::{DataFor, NamedData};
use crate::parameter::bound_parameter;
use crate::set_declaration::bound_set;
use net_base::{Boxed, Fault};
use net_data::{Statement, Tables};
use net_expr::{Entry, Env, World};
use net_lex::Token;
use net_names::Hints;
use net_tree::{Braces, Decl, Model, Phrase};
use std::alloc::{AllocError, Global};

/// Returns the number of members of a parameter's keys or a set's tuples.
fn width_of(entry: &Entry<'_>) -> usize
    ensures { result ≡ binding.width_of entry.now }
{
    match entry {
        Entry::Set(dimension, _) => usize::from(*dimension),
        Entry::Parameter(None, _, _) => 0,
        Entry::Parameter(Some(count), _, _) => usize::from(*count),
    }
}

/// Adds an evaluated entry for a name that is not declared yet.
fn with_entry<'s>(
    name: &Token<'s>,
    entry: Result<Boxed<Entry<'s>>, Fault>,
    world: &mut World<'s>,
    widths: &mut Vec<usize>,
) -> Result<(), Fault>
    requires fresh { entry_of world.old name.now.text ≡ None }
    requires kept { widths.old.items ≡ binding.widths world.old }
    ensures value { (wanted : Outcome AnEntry) → Refines wanted entry.entry → Updates (and_then wanted (binding.with_entry world.old name.now))
        result world.new }
    ensures kept { OnOk result (widths.new.items ≡ binding.widths world.new) }
{
    let entry = entry?;
    widths.push(width_of(entry.get()))?;
    world.add(&name.text, unboxed(entry))?;
    Ok(())
}

/// Returns everything declared so far.
fn whole<'w, 's>(world: &'w World<'s>, widths: &'w [usize]) -> BindingEnv<'w, 's>
    requires { widths.now ≡ binding.widths world.now }
    ensures world { result.env ≡ world.entry.now }
    ensures widths { result.widths.now ≡ binding.widths world.entry.now }
{
    BindingEnv {
        env: Env::new(world, widths.len()),
        widths,
    }
}

fn entry_of_set<'s>(
    alloc: Global,
    is_iterated: bool,
    given: &[DataFor<'_, '_, 's>],
    name: &Token<'s>,
    phrases: &[Phrase<'s>],
    earlier: &BindingEnv<'_, 's>,
) -> Result<Boxed<Entry<'s>>, Fault>
    requires { earlier.now.widths.now ≡ binding.widths earlier.now.env }
    ensures { Refines (sets.bound_set earlier.now.env (binding.widths earlier.now.env) name.now (map phrase_of phrases.now) (binding.next_data
        given.now earlier.now.env)) result }
{
    match given.get(earlier.widths.len()) {
        Some(named_data) => {
            let named_data = named_data.as_slice();
            bound_set(alloc, is_iterated, earlier, name, phrases, named_data)
        }
        None => {
            let none: Vec<NamedData<'_, '_, 's>> = Vec::new(alloc);
            bound_set(alloc, is_iterated, earlier, name, phrases, none.as_slice())
        }
    }
}

fn entry_of_parameter<'s>(
    alloc: Global,
    given: &[DataFor<'_, '_, 's>],
    name: &Token<'s>,
    braces: &Option<Braces<'s>>,
    phrases: &[Phrase<'s>],
    earlier: &BindingEnv<'_, 's>,
) -> Result<Boxed<Entry<'s>>, Fault>
    requires { earlier.now.widths.now ≡ binding.widths earlier.now.env }
    ensures { Refines (parameters.bound_parameter earlier.now.env (binding.widths earlier.now.env) name.now (indexing_of braces.now) (map phrase_of
        phrases.now) (binding.next_data given.now earlier.now.env)) result }
{
    match given.get(earlier.widths.len()) {
        Some(named_data) => {
            let named_data = named_data.as_slice();
            bound_parameter(alloc, earlier, name, braces, phrases, named_data)
        }
        None => {
            let none: Vec<NamedData<'_, '_, 's>> = Vec::new(alloc);
            bound_parameter(alloc, earlier, name, braces, phrases, none.as_slice())
        }
    }
}

/// Evaluates a declaration and adds it.
fn declare<'s>(
    alloc: Global,
    hints: &Hints<'s>,
    given: &[DataFor<'_, '_, 's>],
    decl: &Decl<'s>,
    world: &mut World<'s>,
    widths: &mut Vec<usize>,
) -> Result<(), Fault>
    requires fresh { binding.IsFresh world.old (declaration_of decl.now) }
    requires kept { widths.old.items ≡ binding.widths world.old }
    ensures value { Updates (binding.declare given.now (declaration_of decl.now) world.old) result world.new }
    ensures kept { OnOk result (widths.new.items ≡ binding.widths world.new) }
{
    match decl {
        Decl::Set(_, name, phrases, _) => {
            let phrases = phrases.as_slice();
            let is_iterated = hints.is_iterated(&name.text);
            let earlier = whole(world, widths);
            let entry = entry_of_set(alloc, is_iterated, given, name, phrases, &earlier);
            with_entry(name, entry, world, widths)
        }
        Decl::Param(_, name, braces, phrases, _) => {
            let phrases = phrases.as_slice();
            let earlier = whole(world, widths);
            let entry = entry_of_parameter(alloc, given, name, braces, phrases, &earlier);
            with_entry(name, entry, world, widths)
        }
        Decl::Check(_, _, _, _, _) => Ok(()),
        Decl::Node(_, _, _, _, _) => Ok(()),
        Decl::Arc(_, _, _, _, _) => Ok(()),
        Decl::Objective(_, _, _, _) => Ok(()),
    }
}

#[tactic(auto, using(crate::proofs::Fresh::fresh))]
fn declare_all<'s>(
    alloc: Global,
    hints: &Hints<'s>,
    given: &[DataFor<'_, '_, 's>],
    decls: &[Decl<'s>],
) -> Result<World<'s>, Fault>
    requires { binding.AreNew [] (map declaration_of decls.now) }
    ensures { Refines (each (binding.declare given.now) (map declaration_of decls.now) []) result }
{
    let mut world = World::new(alloc, hints.key());
    let mut widths = Vec::new(alloc);
    for decl in decls {
        declare(alloc, hints, given, decl, &mut world, &mut widths)?;
    }
    Ok(world)
}

/// Evaluates the checks and returns the world.
fn after_checks<'s>(alloc: Global, decls: &[Decl<'s>], world: World<'s>) -> Result<World<'s>, Fault>
    ensures { Refines (binding.after_checks (map declaration_of decls.now) world.entry) result }
{
    match all_checked(alloc, &world, decls) {
        Ok(_) => Ok(world),
        Err(fault) => Err(fault),
    }
}

/// Returns the world, given the data for each name.
fn bind_given<'s>(
    alloc: Global,
    hints: &Hints<'s>,
    decls: &[Decl<'s>],
    given: &[DataFor<'_, '_, 's>],
) -> Result<World<'s>, Fault>
    requires { binding.AreNew [] (map declaration_of decls.now) }
    ensures { Refines (binding.with_given (map declaration_of decls.now) given.now) result }
{
    let world = declare_all(alloc, hints, given, decls)?;
    after_checks(alloc, decls, world)
}

#[tactic(auto, unfolding(crate::specs::Binding::world))]
fn bind_statements<'m, 's>(
    alloc: Global,
    hints: &Hints<'s>,
    decls: &[Decl<'s>],
    statements: &'m [Statement<'_, 's>],
) -> Result<World<'s>, Fault>
    requires { binding.AreNew [] (map declaration_of decls.now) }
    ensures { Refines (binding.world (map declaration_of decls.now) statements.entry.now) result }
{
    let names = declared(alloc, hints.key(), decls)?;
    let given = data_by_name(alloc, &names, statements)?;
    bind_given(alloc, hints, decls, given.as_slice())
}

/// Evaluates a model with its data. No two sets or parameters of the model have the same name. A
/// set that is iterated by a component gets an index for it; the world is the same without.
///
/// The names of all statements are looked up first: E30 at a name in the data that is not a set or
/// a parameter as the statement requires. Then the sets and parameters are evaluated in order of
/// declaration, and finally the `check` statements in order. Returns the first error.
pub fn bind<'s>(
    alloc: Global,
    model: &Model<'s>,
    hints: &Hints<'s>,
    tables: &Tables<'_, 's>,
) -> Result<World<'s>, Fault>
    requires { binding.AreNew [] (view.model model.now) }
    ensures { Refines (binding.world (view.model model.now) tables.now.statements) result }
{
    bind_statements(
        alloc,
        hints,
        model.declarations.as_slice(),
        tables.statements.as_slice(),
    )
}

/// The sets and parameters declared so far.
#[derive(Drop)]
pub(crate) struct BindingEnv<'w, 's> {
    pub(crate) env: Env<'w, 's>,
    /// For each, the number of members of its keys or tuples.
    pub(crate) widths: &'w [usize],
}
