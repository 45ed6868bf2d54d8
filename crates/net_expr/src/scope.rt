//! The dummies in scope and their members.

ghost use Rattle.std.specs.Prelude.{◌≡◌, ◌∷◌, ◌++◌, [], IfOk, IsTrue};
ghost use Rattle.std.specs.Option.{option_copied};
ghost use Rattle.std.specs.Str.{bytes_eq};
ghost use Rattle.net_expr.specs.RowLists.{bound_to};
ghost use Rattle.net_expr.specs.Worlds.{bound, with_dummy};

use net_base::{Excerpt, Items};
use net_sets::Member;
use std::alloc::{AllocError, Global};
use std::marker::Model;

/// A dummy and its member.
#[derive(Drop)]
pub struct Binding<'s> {
    pub name: Excerpt<'s>,
    pub member: Member<'s>,
}

/// The dummies in scope, which contracts see as a list, innermost first.
#[derive(Drop)]
pub struct Scope<'s> {
    /// The innermost last.
    bindings: Items<Binding<'s>>,
}

impl<'s> Model for Scope<'s> {
    ghost use Rattle.std.specs.Prelude.{List, reverse};
    ghost use Rattle.net_expr.specs.declared.scope.Binding.{Binding};

    ghost Value = { List Binding };

    ghost view = { λ s. reverse s.bindings };
}

impl<'s> Scope<'s> {
    /// Creates a scope without dummies.
    pub fn new(alloc: Global) -> Scope<'s>
        ensures { result ≡ [] }
    {
        Scope {
            bindings: Items::new(Vec::new(alloc)),
        }
    }

    /// Creates a scope of these dummies, bound to members in turn; the last is the innermost. Fails only if memory runs out.
    pub(crate) fn of_dummies(
        alloc: Global,
        names: &[Excerpt<'s>],
        members: &[Member<'s>],
    ) -> Result<Scope<'s>, AllocError>
        ensures { IfOk result (λ s. s ≡ bound_to names.now members.now []) }
    {
        let count = names.len().min(members.len());
        let mut bindings = Vec::new(alloc);
        bindings.reserve_exact(count)?;
        for place in 0..count {
            bindings.push(Binding {
                name: names[place].copied(),
                member: members[place].copied(),
            })?;
        }
        Ok(Scope {
            bindings: Items::new(bindings),
        })
    }

    /// Returns the names of the dummies, the innermost last. Fails only if memory runs out.
    pub(crate) fn names(&self, alloc: Global) -> Result<Vec<Excerpt<'s>>, AllocError> {
        let mut names = Vec::new(alloc);
        for binding in self.bindings.as_slice() {
            names.push(binding.name.copied())?;
        }
        Ok(names)
    }

    /// Returns whether dummies with these names are bound to these members in turn, and no others.
    pub(crate) fn binds(&self, names: &[Excerpt<'s>], members: &[Member<'s>]) -> bool
        ensures { IsTrue result → self.now ≡ bound_to names.now members.now [] }
    {
        let bindings = self.bindings.as_slice();
        if bindings.len() != names.len().min(members.len()) {
            return false;
        }
        for place in 0..bindings.len() {
            let binding = &bindings[place];
            if !is_same_name(&binding.name, &names[place]) || binding.member != members[place] {
                return false;
            }
        }
        true
    }

    /// Returns the member of the innermost dummy with this name.
    pub fn get(&self, name: &Excerpt<'s>) -> Option<&Member<'s>>
        ensures { option_copied result ≡ bound self.now name.now }
    {
        let bindings = self.bindings.as_slice();
        let count = bindings.len();
        for newer in 0..count {
            let binding = &bindings[count - 1 - newer];
            if is_same_name(&binding.name, name) {
                return Some(&binding.member);
            }
        }
        None
    }

    /// Returns a copy of the scope. Fails only if memory runs out.
    pub fn copied(&self, alloc: Global) -> Result<Scope<'s>, AllocError>
        ensures { IfOk result (λ s. s ≡ self.now) }
    {
        let mut bindings = Vec::new(alloc);
        copy_into(&mut bindings, self.bindings.as_slice())?;
        Ok(Scope {
            bindings: Items::new(bindings),
        })
    }

    /// Returns a copy of the scope with a new dummy added. Fails only if memory runs out.
    pub fn with(
        &self,
        alloc: Global,
        name: Excerpt<'s>,
        member: Member<'s>,
    ) -> Result<Scope<'s>, AllocError>
        ensures { IfOk result (λ s. s ≡ with_dummy name.entry member.entry self.now) }
    {
        self.copied(alloc)?.extended(name, member)
    }

    /// Adds a new dummy. Fails only if memory runs out.
    pub(crate) fn extended(
        self,
        name: Excerpt<'s>,
        member: Member<'s>,
    ) -> Result<Scope<'s>, AllocError>
        ensures { IfOk result (λ s. s ≡ with_dummy name.entry member.entry self.entry) }
    {
        let Scope { bindings } = self;
        let mut bindings = bindings.into_vec();
        // Keys are many, and each has few dummies: no room is kept for more.
        bindings.reserve_exact(1)?;
        bindings.push(Binding { name, member })?;
        Ok(Scope {
            bindings: Items::new(bindings),
        })
    }
}

/// Returns whether two names are equal. Most names differ in their length or in their first byte,
/// or have only one byte.
pub(crate) fn is_same_name(one: &Excerpt<'_>, other: &Excerpt<'_>) -> bool
    ensures { result ≡ bytes_eq one.now other.now }
{
    let (one, other) = (one.as_str().as_bytes(), other.as_str().as_bytes());
    if one.len() != other.len() {
        return false;
    }
    match (one, other) {
        ([first], [second]) => *first == *second,
        ([first, ..], [second, ..]) if *first != *second => false,
        _ => one == other,
    }
}

fn copy_into<'s>(copies: &mut Vec<Binding<'s>>, bindings: &[Binding<'s>]) -> Result<(), AllocError>
    ensures { IfOk result (λ _. copies.new.items ≡ copies.old.items ++ bindings.now) }
{
    for binding in bindings {
        copies.push(Binding {
            name: binding.name.copied(),
            member: binding.member.copied(),
        })?;
    }
    Ok(())
}
