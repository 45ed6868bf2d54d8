//! Lookup of declared sets and parameters by name.

ghost use Rattle.std.specs.Prelude.{◌≡◌, ◌++◌, ◌∷◌, [], OnOk, IfOk, length, map};
ghost use Rattle.net_tree.specs.View.{declaration_of};
ghost use Rattle.net_bind.specs.Binding as binding;
ghost use Rattle.net_bind.specs.Names as names;
ghost use Rattle.net_base.specs.Outcomes.{Refines};

use crate::world_calls::reject_name;
use net_base::{ErrorCode, Fault, Language};
use net_lex::Word;
use net_sets::{HashKey, NameMap};
use net_tree::Decl;
use std::alloc::{AllocError, Global};
use std::marker::Model;

/// The declared names in order, each with whether it is a set's.
#[derive(Drop)]
pub(crate) struct DeclaredNames<'s> {
    alloc: Global,
    are_sets: NameMap<'s, bool>,
}

impl<'s> Model for DeclaredNames<'s> {
    ghost use Rattle.std.specs.Prelude.{List, ℕ, Bool};

    ghost Value = { List (List ℕ × Bool) };

    ghost view = { λ n. n.are_sets };
}

impl<'s> DeclaredNames<'s> {
    /// Returns the number of names.
    pub(crate) fn len(&self) -> usize
        ensures { result ≡ length self.now }
    {
        self.are_sets.len()
    }

    /// Returns the index of the set or the parameter that a token in the data names. Returns E30 if
    /// there is none.
    pub(crate) fn target(&self, is_set: bool, word: &Word<'_, 's>) -> Result<usize, Fault>
        ensures { Refines (names.target self.now is_set word.now) result }
    {
        let token = word.token();
        match self.are_sets.get_full(&token.text) {
            Some((index, found)) if *found == is_set => Ok(index),
            _ => Err(reject_name(
                self.alloc,
                Language::Data,
                ErrorCode::NoSuchName,
                token.span,
                &token.text,
            )?),
        }
    }
}

/// Returns the names that declarations declare as sets and parameters. Fails only if memory runs
/// out.
pub(crate) fn declared<'s>(
    alloc: Global,
    key: HashKey,
    decls: &[Decl<'s>],
) -> Result<DeclaredNames<'s>, AllocError>
    requires { binding.AreNew [] (map declaration_of decls.now) }
    ensures { IfOk result (λ all. all ≡ names.declared (map declaration_of decls.now)) }
{
    let mut are_sets = NameMap::new(alloc, key);
    for decl in decls {
        add_declared(&mut are_sets, decl)?;
    }
    Ok(DeclaredNames { alloc, are_sets })
}

/// Adds the name of a set or of a parameter.
fn add_declared<'s>(are_sets: &mut NameMap<'s, bool>, decl: &Decl<'s>) -> Result<(), AllocError>
    requires { binding.IsFresh are_sets.old (declaration_of decl.now) }
    ensures { OnOk result (are_sets.new ≡ are_sets.old ++ names.declared (declaration_of decl.now ∷ [])) }
{
    match decl {
        Decl::Set(_, name, _, _) => are_sets.add(&name.text, true),
        Decl::Param(_, name, _, _, _) => are_sets.add(&name.text, false),
        Decl::Check(_, _, _, _, _) => Ok(()),
        Decl::Node(_, _, _, _, _) => Ok(()),
        Decl::Arc(_, _, _, _, _) => Ok(()),
        Decl::Objective(_, _, _, _) => Ok(()),
    }
}
