//! What the check of names hands on to evaluation. It decides only how fast that is.

use net_base::Excerpt;
use net_sets::HashKey;
use std::alloc::{AllocError, Global};
use std::collections::BTreeMap;
use std::marker::Model;

/// The key under which the run hashes names and tuples, and the names of the sets that the model
/// iterates by a component, as `{(p,i,j) in LINKS}` does if `p` is a dummy in scope. An index by
/// component pays off for these sets alone. Contracts see nothing of a hint.
#[derive(Drop)]
pub struct Hints<'s> {
    key: HashKey,
    iterated: BTreeMap<&'s str, bool>,
}

impl<'s> Model for Hints<'s> {
    ghost Value = { Unit {0} };

    ghost view = { λ _. tt };
}

impl<'s> Hints<'s> {
    pub(crate) fn new(alloc: Global, key: HashKey) -> Hints<'s> {
        Hints {
            key,
            iterated: BTreeMap::new(alloc),
        }
    }

    /// Returns the key of the run.
    pub fn key(&self) -> HashKey {
        self.key
    }

    /// Returns whether the model iterates the set of this name by a component.
    pub fn is_iterated(&self, name: &Excerpt<'s>) -> bool {
        self.iterated.get(&name.as_str()).is_some()
    }

    /// Adds the name of a set that is iterated by a component. Fails only if memory runs out.
    pub(crate) fn add_iterated(&mut self, name: &Excerpt<'s>) -> Result<(), AllocError> {
        match self.iterated.insert(name.as_str(), true) {
            Ok(_) => Ok(()),
            Err(_) => Err(AllocError),
        }
    }
}
