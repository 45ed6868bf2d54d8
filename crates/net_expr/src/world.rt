//! The sets and parameters of a model with their values.

ghost use Rattle.std.specs.Prelude.{◌≡◌, [], ◌∷◌, ◌++◌, None, take, OnOk, OnErr};
ghost use Rattle.std.specs.Option.{option_copied};
ghost use Rattle.net_expr.specs.Worlds.{entry_of};

use net_base::Excerpt;
use net_sets::{HashKey, IndexedSet, KeyList, KeyValues, NameMap};
use std::alloc::{AllocError, Global};
use std::marker::Model;

/// A declared set or parameter.
#[derive(Drop)]
pub enum Entry<'s> {
    /// A set: its dimension and its tuples.
    Set(u8, IndexedSet<'s>),
    /// A parameter: the number of its subscripts (`None` if it is not indexed), its index set, and
    /// its values.
    Parameter(Option<u8>, KeyList<'s>, KeyValues<'s>),
}

/// The declared sets and parameters, in order.
#[derive(Drop)]
pub struct World<'s> {
    entries: NameMap<'s, Entry<'s>>,
}

impl<'s> Model for World<'s> {
    ghost use Rattle.std.specs.Prelude.{List, ℕ};
    ghost use Rattle.net_expr.specs.declared.world.Entry.{Entry};

    ghost Value = { List (List ℕ × Entry) };

    ghost view = { λ w. w.entries };
}

impl<'s> World<'s> {
    /// Returns the hash key of the run.
    pub fn hash_key(&self) -> HashKey {
        self.entries.key()
    }

    /// Creates a world without declarations. The hash key has to be that of the run.
    pub fn new(alloc: Global, hash_key: HashKey) -> World<'s>
        ensures { result ≡ [] }
    {
        World {
            entries: NameMap::new(alloc, hash_key),
        }
    }

    /// Declares a name that has no entry.
    pub fn add(&mut self, name: &Excerpt<'s>, entry: Entry<'s>) -> Result<(), AllocError>
        requires { entry_of self.old name.now ≡ None }
        ensures ok { OnOk result (self.new ≡ self.old ++ (name.now, entry.entry) ∷ []) }
        ensures err { OnErr result (self.new ≡ self.old) }
    {
        self.entries.add(name, entry)
    }

    /// Returns the entry of a name if it is one of the first `known`.
    fn find_among(&self, known: usize, name: &Excerpt<'s>) -> Option<&Entry<'s>>
        ensures { option_copied result ≡ entry_of (take known self.now) name.now }
    {
        self.entries.get_among_first(known, name)
    }
}

/// The first declarations of a world, which an expression can refer to; contracts see only these.
#[derive(Drop)]
pub struct Env<'w, 's> {
    world: &'w World<'s>,
    known: usize,
}

impl<'w, 's> Model for Env<'w, 's> {
    ghost use Rattle.std.specs.Prelude.{List, ℕ, take};
    ghost use Rattle.net_expr.specs.declared.world.Entry.{Entry};

    ghost Value = { List (List ℕ × Entry) };

    ghost view = { λ s. take s.known s.world.now };
}

impl<'w, 's> Env<'w, 's> {
    /// Returns an environment in which all declarations of the world can be named.
    pub fn of_world(world: &'w World<'s>) -> Env<'w, 's>
        ensures { result ≡ world.entry.now }
    {
        Env::new(world, world.entries.len())
    }

    /// Creates a view of the first `known` declarations of a world.
    pub fn new(world: &'w World<'s>, known: usize) -> Env<'w, 's>
        ensures { result ≡ take known world.entry.now }
    {
        Env { world, known }
    }

    /// Returns the hash key of the run.
    pub fn hash_key(&self) -> HashKey {
        self.world.hash_key()
    }

    /// Looks up a name.
    pub fn find(&self, name: &Excerpt<'s>) -> Option<&'w Entry<'s>>
        ensures { option_copied result ≡ entry_of self.now name.now }
    {
        self.world.find_among(self.known, name)
    }
}
