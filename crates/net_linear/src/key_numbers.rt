//! The numbers of declared arcs and nodes, by name and key.

ghost use Rattle.std.specs.Prelude.{◌≡◌, [], ◌∷◌, ◌++◌, None, length, ◌+◌, ◌<◌, OnOk, OnErr};
ghost use Rattle.std.specs.Option.{option_copied};
ghost use Rattle.net_sets.specs.Sets.{place_of};
ghost use Rattle.net_expr.specs.Worlds as worlds;
ghost use Rattle.net_linear.specs.Arcs as lookup;
ghost use Rattle.net_base.specs.Outcomes.{Refines};

use net_base::{ErrorCode, Excerpt, Fault, Language, Span};
use net_expr::{key_count, reported_reference};
use net_sets::{HashKey, KeyList, NameMap, Tuple};
use std::alloc::{AllocError, Global};
use std::marker::Model;

/// The numbers of the arcs, or nodes, of one declaration.
#[derive(Drop)]
pub struct KeyNumbers<'s> {
    /// The number of subscripts of the name; `None` without indexing.
    pub count: Option<u8>,
    /// The number of the first one; the others follow it in key order.
    pub first: u32,
    /// The keys; a declaration without indexing has one empty key.
    pub keys: KeyList<'s>,
}

/// Declarations of arcs, or nodes, in order, each with its name.
#[derive(Drop)]
pub struct NumberedNames<'s> {
    declarations: NameMap<'s, KeyNumbers<'s>>,
}

impl<'s> Model for NumberedNames<'s> {
    ghost use Rattle.std.specs.Prelude.{List, ℕ};
    ghost use Rattle.net_linear.specs.declared.key_numbers.KeyNumbers.{KeyNumbers};

    ghost Value = { List (List ℕ × KeyNumbers) };

    ghost view = { λ n. n.declarations };
}

impl<'s> NumberedNames<'s> {
    /// Creates an empty list. The hash key has to be that of the run.
    pub fn new(alloc: Global, hash_key: HashKey) -> NumberedNames<'s>
        ensures { result ≡ [] }
    {
        NumberedNames {
            declarations: NameMap::new(alloc, hash_key),
        }
    }

    /// Returns the hash key of the run.
    pub fn hash_key(&self) -> HashKey {
        self.declarations.key()
    }

    /// Declares a name that is not declared yet. Fails only if memory runs out.
    pub fn add(&mut self, name: &Excerpt<'s>, numbers: KeyNumbers<'s>) -> Result<(), AllocError>
        requires { lookup.declared self.old name.now ≡ None }
        ensures ok { OnOk result (self.new ≡ self.old ++ (name.now, numbers.entry) ∷ []) }
        ensures err { OnErr result (self.new ≡ self.old) }
    {
        self.declarations.add(name, numbers)
    }

    /// Returns the numbers of a name.
    pub fn get(&self, name: &Excerpt<'s>) -> Option<&KeyNumbers<'s>>
        ensures { option_copied result ≡ lookup.declared self.now name.now }
    {
        self.declarations.get(name)
    }

    /// Returns whether a name is declared.
    pub fn has(&self, name: &Excerpt<'s>) -> bool
        ensures { result ≡ lookup.is_arc self.now name.now }
    {
        self.get(name).is_some()
    }
}

impl<'s> KeyNumbers<'s> {
    /// Returns the number of the arc, or node, whose key has this index.
    pub fn at(&self, place: usize) -> usize
        requires { place < length self.now.keys }
        ensures { result ≡ self.now.first + place }
    {
        let count = self.keys.len();
        prove!(place < count);
        self.first as usize + place
    }
}

/// Returns the number of the arc with a key in a declaration.
fn numbered<'s>(
    alloc: Global,
    at: Span,
    name: &Excerpt<'s>,
    arcs: &KeyNumbers<'s>,
    key: Tuple<'s>,
) -> Result<usize, Fault>
    ensures { Refines (lookup.numbered at (worlds.reference name.now arcs.now.count key.entry) arcs.now.first (place_of arcs.now.keys key.entry)) result }
{
    match arcs.keys.position(&key) {
        Some(place) => Ok(arcs.at(place)),
        None => {
            let detail = reported_reference(alloc, name, arcs.count, &key)?;
            Err(Fault::of_text(Language::Model, ErrorCode::OutsideSet, at, detail))
        }
    }
}

/// Returns the number of the arc with a name and a key.
pub(crate) fn arc_at<'s>(
    alloc: Global,
    at: Span,
    name: &Excerpt<'s>,
    arcs: Option<&KeyNumbers<'s>>,
    key: Tuple<'s>,
) -> Result<usize, Fault>
    ensures { Refines (lookup.arc_at at name.now (option_copied arcs.entry) key.entry) result }
{
    match arcs {
        None => Err(Fault::of_model(ErrorCode::NotLinear, at)),
        Some(arcs) => {
            if key.len() == key_count(arcs.count) {
                numbered(alloc, at, name, arcs, key)
            } else {
                Err(Fault::of_model(ErrorCode::Arity, at))
            }
        }
    }
}
