//! The rows of a declaration.

ghost use Rattle.std.specs.Prelude.{◌≡◌, ◌<◌, ◌++◌, ◌∷◌, [], IfOk, IsTrue, get_or, length, map};
ghost use Rattle.std.specs.Option.{IfSome};
ghost use Rattle.net_sets.specs.Made.{IsMade};
ghost use Rattle.net_sets.specs.Operations.{union};
ghost use Rattle.net_expr.specs.RowLists.{row_of};
ghost use Rattle.net_expr.specs.Rows.{keys_of};

use crate::row::{Row, key_set};
use crate::scope::Scope;
use net_base::{Excerpt, Items};
use net_sets::{HashKey, KeyList, SetFault, SharedSet, Tuple, TupleSet};
use std::alloc::{AllocError, Global};
use std::marker::Model;

/// How rows are stored.
#[derive(Drop)]
enum RowStore<'s> {
    Kept(Items<Row<'s>>),
    /// Only the keys, and the names of the dummies that are bound to their members: one for each member, or none.
    Made(KeyList<'s>, Items<Excerpt<'s>>),
}

/// The rows of a declaration in order, which contracts see as their list. If the keys are those of declared sets, a row is made
/// each time it is used.
#[derive(Drop)]
pub struct RowList<'s> {
    store: RowStore<'s>,
}

impl<'s> Model for RowList<'s> {
    ghost use Rattle.std.specs.Prelude.{List};
    ghost use Rattle.net_expr.specs.declared.row.Row.{Row};
    ghost use Rattle.net_expr.specs.RowLists.{rows_in};

    ghost Value = { List Row };

    ghost view = { λ r. rows_in r.store };
}

/// The owner of a row.
#[derive(Drop)]
enum RowHolder<'a, 's> {
    Owned(Row<'s>),
    Borrowed(&'a Row<'s>),
}

/// A row that is borrowed or owned, which contracts see as the row.
#[derive(Drop)]
pub struct RowRef<'a, 's> {
    holder: RowHolder<'a, 's>,
}

impl<'a, 's> Model for RowRef<'a, 's> {
    ghost use Rattle.net_expr.specs.declared.row.Row.{Row};
    ghost use Rattle.net_expr.specs.RowLists.{row_held};

    ghost Value = { Row };

    ghost view = { λ r. row_held r.holder };
}

impl<'a, 's> RowRef<'a, 's> {
    /// Returns the row.
    pub fn get(&self) -> &Row<'s>
        ensures { result.now ≡ self.now }
    {
        match &self.holder {
            RowHolder::Owned(row) => row,
            RowHolder::Borrowed(row) => row,
        }
    }
}

/// Makes the row of a key. Fails only if memory runs out.
fn made_row<'a, 's>(
    alloc: Global,
    dummies: &[Excerpt<'s>],
    key: Tuple<'s>,
) -> Result<RowRef<'a, 's>, AllocError>
    ensures { IfOk result (λ row. row ≡ row_of dummies.now key.entry) }
{
    let scope = Scope::of_dummies(alloc, dummies, key.as_slice())?;
    Ok(RowRef {
        holder: RowHolder::Owned(Row { key, scope }),
    })
}

/// Returns whether a row is that of its key, for dummies with these names.
fn is_made<'s>(dummies: &[Excerpt<'s>], row: &Row<'s>) -> bool
    ensures { IsTrue result → row.now ≡ row_of dummies.now row.now.key }
{
    row.scope.binds(dummies, row.key.as_slice())
}

/// Adds the key of a row. Returns whether the row is that of its key, for dummies with these names,
/// and the key is new.
fn add_key<'s>(
    dummies: &[Excerpt<'s>],
    row: &Row<'s>,
    keys: &mut TupleSet<'s>,
) -> Result<bool, AllocError>
    ensures { IfOk result (λ added. IsTrue added → (row.now ≡ row_of dummies.now row.now.key) × (keys.new ≡ keys.old ++ row.now.key ∷ [])) }
{
    if !is_made(dummies, row) {
        return Ok(false);
    }
    match keys.add_new(row.key.copied()) {
        Ok(is_new) => Ok(is_new),
        Err(SetFault::OutOfMemory) => Err(AllocError),
        Err(SetFault::TooMany) => Ok(false),
    }
}

/// Returns rows with the same dummies as a list that keeps only their keys; `None` if a row is not
/// that of its key.
fn of_made<'s>(
    alloc: Global,
    hash_key: HashKey,
    rows: &[Row<'s>],
) -> Result<Option<RowList<'s>>, AllocError>
    ensures { IfOk result (λ found. IfSome found (λ list. list ≡ rows.now)) }
{
    let [first, ..] = rows else {
        return Ok(None);
    };
    let dummies = first.scope.names(alloc)?;
    let mut keys = TupleSet::with_room(alloc, hash_key, rows.len());
    for row in rows {
        if !add_key(dummies.as_slice(), row, &mut keys)? {
            return Ok(None);
        }
    }
    let keys = KeyList::of_set(SharedSet::new(alloc, keys)?);
    Ok(Some(RowList::of_keys(keys, Items::new(dummies))))
}

impl<'s> RowList<'s> {
    /// The same rows; if each is that of its key, only the keys are kept. The hash key has to be that of the run.
    pub(crate) fn compact(self, alloc: Global, hash_key: HashKey) -> Result<RowList<'s>, AllocError>
        ensures { IfOk result (λ list. list ≡ self.entry) }
    {
        let RowList { store } = self;
        match store {
            RowStore::Kept(rows) => match of_made(alloc, hash_key, rows.as_slice())? {
                Some(list) => Ok(list),
                None => Ok(RowList::of_rows(rows)),
            },
            RowStore::Made(keys, dummies) => Ok(RowList::of_keys(keys, dummies)),
        }
    }

    /// Rows that are kept.
    pub fn of_rows(rows: Items<Row<'s>>) -> RowList<'s>
        ensures { result ≡ rows.entry }
    {
        RowList {
            store: RowStore::Kept(rows),
        }
    }

    /// A row for each key. The dummies are bound to the members of the key in turn.
    pub(crate) fn of_keys(keys: KeyList<'s>, dummies: Items<Excerpt<'s>>) -> RowList<'s>
        ensures { result ≡ map (row_of dummies.entry) keys.entry }
    {
        RowList {
            store: RowStore::Made(keys, dummies),
        }
    }

    /// Returns the number of rows.
    pub fn len(&self) -> usize
        ensures { result ≡ length self.now }
    {
        match &self.store {
            RowStore::Kept(rows) => rows.as_slice().len(),
            RowStore::Made(keys, _) => keys.len(),
        }
    }

    /// Returns the row at a position, counted from 0. Fails only if memory runs out.
    pub fn row(&self, alloc: Global, place: usize) -> Result<RowRef<'_, 's>, AllocError>
        requires { place < length self.now }
        ensures { IfOk result (λ row. row ≡ get_or self.now place row) }
    {
        match &self.store {
            RowStore::Kept(rows) => Ok(RowRef {
                holder: RowHolder::Borrowed(&rows.as_slice()[place]),
            }),
            RowStore::Made(keys, dummies) => match keys.get(place) {
                None => unreachable!(),
                Some(key) => made_row(alloc, dummies.as_slice(), key),
            },
        }
    }

    /// Returns the key at a position, counted from 0.
    pub fn key(&self, place: usize) -> Tuple<'s>
        requires { place < length self.now }
        ensures { result ≡ get_or (keys_of self.now) place [] }
    {
        match &self.store {
            RowStore::Kept(rows) => rows.as_slice()[place].key.copied(),
            RowStore::Made(keys, _) => match keys.get(place) {
                None => unreachable!(),
                Some(key) => key,
            },
        }
    }

    /// Returns the distinct keys, under the hash key of the run. Returns `TooMany` if there are more than a set can have.
    pub fn keys(&self, alloc: Global, hash_key: HashKey) -> Result<KeyList<'s>, SetFault>
        ensures { IsMade (union [] (keys_of self.now)) result }
    {
        match &self.store {
            RowStore::Kept(rows) => {
                let keys = key_set(alloc, hash_key, rows.as_slice())?;
                Ok(KeyList::of_set(SharedSet::new(alloc, keys)?))
            }
            RowStore::Made(keys, _) => {
                let _few = keys.len();
                Ok(keys.copied()?)
            }
        }
    }
}
