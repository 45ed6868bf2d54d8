//! The rows of a set in its data.

ghost use Rattle.std.specs.Prelude.{◌≡◌, ◌≤◌, ◌+◌, ◌++◌, ◌∷◌, [], IfOk, OnOk, length, take, drop};
ghost use Rattle.net_bind.specs.SetData as set_data;

use crate::cell_group::{behind, front};
use crate::given::{DataContent, Line};
use net_base::Items;
use net_data::Members;
use net_lex::Word;
use std::alloc::{AllocError, Global};

/// Returns the members of all items, if the statement gives items. Fails only if memory runs out.
pub(crate) fn given_words<'t, 's>(
    alloc: Global,
    given: &DataContent<'_, 't, 's>,
) -> Result<Items<Word<'t, 's>>, AllocError>
    ensures { IfOk result (λ all. all ≡ set_data.given_words given.now) }
{
    match given {
        DataContent::Members(members) => words_of(alloc, members),
        DataContent::Groups(_) => Ok(Items::new(Vec::new(alloc))),
        DataContent::Grid(_) => Ok(Items::new(Vec::new(alloc))),
    }
}

fn words_of<'t, 's>(
    alloc: Global,
    members: &Members<'t, 's>,
) -> Result<Items<Word<'t, 's>>, AllocError>
    ensures { IfOk result (λ all. all ≡ set_data.words members.now) }
{
    let mut all = Vec::new(alloc);
    let mut left = members.copied();
    while let Some(item) = left.first() {
        item.push_to(&mut all)?;
        left = left.rest();
    }
    Ok(Items::new(all))
}

/// The rows of a set so far, and the members after them.
#[derive(Drop)]
struct SetRows<'c, 't, 's> {
    rows: Vec<Line<'c, 't, 's>>,
    /// The number of single members that are not a complete row yet.
    alone: usize,
    left: &'c [Word<'t, 's>],
}

impl<'c, 't, 's> SetRows<'c, 't, 's> {
    /// Makes the pending members a row.
    fn push_row(&mut self) -> Result<(), AllocError>
        requires { self.old.alone ≤ length self.old.left.now }
        ensures row { OnOk result (self.new.rows.items ≡ self.old.rows.items ++ take self.old.alone self.old.left.now ∷ []) }
        ensures left { OnOk result (self.new.left.now ≡ drop self.old.alone self.old.left.now) }
        ensures alone { OnOk result (self.new.alone ≡ 0) }
    {
        self.rows.push(Line::new(front(self.alone, self.left)))?;
        self.left = behind(self.alone, self.left);
        self.alone = 0;
        Ok(())
    }

    /// Makes the pending members a row, if there are any.
    fn close(&mut self) -> Result<(), AllocError>
        requires { self.old.alone ≤ length self.old.left.now }
        ensures rows { OnOk result (self.new.rows.items ≡ set_data.closed_with self.old.rows.items (take self.old.alone self.old.left.now)) }
        ensures left { OnOk result (self.new.left.now ≡ drop self.old.alone self.old.left.now) }
        ensures alone { OnOk result (self.new.alone ≡ 0) }
    {
        if self.alone == 0 {
            return Ok(());
        }
        self.push_row()
    }

    /// Adds an item: a tuple is a row, a single member is added to the pending ones.
    fn push_item(
        &mut self,
        dimension: usize,
        is_tuple: bool,
        count: usize,
    ) -> Result<(), AllocError>
        requires { self.old.alone + count ≤ length self.old.left.now }
        ensures rows { OnOk result (set_data.pending self.new.rows.items self.new.alone self.new.left.now ≡ set_data.with_item dimension (set_data.pending
            self.old.rows.items self.old.alone self.old.left.now) (set_data.item is_tuple (take count (drop self.old.alone self.old.left.now)))) }
        ensures left { OnOk result (drop self.new.alone self.new.left.now ≡ drop count (drop self.old.alone self.old.left.now)) }
        ensures few { OnOk result (self.new.alone ≤ length self.new.left.now) }
    {
        if is_tuple {
            self.close()?;
            self.alone = count;
            return self.push_row();
        }
        self.alone += count;
        if dimension <= self.alone {
            return self.push_row();
        }
        Ok(())
    }
}

/// Returns the rows of a set of this dimension: each tuple is one, and so is each sequence of as
/// many single members. Fails only if memory runs out.
pub(crate) fn set_rows<'c, 't, 's>(
    alloc: Global,
    dimension: usize,
    members: &Members<'t, 's>,
    words: &'c [Word<'t, 's>],
) -> Result<Items<Line<'c, 't, 's>>, AllocError>
    requires { words.now ≡ set_data.words members.now }
    ensures { IfOk result (λ all. all ≡ set_data.set_rows dimension members.now) }
{
    let mut all = SetRows {
        rows: Vec::new(alloc),
        alone: 0,
        left: words,
    };
    let mut left = members.copied();
    while let Some(item) = left.first() {
        all.push_item(dimension, left.begins_tuple(), item.len())?;
        left = left.rest();
    }
    all.close()?;
    Ok(Items::new(all.rows))
}
