//! The content of data statements for declared names.

ghost use Rattle.std.specs.Prelude.{◌≡◌, ◌++◌, ◌∷◌, [], OnOk};

use net_data::Members;
use net_lex::Word;
use std::alloc::AllocError;
use std::marker::Model;

/// Consecutive tokens, which contracts see as a list.
#[derive(Drop)]
pub(crate) struct Line<'m, 't, 's> {
    cells: &'m [Word<'t, 's>],
}

impl<'m, 't, 's> Model for Line<'m, 't, 's> {
    ghost use Rattle.std.specs.Prelude.{List};
    ghost use Rattle.net_lex.specs.declared.token.Token.{Token};

    ghost Value = { List Token };

    ghost view = { λ line. line.cells.now };
}

impl<'m, 't, 's> Line<'m, 't, 's> {
    pub(crate) fn new(cells: &'m [Word<'t, 's>]) -> Line<'m, 't, 's>
        ensures { result ≡ cells.entry.now }
    {
        Line { cells }
    }

    pub(crate) fn cells(&self) -> &'m [Word<'t, 's>]
        ensures { result.now ≡ self.now }
    {
        self.cells
    }
}

/// Groups of cells, each the members of a key followed by values.
#[derive(Drop)]
pub(crate) struct Groups<'m, 't, 's> {
    /// The index of the declared name that determines the number of members of a key.
    pub(crate) leader: usize,
    /// The number of values after each key.
    pub(crate) values: usize,
    /// The index of the value that is used, counted from 0.
    pub(crate) place: usize,
    pub(crate) cells: Line<'m, 't, 's>,
}

/// Rows of a table, each a member and a value for each column.
#[derive(Drop)]
pub(crate) struct Grid<'m, 't, 's> {
    /// Whether the column's member is the first in a key.
    pub(crate) transposed: bool,
    pub(crate) columns: Line<'m, 't, 's>,
    pub(crate) cells: Line<'m, 't, 's>,
}

/// The content of a statement for a name.
#[derive(Drop)]
pub(crate) enum DataContent<'m, 't, 's> {
    /// The members and tuples of a set.
    Members(Members<'t, 's>),
    Groups(Groups<'m, 't, 's>),
    Grid(Grid<'m, 't, 's>),
}

/// A name in a data statement, and the content of the statement for it.
#[derive(Drop)]
pub(crate) struct NamedData<'m, 't, 's> {
    pub(crate) word: Word<'t, 's>,
    /// The value after `default`.
    pub(crate) default: Option<Word<'t, 's>>,
    pub(crate) given: DataContent<'m, 't, 's>,
}

/// The data for one declared name, statement by statement; contracts see them as a list.
#[derive(Drop)]
pub(crate) struct DataFor<'m, 't, 's> {
    pub(crate) named_data: Vec<NamedData<'m, 't, 's>>,
}

impl<'m, 't, 's> Model for DataFor<'m, 't, 's> {
    ghost use Rattle.std.specs.Prelude.{List};
    ghost use Rattle.net_bind.specs.declared.given.NamedData.{NamedData};

    ghost Value = { List NamedData };

    ghost view = { λ all. all.named_data.items };
}

impl<'m, 't, 's> DataFor<'m, 't, 's> {
    pub(crate) fn push(&mut self, named: NamedData<'m, 't, 's>) -> Result<(), AllocError>
        ensures { OnOk result (self.new ≡ self.old ++ named.entry ∷ []) }
    {
        self.named_data.push(named)?;
        Ok(())
    }

    pub(crate) fn as_slice(&self) -> &[NamedData<'m, 't, 's>]
        ensures { result.now ≡ self.now }
    {
        self.named_data.as_slice()
    }
}
