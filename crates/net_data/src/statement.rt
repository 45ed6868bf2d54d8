//! The statements, each with all its tokens except the commas outside tuples.

ghost use Rattle.std.specs.Prelude.{◌≡◌, [], ◌∷◌, ◌++◌, OnOk, IfOk, IfErr};
ghost use Rattle.net_base.specs.declared.diagnostic.Fault.TheVariants.{OutOfMemory};
ghost use Rattle.net_data.specs.declared.data_parser.StatementStop.TheVariants as statement_stops;

use crate::data_parser::StatementStop;
use crate::members::Members;
use net_base::{Boxed, Fault, Items};
use net_lex::{Word, Words};
use std::alloc::Global;

/// `set NAME := items ;`
#[derive(Drop)]
pub struct SetStatement<'t, 's> {
    pub keyword: Word<'t, 's>,
    pub name: Word<'t, 's>,
    pub assign: Word<'t, 's>,
    pub items: Members<'t, 's>,
    pub end: Word<'t, 's>,
}

/// `default 0`
#[derive(Drop)]
pub struct DefaultValue<'t, 's> {
    pub keyword: Word<'t, 's>,
    pub value: Word<'t, 's>,
}

/// `:= PITT 450`
#[derive(Drop)]
pub struct Given<'t, 's> {
    pub assign: Word<'t, 's>,
    pub cells: Items<Word<'t, 's>>,
}

/// `param supply default 0 := PITT 450;`
#[derive(Drop)]
pub struct ListStatement<'t, 's> {
    pub keyword: Word<'t, 's>,
    pub name: Word<'t, 's>,
    pub default: Option<DefaultValue<'t, 's>>,
    pub given: Option<Given<'t, 's>>,
    pub end: Word<'t, 's>,
}

/// `(tr)`
#[derive(Drop)]
pub struct Transposed<'t, 's> {
    pub opening: Word<'t, 's>,
    pub word: Word<'t, 's>,
    pub closing: Word<'t, 's>,
}

/// `param cost (tr) : PITT NE := BOS 25 17;`
#[derive(Drop)]
pub struct TableStatement<'t, 's> {
    pub keyword: Word<'t, 's>,
    pub name: Word<'t, 's>,
    pub default: Option<DefaultValue<'t, 's>>,
    pub transposed: Option<Transposed<'t, 's>>,
    pub colon: Word<'t, 's>,
    pub columns: Items<Word<'t, 's>>,
    pub assign: Word<'t, 's>,
    pub cells: Items<Word<'t, 's>>,
    pub end: Word<'t, 's>,
}

/// `LINKS :` in the heading of several parameters.
#[derive(Drop)]
pub struct NamedSet<'t, 's> {
    pub name: Word<'t, 's>,
    pub colon: Word<'t, 's>,
}

/// `param : LINKS : cost capacity := PITT NE 25 250;`
#[derive(Drop)]
pub struct ColumnsStatement<'t, 's> {
    pub keyword: Word<'t, 's>,
    pub colon: Word<'t, 's>,
    pub set: Option<NamedSet<'t, 's>>,
    pub names: Items<Word<'t, 's>>,
    pub assign: Word<'t, 's>,
    pub cells: Items<Word<'t, 's>>,
    pub end: Word<'t, 's>,
}

/// One statement of a data file.
#[derive(Drop)]
pub enum Statement<'t, 's> {
    /// `set CITIES := PITT NE;`
    Set(SetStatement<'t, 's>),
    /// `param supply default 0 := PITT 450;`
    List(ListStatement<'t, 's>),
    /// `param cost : BOS EWR := PITT 25 30;`
    Table(TableStatement<'t, 's>),
    /// `param : cost capacity := PITT NE 25 250;`
    Columns(ColumnsStatement<'t, 's>),
}

/// `data;` or `end;`
#[derive(Drop)]
pub struct Single<'t, 's> {
    pub word: Word<'t, 's>,
    pub end: Word<'t, 's>,
}

/// The content of a data file: its statements in order.
#[derive(Drop)]
pub struct Tables<'t, 's> {
    /// `data;`
    pub opening: Option<Single<'t, 's>>,
    pub statements: Items<Statement<'t, 's>>,
    /// `end;`
    pub ending: Option<Single<'t, 's>>,
}

/// A statement, and the remaining tokens.
pub(crate) type Stated<'t, 's> = (Boxed<Statement<'t, 's>>, Words<'t, 's>);

/// Boxes a parsed statement, since it has many forms. Fails only if memory runs out.
pub(crate) fn stated<'t, 's, T: Drop>(
    alloc: Global,
    statement: T,
    tokens: Words<'t, 's>,
) -> Result<(Boxed<T>, Words<'t, 's>), StatementStop>
    ensures value { IfOk result (λ x. x.0 ≡ statement) }
    ensures rest { IfOk result (λ x. x.1 ≡ tokens.entry) }
    ensures memory { IfErr result (λ e. e ≡ statement_stops.OutOfMemory) }
{
    match Box::new(alloc, statement) {
        Ok(boxed) => Ok((Boxed::new(boxed), tokens)),
        Err(_) => Err(StatementStop::OutOfMemory),
    }
}

/// Appends a statement. Fails only if memory runs out.
pub(crate) fn push<T: Drop>(statements: &mut Vec<T>, statement: Boxed<T>) -> Result<(), Fault>
    ensures items { OnOk result (statements.new.items ≡ statements.old.items ++ (statement ∷ [])) }
    ensures memory { IfErr result (λ e. e ≡ OutOfMemory) }
{
    statements.push(Box::into_inner(statement.into_box()))?;
    Ok(())
}
