//! The names of nodes and arcs.

ghost use Rattle.std.specs.Prelude.{◌≡◌, IfOk, OnOk};
ghost use Rattle.net_inst.specs.Lists as lists;
ghost use Rattle.net_base.specs.Outcomes.{diagnostic_at};
ghost use Rattle.net_base.specs.declared.diagnostic.Detail.TheVariants.{Reported};
ghost use Rattle.net_base.specs.declared.diagnostic.Fault.TheVariants.{At};
ghost use Rattle.net_base.specs.declared.diagnostic.Language.TheVariants.{Model as InModel};

use net_base::{Detail, ErrorCode, Excerpt, Fault, Language, Span};
use net_expr::RowList;
use net_lex::Token;
use std::alloc::{AllocError, Global};
use std::marker::Model;

/// A declared name, and whether it is indexed.
#[derive(Drop)]
pub struct Declared<'s> {
    pub name: Excerpt<'s>,
    pub indexed: bool,
}

/// A declaration with its nodes or arcs: a row for each, in the order of their keys.
#[derive(Drop)]
pub struct DeclaredRows<'s> {
    pub declared: Declared<'s>,
    pub rows: RowList<'s>,
}

/// The declarations of nodes or of arcs in model order, and their nodes or arcs in the order of
/// declarations and of keys.
#[derive(Drop)]
pub struct NameList<'s> {
    declarations: Vec<DeclaredRows<'s>>,
}

impl<'s> Model for NameList<'s> {
    ghost use Rattle.net_inst.specs.Lists.{Listed, listed_rows};

    ghost Value = { Listed };

    ghost view = { λ l. listed_rows l.declarations.items };
}

/// The names of a network: that of its objective, and those of its nodes and arcs in order.
#[derive(Drop)]
pub struct Names<'s> {
    pub objective: Excerpt<'s>,
    pub nodes: NameList<'s>,
    pub arcs: NameList<'s>,
}

impl<'s> NameList<'s> {
    /// Creates an empty list.
    pub fn new(alloc: Global) -> NameList<'s>
        ensures { result ≡ lists.no_names }
    {
        NameList {
            declarations: Vec::new(alloc),
        }
    }

    /// Returns the declarations with their rows, in model order.
    pub fn declarations(&self) -> &[DeclaredRows<'s>]
        ensures { self.now ≡ lists.listed_rows result.now }
    {
        self.declarations.as_slice()
    }

    /// Adds a declaration: its name, the number of its subscripts (`None` without indexing), and
    /// its rows. Fails only if memory runs out.
    pub(crate) fn declare(
        &mut self,
        name: &Excerpt<'s>,
        count: Option<u8>,
        rows: RowList<'s>,
    ) -> Result<(), AllocError>
        ensures { OnOk result (self.new ≡ lists.listed_with self.old name.now count rows.entry) }
    {
        self.declarations.push(DeclaredRows {
            declared: Declared {
                name: name.copied(),
                indexed: count.is_some(),
            },
            rows,
        })?;
        Ok(())
    }
}

/// Builds an error with its span and its detail.
pub(crate) fn reject(error_code: ErrorCode, at: Span, detail: Detail) -> Fault
    ensures { result ≡ At (diagnostic_at InModel error_code at detail) }
{
    Fault::of_text(Language::Model, error_code, at, detail)
}

/// Builds an error at a declared name, with the name as its detail. Fails only if memory runs out.
pub(crate) fn reject_name(
    alloc: Global,
    error_code: ErrorCode,
    name: &Token<'_>,
) -> Result<Fault, AllocError>
    ensures { IfOk result (λ f. f ≡ At (diagnostic_at InModel error_code name.now.span (Reported name.now.text))) }
{
    let detail = Detail::of_name(alloc, &name.text)?;
    Ok(reject(error_code, name.span, detail))
}
