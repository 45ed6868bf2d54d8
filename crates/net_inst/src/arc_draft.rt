//! Collecting the arcs of a model.

ghost use Rattle.std.specs.Prelude.{◌≡◌, ◌≤◌, ◌+◌, All, length, map, IfOk, OnOk, Ok};
ghost use Rattle.net_tree.specs.View.{indexing_of, option_part, phrase_of, tree};
ghost use Rattle.net_normal.specs.Limits.{IsSized, arc_limit, value_limit};
ghost use Rattle.net_inst.specs.Arcs as found;
ghost use Rattle.net_inst.specs.Drafts.{part_form};
ghost use Rattle.net_inst.specs.Fitting.{IsPriced};
ghost use Rattle.net_expr.specs.Indexings.{indexing_in};
ghost use Rattle.net_inst.specs.Instances.{with_coefficients};
ghost use Rattle.net_base.specs.Outcomes.{Updates, and_then, Refines};
ghost use Rattle.net_inst.specs.Parts.{arc_env_of, arc_text_of};
ghost use Rattle.net_inst.specs.Drafts as drafts;

use crate::arc::{ArcEnv, Built, arc_at, parts_of, priced};
use crate::arc_text::ArcText;
use crate::network_names::{NameList, reject_name};
use crate::node_name::Group;
use crate::price::add_phrases;
use net_base::{ErrorCode, Fault};
use net_expr::{Env, Indexing, Row, RowList, Scope, kept_indexing_of};
use net_lex::Token;
use net_linear::{Affine, NumberedNames, objective};
use net_normal::{ARC_LIMIT, InstArc};
use net_sets::HashKey;
use net_tree::{Braces, Expr, Part, Phrase};
use std::alloc::{AllocError, Global};
use std::marker::Model;
use std::mem;

/// The arcs of the declarations so far, in order, and the linear form of the objective.
#[derive(Drop)]
pub(crate) struct ArcDraft<'s> {
    arcs: Vec<Built>,
    form: Affine,
    group: Group<'s>,
}

impl<'s> Model for ArcDraft<'s> {
    ghost use Rattle.std.specs.Prelude.{◌≤◌, length};
    ghost use Rattle.net_normal.specs.Limits.{arc_limit};
    ghost use Rattle.net_inst.specs.Arcs.{BuiltArcs};

    ghost Value = { BuiltArcs };

    ghost view = { λ d. record { arcs = d.arcs.items; form = d.form; group = d.group } };

    ghost invariant = { λ d. length d.arcs.items ≤ arc_limit };
}

impl<'s> ArcDraft<'s> {
    /// Creates a draft without arcs. The hash key has to be that of the run.
    pub(crate) fn new(alloc: Global, hash_key: HashKey) -> ArcDraft<'s>
        ensures { result ≡ found.no_arcs }
    {
        ArcDraft {
            arcs: Vec::new(alloc),
            form: Affine::zero(alloc),
            group: Group::new(alloc, hash_key),
        }
    }

    /// Adds the arc at a key.
    fn add_arc(
        &mut self,
        alloc: Global,
        text: &ArcText<'_, 's>,
        count: &Option<u8>,
        row: &Row<'s>,
    ) -> Result<(), Fault>
        ensures value { Updates (found.next_arc (arc_env_of text.now.visible) (arc_text_of text.now) count.now row.now self.old) result self.new }
        ensures count { OnOk result (length self.new.arcs ≡ length self.old.arcs + 1) }
    {
        let arc = self.arcs.len();
        if arc < ARC_LIMIT {
            let new = arc_at(alloc, text, count, row)?;
            add_phrases(
                alloc,
                &text.visible,
                &row.scope,
                arc,
                text.phrases,
                &mut self.form,
            )?;
            self.arcs.push(new)?;
            Ok(())
        } else {
            Err(reject_name(alloc, ErrorCode::TooManyArcs, text.name)?)
        }
    }

    /// Adds an arc for each key.
    fn add_rows(
        &mut self,
        alloc: Global,
        text: &ArcText<'_, 's>,
        count: &Option<u8>,
        rows: &RowList<'s>,
    ) -> Result<(), Fault>
        ensures value { Updates (found.arcs_at (arc_env_of text.now.visible) (arc_text_of text.now) count.now rows.now self.old) result self.new }
        ensures few { OnOk result (length rows.now ≤ length self.new.arcs) }
    {
        for place in 0..rows.len() {
            let row = rows.row(alloc, place)?;
            self.add_arc(alloc, text, count, row.get())?;
        }
        Ok(())
    }

    /// Declares the name of arcs that are already added. Fails only if memory runs out.
    fn declare_name(
        &mut self,
        alloc: Global,
        name: &Token<'s>,
        first: u32,
        indexing: Indexing<'s>,
    ) -> Result<(), AllocError>
        requires { length indexing.rows ≤ length self.now.arcs }
        ensures { OnOk result (self.new ≡ found.named_arcs name.now.text first indexing.entry self.old) }
    {
        self.group.declare(alloc, &name.text, first, indexing)
    }

    /// Adds the arcs of a declaration at its keys.
    fn declare_at(
        &mut self,
        alloc: Global,
        text: &ArcText<'_, 's>,
        indexing: Indexing<'s>,
    ) -> Result<(), Fault>
        ensures { Updates (found.arcs_by (arc_env_of text.now.visible) (arc_text_of text.now) self.old indexing.entry) result self.new }
    {
        let first = self.len() as u32;
        self.add_rows(alloc, text, &indexing.count, &indexing.rows)?;
        self.declare_name(alloc, text.name, first, indexing)?;
        Ok(())
    }

    /// Adds the arcs of a declaration that has all required phrases.
    fn declare_said(
        &mut self,
        alloc: Global,
        text: &ArcText<'_, 's>,
        braces: &Option<Braces<'s>>,
    ) -> Result<(), Fault>
        ensures { Updates (and_then (indexing_in text.now.visible.env.now (indexing_of braces.now)) (found.arcs_by (arc_env_of text.now.visible)
            (arc_text_of text.now) self.old)) result self.new }
    {
        let indexing = kept_indexing_of(alloc, text.visible.env, braces)?;
        self.declare_at(alloc, text, indexing)
    }

    /// Adds the arcs of a declaration. A missing phrase is reported first, even if there are no
    /// keys.
    pub(crate) fn declare(
        &mut self,
        alloc: Global,
        visible: &ArcEnv<'_, 's>,
        name: &Token<'s>,
        braces: &Option<Braces<'s>>,
        phrases: &[Phrase<'s>],
    ) -> Result<(), Fault>
        ensures { Updates (found.with_arcs (arc_env_of visible.now) name.now (indexing_of braces.now) (map phrase_of phrases.now) self.old) result self.new }
    {
        let parts = parts_of(alloc, name, phrases)?;
        let text = ArcText::new(*visible, name, parts, phrases);
        self.declare_said(alloc, &text, braces)
    }

    /// Returns the number of arcs.
    pub(crate) fn len(&self) -> usize
        ensures value { result ≡ length self.now.arcs }
        ensures few { result ≤ arc_limit }
    {
        self.arcs.len()
    }

    /// Initializes the linear form of the objective with its own expression.
    pub(crate) fn begin_form(
        &mut self,
        alloc: Global,
        env: &Env<'_, 's>,
        part: &Option<Part<'s>>,
    ) -> Result<(), Fault>
        ensures { Updates (and_then (part_form self.old.group.numbers env.now (option_part part.now)) (λ f. Ok (found.formed self.old f))) result self.new }
    {
        self.form = part_form(alloc, &self.group.numbers, env, part)?;
        Ok(())
    }

    /// Returns the arcs with their coefficients in the objective. Fails only if memory runs out.
    pub(crate) fn priced(&self, alloc: Global) -> Result<Vec<InstArc>, AllocError>
        ensures value { IfOk result (λ all. all.items ≡ with_coefficients self.now.form.products 0 self.now.arcs) }
        ensures size { IfOk result (λ all. All IsPriced all.items) }
        ensures few { IfOk result (λ all. length all.items ≤ arc_limit) }
    {
        priced(alloc, &self.form, self.arcs.as_slice())
    }

    /// Returns the constant term of the objective.
    pub(crate) fn constant(&self) -> i64
        ensures value { result ≡ self.now.form.constant }
        ensures size { IsSized value_limit result }
    {
        self.form.constant()
    }

    /// Moves the names of the arcs out of the draft.
    pub(crate) fn take_names(&mut self, alloc: Global) -> NameList<'s>
        ensures { result ≡ self.old.group.list }
    {
        mem::replace(&mut self.group.list, NameList::new(alloc))
    }
}

/// Returns the linear form of an objective's expression.
fn form_of<'s>(
    alloc: Global,
    arcs: &NumberedNames<'s>,
    env: &Env<'_, 's>,
    expr: &Expr<'s>,
) -> Result<Affine, Fault>
    ensures { Refines (drafts.tree_form arcs.now env.now (tree expr.now)) result }
{
    let scope = Scope::new(alloc);
    objective(alloc, arcs, env, &scope, expr)
}

/// Returns the linear form of the objective's own expression, over the arcs declared before it.
#[tactic(auto, using(net_tree::proofs::Views::views))]
pub(crate) fn part_form<'s>(
    alloc: Global,
    arcs: &NumberedNames<'s>,
    env: &Env<'_, 's>,
    part: &Option<Part<'s>>,
) -> Result<Affine, Fault>
    ensures { Refines (drafts.part_form arcs.now env.now (option_part part.now)) result }
{
    match part {
        None => Ok(Affine::zero(alloc)),
        Some(part) => form_of(alloc, arcs, env, &part.value),
    }
}
