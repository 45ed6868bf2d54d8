//! The arcs of declarations.

ghost use Rattle.std.specs.Prelude.{◌≡◌, All, IfOk, option_map, map};
ghost use Rattle.std.specs.Option.{option_copied};
ghost use Rattle.net_tree.specs.View.{tree, phrase_of};
ghost use Rattle.net_expr.specs.Worlds.{reference};
ghost use Rattle.net_inst.specs.Arcs as found;
ghost use Rattle.net_inst.specs.Fitting.{IsPriced};
ghost use Rattle.net_inst.specs.Instances as network;
ghost use Rattle.net_base.specs.Outcomes.{Refines, RefinesAs};
ghost use Rattle.net_inst.specs.Nodes.{end_keys};
ghost use Rattle.net_inst.specs.Parts.{arc_text_of, parts_seen};
ghost use Rattle.net_inst.specs.Phrases as saying;

use crate::arc_text::ArcText;
use crate::draft::ChosenObjective;
use crate::network_names::{reject, reject_name};
use crate::node::NodeDraft;
use crate::node_name::{end_keys, node_named};
use crate::price::number_of;
use net_base::{ErrorCode, Fault};
use net_expr::{Env, Row, Scope, reported_reference};
use net_lex::Token;
use net_linear::{Affine, KeyNumbers};
use net_normal::InstArc;
use net_tree::{Expr, Phrase, PhraseWord, phrase_value};
use std::alloc::{AllocError, Global};

/// The arc at a key without its coefficient: its bounds, and the numbers of its nodes.
#[derive(Clone, Copy)]
pub(crate) struct Built {
    pub(crate) lower: i64,
    pub(crate) upper: i64,
    pub(crate) tail: Option<u32>,
    pub(crate) head: Option<u32>,
}

impl<'a, 's> ArcText<'a, 's> {
    /// Creates the declaration from its parts, and looks up the nodes that its ends name.
    pub(crate) fn new(
        visible: ArcEnv<'a, 's>,
        name: &'a Token<'s>,
        parts: ArcParts<'a, 's>,
        phrases: &'a [Phrase<'s>],
    ) -> ArcText<'a, 's>
        ensures visible { result.visible ≡ visible.entry }
        ensures text { arc_text_of result ≡ found.arc_text name.entry.now (parts_seen parts.entry) (map phrase_of phrases.entry.now) }
    {
        let tail_keys = end_keys(visible.nodes, &parts.tail);
        let head_keys = end_keys(visible.nodes, &parts.head);
        ArcText {
            visible,
            name,
            parts,
            phrases,
            tail_keys,
            head_keys,
        }
    }
}

/// Returns the node at an end, given the keys of the declaration that it names; `None` if the end is
/// not given.
fn end_at<'s>(
    alloc: Global,
    visible: &ArcEnv<'_, 's>,
    scope: &Scope<'s>,
    end: &Option<&Expr<'s>>,
    keys: Option<&KeyNumbers<'s>>,
) -> Result<Option<u32>, Fault>
    requires { option_copied keys ≡ end_keys visible.now.nodes.now (option_map tree (option_copied end.now)) }
    ensures { Refines (found.end_at visible.now.nodes.now visible.now.env.now scope.now (option_map tree (option_copied end.now))) result }
{
    match end {
        None => Ok(None),
        Some(expr) => {
            let number = node_named(alloc, visible.env, scope, visible.nodes, expr, keys)?;
            Ok(Some(number))
        }
    }
}

/// Builds an arc with these bounds and its ends.
fn with_ends<'s>(
    alloc: Global,
    text: &ArcText<'_, 's>,
    scope: &Scope<'s>,
    lower: i64,
    upper: i64,
) -> Result<Built, Fault>
    ensures { Refines (found.with_ends text.now.visible.nodes.now text.now.visible.env.now scope.now (parts_seen text.now.parts) lower upper) result }
{
    let ArcParts { tail, head, .. } = &text.parts;
    let tail = end_at(alloc, &text.visible, scope, tail, text.tail_keys)?;
    let head = end_at(alloc, &text.visible, scope, head, text.head_keys)?;
    Ok(Built {
        lower,
        upper,
        tail,
        head,
    })
}

/// Returns the arc at a key: evaluates first its bounds, then its ends.
pub(crate) fn arc_at<'s>(
    alloc: Global,
    text: &ArcText<'_, 's>,
    count: &Option<u8>,
    row: &Row<'s>,
) -> Result<Built, Fault>
    ensures { Refines (found.built text.now.visible.nodes.now text.now.visible.env.now text.now.name.now count.now (parts_seen text.now.parts) row.now) result }
{
    let scope = &row.scope;
    let env = text.visible.env;
    let lower = number_of(alloc, env, scope, text.parts.lower)?;
    let upper = number_of(alloc, env, scope, text.parts.upper)?;
    if upper < lower {
        let detail = reported_reference(alloc, &text.name.text, *count, &row.key)?;
        Err(reject(ErrorCode::ArcCrossed, text.name.span, detail))
    } else {
        with_ends(alloc, text, scope, lower, upper)
    }
}

/// Returns the arc with its coefficient.
fn with_coefficient(arc: &Built, coefficient: &i64) -> InstArc
    ensures { result ≡ network.with_coefficient arc.now coefficient.now }
{
    InstArc {
        lower: arc.lower,
        upper: arc.upper,
        coefficient: *coefficient,
        tail: arc.tail,
        head: arc.head,
    }
}

/// Returns the arcs with their coefficients in the objective. Fails only if memory runs out.
pub(crate) fn priced(
    alloc: Global,
    form: &Affine,
    arcs: &[Built],
) -> Result<Vec<InstArc>, AllocError>
    ensures value { IfOk result (λ all. all.items ≡ network.with_coefficients form.now.products 0 arcs.now) }
    ensures size { IfOk result (λ all. All IsPriced all.items) }
{
    let mut all = Vec::new(alloc);
    for arc in arcs {
        let coefficient = form.coefficient(all.len());
        let whole = with_coefficient(arc, &coefficient);
        all.push(whole)?;
    }
    Ok(all)
}

/// What is visible to a declaration of arcs: what is declared before it.
#[derive(Clone, Copy)]
pub(crate) struct ArcEnv<'a, 's> {
    /// The sets and parameters.
    pub(crate) env: &'a Env<'a, 's>,
    pub(crate) nodes: &'a NodeDraft<'s>,
    /// The chosen objective.
    pub(crate) goal: &'a Option<ChosenObjective<'s>>,
}

/// The bounds of an arc, and its ends if given, from its phrases.
#[derive(Clone, Copy)]
pub(crate) struct ArcParts<'a, 's> {
    pub(crate) lower: &'a Expr<'s>,
    pub(crate) upper: &'a Expr<'s>,
    pub(crate) tail: Option<&'a Expr<'s>>,
    pub(crate) head: Option<&'a Expr<'s>>,
}

/// Returns the parts of an arc; both bounds and at least one end are required.
fn parts_from<'a, 's>(
    alloc: Global,
    name: &Token<'s>,
    lower: Option<&'a Expr<'s>>,
    upper: Option<&'a Expr<'s>>,
    tail: Option<&'a Expr<'s>>,
    head: Option<&'a Expr<'s>>,
) -> Result<ArcParts<'a, 's>, Fault>
    ensures { RefinesAs parts_seen (saying.parts_from name.now (option_map tree (option_copied lower.entry)) (option_map tree
        (option_copied upper.entry)) (option_map tree (option_copied tail.entry)) (option_map tree (option_copied head.entry))) result }
{
    match (lower, upper, tail, head) {
        (None, _, _, _) => Err(reject_name(alloc, ErrorCode::NoLower, name)?),
        (Some(_), None, _, _) => Err(reject_name(alloc, ErrorCode::NoUpper, name)?),
        (Some(_), Some(_), None, None) => Err(reject_name(alloc, ErrorCode::NoEnds, name)?),
        (Some(lower), Some(upper), tail, head) => Ok(ArcParts {
            lower,
            upper,
            tail,
            head,
        }),
    }
}

/// Returns the parts of an arc from its phrases; the first missing one is reported at the declared
/// name.
pub(crate) fn parts_of<'a, 's>(
    alloc: Global,
    name: &Token<'s>,
    phrases: &'a [Phrase<'s>],
) -> Result<ArcParts<'a, 's>, Fault>
    ensures { RefinesAs parts_seen (saying.parts_of name.now (map phrase_of phrases.entry.now)) result }
{
    let lower = phrase_value(PhraseWord::AtLeast, phrases);
    let upper = phrase_value(PhraseWord::AtMost, phrases);
    let tail = phrase_value(PhraseWord::From, phrases);
    let head = phrase_value(PhraseWord::To, phrases);
    parts_from(alloc, name, lower, upper, tail, head)
}
