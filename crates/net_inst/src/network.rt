//! Networks of models.

ghost use Rattle.std.specs.Prelude.{◌≡◌, All, None, Ok, Err, IfOk, length, map};
ghost use Rattle.std.specs.Option.{option_copied};
ghost use Rattle.net_tree.specs.View.{declaration_of, model as declared_in};
ghost use Rattle.net_inst.specs.Drafts as drafts;
ghost use Rattle.net_inst.specs.Fitting.{IsBuiltOf};
ghost use Rattle.net_inst.specs.Instances as found;
ghost use Rattle.net_inst.specs.Instances.{AnswersNetwork};
ghost use Rattle.net_base.specs.Outcomes.{Updates};

use crate::arc_draft::ArcDraft;
use crate::draft::{ChosenObjective, Draft};
use crate::network_names::{Names, reject};
use crate::node::NodeDraft;
use net_base::{Detail, ErrorCode, Excerpt, Fault, Span};
use net_expr::World;
use net_lex::Token;
use net_normal::Instance;
use net_tree::{Decl, Model};
use std::alloc::{AllocError, Global};

/// A network of numbered nodes and arcs, and their names in the model.
#[derive(Drop)]
pub struct Named<'s> {
    pub instance: Instance,
    pub names: Names<'s>,
}

/// Returns the last token of a declaration.
fn semicolon<'a, 's>(declaration: &'a Decl<'s>) -> &'a Token<'s>
    ensures { result.now ≡ found.semicolon (declaration_of declaration.entry.now) }
{
    match declaration {
        Decl::Set(_, _, _, end) => end,
        Decl::Param(_, _, _, _, end) => end,
        Decl::Check(_, _, _, _, end) => end,
        Decl::Node(_, _, _, _, end) => end,
        Decl::Arc(_, _, _, _, end) => end,
        Decl::Objective(_, _, _, end) => end,
    }
}

/// Returns the end of the declarations.
fn end_of(declarations: &[Decl<'_>]) -> usize
    ensures { result ≡ found.end_of 0 (map declaration_of declarations.now) }
{
    let mut end = 0;
    for declaration in declarations {
        end = semicolon(declaration).span.end;
    }
    end
}

/// Adds declarations in order to a draft.
fn draw<'s>(
    alloc: Global,
    wanted: &Option<&str>,
    world: &World<'s>,
    declarations: &[Decl<'s>],
    draft: &mut Draft<'s>,
) -> Result<(), Fault>
    requires { draft.now.known ≡ 0 }
    ensures { Updates (drafts.draw (option_copied wanted.now) world.now (map declaration_of declarations.now) draft.old) result draft.new }
{
    for declaration in declarations {
        draft.declare(alloc, wanted, world, declaration)?;
    }
    Ok(())
}

/// Builds the network of these nodes and arcs; moves them out of their drafts.
fn with_names<'s>(
    alloc: Global,
    nodes: &mut NodeDraft<'s>,
    arcs: &mut ArcDraft<'s>,
    goal: &ChosenObjective<'s>,
) -> Result<Named<'s>, Fault>
    requires { All (IsBuiltOf (length nodes.now.ranges)) arcs.now.arcs }
    ensures { AnswersNetwork (Ok (found.network_of nodes.old arcs.old goal.now)) result }
{
    let priced = arcs.priced(alloc)?;
    let ranges = nodes.take_ranges(alloc);
    Ok(Named {
        instance: Instance {
            nodes: ranges,
            arcs: priced,
            sense: goal.sense,
            constant: arcs.constant(),
        },
        names: Names {
            objective: goal.name.copied(),
            nodes: nodes.take_names(alloc),
            arcs: arcs.take_names(alloc),
        },
    })
}

/// Builds the error for a missing objective: none at all, or none with the given name. Fails only
/// if memory runs out.
fn without_goal(
    alloc: Global,
    wanted: &Option<&str>,
    at: Span,
    has_objective: bool,
) -> Result<Fault, AllocError>
    ensures { IfOk result (λ f. AnswersNetwork (found.without_goal (option_copied wanted.now) at has_objective) (Err f)) }
{
    if !has_objective {
        return Ok(reject(ErrorCode::NoObjective, at, Detail::Nothing));
    }
    let name = match wanted {
        Some(name) => Excerpt::new(name),
        None => Excerpt::new(""),
    };
    let detail = Detail::of_name(alloc, &name)?;
    Ok(reject(ErrorCode::NoSuchObjective, at, detail))
}

/// Builds the network after all declarations.
fn finished<'s>(
    alloc: Global,
    wanted: &Option<&str>,
    end: usize,
    draft: &mut Draft<'s>,
) -> Result<Named<'s>, Fault>
    requires { All (IsBuiltOf (length draft.now.nodes.ranges)) draft.now.arcs.arcs }
    ensures { AnswersNetwork (found.finished (option_copied wanted.now) (found.point end) draft.old draft.old.goal) result }
{
    match &draft.goal {
        Some(goal) => with_names(alloc, &mut draft.nodes, &mut draft.arcs, goal),
        None => {
            let at = Span { start: end, end };
            Err(without_goal(alloc, wanted, at, draft.has_objective)?)
        }
    }
}

/// Builds the network of declarations, starting from an empty draft.
#[tactic(auto, unfolding(crate::specs::Instances::network))]
fn network_on<'s>(
    alloc: Global,
    wanted: &Option<&str>,
    world: &World<'s>,
    declarations: &[Decl<'s>],
    draft: &mut Draft<'s>,
) -> Result<Named<'s>, Fault>
    requires { draft.now ≡ drafts.nothing }
    ensures { AnswersNetwork (found.network (option_copied wanted.now) world.now (map declaration_of declarations.now)) result }
{
    draw(alloc, wanted, world, declarations, draft)?;
    finished(alloc, wanted, end_of(declarations), draft)
}

/// Returns the network of a model in its world.
fn network_of<'s>(
    alloc: Global,
    wanted: &Option<&str>,
    world: &World<'s>,
    model: &Model<'s>,
) -> Result<Named<'s>, Fault>
    ensures { AnswersNetwork (found.network (option_copied wanted.now) world.now (declared_in model.now)) result }
{
    let mut draft = Draft::new(alloc, world.hash_key());
    let declarations = model.declarations.as_slice();
    network_on(alloc, wanted, world, declarations, &mut draft)
}

/// Returns the network of a model in its world, with the objective of the given name, or the
/// model's only objective if no name is given. Nodes and arcs are numbered in the order of their
/// declarations, and within a declaration in the order of its keys.
///
/// Returns the first error in that order: E50 to E55, E58 to E60 and errors of values for each
/// declaration in turn, and E57 at a second objective if no name is given. After all declarations,
/// returns E56 if the model has no objective, and E61 if no objective has the given name. Does not
/// evaluate other objectives.
pub fn instantiate_for<'s>(
    alloc: Global,
    model: &Model<'s>,
    world: &World<'s>,
    objective: Option<&str>,
) -> Result<Named<'s>, Fault>
    ensures { AnswersNetwork (found.network (option_copied objective.entry) world.now (declared_in model.now)) result }
{
    network_of(alloc, &objective, world, model)
}

/// Returns the network of a model in its world with the model's only objective, like
/// [`instantiate_for`] without a name.
pub fn instantiate<'s>(
    alloc: Global,
    model: &Model<'s>,
    world: &World<'s>,
) -> Result<Named<'s>, Fault>
    ensures { AnswersNetwork (found.network None world.now (declared_in model.now)) result }
{
    instantiate_for(alloc, model, world, None)
}
