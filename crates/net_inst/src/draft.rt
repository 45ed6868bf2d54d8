//! Processing the declarations of a model, one after the other.

ghost use Rattle.std.specs.Prelude.{◌≡◌, ◌+◌, ◌<◌, ◌≤◌, ◌^◌, map, OnOk};
ghost use Rattle.std.specs.Option.{option_copied};
ghost use Rattle.net_tree.specs.View.{declaration_of, indexing_of, condition_of, phrase_of, option_part};
ghost use Rattle.net_inst.specs.Drafts as found;
ghost use Rattle.net_base.specs.Outcomes.{Refines, Updates};

use crate::arc::ArcEnv;
use crate::arc_draft::ArcDraft;
use crate::network_names::reject_name;
use crate::node::NodeDraft;
use net_base::{ErrorCode, Excerpt, Fault};
use net_expr::{Env, World};
use net_lex::Token;
use net_normal::Sense;
use net_sets::HashKey;
use net_tree::{Braces, Decl, NetCond, Part, Phrase};
use std::alloc::Global;

/// The parts of a declaration of an objective.
#[derive(Clone, Copy)]
struct ObjectiveText<'a, 's> {
    /// `minimize` or `maximize`.
    word: &'a Token<'s>,
    /// The declared name.
    name: &'a Token<'s>,
    part: &'a Option<Part<'s>>,
}

/// The result of the declarations so far. Its drop is one call.
pub(crate) struct Draft<'s> {
    /// The number of sets and parameters that they declare.
    pub(crate) known: usize,
    pub(crate) nodes: NodeDraft<'s>,
    pub(crate) arcs: ArcDraft<'s>,
    /// The chosen objective.
    pub(crate) goal: Option<ChosenObjective<'s>>,
    /// Whether there is any objective.
    pub(crate) has_objective: bool,
}

impl<'s> Drop for Draft<'s> {
    fn drop(self) {
        let Draft {
            known: _known,
            nodes: _nodes,
            arcs: _arcs,
            goal: _goal,
            has_objective: _aims,
        } = self;
    }
}

#[tactic(auto, unfolding(crate::specs::Drafts::sense_of))]
fn sense_of(word: &Token<'_>) -> Sense
    ensures { result ≡ found.sense_of word.now }
{
    match word.text.as_str() {
        "minimize" => Sense::Minimise,
        _ => Sense::Maximise,
    }
}

/// Returns whether an objective is the chosen one.
fn is_chosen<'s>(
    alloc: Global,
    wanted: &Option<&str>,
    goal: &Option<ChosenObjective<'s>>,
    name: &Token<'s>,
) -> Result<bool, Fault>
    ensures { Refines (found.is_chosen (option_copied wanted.now) goal.now name.now) result }
{
    match wanted {
        Some(wanted) => Ok(*wanted == name.text.as_str()),
        None => match goal {
            None => Ok(true),
            Some(_) => Err(reject_name(alloc, ErrorCode::TwoObjectives, name)?),
        },
    }
}

impl<'s> Draft<'s> {
    /// Creates an empty draft. The hash key has to be that of the run.
    pub(crate) fn new(alloc: Global, hash_key: HashKey) -> Draft<'s>
        ensures { result ≡ found.nothing }
    {
        Draft {
            known: 0,
            nodes: NodeDraft::new(alloc, hash_key),
            arcs: ArcDraft::new(alloc, hash_key),
            goal: None,
            has_objective: false,
        }
    }

    /// Makes an objective the chosen one.
    fn choose(
        &mut self,
        alloc: Global,
        env: &Env<'_, 's>,
        text: &ObjectiveText<'_, 's>,
    ) -> Result<(), Fault>
        ensures { Updates (found.with_goal env.now text.now.word.now text.now.name.now (option_part text.now.part.now) self.old) result self.new }
    {
        self.arcs.begin_form(alloc, env, text.part)?;
        self.goal = Some(ChosenObjective {
            name: text.name.text.copied(),
            sense: sense_of(text.word),
        });
        self.has_objective = true;
        Ok(())
    }

    /// Adds an objective.
    fn add_objective(
        &mut self,
        alloc: Global,
        env: &Env<'_, 's>,
        wanted: &Option<&str>,
        text: &ObjectiveText<'_, 's>,
    ) -> Result<(), Fault>
        ensures { Updates (found.with_objective (option_copied wanted.now) env.now text.now.word.now text.now.name.now
            (option_part text.now.part.now) self.old) result self.new }
    {
        if is_chosen(alloc, wanted, &self.goal, text.name)? {
            self.choose(alloc, env, text)
        } else {
            self.has_objective = true;
            Ok(())
        }
    }

    /// Adds the nodes of a declaration.
    fn add_nodes(
        &mut self,
        alloc: Global,
        env: &Env<'_, 's>,
        name: &Token<'s>,
        braces: &Option<Braces<'s>>,
        condition: &NetCond<'s>,
    ) -> Result<(), Fault>
        ensures { Updates (found.with_node_declaration env.now name.now (indexing_of braces.now) (condition_of condition.now) self.old) result self.new }
    {
        self.nodes.declare(alloc, env, name, braces, condition)
    }

    /// Adds the arcs of a declaration.
    fn add_arcs(
        &mut self,
        alloc: Global,
        env: &Env<'_, 's>,
        name: &Token<'s>,
        braces: &Option<Braces<'s>>,
        phrases: &[Phrase<'s>],
    ) -> Result<(), Fault>
        ensures { Updates (found.with_arc_declaration env.now name.now (indexing_of braces.now) (map phrase_of phrases.now) self.old) result self.new }
    {
        let visible = ArcEnv {
            env,
            nodes: &self.nodes,
            goal: &self.goal,
        };
        self.arcs.declare(alloc, &visible, name, braces, phrases)
    }

    /// Counts a set or a parameter, which is visible from here on.
    fn count_known(&mut self)
        requires { self.now.known < 2 ^ 63 }
        ensures { self.new ≡ found.known_more self.old }
    {
        self.known += 1;
    }

    /// Adds a declaration.
    pub(crate) fn declare(
        &mut self,
        alloc: Global,
        wanted: &Option<&str>,
        world: &World<'s>,
        declaration: &Decl<'s>,
    ) -> Result<(), Fault>
        requires { self.now.known < 2 ^ 63 }
        ensures value { Updates (found.declare (option_copied wanted.now) world.now (declaration_of declaration.now) self.old) result self.new }
        ensures known { OnOk result (self.new.known ≤ self.old.known + 1) }
    {
        let env = Env::new(world, self.known);
        match declaration {
            Decl::Set(_, _, _, _) | Decl::Param(_, _, _, _, _) => {
                self.count_known();
                Ok(())
            }
            Decl::Check(_, _, _, _, _) => Ok(()),
            Decl::Node(_, name, braces, condition, _) => {
                self.add_nodes(alloc, &env, name, braces, condition)
            }
            Decl::Arc(_, name, braces, phrases, _) => {
                self.add_arcs(alloc, &env, name, braces, phrases.as_slice())
            }
            Decl::Objective(word, name, part, _) => {
                let text = ObjectiveText { word, name, part };
                self.add_objective(alloc, &env, wanted, &text)
            }
        }
    }
}

/// The chosen objective.
#[derive(Drop)]
pub(crate) struct ChosenObjective<'s> {
    pub(crate) name: Excerpt<'s>,
    pub(crate) sense: Sense,
}
