//! Translating an instance into its problem and its link.

ghost use Rattle.std.specs.Prelude.{◌≡◌, ◌↔◌, All, IfOk, pos};
ghost use Rattle.std.specs.List.{AllZip};
ghost use Rattle.net_normal.specs.NormalForm.{IsFormIn, IsNormalForm, IsLeanForm};
ghost use Rattle.net_normal.specs.Correspondence.{CorrespondsOneToOne};
ghost use Rattle.net_normal.specs.Laws.{AreAlike};

use crate::OutOfMemory;
use crate::arc_part::ArcPart;
use crate::instance::Instance;
use crate::node_part::NodePart;
use crate::problem::{Link, Problem};
use crate::profile::Profile;
use std::alloc::Global;

/// Translates a network into its normal form: a minimum-cost flow problem whose feasible flows
/// correspond one to one to the network's feasible assignments, and the link that maps them back.
///
/// Fails only if memory runs out.
pub fn normalise(alloc: Global, instance: &Instance) -> Result<(Problem, Link), OutOfMemory>
    ensures value { IfOk result (λ made. IsNormalForm instance.now made.0 made.1) }
    ensures corresponds { IfOk result (λ made. CorrespondsOneToOne instance.now made.0 made.1) }
{
    form(alloc, Profile::Plain, instance)
}

/// Translates a network into its lean form, for solvers that accept no lower bounds. All lower
/// bounds are 0, and an arc whose bounds are equal has no arc in the problem, since its value is
/// known.
///
/// The lean form has the same feasible assignments, with the same objective values, as the normal
/// form. Fails only if memory runs out.
pub fn normalise_lean(alloc: Global, instance: &Instance) -> Result<(Problem, Link), OutOfMemory>
    ensures value { IfOk result (λ made. IsLeanForm instance.now made.0 made.1) }
    ensures corresponds { IfOk result (λ made. CorrespondsOneToOne instance.now made.0 made.1) }
    ensures no_low { IfOk result (λ made. All (λ arc. arc.low ≡ pos 0) made.0.arcs.items) }
    ensures left_out { IfOk result (λ made. AllZip (λ arc number. (number ≡ 0) ↔ (arc.lower ≡ arc.upper)) instance.now.arcs.items made.1.numbers.items) }
{
    form(alloc, Profile::Lean, instance)
}

/// Translates a network into its form in a profile. Fails only if memory runs out.
fn form(
    alloc: Global,
    profile: Profile,
    instance: &Instance,
) -> Result<(Problem, Link), OutOfMemory>
    ensures value { IfOk result (λ made. IsFormIn profile instance.now made.0 made.1) }
    ensures corresponds { IfOk result (λ made. CorrespondsOneToOne instance.now made.0 made.1) }
{
    let ArcPart {
        arcs,
        numbers,
        offsets,
        constant,
        sums,
    } = ArcPart::of(alloc, profile, instance)?;
    let NodePart { supplies, arcs, .. } = NodePart::of(alloc, instance, arcs, &sums)?;
    let link = Link {
        numbers,
        offsets,
        constant,
        sense: instance.sense,
    };
    Ok((Problem { supplies, arcs }, link))
}

/// Theorem: the normal form and the lean form of a network have the same feasible assignments, with
/// the same objective values.
pub fn forms_are_alike()
    ensures value { AreAlike }
{}
