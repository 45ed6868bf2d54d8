//! Compiled models without their text.

ghost use Rattle.std.specs.Prelude.{◌≡◌, ◌||◌, ℕ, List, Option, IfOk, OnOk, OnErr, is_err};
ghost use Rattle.std.specs.Io.KnownBytes.{Appends};
ghost use Rattle.net_io.specs.Ends.{WritesFront};
ghost use Rattle.net_expr.specs.Worlds.{Name};
ghost use Rattle.net_inst.specs.Instances.{seen_as};
ghost use Rattle.net_normal.specs.NormalForm.{IsFormIn};
ghost use Rattle.net_normal.specs.Correspondence.{CorrespondsOneToOne};
ghost use Rattle.net_driver.specs.IsBuilt.{IsBuilt};
ghost use Rattle.net_driver.specs.PricedPlans.{IsBuiltFrom};
ghost use Rattle.net_driver.specs.CompiledNetwork.{written};
ghost use Rattle.net_driver.specs.Made.{SizesAgree, profile_of};
ghost use Rattle.net_driver.specs.Reading.{IsNetworkOf};

use net_dimacs::write_problem_to;
use net_inst::{Named, Names};
use net_io::{Failed, Sink};
use net_normal::{Instance, Link, Problem, normalise, normalise_lean};
use net_report::write_links_to;
use std::alloc::{AllocError, Global};

/// A compiled model without its text.
#[derive(Drop)]
pub(crate) struct CompiledNetwork<'s> {
    pub problem: Problem,
    pub link: Link,
    pub names: Names<'s>,
}

/// Compiles a network to its normal form, or to its lean form if requested. Fails only if memory
/// runs out.
pub(crate) fn compile_network(
    alloc: Global,
    lean: bool,
    network: Named<'_>,
) -> Result<CompiledNetwork<'_>, AllocError>
    ensures { (wanted : Option Name) (m d : List ℕ) → IsNetworkOf wanted m d (seen_as network.entry)
        → IfOk result (λ u. IsBuilt lean wanted m d (written u)) }
{
    match compile_with_instance(alloc, lean, network) {
        Ok((compiled, _instance)) => Ok(compiled),
        Err(fault) => Err(fault),
    }
}

/// Compiles a network as `compile_network` does; returns also the network without names, which
/// prices need.
pub(crate) fn compile_with_instance(
    alloc: Global,
    lean: bool,
    network: Named<'_>,
) -> Result<(CompiledNetwork<'_>, Instance), AllocError>
    ensures { (wanted : Option Name) (m d : List ℕ) → IsNetworkOf wanted m d (seen_as network.entry)
        → IfOk result (λ made. IsBuiltFrom lean wanted m d made.1 (written made.0)) }
{
    let Named { instance, names } = network;
    let (problem, link) = form_of(alloc, lean, &instance)?;
    Ok((
        CompiledNetwork {
            problem,
            link,
            names,
        },
        instance,
    ))
}

/// Returns the normal form of a network, or its lean form if requested. Fails only if memory runs
/// out.
fn form_of(alloc: Global, lean: bool, instance: &Instance) -> Result<(Problem, Link), AllocError>
    ensures value { IfOk result (λ made. IsFormIn (profile_of lean) instance.now made.0 made.1) }
    ensures corresponds { IfOk result (λ made. CorrespondsOneToOne instance.now made.0 made.1) }
{
    if lean {
        normalise_lean(alloc, instance)
    } else {
        normalise(alloc, instance)
    }
}

/// Writes the text of a compiled model: its name map, then the problem's lines. Allocates no memory.
pub(crate) fn write_text<W: Sink>(sink: &mut W, network: &CompiledNetwork<'_>) -> Result<(), Failed>
    requires { SizesAgree (written network.now) }
    ensures ok { OnOk result (Appends (W.taken sink.old) (W.taken sink.new) (written network.now).text.items) }
    ensures err { OnErr result (WritesFront (W.taken sink.old) (W.taken sink.new) (written network.now).text.items) }
    ensures flag { W.failed sink.new ≡ (W.failed sink.old || is_err result) }
{
    write_links_to(&network.names, &network.link, sink)?;
    write_problem_to(&network.problem, sink)?;
    Ok(())
}
