//! The network of a model with its data.

ghost use Rattle.std.specs.Prelude.{[], List, ℕ, IfOk, IfErr};
ghost use Rattle.std.specs.Option.{option_copied};
ghost use Rattle.net_tree.specs.View as view;
ghost use Rattle.net_inst.specs.Instances.{seen_as};
ghost use Rattle.net_bind.specs.Binding.{AreNew};
ghost use Rattle.net_driver.specs.Reading.{IsModel, IsNetworkOf};
ghost use Rattle.net_driver.specs.FirstFaults.{IsStop};

use net_base::Fault;
use net_bind::bind;
use net_data::parse_data;
use net_inst::{Named, instantiate_for};
use net_lex::{lex_data, lex_model};
use net_model::{CheckedModel, free_model, parse_model};
use net_sets::HashKey;
use std::alloc::Global;

/// Returns the network of a checked model and a data file.
fn network_of<'s>(
    alloc: Global,
    declared: &CheckedModel<'s>,
    data: &'s [u8],
    objective: Option<&str>,
) -> Result<Named<'s>, Fault>
    requires { AreNew [] (view.model declared.now) }
    ensures ok { (text : List ℕ) → IsModel text (view.model declared.now) → IfOk result (λ n. IsNetworkOf (option_copied objective.entry) text
        «data».entry.now (seen_as n)) }
    ensures rejected { (text : List ℕ) → IsModel text (view.model declared.now) → IfErr result (IsStop (option_copied objective.entry) text «data».entry.now) }
{
    let model = declared.model();
    // The tokens and statements of the data are freed before the network is built.
    let world = {
        let tokens = lex_data(alloc, data)?;
        let tables = parse_data(alloc, &tokens.words())?;
        bind(alloc, model, declared.hints(), &tables)?
    };
    instantiate_for(alloc, model, &world, objective)
}

/// Returns the key of a run: the given one, or one that is derived from the texts.
fn key_of(key: Option<HashKey>, model: &[u8], data: &[u8]) -> HashKey {
    match key {
        Some(key) => key,
        None => HashKey::of_texts(model, data),
    }
}

/// Returns the network of a model with its data, and its names, for the objective of the given name
/// or the only one. The key is that of the hashes (`Options`).
///
/// Returns the first error in this order: tokens, grammar and names of the model; tokens and
/// statements of the data; evaluation with the checks; the network.
pub fn read_network<'s>(
    alloc: Global,
    model: &'s [u8],
    data: &'s [u8],
    objective: Option<&str>,
    key: Option<HashKey>,
) -> Result<Named<'s>, Fault>
    ensures ok { IfOk result (λ n. IsNetworkOf (option_copied objective.entry) model.entry.now «data».entry.now (seen_as n)) }
    ensures rejected { IfErr result (IsStop (option_copied objective.entry) model.entry.now «data».entry.now) }
{
    // The tokens of the model are freed before those of the data are made.
    let declared = {
        let tokens = lex_model(alloc, model)?;
        parse_model(alloc, key_of(key, model, data), &tokens)?
    };
    let read = network_of(alloc, &declared, data, objective);
    free_model(declared.into_model());
    read
}
