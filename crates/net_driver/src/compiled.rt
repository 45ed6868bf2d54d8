//! Compiling a model with its data to a problem.

ghost use Rattle.std.specs.Prelude.{◌≡◌, None, false, IfOk, IfErr};
ghost use Rattle.std.specs.Option.{option_copied};
ghost use Rattle.net_driver.specs.CompiledNetwork.{written};
ghost use Rattle.net_driver.specs.Made.{SizesAgree};
ghost use Rattle.net_driver.specs.Reporting.{IsRejection};
ghost use Rattle.net_driver.specs.IsBuilt.{IsBuilt};
ghost use Rattle.net_driver.specs.Meaning.{IsCompilation};

use crate::compiled_network::{CompiledNetwork, compile_network, write_text};
use crate::driver_fault::Fault;
use crate::network_reader::read_network;
use crate::reporting::reported;
use net_inst::Names;
use net_io::GrowingSink;
use net_normal::{Link, Problem};
use net_sets::HashKey;
use std::alloc::{AllocError, Global};
use std::marker::Model;

/// Options of the caller.
#[derive(Clone, Copy)]
pub struct Options<'s> {
    /// The name of the objective; `None` if the model has only one.
    pub objective: Option<&'s str>,
    /// Whether the problem is the lean form of the network, without lower bounds and without arcs
    /// whose bounds are equal.
    pub lean: bool,
    /// The key under which names and tuples are hashed; `None` for one that is derived from the
    /// texts. No result depends on it. With a drawn key nobody can write inputs that collide.
    pub key: Option<HashKey>,
}

impl<'s> Options<'s> {
    /// Creates the default options: the model's only objective, and the normal form.
    pub fn new() -> Options<'s>
        ensures objective { option_copied result.objective ≡ None }
        ensures lean { result.lean ≡ false }
    {
        Options {
            objective: None,
            lean: false,
            key: None,
        }
    }
}

/// A compiled model: its problem, the link, its names, and the text of all three.
#[derive(Drop)]
pub struct Compiled<'s> {
    /// The name map, then the problem's lines.
    pub text: CompiledText,
    pub problem: Problem,
    pub link: Link,
    pub names: Names<'s>,
}

/// Compiles a model with its data, with the model's only objective, in the normal form.
pub fn compile<'s>(alloc: Global, model: &'s [u8], data: &'s [u8]) -> Result<Compiled<'s>, Fault>
    ensures value { IfOk result (IsBuilt false None model.entry.now «data».entry.now) }
    ensures means { IfOk result (IsCompilation None model.entry.now «data».entry.now) }
    ensures rejected { IfErr result (IsRejection None model.entry.now «data».entry.now) }
{
    compile_with(alloc, &Options::new(), model, data)
}

/// Compiles a model with its data and options.
///
/// Returns the first error in this order: tokens, grammar and names of the model; tokens and
/// statements of the data; evaluation with the checks; the network. Can also run out of memory.
pub fn compile_with<'s>(
    alloc: Global,
    options: &Options<'_>,
    model: &'s [u8],
    data: &'s [u8],
) -> Result<Compiled<'s>, Fault>
    ensures value { IfOk result (IsBuilt options.now.lean (option_copied options.now.objective) model.entry.now «data».entry.now) }
    ensures means { IfOk result (IsCompilation (option_copied options.now.objective) model.entry.now «data».entry.now) }
    ensures rejected { IfErr result (IsRejection (option_copied options.now.objective) model.entry.now «data».entry.now) }
{
    let read = read_network(alloc, model, data, options.objective, options.key);
    let named = reported(alloc, model, data, read)?;
    let network = compile_network(alloc, options.lean, named)?;
    let compiled = with_text(alloc, network)?;
    Ok(compiled)
}

/// Adds the text to a compiled model: the name map, then the problem's lines. Fails only if memory
/// runs out.
pub(crate) fn with_text(
    alloc: Global,
    network: CompiledNetwork<'_>,
) -> Result<Compiled<'_>, AllocError>
    requires { SizesAgree (written network) }
    ensures { IfOk result (λ compiled. compiled ≡ written network.entry) }
{
    let mut sink = GrowingSink::new(Vec::new(alloc));
    match write_text(&mut sink, &network) {
        Ok(()) => Ok(Compiled {
            text: CompiledText::new(sink.taken),
            problem: network.problem,
            link: network.link,
            names: network.names,
        }),
        Err(_) => Err(AllocError),
    }
}

/// The text of a compiled problem, which contracts see as its bytes, independent of their address.
#[derive(Drop)]
pub struct CompiledText {
    bytes: Vec<u8>,
}

impl Model for CompiledText {
    ghost use Rattle.net_driver.specs.Texts.{Bytes, coded_bytes};

    ghost Value = { Bytes };

    ghost coded = { coded_bytes };

    ghost view = { λ t. record { items = t.bytes.items } };
}

impl CompiledText {
    /// Wraps bytes as a text.
    pub fn new(bytes: Vec<u8>) -> CompiledText
        ensures { result.items ≡ bytes.items }
    {
        CompiledText { bytes }
    }

    /// Returns the bytes of the text.
    pub fn as_bytes(&self) -> &[u8]
        ensures { result.now ≡ self.now.items }
    {
        self.bytes.as_slice()
    }

    /// Returns the vector of the text's bytes; nothing is copied.
    pub fn into_vec(self) -> Vec<u8>
        ensures { result.items ≡ self.items }
    {
        let CompiledText { bytes } = self;
        bytes
    }
}
