//! A declaration of arcs with the nodes that its ends name.

ghost use Rattle.std.specs.Prelude.{◌≡◌, option_map};
ghost use Rattle.std.specs.Option.{option_copied};
ghost use Rattle.net_tree.specs.View.{tree};
ghost use Rattle.net_inst.specs.Nodes.{end_keys};

use crate::arc::{ArcEnv, ArcParts};
use net_lex::Token;
use net_linear::KeyNumbers;
use net_tree::Phrase;

/// A declaration of arcs, with what is visible to it. The declarations of the nodes at both ends are
/// found once for all arcs.
#[derive(Clone, Copy)]
pub(crate) struct ArcText<'a, 's> {
    pub(crate) visible: ArcEnv<'a, 's>,
    /// The declared name.
    pub(crate) name: &'a Token<'s>,
    pub(crate) parts: ArcParts<'a, 's>,
    pub(crate) phrases: &'a [Phrase<'s>],
    /// The keys of the node declaration that the `from` end names, if any.
    pub(crate) tail_keys: Option<&'a KeyNumbers<'s>>,
    /// The same for the `to` end.
    pub(crate) head_keys: Option<&'a KeyNumbers<'s>>,
    pub ghost tail_found: { option_copied tail_keys ≡ end_keys visible.nodes.now (option_map tree (option_copied parts.tail)) },
    pub ghost head_found: { option_copied head_keys ≡ end_keys visible.nodes.now (option_map tree (option_copied parts.head)) },
}
