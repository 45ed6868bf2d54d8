//! Models whose names are checked.

ghost use Rattle.std.specs.Prelude.{◌≡◌};

use net_names::Hints;
use std::marker::Model;

/// A model whose names are checked, with hints for its evaluation. Contracts see only the model.
#[derive(Drop)]
pub struct CheckedModel<'s> {
    model: net_tree::Model<'s>,
    hints: Hints<'s>,
}

impl<'s> Model for CheckedModel<'s> {
    ghost use Rattle.net_tree.specs.declared.declaration.Model.{Model};
    ghost use Rattle.net_tree.specs.contracts.declaration.Model.{the_row};
    ghost use mir.Syntax.{named};
    ghost use Rattle.std.specs.Prelude.{[]};

    ghost Value = { Model };

    // The code of the model's own type; any lifetime gives the same one.
    ghost coded = { (the_row (record { mir = named 0; lft = [] })).coded };

    ghost view = { λ n. n.model };
}

impl<'s> CheckedModel<'s> {
    pub(crate) fn new(model: net_tree::Model<'s>, hints: Hints<'s>) -> CheckedModel<'s>
        ensures { result ≡ model.entry }
    {
        CheckedModel { model, hints }
    }

    /// Returns the model alone.
    pub fn model(&self) -> &net_tree::Model<'s>
        ensures { result.now ≡ self.now }
    {
        &self.model
    }

    /// Returns what the check of names hands on to evaluation.
    pub fn hints(&self) -> &Hints<'s> {
        &self.hints
    }

    /// Returns the model and frees the rest.
    pub fn into_model(self) -> net_tree::Model<'s>
        ensures { result ≡ self.entry }
    {
        let CheckedModel {
            model,
            hints: _hints,
        } = self;
        model
    }
}
