//! Laws about the definitions of this crate. The functions are empty: their contracts are theorems.

ghost use Rattle.net_meaning.specs.Laws.{EvaluationIsSound, EvaluationIsSoundWith, KeysAreSound, KeysAreUnique, ValuesAreUnique, WorldsAreUnique};
ghost use Rattle.net_meaning.specs.Laws.{TextsOfKeysPass, TextsOfLabelsPass, TextsOfValuesPass, TextsOfWorldsPass};

/// States that a value that the evaluator computes is the value of the expression.
pub fn evaluation_is_sound()
    ensures value { EvaluationIsSound }
    ensures keys { KeysAreSound }
    ensures among { EvaluationIsSoundWith }
{}

/// States that an expression has at most one value.
pub fn values_are_unique()
    ensures value { ValuesAreUnique }
    ensures keys { KeysAreUnique }
{}

/// States that a model with its data has at most one world.
pub fn worlds_are_unique()
    ensures value { WorldsAreUnique }
{}

/// States that the texts of values come from the names and strings of the model and the data.
pub fn texts_come_from_tokens()
    ensures values { TextsOfValuesPass }
    ensures keys { TextsOfKeysPass }
    ensures world { TextsOfWorldsPass }
    ensures labels { TextsOfLabelsPass }
{}
