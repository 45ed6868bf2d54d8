//! Theorems about worlds. The functions are empty: their contracts state theorems.

ghost use Rattle.std.specs.Prelude.{◌≡◌, ℕ, List, [], Ok};
ghost use Rattle.net_data.specs.declared.statement.Statement.{Statement};
ghost use Rattle.net_data.specs.Standing.{StatementsHaveSpans};
ghost use Rattle.net_base.specs.Places.{Finds, IsInFiles, IsSpanIn};
ghost use Rattle.net_tree.specs.Standing.{DeclarationsHaveSpans};
ghost use Rattle.net_expr.specs.SetValues.{HasSets};
ghost use Rattle.net_expr.specs.Worlds.{World};
ghost use Rattle.net_tree.specs.Tree.{Declaration};
ghost use Rattle.net_names.specs.Names.{IsWellNamed};
ghost use Rattle.net_bind.specs.Binding as binding;
ghost use Rattle.net_bind.specs.Binding.{AreNew};
ghost use Rattle.net_bind.specs.DataRows as rows;
ghost use Rattle.net_bind.specs.ParameterValues.{HasParameters, AreValued};
ghost use Rattle.net_bind.specs.Soundness.{RestrictionsAreSound, ParametersAreSound, ChecksAreSound, WorldsAreSound};

/// Theorem: a model without name errors declares no set or parameter twice.
pub fn well_named_are_new()
    ensures value { (ds : List Declaration) → IsWellNamed ds → AreNew [] ds }
{}

/// Theorem: in the world of a model and its data, the tuples of each declared set are distinct and
/// have its dimension.
pub fn bound_worlds_have_sets()
    ensures value { (ds : List Declaration) (ss : List Statement) (w : World) → binding.world ds ss ≡ Ok w → HasSets w }
{}

/// Theorem: in the world of a model and its data, each declared parameter has values only at keys
/// of its index set, at most one at each.
pub fn bound_worlds_have_parameters()
    ensures value { (ds : List Declaration) (ss : List Statement) (w : World) → binding.world ds ss ≡ Ok w → HasParameters w }
{}

/// Theorem: statements are processed row by row. The values of a parameter and the members of a set
/// are the rows of the data statements, for the number of keys or the dimension.
pub fn statements_are_taken_by_rows()
    ensures lists { rows.TakesLists }
    ensures tables { rows.TakesTables }
    ensures columns { rows.TakesColumns }
    ensures members { rows.TakesMembers }
    ensures keys { rows.TakesKeys }
{}

/// Theorem: the value of a parameter at each key is that of the data's row with this key; without
/// such a row, the value of `:=`, else the data's default, else the value of `default`; without any
/// of these, none.
pub fn rows_come_before_sources()
    ensures value { AreValued }
{}

/// Theorem: if the spans of all declarations and of all data statements are in texts of these
/// sizes, so is that of an error of binding, in its text.
pub fn errors_are_in_model_or_data()
    ensures value { (model_size data_size : ℕ) (ds : List Declaration) (ss : List Statement) → DeclarationsHaveSpans (IsSpanIn model_size) ds
        → StatementsHaveSpans (IsSpanIn data_size) ss → Finds (IsInFiles model_size data_size) (binding.world ds ss) }
{}

/// Theorem: a value that the code accepts for a parameter satisfies each restriction of its
/// declaration.
pub fn restrictions_are_sound()
    ensures value { RestrictionsAreSound }
{}

/// Theorem: the entry of a parameter, from its declaration and its data, is the one that AMPL
/// defines.
pub fn parameters_are_sound()
    ensures value { ParametersAreSound }
{}

/// Theorem: the condition of a `check` that the code accepts is true at each of its keys.
pub fn checks_are_sound()
    ensures value { ChecksAreSound }
{}

/// Theorem: the world of a model and its data, as the code computes it, is the world that AMPL
/// defines.
pub fn worlds_are_sound()
    ensures value { WorldsAreSound }
{}
