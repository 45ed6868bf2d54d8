//! Theorems about the rules for names.

ghost use Rattle.std.specs.Prelude.{◌≡◌, ◌++◌, ◌∷◌, ◌&&◌, ℕ, [], List, None, is_none, length, take, IfSome};
ghost use Rattle.net_base.specs.Places.{IsSpanIn};
ghost use Rattle.net_tree.specs.Standing.{DeclarationsHaveSpans};
ghost use Rattle.net_tree.specs.Tree.{Declaration};
ghost use Rattle.net_names.specs.Names.{declaration_fault, declared_by, names_fault, IsWellNamed};
ghost use Rattle.net_names.specs.Scopes.{Name, NameScope, meaning_in};

/// Theorem: if the names of a model have no error, each declaration has no error in the scope of
/// those before it, whatever follows.
pub fn well_named_each()
    ensures value { (done rest : List Declaration) (d : Declaration) → IsWellNamed (done ++ d ∷ rest) → declaration_fault (declared_by [] done) d ≡ None }
{}

/// Theorem: the names declared before a position are a prefix of all names of the model.
pub fn front_of_names()
    ensures value { (done rest : List Declaration) → take (length (declared_by [] done)) (declared_by [] (done ++ rest)) ≡ declared_by [] done }
{}

/// Theorem: a name is new if and only if it is neither declared nor a dummy in scope, so the two
/// can be stored separately.
pub fn new_dummy()
    ensures value { (name : Name) (declared dummies : NameScope) → is_none (meaning_in name (declared ++ dummies))
        ≡ (is_none (meaning_in name declared) && is_none (meaning_in name dummies)) }
{}

/// Theorem: if the spans of all parts of the declarations are in a text of this size, so is that of
/// the first name error.
pub fn name_errors_are_in_model()
    ensures value { (size : ℕ) (ds : List Declaration) → DeclarationsHaveSpans (IsSpanIn size) ds → IfSome (names_fault [] ds) (λ f. IsSpanIn size f.1.span) }
{}
