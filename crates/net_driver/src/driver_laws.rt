//! Theorems about inputs, networks, errors, names and calls. The functions are empty: their contracts
//! state theorems.

ghost use Rattle.std.specs.Prelude.{◌≡◌, ℕ, List, Option, Ok, ◌⊎◌, length};
ghost use Rattle.std.specs.List.{IsDistinct, flat_map};
ghost use Rattle.net_tree.specs.Tree.{Declaration};
ghost use Rattle.net_names.specs.Names.{IsWellNamed};
ghost use Rattle.net_model.specs.Meaning.{Means};
ghost use Rattle.net_model.specs.Reading.{Tokens};
ghost use Rattle.net_data.specs.declared.statement.Statement.{Statement};
ghost use Rattle.net_expr.specs.Worlds.{Name, World};
ghost use Rattle.net_inst.specs.AsWritten.{node_declared, arc_declared, nodes, arcs, AreDistinct};
ghost use Rattle.net_inst.specs.Instances.{Network};
ghost use Rattle.net_inst.specs.Laws.{same_name};
ghost use Rattle.net_model.specs.Models.{meant};
ghost use Rattle.net_driver.specs.Reading.{IsNetworkOf};
ghost use Rattle.net_base.specs.declared.diagnostic.Diagnostic.{Diagnostic};
ghost use Rattle.net_base.specs.Places.{IsSpanIn};
ghost use Rattle.net_driver.specs.FirstFaults.{IsFirstFault, IsLexed};
ghost use Rattle.net_driver.specs.Reporting.{text_of};
ghost use Rattle.net_driver.specs.Accepted.{AreAnswersAccepted, AreCompilationsReadBack};
ghost use Rattle.net_driver.specs.OneAnswer.{IsOneAnswer, IsSolvedAsCompiled, IsNoFaultCompiled};
ghost use Rattle.net_driver.specs.LineNames.{BuiltNamesAreExact, NamesAreExact};
ghost use Rattle.net_bind.specs.Binding as binding;
ghost use Rattle.net_base.specs.declared.diagnostic.Language.TheVariants as languages;
ghost use Rattle.net_driver.specs.PlanProofs.{PricedPlansAreProved, PricesProve};
ghost use Rattle.net_driver.specs.MeaningLaws.{CompilationsAreSound, SolutionsAreSound, AnswersSolveModels, CompiledProblemsRepresent};
ghost use Rattle.net_driver.specs.MeaningLaws.{NetworksAreUnique, MeantNetworksAreUnique, CutsAreMissed};
ghost use Rattle.net_driver.specs.NoNetwork.{TextFaultsAreFirst, ErrorsAreSound};

/// Theorem: a model without name errors declares no name of nodes twice, and no name of arcs.
pub fn names_are_declared_once()
    ensures nodes { (ds : List Declaration) → IsWellNamed ds → IsDistinct same_name (flat_map node_declared ds) }
    ensures arcs { (ds : List Declaration) → IsWellNamed ds → IsDistinct same_name (flat_map arc_declared ds) }
{}

/// Theorem: in the world of a model and its data no two nodes, and no two arcs, have the same name
/// and key; the same holds for files that have a network.
pub fn nodes_and_arcs_are_apart()
    ensures bound { (ds : List Declaration) (ss : List Statement) (w : World) → IsWellNamed ds → binding.world ds ss ≡ Ok w → AreDistinct (nodes w
        ds) (arcs w ds) }
    ensures read { (wanted : Option Name) (model_text data_text : List ℕ) (n : Network) (x : IsNetworkOf wanted model_text data_text n)
        → AreDistinct (nodes x.network.world x.declarations) (arcs x.network.world x.declarations) }
{}

/// Theorem: a model that is parsed from tokens has no name errors, and tokens of a model without
/// name errors are parsed as that model.
pub fn well_named()
    ensures value { (ts : Tokens) (ds : List Declaration) → meant ts ≡ Ok ds → IsWellNamed ds }
    ensures meant { (ts : Tokens) (ds : List Declaration) → Means ts ds → IsWellNamed ds → meant ts ≡ Ok ds }
{}

/// Theorem: no model with its data has both a network and an error.
pub fn read_or_rejected()
    ensures value { (wanted : Option Name) (model_text data_text : List ℕ) (n : Network) (diagnostic : Diagnostic)
        → IsNetworkOf wanted model_text data_text n → IsFirstFault wanted model_text data_text diagnostic → ⊥ }
{}

/// Theorem: a first error with one of the codes of `says_no_network` shows that the two inputs mean
/// no network. An error that is found in the texts, before anything is evaluated, is the first error.
pub fn errors_are_sound()
    ensures first { TextFaultsAreFirst }
    ensures value { ErrorsAreSound }
{}

/// Theorem: the span of the first error is within its file.
pub fn first_error_is_in_its_file()
    ensures value { (wanted : Option Name) (model_text data_text : List ℕ) (diagnostic : Diagnostic)
        → IsFirstFault wanted model_text data_text diagnostic → IsSpanIn (length (text_of model_text data_text diagnostic.text)) diagnostic.at }
{}

/// Theorem: a model with its data has at most one first error (kind, file, span and detail), and at
/// most one network.
pub fn one_first_fault()
    ensures fault { (wanted : Option Name) (model_text data_text : List ℕ) (diagnostic found : Diagnostic)
        → IsFirstFault wanted model_text data_text diagnostic → IsFirstFault wanted model_text data_text found → diagnostic ≡ found }
    ensures network { (wanted : Option Name) (model_text data_text : List ℕ) (n m : Network)
        → IsNetworkOf wanted model_text data_text n → IsNetworkOf wanted model_text data_text m → n ≡ m }
{}

/// Theorem: two texts have a network or a first error. `first_error` of net_lex decides of each text
/// whether it has tokens, which is all that this needs.
pub fn one_of_network_and_error()
    ensures value { (wanted : Option Name) (model_text data_text : List ℕ) → IsLexed languages.Model model_text → IsLexed languages.Data data_text
        → ((n : Network) × IsNetworkOf wanted model_text data_text n) ⊎ ((diagnostic : Diagnostic) × IsFirstFault wanted model_text data_text diagnostic) }
{}

/// Theorem: `check_bytes` accepts the certificates of `solve_min`; it rejects neither file unless
/// memory runs out.
pub fn answers_are_accepted()
    ensures value { AreAnswersAccepted }
{}

/// Theorem: `compile` returns equal results for equal inputs; `solve_model` solves the problem that
/// `compile` prints; and no inputs are both compiled and rejected.
pub fn texts_have_one_answer()
    ensures compiled { IsOneAnswer }
    ensures solved { IsSolvedAsCompiled }
    ensures rejected { IsNoFaultCompiled }
{}

/// Theorem: in a line of the name map, each name of a node or an arc is the declared name with its
/// key, byte for byte: no declared name, and no text of a key, contains a line ending.
pub fn line_names_are_exact()
    ensures names { NamesAreExact }
    ensures built { BuiltNamesAreExact }
{}

/// Theorem: the declarations of a model have at most one network in a world.
pub fn models_have_one_network()
    ensures value { NetworksAreUnique }
{}

/// Theorem: a model with its data means at most one network, and has it in one world: each set has
/// one list of members, and each parameter one value at each key.
pub fn inputs_mean_one_network()
    ensures value { MeantNetworksAreUnique }
{}

/// Theorem: the problem of a compiled model represents the network that the model means in the
/// world of its data. It has the network's nodes and arcs, its feasible flows correspond one to one
/// to the feasible assignments, and the cost of a flow gives the value of its assignment.
pub fn compiled_problems_represent_models()
    ensures value { CompiledProblemsRepresent }
{}

/// Theorem: the plan of a solved model is feasible in the network that the model means in the world
/// of its data, and no feasible assignment has a better value; if the outcome is a cut, no
/// assignment is feasible.
pub fn answers_solve_models()
    ensures value { AnswersSolveModels }
{}

/// Theorem: a compiled model that satisfies the main theorem is that of the network that the two
/// inputs mean: the problem represents this network, and the text contains the problem.
pub fn compilations_are_sound()
    ensures value { CompilationsAreSound }
{}

/// Theorem: a solved model that satisfies the main theorem is that of the network that the two
/// inputs mean: a displayed plan is optimal in it, and with a cut no assignment is feasible.
pub fn solutions_are_sound()
    ensures value { SolutionsAreSound }
{}

/// Theorem: prices prove a plan. If the reduced costs of its arcs and the prices of its nodes say
/// which arcs are at a bound and which nodes at a side of their condition, no feasible assignment
/// has a better value. No two nodes have the same name and key.
pub fn prices_prove_plans()
    ensures value { PricesProve }
{}

/// Theorem: the prices that a run prints after a plan prove it, in the network that the two inputs
/// mean.
pub fn printed_prices_prove_plans()
    ensures value { PricedPlansAreProved }
{}

/// Theorem: whatever the flows within the bounds, they miss the conditions of the nodes of a cut, by
/// at least the difference of the cut's two numbers.
pub fn cuts_are_missed()
    ensures value { CutsAreMissed }
{}

/// Theorem: `solve_min` reads the text of a compiled model as the model's problem, and its answer is
/// a certificate of this problem. If the text is at most 64 MiB long, it is rejected only if memory
/// runs out.
pub fn compilations_are_read_back()
    ensures value { AreCompilationsReadBack }
{}
