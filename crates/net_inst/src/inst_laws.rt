//! Theorems about networks. The functions are empty: their contracts state theorems.

ghost use Rattle.std.specs.Prelude.{ℕ, List, Option};
ghost use Rattle.net_base.specs.Places.{Finds, IsInFiles, IsSpanIn};
ghost use Rattle.net_tree.specs.Standing.{ModelHasSpans};
ghost use Rattle.net_tree.specs.Tree.{Declaration};
ghost use Rattle.net_expr.specs.Worlds.{Name, World};
ghost use Rattle.net_inst.specs.Instances.{network};
ghost use Rattle.net_inst.specs.ByName.{CorrespondAsWritten};
ghost use Rattle.net_inst.specs.Laws as laws;
ghost use Rattle.net_inst.specs.Represented.{ProblemsRepresent};
ghost use Rattle.net_inst.specs.Soundness.{AssignmentsAreSound, NetworksAreSound};

/// Theorem: the choice of the objective does not change the nodes, ranges, arcs, bounds and ends of
/// a model's network.
pub fn network_without_objective_is_one()
    ensures value { laws.AreOneNetwork }
{}

/// Theorem: a node's range contains a number if and only if its condition as written is true for it
/// as the net inflow.
pub fn ranges_are_conditions()
    ensures value { laws.HaveExactRanges }
{}

/// Theorem: the names and keys of nodes and arcs are those that the model declares, in order.
pub fn names_are_declared()
    ensures value { laws.HaveNames }
{}

/// Theorem: an arc's bounds are the values of the bounds as written. If no two nodes have the same
/// name and key, the numbers of its ends are the indices of the nodes that are named.
pub fn arcs_are_written()
    ensures bounds { laws.HaveBounds }
    ensures ends { laws.HaveEnds }
{}

/// Theorem: the objective is the chosen one, and the constant plus the sum of coefficient times
/// value is its value at every assignment.
pub fn objective_is_written()
    ensures value { laws.HaveObjective }
{}

/// Theorem: if no two nodes, and no two arcs, have the same name and key, an assignment of names
/// and keys is feasible if and only if its values in arc order are feasible, and each list with one
/// number for each arc comes from an assignment.
pub fn assignments_are_alike()
    ensures feasible { laws.HaveFeasible }
    ensures each { laws.HaveAssignments }
{}

/// Theorem: a problem whose feasible flows correspond one to one to the feasible assignments of a
/// network has flows that correspond one to one to the feasible assignments of names and keys of
/// the model as written, with the values of the chosen objective.
pub fn flows_stand_for_assignments()
    ensures value { CorrespondAsWritten }
{}

/// Theorem: if no name of nodes or of arcs is declared twice, and no declaration has a key twice,
/// no two nodes and no two arcs have the same name and key. In a world whose declared sets are
/// sets, no declaration has a key twice.
pub fn names_declared_once_are_apart()
    ensures value { laws.AreDistinctAsDeclared }
    ensures sets { laws.AreDistinctInSets }
{}

/// Theorem: if the spans of all parts of the declarations are in a text of this size, so is that of
/// the first error of their network.
pub fn errors_are_in_model()
    ensures value { (size : ℕ) (wanted : Option Name) (w : World) (ds : List Declaration) → ModelHasSpans (IsSpanIn size) ds
        → Finds (IsInFiles size 0) (network wanted w ds) }
{}

/// Theorem: if the code computes a network, it is the network that the model means. The model has
/// one eligible objective, and its nodes and arcs in order, with every bound, end and coefficient
/// evaluated; each end is at a node, and labels are unique. The network has their labels, ends,
/// bounds and objective. The declared sets have to be sets, no name is declared twice, and each
/// `obj` phrase names an objective declared before it.
pub fn networks_are_sound()
    ensures value { NetworksAreSound }
{}

/// Theorem: if the declarations are also well-formed, an assignment of flows to the arcs of the model
/// is feasible if and only if the bounds and ranges of the network say so, and it has one value,
/// which the constant and the coefficients of the network give.
pub fn assignments_are_sound()
    ensures value { AssignmentsAreSound }
{}

/// Theorem: the normal form and the lean form of a network represent the network of the model. They
/// have its nodes and arcs, their feasible flows correspond one to one to its feasible assignments,
/// and the cost of a flow gives the value of its assignment.
pub fn problems_represent_networks()
    ensures value { ProblemsRepresent }
{}
