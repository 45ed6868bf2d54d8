//! The limits of networks and problems, which the types guarantee.

ghost use Rattle.std.specs.Prelude.{◌≡◌, ℕ, ◌↔◌, pos, ◌≤ℤ◌, IsTrue};
ghost use Rattle.net_normal.specs.Limits.{IsSized};

/// The maximum number of nodes of a network.
pub const NODE_LIMIT: usize = 10_000;

/// The maximum number of arcs of a network.
pub const ARC_LIMIT: usize = 100_000;

/// The maximum absolute value of a bound, a coefficient or a constant of a network.
pub const VALUE_LIMIT: i64 = 1_000_000_000_000;

/// The maximum absolute value of a side of a node's range.
pub const RANGE_LIMIT: i64 = 2_000_000_000_000;

/// The maximum number of nodes of a problem.
pub const FLOW_NODE_LIMIT: usize = 20_000;

/// The maximum number of arcs of a problem.
pub const FLOW_ARC_LIMIT: usize = 200_000;

/// The maximum absolute value of LOW and CAP of an arc and of the supply of a node.
pub const FLOW_LIMIT: i64 = 1_000_000_000_000_000_000;

/// The maximum absolute value of an arc's cost.
pub const COST_LIMIT: i64 = 1_000_000_000_000;

/// Returns whether the absolute value of a number is at most `limit`.
pub(crate) fn is_sized(limit: i64, number: &i64) -> bool
    requires { pos 0 ≤ℤ limit }
    ensures { (n : ℕ) → limit ≡ pos n → (IsTrue result ↔ IsSized n number.now) }
{
    -limit <= *number && *number <= limit
}
