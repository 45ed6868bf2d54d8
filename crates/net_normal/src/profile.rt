//! The two profiles for translating a network into a problem.

ghost use Rattle.std.specs.Prelude.{◌≡◌};
ghost use Rattle.net_normal.specs.Limits.{IsSized, value_limit};
ghost use Rattle.net_normal.specs.NormalForm.{offset_of, is_left_out};

use crate::instance::InstArc;

/// Which arcs of a network the problem contains, and by how much their flows are shifted.
#[derive(Clone, Copy)]
pub enum Profile {
    /// All arcs are present; a negative lower bound is shifted to 0.
    Plain,
    /// Each lower bound is shifted to 0; an arc with equal bounds is omitted.
    Lean,
}

impl Profile {
    /// Returns the difference between an arc's value in the assignment and its flow.
    pub(crate) fn offset(self, arc: &InstArc) -> i64
        ensures value { result ≡ offset_of self arc.now }
        ensures size { IsSized value_limit arc.now.lower → IsSized value_limit result }
    {
        match self {
            Profile::Plain => arc.lower.min(0),
            Profile::Lean => arc.lower,
        }
    }

    /// Returns whether the problem omits an arc of the network.
    pub(crate) fn leaves_out(self, arc: &InstArc) -> bool
        ensures { result ≡ is_left_out self arc.now }
    {
        match self {
            Profile::Plain => false,
            Profile::Lean => arc.lower == arc.upper,
        }
    }
}
