//! The values of expressions.

ghost use Rattle.std.specs.Prelude.{◌≡◌};
ghost use Rattle.net_expr.specs.Items.{set_in};
ghost use Rattle.net_tree.specs.Spans as trees;
ghost use Rattle.net_tree.specs.View.{tree};
ghost use Rattle.net_base.specs.Outcomes.{bare};
ghost use Rattle.net_base.specs.declared.diagnostic.Language.TheVariants.{Model as InModel};
ghost use Rattle.net_base.specs.declared.diagnostic.Fault.TheVariants.{At};

use net_base::{Boxed, ErrorCode, Fault};
use net_sets::{Cow, Member, Tuple};
use net_tree::{Expr, span_of};

/// The value of an expression. Each value takes as much memory as the largest kind, so tuples and
/// owned sets are in boxes. Its drop is one call, to keep the proofs of functions with many exits
/// small.
pub enum Value<'w, 's> {
    /// A number or a string.
    One(Member<'s>),
    /// A tuple: `(i, j)`.
    Several(Boxed<Tuple<'s>>),
    /// A set, and the number of components of its tuples; `None` for `{}`, which matches every
    /// number.
    Many(Option<u8>, Cow<'w, 's>),
    /// The truth value of a condition.
    Truth(bool),
}

impl<'w, 's> Drop for Value<'w, 's> {
    fn drop(self) {
        match self {
            Value::One(_member) => {}
            Value::Several(_tuple) => {}
            Value::Many(_dimension, _set) => {}
            Value::Truth(_truth) => {}
        }
    }
}

impl<'w, 's> Value<'w, 's> {
    /// Returns the value as a set, with the number of components of its tuples, or `None` if it is
    /// not a set.
    pub fn into_set(self) -> Option<(Option<u8>, Cow<'w, 's>)>
        ensures { result ≡ set_in self.entry }
    {
        match self {
            Value::Many(dimension, set) => Some((dimension, set)),
            Value::One(_member) => None,
            Value::Several(_tuple) => None,
            Value::Truth(_truth) => None,
        }
    }
}

/// Builds an error at the span of a tree. The span is computed only here, not when there is no
/// error.
pub fn reject_tree(error_code: ErrorCode, whole: &Expr<'_>) -> Fault
    ensures { result ≡ At (bare InModel error_code (trees.span_of (tree whole.now))) }
{
    Fault::of_model(error_code, span_of(whole))
}
