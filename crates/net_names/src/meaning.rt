//! The meanings of names, and which of them each position needs.

ghost use Rattle.std.specs.Prelude.{◌≡◌};
ghost use Rattle.net_names.specs.Meanings as meanings;

use net_base::ErrorCode;

/// The meaning of a name.
#[derive(Clone, Copy)]
pub enum Meaning {
    Set,
    Param,
    Node,
    Arc,
    /// An objective without an expression, which is the sum of the `obj` phrases of arcs.
    Objective,
    /// An objective with an expression.
    StatedObjective,
    /// An index that an indexing expression declares.
    Dummy,
}

/// Which meanings a name can have at its position.
#[derive(Clone, Copy)]
pub enum Need {
    /// In an expression: a set, a parameter or a dummy.
    Value,
    /// In the expression of an objective: a set, a parameter, a dummy or an arc.
    Total,
    /// After `from` and `to`: a node.
    Node,
    /// After `obj`: an objective without an expression.
    Objective,
}

/// Returns the error of a name with this meaning, if any.
pub(crate) fn misfit(need: Need, meaning: Meaning) -> Option<ErrorCode>
    ensures { result ≡ meanings.misfit need meaning }
{
    match need {
        Need::Value => match meaning {
            Meaning::Set | Meaning::Param | Meaning::Dummy => None,
            _ => Some(ErrorCode::Undeclared),
        },
        Need::Total => match meaning {
            Meaning::Set | Meaning::Param | Meaning::Dummy | Meaning::Arc => None,
            _ => Some(ErrorCode::Undeclared),
        },
        Need::Node => match meaning {
            Meaning::Node => None,
            _ => Some(ErrorCode::Undeclared),
        },
        Need::Objective => match meaning {
            Meaning::Objective => None,
            Meaning::StatedObjective => Some(ErrorCode::LeftOut),
            _ => Some(ErrorCode::Undeclared),
        },
    }
}

/// Returns the need for the names in the subscripts of a name.
pub(crate) fn in_subscripts(need: Need) -> Need
    ensures { result ≡ meanings.in_subscripts need }
{
    match need {
        Need::Total => Need::Total,
        Need::Value | Need::Node | Need::Objective => Need::Value,
    }
}
