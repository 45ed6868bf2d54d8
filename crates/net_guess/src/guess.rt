//! A proposed answer to a problem.

ghost use Rattle.std.specs.Prelude.{◌≡◌};
ghost use Rattle.net_guess.specs.declared.guess.Halt.TheVariants as halts;

use net_check::Side;
use std::alloc::{AllocError, AllocFailed};

/// A set of nodes whose supply may be past what its arcs allow.
#[derive(Drop)]
pub struct Cut {
    /// For each node, whether it is in the set.
    pub flags: Vec<bool>,
    /// The direction in which the set's supply is infeasible.
    pub side: Side,
}

impl Cut {
    /// Returns the set, or its complement if it has more than half of the nodes but not all.
    pub fn with_few_nodes(self) -> Cut {
        let mut cut = self;
        let count = cut.flags.iter().filter(|flag| **flag).count();
        if count > cut.flags.len() / 2 && count < cut.flags.len() {
            for flag in &mut cut.flags {
                *flag = !*flag;
            }
            cut.side = match cut.side {
                Side::Over => Side::Under,
                Side::Under => Side::Over,
            };
        }
        cut
    }
}

/// A proposed answer to a problem. It may be wrong in any way.
#[derive(Drop)]
pub enum Guess {
    /// A flow with potentials, from which the verified algorithm starts. Both are empty if the heuristics found nothing.
    Flow {
        /// The flow of each arc.
        flows: Vec<i64>,
        /// The potential of each node.
        potentials: Vec<i64>,
    },
    /// A reason why no flow is feasible.
    Cut(Cut),
}

/// What a proposal took, in work units: the nodes and arcs that were inspected.
#[derive(Clone, Copy)]
pub struct Work {
    /// Arcs that the network simplex priced, and nodes below the arcs that left its tree.
    pub simplex: u64,
    /// Nodes and arcs that the preflows inspected.
    pub preflow: u64,
    /// Whether a heuristic came to its end: with a cut, or with a flow and potentials that it cannot improve.
    pub is_done: bool,
}

impl Work {
    /// No work.
    pub const NONE: Work = Work {
        simplex: 0,
        preflow: 0,
        is_done: false,
    };
}

/// Why a heuristic stops without a result.
#[derive(Clone, Copy)]
pub enum Halt {
    /// Allocation failed.
    OutOfMemory,
    /// A number would leave its range.
    OutOfRange,
}

impl From<AllocError> for Halt {
    ghost from_gives = { λ _ halt. halt ≡ halts.OutOfMemory };

    fn from(_fault: AllocError) -> Halt {
        Halt::OutOfMemory
    }
}

impl<T: Drop> From<AllocFailed<T>> for Halt {
    ghost from_gives = { λ _ halt. halt ≡ halts.OutOfMemory };

    fn from(_fault: AllocFailed<T>) -> Halt {
        Halt::OutOfMemory
    }
}
