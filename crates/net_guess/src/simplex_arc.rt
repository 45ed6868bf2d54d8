//! The arcs of a problem in the form used for pricing.

use crate::unchecked_lists::{index, put};
use net_normal::FlowArc;

/// An arc for pricing, in the direction in which its flow can change, with the cost of a unit. An
/// arc at CAP is reversed, so every arc with a negative reduced cost is eligible; an arc of the tree
/// has reduced cost 0 in both directions.
#[derive(Clone, Copy)]
pub struct ArcWithCost<N> {
    pub src: u32,
    pub dst: u32,
    pub cost: N,
}

/// An arc with its cost in 64 bits.
pub type PricedArc = ArcWithCost<i64>;

impl PricedArc {
    /// The value of a missing arc, which is never eligible.
    pub const NONE: PricedArc = PricedArc {
        src: 0,
        dst: 0,
        cost: 0,
    };

    /// Converts an arc at its lower bound.
    pub fn of(arc: &FlowArc) -> PricedArc {
        PricedArc {
            src: arc.src,
            dst: arc.dst,
            cost: arc.cost,
        }
    }

    /// Returns the arc at its other bound.
    pub fn turned(self) -> PricedArc {
        PricedArc {
            src: self.dst,
            dst: self.src,
            cost: self.cost.wrapping_neg(),
        }
    }

    /// Returns whether this is the arc at its lower bound.
    pub fn is_ahead(&self, arc: &FlowArc) -> bool {
        self.src == arc.src && self.dst == arc.dst && self.cost == arc.cost
    }
}

/// Arranges the indices of a problem's arcs in pricing order: the list, from its end, is divided
/// into about as many parts as a node has arcs, and one arc of each part is taken in turn, since
/// files often list all arcs out of one node together.
pub fn put_priced_order(numbers: &mut Vec<u32>, node_count: usize) {
    let count = numbers.len();
    let parts = (count / node_count.max(1)).max(3);
    let length = count / parts + 1;
    let mut taken = 0u32;
    for place in 0..length {
        let mut behind = place;
        for _ in 0..parts {
            if behind < count {
                put(numbers, taken, index(count - 1 - behind));
                taken = taken.wrapping_add(1);
            }
            behind = behind.saturating_add(length);
        }
    }
}
