//! Finding a node that is a cut by itself: it supplies more than its arcs out can carry, or demands
//! more than its arcs in can carry.

use crate::guess::Cut;
use crate::unchecked_lists::{add_at, at, index, put};
use net_check::Side;
use net_normal::Problem;
use std::alloc::{AllocError, Global};

/// Returns the direction in which a node with this excess is a cut by itself, if it is one, given
/// the total capacity above the lower bounds of its arcs out, and of those in.
fn side_of(excess: i128, out: i128, into: i128) -> Option<Side> {
    if excess > out {
        Some(Side::Over)
    } else if excess.saturating_add(into) < 0 {
        Some(Side::Under)
    } else {
        None
    }
}

/// Returns the first node that is a cut by itself as a cut: its excess at the lower bounds is more
/// than its arcs out can carry, or its deficit more than its arcs in can. Loops carry nothing. Fails
/// only if memory runs out.
pub fn bottleneck(
    alloc: Global,
    problem: &Problem,
    excess: &[i128],
) -> Result<Option<Cut>, AllocError> {
    let count = problem.supplies.len();
    let mut out = vec![in alloc; 0i128; count]?;
    let mut into = vec![in alloc; 0i128; count]?;
    for arc in &problem.arcs {
        if arc.src != arc.dst {
            let room = i128::from(arc.cap).wrapping_sub(i128::from(arc.low));
            add_at(&mut out, arc.src, room);
            add_at(&mut into, arc.dst, room);
        }
    }
    for (place, excess) in excess.iter().enumerate() {
        let node = index(place);
        if let Some(side) = side_of(*excess, at(&out, node, 0), at(&into, node, 0)) {
            let mut flags = vec![in alloc; false; count]?;
            put(&mut flags, node, true);
            return Ok(Some(Cut { flags, side }));
        }
    }
    Ok(None)
}
