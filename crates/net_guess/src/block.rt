//! The number of arcs that a network simplex prices in one block.

/// The maximum of the square root of the number of arcs.
const ROOT_LIMIT: usize = 999;

/// The minimum length, in hundredths of that root.
const LEAST: usize = 40;

/// The initial length, if some nodes have arcs both in and out.
const FIRST: usize = 150;

/// The maximum length, if some nodes have arcs both in and out.
const GREATEST: usize = 200;

/// The initial and the maximum length, if no node has arcs both in and out.
const BIPARTITE: usize = 200;

/// The increment of the length if the first block has an eligible arc, and the decrement if a block
/// has none.
const GROWTH: usize = 1;

const LOSS: usize = 12;

const CHEAP_LOSS: usize = 2;

/// The length of a block, which adapts: if nearly every block has an eligible arc, longer blocks
/// find better arcs; if many have none, shorter blocks waste less pricing.
#[derive(Clone, Copy)]
pub struct Block {
    /// The square root of the number of arcs.
    root: usize,
    /// The length in hundredths of that, and its maximum.
    share: usize,
    greatest: usize,
    /// About 64 times the average number of nodes whose potentials a pivot changes.
    moved: u64,
}

impl Block {
    /// Creates a block of the initial length, from the number of arcs and whether each leads from a
    /// source to a sink.
    pub fn new(arc_count: usize, is_bipartite: bool) -> Block {
        let (share, greatest) = if is_bipartite {
            (BIPARTITE, BIPARTITE)
        } else {
            (FIRST, GREATEST)
        };
        Block {
            root: arc_count.isqrt().min(ROOT_LIMIT),
            share,
            greatest,
            moved: 0,
        }
    }

    /// Updates the length after a pivot that changed this many potentials and a search that priced
    /// this many arcs: if pivots are much cheaper than searches, shorter blocks save more pricing
    /// than they cost in pivots.
    pub fn take_move(&mut self, nodes: u32, looks: u64) {
        self.moved = (self.moved - self.moved / 64).wrapping_add(u64::from(nodes));
        if self.moved < looks {
            self.share = self.share.saturating_sub(CHEAP_LOSS).max(LEAST);
        }
    }

    /// Returns the number of arcs in a block.
    pub fn length(&self) -> usize {
        (self.root.saturating_mul(self.share) / 100).max(10)
    }

    /// Updates the length after a search that found an arc in its first block.
    pub fn grow(&mut self) {
        self.share = self.share.saturating_add(GROWTH).min(self.greatest);
    }

    /// Updates the length after a block without an eligible arc.
    pub fn shrink(&mut self) {
        self.share = self.share.saturating_sub(LOSS).max(LEAST);
    }
}
