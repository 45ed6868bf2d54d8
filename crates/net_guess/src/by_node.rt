//! Items grouped by node.

use crate::unchecked_lists::{at, put};
use std::alloc::{AllocError, Global};
use std::ops::Range;

/// Items of nodes; those of a node are consecutive.
#[derive(Drop)]
pub struct ByNode<T> {
    /// The start of each node's items, and the end of the last.
    starts: Vec<u32>,
    pub items: Vec<T>,
}

impl<T: Copy> ByNode<T> {
    /// Creates lists for this many nodes and copies of an item, to be replaced: each item is first
    /// counted by `count`, and after `end_count` it is added by `put`. Fails only if memory runs out.
    pub fn with_room(
        alloc: Global,
        node_count: usize,
        item: T,
        item_count: usize,
    ) -> Result<ByNode<T>, AllocError> {
        let starts = vec![in alloc; 0u32; node_count.saturating_add(1)]?;
        let items = vec![in alloc; item; item_count]?;
        Ok(ByNode { starts, items })
    }

    /// Counts an item of a node.
    pub fn count(&mut self, node: u32) {
        let count = at(&self.starts, node, 0).wrapping_add(1);
        put(&mut self.starts, node, count);
    }

    /// Converts the counts to positions: each node's items end at the sum of its count and those
    /// before it.
    pub fn end_count(&mut self) {
        let mut end = 0u32;
        for count in &mut self.starts {
            end = end.wrapping_add(*count);
            *count = end;
        }
    }

    /// Adds an item at the last free position of a node.
    pub fn put(&mut self, node: u32, item: T) {
        let free = at(&self.starts, node, 0).wrapping_sub(1);
        put(&mut self.starts, node, free);
        put(&mut self.items, free, item);
    }

    /// Returns the positions of a node's items.
    #[inline]
    pub fn row(&self, node: u32) -> Range<u32> {
        at(&self.starts, node, 0)..at(&self.starts, node.wrapping_add(1), 0)
    }
}
